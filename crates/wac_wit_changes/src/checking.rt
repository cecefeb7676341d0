//! Asks the library, of items that may not stand.

ghost use Rattle.std.specs.Prelude.{◌↔◌, IfOk, IsNone, IsSome, IsTrue, OnOk};
ghost use Rattle.wac_component.specs.Content.{named, world_content};
ghost use Rattle.wac_component.specs.Implicit.{instances};
ghost use Rattle.wac_component.specs.Key.{AllStand, world_keys};
ghost use Rattle.wac_component.specs.Tree.{item_tree};
ghost use Rattle.wac_types.specs.Order.{Fits};
ghost use Rattle.wac_types.specs.Pairs.{HasDistinctTexts, value_at};
ghost use Rattle.wac_types.specs.Report.{IsAnswer, world_content_of};
ghost use Rattle.wac_types.specs.Text.{Text};
ghost use Rattle.wac_wit_changes.specs.Worlds.{ImportsAllUsed, IsStandingWorld, RunsIn, TreeRunsIn};

use indexmap::IndexMap;
use std::alloc::Global;
use std::collections::HashSet;
use wac_component::{ItemKind, TargetError, Type, Types, World, WorldId};
use wac_types::{SubtypeChecker, SubtypeError, TargetValidationResult, validate_target};
use wac_wit_entries::EntryError;

/// Why an item doesn't fit where another one of its collection is asked for; nothing where it does.
pub(crate) fn misfit(
    alloc: Global,
    types: &Types,
    given: &ItemKind,
    wanted: &ItemKind,
) -> Result<Option<SubtypeError>, EntryError>
    ensures { IfOk result (λ o. IsNone o ↔ Fits (item_tree types.now given.now) (item_tree types.now wanted.now)) }
{
    if !types.contains_item(*given) || !types.contains_item(*wanted) {
        return Err(EntryError::Missing);
    }
    let mut cache = HashSet::new(alloc);
    match SubtypeChecker::new(&mut cache).is_subtype(alloc, *given, types, *wanted, types) {
        Ok(()) => Ok(None),
        Err(SubtypeError::Memory) => Err(EntryError::Memory),
        Err(error) => Ok(Some(error)),
    }
}

/// Whether a component that imports and exports all of a world runs where another one of its
/// collection is the target.
pub(crate) fn fits_target(
    alloc: Global,
    types: &Types,
    component: WorldId,
    target: WorldId,
) -> Result<TargetValidationResult, EntryError>
    ensures { IfOk result (IsAnswer types.now (world_content_of types.now target) (world_content_of types.now component)) }
{
    if !types.contains(Type::World(component)) || !types.contains(Type::World(target)) {
        return Err(EntryError::Missing);
    }
    match validate_target(alloc, types, target, component) {
        Ok(answer) => Ok(answer),
        Err(TargetError::Memory) => Err(EntryError::Memory),
        Err(TargetError::NoIdentifier { interface: _ }) => Err(EntryError::NoIdentifier),
    }
}

/// Refuses a target that doesn't import each interface that it uses: so components of a world run
/// in it as the trees of both say. No world that was read has been seen to be refused.
pub(crate) fn check_imports_used(
    alloc: Global,
    types: &Types,
    component: WorldId,
    target: WorldId,
) -> Result<(), EntryError>
    ensures { OnOk result (RunsIn types.now component target ↔ TreeRunsIn (item_tree types.now (ItemKind.Component component)) (item_tree types.now (ItemKind.Component target))) }
{
    standing_world(types, component)?;
    let to = standing_world(types, target)?;
    if !imports_all_used(alloc, types, to)? {
        return Err(EntryError::Missing);
    }
    Ok(())
}

// A world, which has to stand in the collection.
fn standing_world(types: &Types, id: WorldId) -> Result<&World, EntryError>
    ensures is { IfOk result (λ w. IsStandingWorld types.now id (world_content w.now)) }
    ensures standing { IfOk result (λ w. AllStand types.now (world_keys (world_content w.now))) }
{
    if !types.contains(Type::World(id)) {
        return Err(EntryError::Missing);
    }
    Ok(&types[id])
}

// Whether a world imports each interface that it uses.
fn imports_all_used(alloc: Global, types: &Types, world: &World) -> Result<bool, EntryError>
    requires { AllStand types.now (world_keys (world_content world.now)) }
    ensures used { IfOk result (λ is. IsTrue is → ImportsAllUsed types.now (world_content world.now)) }
    ensures distinct { OnOk result (HasDistinctTexts (world_content world.now).imports) }
{
    match world.implicit_imported_interfaces(alloc, types) {
        Ok(used) => Ok(has_each(&world.imports, &used)),
        Err(TargetError::Memory) => Err(EntryError::Memory),
        Err(TargetError::NoIdentifier { interface: _ }) => Err(EntryError::NoIdentifier),
    }
}

// Whether items have each of these names.
fn has_each(items: &IndexMap<String, ItemKind>, names: &IndexMap<&str, ItemKind>) -> bool
    ensures each { IsTrue result → (name : Text) → IsSome (value_at (instances names.now.entries) name) → IsSome (value_at (named (λ k. k) items.now.entries) name) }
    ensures distinct { HasDistinctTexts (named (λ k. k) items.now.entries) }
{
    // A name stands once in a map.
    let _ = items.len();
    for (name, _) in names {
        let Some(_) = items.get(*name) else {
            return false;
        };
    }
    true
}
