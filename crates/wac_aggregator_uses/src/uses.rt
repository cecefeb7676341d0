//! Uses of one name.

ghost use Rattle.std.specs.Prelude.{◌≡◌, [], ◌∷◌, Some, IfOk, MatchResult, string_bytes};
ghost use Rattle.wac_component.specs.Content.{use_content};
ghost use Rattle.wac_component.specs.Key.{Stands, AllStand, item_keys, type_keys, interface_key, world_key, named_keys, use_keys};
ghost use Rattle.wac_component.specs.declared.items.ItemKind.TheVariants.{«Type» as OfType};
ghost use Rattle.wac_aggregator_promises.specs.Reason.{used_interface as of_interfaces, used_name as of_name};
ghost use Rattle.wac_aggregator_uses.specs.Differ.{IsUsesRefusal, AreRefusedLists, IsRefusedUse};
ghost use Rattle.wac_aggregator_errors.specs.Said.{said};
ghost use Rattle.wac_aggregator_uses.specs.Uses.{AreOnOneTrack, AreOfOne, UsesAgree, EntriesAgree, ItemsAgree, use_list};

use indexmap::IndexMap;
use std::alloc::{AllocError, Global};
use wac_aggregator_errors::AggregateError;
use wac_component::{InterfaceId, ItemKind, Type, Types, UsedType, WorldId};
use wac_names::are_semver_compatible;

/// Refuses two interfaces, or two worlds, that use one name of interfaces on different tracks
/// (`UsedInterface`), or of other names there (`UsedName`); two items of other cases are let pass.
/// What stands in them isn't looked at.
pub fn check_uses_of(
    alloc: Global,
    types: &Types,
    existing: ItemKind,
    new: ItemKind,
) -> Result<(), AggregateError>
    requires existing { AllStand types.now (item_keys existing) }
    requires new { AllStand types.now (item_keys new) }
    ensures { MatchResult result (λ u. ItemsAgree types.now existing new) (IsUsesRefusal types.now (item_keys existing) (item_keys new)) }
{
    match (&existing, &new) {
        (ItemKind::Instance(a), ItemKind::Instance(b)) => check_interfaces(alloc, types, *a, *b),
        (ItemKind::Component(a), ItemKind::Component(b)) => check_worlds(alloc, types, *a, *b),
        (ItemKind::Type(a), ItemKind::Type(b)) => check_types(alloc, types, *a, *b),
        _ => Ok(()),
    }
}

// The same of two types.
fn check_types(
    alloc: Global,
    types: &Types,
    existing: Type,
    new: Type,
) -> Result<(), AggregateError>
    requires existing { AllStand types.now (type_keys existing) }
    requires new { AllStand types.now (type_keys new) }
    ensures { MatchResult result (λ u. ItemsAgree types.now (OfType existing) (OfType new)) (IsUsesRefusal types.now (type_keys existing) (type_keys new)) }
{
    match (&existing, &new) {
        (Type::Interface(a), Type::Interface(b)) => check_interfaces(alloc, types, *a, *b),
        (Type::World(a), Type::World(b)) => check_worlds(alloc, types, *a, *b),
        _ => Ok(()),
    }
}

// The same of two interfaces.
fn check_interfaces(
    alloc: Global,
    types: &Types,
    existing: InterfaceId,
    new: InterfaceId,
) -> Result<(), AggregateError>
    requires existing { Stands types.now (interface_key existing) }
    requires new { Stands types.now (interface_key new) }
    ensures { MatchResult result (λ u. EntriesAgree types.now (interface_key existing) (interface_key new)) (IsUsesRefusal types.now (interface_key existing ∷ []) (interface_key new ∷ [])) }
{
    check_uses(alloc, types, &types[existing].uses, &types[new].uses)
}

// The same of two worlds.
fn check_worlds(
    alloc: Global,
    types: &Types,
    existing: WorldId,
    new: WorldId,
) -> Result<(), AggregateError>
    requires existing { Stands types.now (world_key existing) }
    requires new { Stands types.now (world_key new) }
    ensures { MatchResult result (λ u. EntriesAgree types.now (world_key existing) (world_key new)) (IsUsesRefusal types.now (world_key existing ∷ []) (world_key new ∷ [])) }
{
    check_uses(alloc, types, &types[existing].uses, &types[new].uses)
}

/// Refuses uses of one name of interfaces on different tracks (`UsedInterface`), or of
/// other names there (`UsedName`); where none are, each use of the second map may stand
/// with that of its name in the first.
pub fn check_uses(
    alloc: Global,
    types: &Types,
    existing: &IndexMap<String, UsedType>,
    new: &IndexMap<String, UsedType>,
) -> Result<(), AggregateError>
    requires existing { AllStand types.now (named_keys use_keys (use_list existing.now)) }
    requires new { AllStand types.now (named_keys use_keys (use_list new.now)) }
    ensures { MatchResult result (λ u. UsesAgree types.now (use_list existing.now) (use_list new.now)) (AreRefusedLists types.now (use_list existing.now) (use_list new.now)) }
{
    for (name, used) in new {
        if let Some(other) = existing.get(name) {
            check_use(alloc, types, name, other, used)?;
        }
    }
    Ok(())
}

// Refuses two uses of one name that are of interfaces on different
// tracks, or of different names there.
fn check_use(
    alloc: Global,
    types: &Types,
    name: &String,
    existing: &UsedType,
    new: &UsedType,
) -> Result<(), AggregateError>
    requires existing { Stands types.now (interface_key existing.now.interface) }
    requires new { Stands types.now (interface_key new.now.interface) }
    ensures { MatchResult result (λ u. AreOfOne types.now (use_content existing.now) (use_content new.now)) (IsRefusedUse types.now (string_bytes name.now) existing.now new.now) }
{
    check_tracks(alloc, types, name, existing, new)?;
    if existing.name != new.name {
        return Err(used_name(name)?);
    }
    Ok(())
}

// Refuses two uses of one name that are of interfaces on different tracks.
fn check_tracks(
    alloc: Global,
    types: &Types,
    name: &String,
    existing: &UsedType,
    new: &UsedType,
) -> Result<(), AggregateError>
    requires existing { Stands types.now (interface_key existing.now.interface) }
    requires new { Stands types.now (interface_key new.now.interface) }
    ensures { MatchResult result (λ u. AreOnOneTrack types.now (use_content existing.now) (use_content new.now)) (IsRefusedUse types.now (string_bytes name.now) existing.now new.now) }
{
    let Some(expected) = &types[existing.interface].id else {
        return Ok(());
    };
    let Some(found) = &types[new.interface].id else {
        return Ok(());
    };
    if are_semver_compatible(alloc, expected.as_str(), found.as_str())? {
        return Ok(());
    }
    Err(used_interface(name, expected, found)?)
}

// The refusal of two uses of one name that are of interfaces on different tracks.
fn used_interface(
    name: &String,
    expected: &String,
    found: &String,
) -> Result<AggregateError, AllocError>
    ensures { IfOk result (λ e. said e ≡ Some (of_interfaces (string_bytes name.now) (string_bytes expected.now) (string_bytes found.now))) }
{
    Ok(AggregateError::UsedInterface {
        used: name.clone()?,
        expected: expected.clone()?,
        found: found.clone()?,
    })
}

// The refusal of two uses of one name that are of different names in their interface.
fn used_name(name: &String) -> Result<AggregateError, AllocError>
    ensures { IfOk result (λ e. said e ≡ Some (of_name (string_bytes name.now))) }
{
    let used = name.clone()?;
    Ok(AggregateError::UsedName { used })
}
