//! The interfaces from which a world uses types, which it imports without saying so.

ghost use Rattle.std.specs.Prelude.{◌≡◌, ◌<◌, Some, IfOk, IfErr, OnOk};
ghost use Rattle.std.specs.List.{flat_map, All};
ghost use Rattle.wac_component.specs.Content.{named, types_of, use_content, world_content};
ghost use Rattle.wac_component.specs.Key.{Stands, AllStand, interface_key, item_keys, use_keys, named_keys, world_keys};
ghost use Rattle.wac_component.specs.Implicit.{used_by, used_by_import, used_interfaces, HasIdentifier, implicit_imports, IsUntold, instances, AddsInstance};
ghost use Rattle.wac_component.specs.Visits.{VisitsEach};

use super::collection::Types;
use super::ids::InterfaceId;
use super::interfaces::UsedType;
use super::items::ItemKind;
use super::parts::value_at;
use super::worlds::World;
use indexmap::IndexMap;
use std::alloc::{AllocError, Global};
use std::{error, fmt};

/// Why the imports of a target world can't be told.
#[derive(Debug, Drop)]
pub enum TargetError {
    /// An interface that is used has no identifier.
    NoIdentifier {
        /// The interface.
        interface: InterfaceId,
    },
    /// An allocation failed.
    Memory,
}

impl From<AllocError> for TargetError {
    ghost use Rattle.std.specs.Prelude.{◌≡◌};
    ghost use Rattle.wac_component.specs.declared.implicit.TargetError.TheVariants.{Memory};

    ghost from_gives = { λ _ r. r ≡ Memory };

    fn from(_error: AllocError) -> TargetError {
        TargetError::Memory
    }
}

impl error::Error for TargetError {}

impl fmt::Display for TargetError {
    ghost use Rattle.std.specs.Prelude.{Some};
    ghost use Rattle.wac_component.specs.Implicit.{target_error_text};

    ghost output = { λ e. Some (target_error_text e) };

    fn fmt<W: fmt::Write>(&self, f: &mut fmt::Formatter<W>) -> fmt::Result {
        f.write_str(match self {
            TargetError::NoIdentifier { .. } => "used interface has no identifier",
            TargetError::Memory => "out of memory",
        })
    }
}

impl World {
    /// The interfaces that the world uses, as instances under their identifiers: those of its own
    /// uses, and then those that its imports use, where they are instances. An identifier that
    /// comes again keeps its place and takes the last interface.
    ///
    /// `NoIdentifier` comes exactly where one of them has no identifier, and `Memory` is a failed
    /// allocation.
    pub fn implicit_imported_interfaces<'a>(
        &'a self,
        alloc: Global,
        types: &'a Types,
    ) -> Result<IndexMap<&'a str, ItemKind>, TargetError>
        requires standing { AllStand types.now (world_keys (world_content self.now)) }
        ensures imports { IfOk result (λ m. instances m.entries ≡ implicit_imports types.now (world_content self.now)) }
        ensures standing { IfOk result (λ m. AllStand types.now (named_keys item_keys (instances m.entries))) }
        ensures identified { OnOk result (All (HasIdentifier types.now) (used_interfaces types.now (world_content self.now))) }
        ensures err { IfErr result (IsUntold types.now (used_interfaces types.now (world_content self.now))) }
    {
        let mut interfaces = IndexMap::new(alloc);
        add_used(&self.uses, types, &mut interfaces)?;
        add_used_by_imports(&self.imports, types, &mut interfaces)?;
        Ok(interfaces)
    }
}

// Adds the interfaces that imports use.
fn add_used_by_imports<'a>(
    imports: &IndexMap<String, ItemKind>,
    types: &'a Types,
    found: &mut IndexMap<&'a str, ItemKind>,
) -> Result<(), TargetError>
    requires standing { AllStand types.now (named_keys item_keys (named (λ k. k) imports.now.entries)) }
    requires items { AllStand types.now (named_keys item_keys (instances found.old.entries)) }
    ensures items { AllStand types.now (named_keys item_keys (instances found.new.entries)) }
    ensures adds { VisitsEach (AddsInstance types.now) (instances found.old.entries) (flat_map (used_by_import types.now) (types_of imports.now.entries)) result (instances found.new.entries) }
{
    for i in 0..imports.len() {
        add_used_by_import(*value_at(imports, i), types, found)?;
    }
    Ok(())
}

// Adds the interfaces that an import uses, if it is an instance.
fn add_used_by_import<'a>(
    import: ItemKind,
    types: &'a Types,
    interfaces: &mut IndexMap<&'a str, ItemKind>,
) -> Result<(), TargetError>
    requires standing { AllStand types.now (item_keys import) }
    requires items { AllStand types.now (named_keys item_keys (instances interfaces.old.entries)) }
    ensures items { AllStand types.now (named_keys item_keys (instances interfaces.new.entries)) }
    ensures adds { VisitsEach (AddsInstance types.now) (instances interfaces.old.entries) (used_by_import types.now import) result (instances interfaces.new.entries) }
{
    match import {
        ItemKind::Instance(id) => add_used(&types[id].uses, types, interfaces),
        _ => Ok(()),
    }
}

// Adds the interfaces of uses.
fn add_used<'a>(
    uses: &IndexMap<String, UsedType>,
    types: &'a Types,
    interfaces: &mut IndexMap<&'a str, ItemKind>,
) -> Result<(), TargetError>
    requires standing { AllStand types.now (named_keys use_keys (named use_content uses.now.entries)) }
    requires items { AllStand types.now (named_keys item_keys (instances interfaces.old.entries)) }
    ensures items { AllStand types.now (named_keys item_keys (instances interfaces.new.entries)) }
    ensures adds { VisitsEach (AddsInstance types.now) (instances interfaces.old.entries) (used_by (named use_content uses.now.entries)) result (instances interfaces.new.entries) }
{
    for i in 0..uses.len() {
        add_instance(value_at(uses, i).interface, types, interfaces)?;
    }
    Ok(())
}

// Adds an interface as an instance under its identifier.
fn add_instance<'a>(
    id: InterfaceId,
    types: &'a Types,
    interfaces: &mut IndexMap<&'a str, ItemKind>,
) -> Result<(), TargetError>
    requires standing { Stands types.now (interface_key id) }
    requires items { AllStand types.now (named_keys item_keys (instances interfaces.old.entries)) }
    ensures items { AllStand types.now (named_keys item_keys (instances interfaces.new.entries)) }
    ensures adds { AddsInstance types.now (instances interfaces.old.entries) id result (instances interfaces.new.entries) }
{
    let Some(name) = &types[id].id else {
        return Err(TargetError::NoIdentifier { interface: id });
    };
    match interfaces.insert(name.as_str(), ItemKind::Instance(id)) {
        Ok(_) => Ok(()),
        Err(_) => Err(TargetError::Memory),
    }
}
