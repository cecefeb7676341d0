//! The ids that entries name.

ghost use Rattle.std.specs.Prelude.{◌≡◌, ◌<◌, ◌++◌, Some, length, map, slice_get, OnOk, IfOk};
ghost use Rattle.std.specs.Option.{option_to_list};
ghost use Rattle.wac_component.specs.Key.{value_keys, type_keys, item_keys, named_keys};
ghost use Rattle.wac_component.specs.Content.{named};
ghost use Rattle.wac_component.specs.Naming.{key_of, Puts};
ghost use Rattle.wac_component.specs.Parts.{places, all_places, place_keys, places_keys};

use crate::parts::{AllParts, Parts, items_parts};
use crate::{
    DefinedTypeId, FuncTypeId, InterfaceId, ItemKind, ModuleTypeId, ResourceId, Type, ValueType,
    WorldId,
};
use indexmap::{IndexMap, IndexSet};
use std::alloc::{AllocError, Global};

/// The id of an entry of any sort.
#[derive(Clone, Copy, PartialEq, Eq, Hash)]
pub enum EntryId {
    /// A defined type.
    Defined(DefinedTypeId),
    /// A resource.
    Resource(ResourceId),
    /// A function type.
    Func(FuncTypeId),
    /// An interface.
    Interface(InterfaceId),
    /// A world.
    World(WorldId),
    /// A core module type.
    Module(ModuleTypeId),
}

// The id in a value type; a primitive type has none.
fn value_id(ty: ValueType) -> Option<EntryId>
    ensures { map key_of (option_to_list result) ≡ value_keys ty }
{
    match ty {
        ValueType::Primitive(_) => None,
        ValueType::Borrow(id) | ValueType::Own(id) => Some(EntryId::Resource(id)),
        ValueType::Defined(id) => Some(EntryId::Defined(id)),
    }
}

// The id in a type; a primitive type has none.
fn type_id(ty: Type) -> Option<EntryId>
    ensures { map key_of (option_to_list result) ≡ type_keys ty }
{
    match ty {
        Type::Resource(id) => Some(EntryId::Resource(id)),
        Type::Func(id) => Some(EntryId::Func(id)),
        Type::Value(ty) => value_id(ty),
        Type::Interface(id) => Some(EntryId::Interface(id)),
        Type::World(id) => Some(EntryId::World(id)),
        Type::Module(id) => Some(EntryId::Module(id)),
    }
}

// The id in an item, if there is an item and it has one.
pub(crate) fn place_id(place: Option<ItemKind>) -> Option<EntryId>
    ensures { map key_of (option_to_list result) ≡ place_keys place }
{
    match place {
        Some(item) => type_id(item.ty()),
        None => None,
    }
}

// Puts an id last, if there is one.
fn push_id(ids: &mut Vec<EntryId>, id: Option<EntryId>) -> Result<(), AllocError>
    ensures { OnOk result (map key_of ids.new.items ≡ map key_of ids.old.items ++ map key_of (option_to_list id)) }
{
    if let Some(id) = id {
        ids.push(id)?;
    }
    Ok(())
}

// Puts the ids in a list of items last.
fn push_parts(ids: &mut Vec<EntryId>, parts: &Parts<'_>) -> Result<(), AllocError>
    ensures { OnOk result (map key_of ids.new.items ≡ map key_of ids.old.items ++ places_keys (places parts.now)) }
{
    for i in 0..parts.len() {
        push_id(ids, place_id(parts.get(i)))?;
    }
    Ok(())
}

// The ids in what is listed.
pub(crate) fn named_ids(alloc: Global, all: &AllParts<'_>) -> Result<Vec<EntryId>, AllocError>
    ensures { IfOk result (λ ids. map key_of ids.items ≡ places_keys (all_places all.now)) }
{
    let mut ids = Vec::new(alloc);
    push_parts(&mut ids, &all.0)?;
    push_parts(&mut ids, &all.1)?;
    push_parts(&mut ids, &all.2)?;
    Ok(ids)
}

/// The ids in items under names, in order.
pub fn items_ids(
    alloc: Global,
    items: &IndexMap<String, ItemKind>,
) -> Result<Vec<EntryId>, AllocError>
    ensures { IfOk result (λ ids. map key_of ids.items ≡ named_keys item_keys (named (λ k. k) items.now.entries)) }
{
    named_ids(alloc, &items_parts(items))
}

/// Puts those ids last that aren't there.
pub fn put_ids(reached: &mut IndexSet<EntryId>, ids: &[EntryId]) -> Result<(), AllocError>
    ensures { OnOk result (Puts (map key_of ids.now) (map key_of reached.old.keys) (map key_of reached.new.keys)) }
{
    for id in ids {
        reached.insert(*id)?;
    }
    Ok(())
}

/// The id at a place.
pub fn id_at(ids: &IndexSet<EntryId>, index: usize) -> EntryId
    requires { index < length ids.now.keys }
    ensures { slice_get ids.now.keys index ≡ Some result }
{
    *ids.get_index(index).unwrap()
}
