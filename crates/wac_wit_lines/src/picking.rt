//! Copies an entry, and what it stands on, into a collection of its own.

use super::copies::EntryCopies;
use super::members::EntryMembers;
use indexmap::IndexSet;
use std::alloc::{AllocError, Global};
use wac_component::{DefinedType, FuncType, Interface, Resource, Type, Types, ValueType, World};
use wac_wit_entries::EntryError;

/// A collection of an entry and of what it stands on. `order` has all entries, each behind those
/// that it names.
pub(crate) fn picked(
    alloc: Global,
    types: &Types,
    order: &[Type],
    entry: Type,
) -> Result<Types, EntryError> {
    let wanted = wanted(alloc, types, order, entry)?;
    let mut own = Types::new(alloc, types.number());
    copy_all(alloc, types, order, &wanted, &mut own)?;
    Ok(own)
}

// Copies the entries that are wanted.
fn copy_all(
    alloc: Global,
    types: &Types,
    order: &[Type],
    wanted: &IndexSet<Type>,
    own: &mut Types,
) -> Result<(), EntryError> {
    let mut copies = EntryCopies::new(alloc);
    for entry in order {
        if wanted.contains(entry) {
            let copy = copy(types, &copies, own, entry)?;
            copies.note(*entry, copy)?;
        }
    }
    Ok(())
}

// An entry, and all that it stands on.
fn wanted(
    alloc: Global,
    types: &Types,
    order: &[Type],
    entry: Type,
) -> Result<IndexSet<Type>, AllocError> {
    let mut wanted = IndexSet::new(alloc);
    wanted.insert(entry)?;
    for entry in order.iter().rev() {
        push_members(alloc, types, entry, &mut wanted)?;
    }
    Ok(wanted)
}

// Puts last what a wanted entry names.
fn push_members(
    alloc: Global,
    types: &Types,
    entry: &Type,
    wanted: &mut IndexSet<Type>,
) -> Result<(), AllocError> {
    if !wanted.contains(entry) {
        return Ok(());
    }
    let members = EntryMembers::of(alloc, types, entry)?;
    for member in &members.all {
        wanted.insert(*member)?;
    }
    Ok(())
}

// Copies an entry into a collection. What it names is copied.
fn copy(
    types: &Types,
    copies: &EntryCopies,
    own: &mut Types,
    entry: &Type,
) -> Result<Type, EntryError> {
    if !types.contains(*entry) {
        return Err(EntryError::Missing);
    }
    match entry {
        Type::Value(ValueType::Defined(id)) => copy_defined(copies, own, &types[*id]),
        Type::Resource(id) => copy_resource(copies, own, &types[*id]),
        Type::Func(id) => copy_func(copies, own, &types[*id]),
        Type::Interface(id) => copy_interface(copies, own, &types[*id]),
        Type::World(id) => copy_world(copies, own, &types[*id]),
        // the reader makes no core modules
        Type::Value(_) | Type::Module(_) => Ok(*entry),
    }
}

fn copy_defined(
    copies: &EntryCopies,
    own: &mut Types,
    ty: &DefinedType,
) -> Result<Type, EntryError> {
    let content = copies.defined(ty)?;
    if !own.can_add_defined_type(&content) {
        return Err(EntryError::Missing);
    }
    let copy = own.add_defined_type(content)?;
    Ok(Type::Value(ValueType::Defined(copy)))
}

fn copy_resource(copies: &EntryCopies, own: &mut Types, of: &Resource) -> Result<Type, EntryError> {
    let content = copies.resource_of(of)?;
    if !own.can_add_resource(&content) {
        return Err(EntryError::Missing);
    }
    Ok(Type::Resource(own.add_resource(content)?))
}

fn copy_func(copies: &EntryCopies, own: &mut Types, of: &FuncType) -> Result<Type, EntryError> {
    let content = copies.func(of)?;
    if !own.can_add_func_type(&content) {
        return Err(EntryError::Missing);
    }
    Ok(Type::Func(own.add_func_type(content)?))
}

fn copy_interface(
    copies: &EntryCopies,
    own: &mut Types,
    of: &Interface,
) -> Result<Type, EntryError> {
    let content = copies.interface_of(of)?;
    if !own.can_add_interface(&content) {
        return Err(EntryError::Missing);
    }
    Ok(Type::Interface(own.add_interface(content)?))
}

fn copy_world(copies: &EntryCopies, own: &mut Types, of: &World) -> Result<Type, EntryError> {
    let content = copies.world_of(of)?;
    if !own.can_add_world(&content) {
        return Err(EntryError::Missing);
    }
    Ok(Type::World(own.add_world(content)?))
}
