//! Finds interfaces and worlds by their names.

use super::failure::Failure;
use super::input::Input;
use std::alloc::Global;
use wac_component::{InterfaceId, Types, WorldId};
use wac_wit::Wit;
use wac_wit_entries::{interface, parts_of, world};

/// An interface or a world.
#[derive(Clone, Copy)]
pub(crate) enum FoundItem {
    Interface(InterfaceId),
    World(WorldId),
}

// Whether an identifier is this name, or is it but for a version that the name leaves out.
fn is_named(id: &Option<String>, name: &str) -> bool {
    let Some(id) = id else {
        return false;
    };
    if id.as_str() == name {
        return true;
    }
    match (parts_of(id), parts_of(name)) {
        (Some(known), Some(said)) => {
            said.version.is_none() && known.package == said.package && known.name == said.name
        }
        _ => false,
    }
}

/// The interface or the world of this name in the package itself, or of this identifier in any.
pub(crate) fn find(types: &Types, wit: &Wit, name: &str) -> Option<FoundItem> {
    for package in &wit.packages {
        if package.group == 0 {
            if let Some(id) = package.interfaces.get(name) {
                return Some(FoundItem::Interface(*id));
            }
            if let Some(id) = package.worlds.get(name) {
                return Some(FoundItem::World(*id));
            }
        }
    }
    find_by_id(types, wit, name)
}

// The interface or the world of this identifier.
fn find_by_id(types: &Types, wit: &Wit, name: &str) -> Option<FoundItem> {
    for package in &wit.packages {
        for id in package.interfaces.values() {
            if is_named(&interface(types, *id)?.id, name) {
                return Some(FoundItem::Interface(*id));
            }
        }
        for id in package.worlds.values() {
            if is_named(&world(types, *id)?.id, name) {
                return Some(FoundItem::World(*id));
            }
        }
    }
    None
}

/// The world of this name in the package itself, or of this identifier in any.
pub(crate) fn find_world(
    alloc: Global,
    types: &Types,
    input: &Input,
    name: &str,
) -> Result<WorldId, Failure> {
    let path = input.path.as_str();
    match &find(types, &input.wit, name) {
        Some(FoundItem::World(id)) => Ok(*id),
        Some(FoundItem::Interface(_)) => {
            let line = format!(in alloc; "{path}: `{name}` is an interface, not a world");
            Err(Failure::refused(line))
        }
        None => {
            let line = format!(in alloc; "{path}: there is no world `{name}`");
            Err(Failure::refused(line))
        }
    }
}

/// The refusal of a name that is none of an interface or a world.
pub(crate) fn not_there(alloc: Global, input: &Input, name: &str) -> Failure {
    let path = input.path.as_str();
    Failure::refused(format!(in alloc; "{path}: there is no interface or world `{name}`"))
}
