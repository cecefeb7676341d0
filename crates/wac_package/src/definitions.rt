//! The interfaces and worlds that a component defines.

ghost use Rattle.std.specs.Prelude.{◌≡◌, ◌<◌, Some, IfOk, length, slice_get};
ghost use Rattle.wac_component.specs.Content.{named};
ghost use Rattle.wac_component.specs.Key.{AllStand, item_keys, named_keys};
ghost use Rattle.wac_package.specs.Definitions.{AreDefinitions, IsDefinition, defined_type};

use crate::interface_names::is_interface_name;
use indexmap::IndexMap;
use std::alloc::{AllocError, Global};
use wac_component::{ItemKind, Type, Types};

/// The definitions among the exports of a world, in order. `Err` is a failed allocation.
pub(crate) fn find_definitions(
    alloc: Global,
    types: &Types,
    exports: &IndexMap<String, ItemKind>,
) -> Result<IndexMap<String, ItemKind>, AllocError>
    requires { AllStand types.now (named_keys item_keys (named (λ k. k) exports.now.entries)) }
    ensures { IfOk result (λ d. AreDefinitions types.now (named (λ k. k) exports.now.entries) (named (λ k. k) d.entries)) }
{
    let mut definitions = IndexMap::new(alloc);
    for i in 0..exports.len() {
        let (name, kind) = export_at(exports, i);
        if let Some(definition) = definition(alloc, types, kind)? {
            definitions.insert(String::from_str(alloc, name)?, definition)?;
        }
    }
    Ok(definitions)
}

fn export_at(exports: &IndexMap<String, ItemKind>, index: usize) -> (&str, &ItemKind)
    requires { index < length exports.now.entries }
    ensures { slice_get (named (λ k. k) exports.now.entries) index ≡ Some (result.0.now, result.1.now) }
{
    let (name, kind) = exports.get_index(index).unwrap();
    (name.as_str(), kind)
}

// What an export of this kind defines, if it defines anything.
fn definition(alloc: Global, types: &Types, kind: &ItemKind) -> Result<Option<ItemKind>, AllocError>
    requires { AllStand types.now (item_keys kind.now) }
    ensures { IfOk result (IsDefinition types.now kind.now) }
{
    let ItemKind::Type(ty) = kind else {
        return Ok(None);
    };
    let Type::World(id) = ty else {
        return Ok(None);
    };
    let exports = &types[*id].exports;
    if exports.len() != 1 {
        return Ok(None);
    }
    let (name, item) = export_at(exports, 0);
    if !is_interface_name(alloc, name)? {
        return Ok(None);
    }
    Ok(defined_type(item))
}

// The interface of an instance, or the world of a component, as a type.
fn defined_type(item: &ItemKind) -> Option<ItemKind>
    ensures { result ≡ defined_type item.now }
{
    match item {
        ItemKind::Instance(id) => Some(ItemKind::Type(Type::Interface(*id))),
        ItemKind::Component(id) => Some(ItemKind::Type(Type::World(*id))),
        _ => None,
    }
}
