//! The types of worlds that come into another one, among its imports.

use super::layers::Layer;
use indexmap::IndexMap;
use std::alloc::{AllocError, Global};
use wac_component::{ItemKind, World};
use wac_wit_syntax::{Ident, WorldItem};
use wac_wit_validation_types::local_name;

/// A type of a layer's world.
#[derive(Clone, Copy)]
struct Owner<'l> {
    layer: usize,
    name: &'l str,
}

/// What each layer's world has of types and of functions of resources among imports, in their order:
/// types by the names that they have in it, and functions by those that they get.
pub fn own_types(
    alloc: Global,
    entry: &World,
    layers: &[Layer<'_>],
) -> Result<Vec<IndexMap<String, ItemKind>>, AllocError> {
    let owners = owners_of(alloc, layers)?;
    let mut own = Vec::new(alloc);
    for _ in layers {
        own.push(IndexMap::new(alloc))?;
    }
    for (name, item) in &entry.imports {
        if let Some(owner) = owners.get(resource_or_type(name)) {
            put(alloc, &mut own, owner, name, item)?;
        }
    }
    Ok(own)
}

fn put(
    alloc: Global,
    own: &mut [IndexMap<String, ItemKind>],
    owner: &Owner<'_>,
    name: &str,
    item: &ItemKind,
) -> Result<(), AllocError> {
    let name = match item {
        ItemKind::Type(_) => owner.name,
        _ => name,
    };
    if let Some(types) = own.get_mut(owner.layer) {
        types.insert(String::from_str(alloc, name)?, *item)?;
    }
    Ok(())
}

// Whose the types are that are imported, by their names there.
fn owners_of<'l>(
    alloc: Global,
    layers: &'l [Layer<'_>],
) -> Result<IndexMap<&'l str, Owner<'l>>, AllocError> {
    let mut owners = IndexMap::new(alloc);
    for (index, layer) in layers.iter().enumerate() {
        for item in &layer.items {
            put_names(&mut owners, index, layer, item)?;
        }
    }
    Ok(owners)
}

fn put_names<'l>(
    owners: &mut IndexMap<&'l str, Owner<'l>>,
    index: usize,
    layer: &'l Layer<'_>,
    item: &'l WorldItem,
) -> Result<(), AllocError> {
    match item {
        WorldItem::Use(it) => {
            for rename in &it.names {
                put_name(owners, index, layer, local_name(rename))?;
            }
            Ok(())
        }
        WorldItem::Type(it) => put_name(owners, index, layer, &it.name),
        _ => Ok(()),
    }
}

fn put_name<'l>(
    owners: &mut IndexMap<&'l str, Owner<'l>>,
    layer: usize,
    of: &'l Layer<'_>,
    name: &'l Ident,
) -> Result<(), AllocError> {
    if let Some(new) = of.names.get(&name.name) {
        let owner = Owner {
            layer,
            name: name.name.as_str(),
        };
        owners.insert(new.name.as_str(), owner)?;
    }
    Ok(())
}

// The resource that a function's name has in it, or the name.
fn resource_or_type(name: &str) -> &str {
    match name.split_once(']') {
        Some((_, of)) => match of.split_once('.') {
            Some((resource, _)) => resource,
            None => of,
        },
        None => name,
    }
}
