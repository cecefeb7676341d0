//! Makes all interfaces and worlds.

use super::interfaces::make_interface;
use super::worlds::make_world;
use std::alloc::Global;
use wac_component::Types;
use wac_wit_elaboration::{KnownEntries, MadeEntry, Site};
use wac_wit_names::{Catalog, Decl, Fault, Node, Refusals};

/// Makes the interfaces and the worlds of a catalog, in an order in which each stands behind those
/// that it needs. What is refused is noted, and is none of them.
pub fn make_all(
    alloc: Global,
    catalog: &Catalog<'_>,
    order: &[usize],
    types: &mut Types,
    refusals: &mut Refusals,
) -> Result<Vec<MadeEntry>, Fault> {
    let mut made = Vec::new(alloc);
    for _node in &catalog.nodes {
        made.push(MadeEntry::Nothing)?;
    }
    for index in order {
        let node = catalog.node(*index)?;
        if !node.is_hidden {
            let site = site_of(alloc, &*catalog, &made, node)?;
            let done = make(&site, types, refusals);
            put_made(&mut made, *index, done, refusals)?;
        }
    }
    Ok(made)
}

fn site_of<'m>(
    alloc: Global,
    catalog: &'m Catalog<'m>,
    made: &'m [MadeEntry],
    node: &'m Node<'m>,
) -> Result<Site<'m>, Fault> {
    let scope = catalog.scope(node.scope)?;
    let known = KnownEntries {
        made,
        exported: None,
    };
    Ok(Site {
        alloc,
        catalog,
        known,
        node,
        scope,
    })
}

// Puts what was made in its place, or notes why it is refused.
fn put_made(
    made: &mut [MadeEntry],
    index: usize,
    done: Result<MadeEntry, Fault>,
    refusals: &mut Refusals,
) -> Result<(), Fault> {
    match done {
        Ok(one) => {
            if let Some(place) = made.get_mut(index) {
                *place = one;
            }
            Ok(())
        }
        Err(fault) => refusals.note(fault),
    }
}

// Makes an interface or a world.
fn make(site: &Site<'_>, types: &mut Types, refusals: &mut Refusals) -> Result<MadeEntry, Fault> {
    match site.node.decl {
        Decl::Interface(it) => {
            let id = Some(site.node.id.clone()?);
            let of = make_interface(site, types, refusals, id, &it.items)?;
            Ok(MadeEntry::Interface(of))
        }
        Decl::World(it) => Ok(MadeEntry::World(make_world(site, types, refusals, it)?)),
    }
}
