//! All that a type is made of.

ghost use Rattle.std.specs.Prelude.{◌≡◌, ◌↔◌, map, OnOk, IfOk};
ghost use Rattle.std.specs.List.{filter_map};
ghost use Rattle.wac_component.specs.Key.{Key, Stands};
ghost use Rattle.wac_component.specs.Naming.{key_of, Puts};
ghost use Rattle.wac_component.specs.Reach.{IsAmong};
ghost use Rattle.wac_aggregator_alike.specs.Alike.{AreResourcesOf, IsTypeMadeOf, made_next};
ghost use Rattle.wac_aggregator_alike.specs.Parts.{resource_in};

use super::parts::parts_in;
use indexmap::IndexSet;
use std::alloc::{AllocError, Global};
use wac_component::{EntryId, ResourceId, Types, id_at, put_ids};

// The resource, if it is one.
fn resource_in(id: &EntryId) -> Option<ResourceId>
    ensures { result ≡ resource_in id.now }
{
    match id {
        EntryId::Resource(id) => Some(*id),
        _ => None,
    }
}

// Puts what a type is made of last, where it isn't there.
fn put_parts(
    alloc: Global,
    reached: &mut IndexSet<EntryId>,
    types: &Types,
    id: EntryId,
) -> Result<(), AllocError>
    requires { Stands types.now (key_of id) }
    ensures { OnOk result (Puts (made_next types.now (key_of id)) (map key_of reached.old.keys) (map key_of reached.new.keys)) }
{
    let parts = parts_in(alloc, types, id)?;
    put_ids(reached, &parts)
}

// All that a type is made of, itself among it. Each id is gone through once.
fn made_of(alloc: Global, types: &Types, id: EntryId) -> Result<IndexSet<EntryId>, AllocError>
    requires { Stands types.now (key_of id) }
    ensures { IfOk result (λ ids. (t : Key) → IsAmong t (map key_of ids.keys) ↔ IsTypeMadeOf types.now (key_of id) t) }
{
    types.sound();
    let mut reached = IndexSet::new(alloc);
    reached.insert(id)?;
    let mut next = 0;
    while next < reached.len() {
        let part = id_at(&reached, next);
        put_parts(alloc, &mut reached, types, part)?;
        next += 1;
    }
    Ok(reached)
}

// The resources among ids.
fn resources_among(alloc: Global, ids: &IndexSet<EntryId>) -> Result<Vec<ResourceId>, AllocError>
    ensures { IfOk result (λ rs. rs.items ≡ filter_map resource_in ids.now.keys) }
{
    ids.iter().filter_map(resource_in).collect(alloc)
}

/// The resources that a defined type or a resource is made of.
pub(crate) fn resources_of(
    alloc: Global,
    types: &Types,
    id: EntryId,
) -> Result<Vec<ResourceId>, AllocError>
    requires { Stands types.now (key_of id) }
    ensures { IfOk result (λ rs. AreResourcesOf types.now (key_of id) rs.items) }
{
    let ids = made_of(alloc, types, id)?;
    resources_among(alloc, &ids)
}
