//! The owners of resources, and the tracks that they are on.

ghost use Rattle.std.specs.Prelude.{◌≡◌, ◌⊎◌, ◌↔◌, Some, Contains, filter, is_some, IsTrue, IfOk, IfSome};
ghost use Rattle.wac_component.specs.Entries.{owner_at};
ghost use Rattle.wac_component.specs.Key.{Stands, resource_key, interface_key};
ghost use Rattle.wac_names.specs.Class.{Class};
ghost use Rattle.wac_aggregator_alike.specs.Alike.{HaveIdentifiers, IsTrackAmong, track_at};
ghost use Rattle.wac_aggregator_alike.specs.Parts.{AllStandIn, AreTracksOf};

use indexmap::IndexSet;
use std::alloc::{AllocError, Global};
use wac_component::{InterfaceId, ResourceId, Types};
use wac_names::NameClass;

/// The owner of a resource, if its entry names one.
pub fn owner_of(types: &Types, id: ResourceId) -> Option<InterfaceId>
    requires { Stands types.now (resource_key id) }
    ensures owner { result ≡ owner_at types.now id }
    ensures stands { IfSome result (λ o. Stands types.now (interface_key o)) }
{
    types[id].alias?.owner
}

// The class of an interface's identifier, if it has one.
fn track_of(
    alloc: Global,
    types: &Types,
    owner: InterfaceId,
) -> Result<Option<NameClass>, AllocError>
    requires { Stands types.now (interface_key owner) }
    ensures { IfOk result (λ t. t ≡ track_at types.now owner) }
{
    match &types[owner].id {
        Some(name) => Ok(Some(NameClass::of(alloc, name.as_str())?)),
        None => Ok(None),
    }
}

// Notes the track of a resource's owner, if it has one, and answers whether
// it has none without identifier.
fn note_track(
    alloc: Global,
    tracks: &mut IndexSet<NameClass>,
    types: &Types,
    id: ResourceId,
) -> Result<bool, AllocError>
    requires { Stands types.now (resource_key id) }
    ensures identified { IfOk result (λ b. IsTrue b ↔ HaveIdentifiers types.now (λ o. owner_at types.now id ≡ Some o)) }
    ensures tracks { IfOk result (λ b. IsTrue b → (t : Class) → Contains tracks.new.keys t ↔ (Contains tracks.old.keys t ⊎ IsTrackAmong types.now (λ o. owner_at types.now id ≡ Some o) t)) }
{
    let Some(owner) = owner_of(types, id) else {
        return Ok(true);
    };
    let Some(track) = track_of(alloc, types, owner)? else {
        return Ok(false);
    };
    tracks.insert(track)?;
    Ok(true)
}

/// The tracks of the owners of resources, or none where an owner has no identifier.
pub(crate) fn owner_tracks(
    alloc: Global,
    types: &Types,
    resources: &[ResourceId],
) -> Result<Option<IndexSet<NameClass>>, AllocError>
    requires { AllStandIn types.now resources.now }
    ensures { IfOk result (AreTracksOf types.now resources.now) }
{
    let mut tracks = IndexSet::new(alloc);
    for id in resources {
        if !note_track(alloc, &mut tracks, types, *id)? {
            return Ok(None);
        }
    }
    Ok(Some(tracks))
}

/// Those of the resources that have an owner.
pub(crate) fn owned_among(
    alloc: Global,
    types: &Types,
    resources: &[ResourceId],
) -> Result<Vec<ResourceId>, AllocError>
    requires { AllStandIn types.now resources.now }
    ensures { IfOk result (λ rs. rs.items ≡ filter (λ r. is_some (owner_at types.now r)) resources.now) }
{
    let mut owned = Vec::new(alloc);
    for id in resources {
        if owner_of(types, *id).is_some() {
            owned.push(*id)?;
        }
    }
    Ok(owned)
}
