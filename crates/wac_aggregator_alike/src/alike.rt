//! Whether types of two collections are alike.

ghost use Rattle.std.specs.Prelude.{◌≡◌, IfOk};
ghost use Rattle.wac_component.specs.Key.{Stands, resource_key, defined_key};
ghost use Rattle.wac_aggregator_alike.specs.Alike.{AreOfOneTree, IsAlikeAnswer};
ghost use Rattle.wac_component.specs.Naming.{key_of};

use super::owners::{owned_among, owner_tracks};
use super::walk::resources_of;
use std::alloc::{AllocError, Global};
use wac_checker::Compared;
use wac_component::{DefinedTypeId, EntryId, ItemKind, ResourceId, Type, Types, ValueType};

/// Whether a resource of a collection and a resource of another one are alike: their names at the
/// roots of their aliases are equal, each owner of a resource that either is made of has an
/// identifier, and these are on the same tracks. Then the answer is the resources with an owner
/// that the other one is made of.
///
/// The collections have different numbers, or are one. `Err` is a failed allocation.
pub fn alike_resources(
    alloc: Global,
    own: &Types,
    a: ResourceId,
    types: &Types,
    b: ResourceId,
) -> Result<Option<Vec<ResourceId>>, AllocError>
    requires ours { Stands own.now (resource_key a) }
    requires theirs { Stands types.now (resource_key b) }
    requires one { own.now.number ≡ types.now.number → own.now ≡ types.now }
    ensures { IfOk result (IsAlikeAnswer own.now types.now (resource_key a) (resource_key b)) }
{
    let ours = ItemKind::Type(Type::Resource(a));
    let theirs = ItemKind::Type(Type::Resource(b));
    if !Compared::new(alloc).fits(alloc, ours, own, theirs, types)? {
        return Ok(None);
    }
    alike_owners(
        alloc,
        own,
        EntryId::Resource(a),
        types,
        EntryId::Resource(b),
    )
}

/// Whether a defined type of a collection and a defined type of another one are alike: their trees
/// are equal, each owner of a resource that either is made of has an identifier, and these are on
/// the same tracks. Then the answer is the resources with an owner that the other one is made of.
///
/// The collections have different numbers, or are one. `Err` is a failed allocation.
pub fn alike_values(
    alloc: Global,
    own: &Types,
    a: DefinedTypeId,
    types: &Types,
    b: DefinedTypeId,
) -> Result<Option<Vec<ResourceId>>, AllocError>
    requires ours { Stands own.now (defined_key a) }
    requires theirs { Stands types.now (defined_key b) }
    requires one { own.now.number ≡ types.now.number → own.now ≡ types.now }
    ensures { IfOk result (IsAlikeAnswer own.now types.now (defined_key a) (defined_key b)) }
{
    let ours = ItemKind::Type(Type::Value(ValueType::Defined(a)));
    let theirs = ItemKind::Type(Type::Value(ValueType::Defined(b)));
    if !Compared::new(alloc).fits(alloc, ours, own, theirs, types)? {
        return Ok(None);
    }
    alike_owners(alloc, own, EntryId::Defined(a), types, EntryId::Defined(b))
}

// Whether types of two collections that have equal trees are alike.
fn alike_owners(
    alloc: Global,
    own: &Types,
    a: EntryId,
    types: &Types,
    b: EntryId,
) -> Result<Option<Vec<ResourceId>>, AllocError>
    requires ours { Stands own.now (key_of a) }
    requires theirs { Stands types.now (key_of b) }
    requires same { AreOfOneTree own.now types.now (key_of a) (key_of b) }
    ensures { IfOk result (IsAlikeAnswer own.now types.now (key_of a) (key_of b)) }
{
    own.sound();
    types.sound();
    let ours = resources_of(alloc, own, a)?;
    let theirs = resources_of(alloc, types, b)?;
    let Some(our_tracks) = owner_tracks(alloc, own, &ours)? else {
        return Ok(None);
    };
    let Some(their_tracks) = owner_tracks(alloc, types, &theirs)? else {
        return Ok(None);
    };
    if our_tracks != their_tracks {
        return Ok(None);
    }
    Ok(Some(owned_among(alloc, types, &theirs)?))
}
