//! What belongs to old packages: the new ones beside them, and worlds whose names move.

ghost use Rattle.std.specs.Prelude.{◌≡◌, All, IfOk, IsFalse, IsTrue, Some};
ghost use Rattle.wac_component.specs.Growth.{Extends};
ghost use Rattle.wac_wit_changes.specs.Sides.{olds_of, IsMove, KnowsPackages};
ghost use Rattle.wac_wit_changes.specs.declared.tracks.Counterpart.{Counterpart};

use super::tracks::{Counterpart, NewPackages, moved_world};
use indexmap::IndexMap;
use std::alloc::Global;
use wac_component::{Types, WorldId};
use wac_wit::{Wit, WitPackage};
use wac_wit_entries::EntryError;

/// What belongs to an old package.
pub(crate) struct Move<'o> {
    pub(crate) old: &'o WitPackage,
    pub(crate) new: Option<Counterpart>,
    /// Its worlds with the versions that the new packages have, where those are of another track.
    pub(crate) moved: IndexMap<String, WorldId>,
}

impl Drop for Move<'_> {
    fn drop(self) {
        let Move {
            old: _,
            new: _,
            moved: _,
        } = self;
    }
}

/// What belongs to the old packages, in their order.
pub(crate) fn moves_of<'o>(
    alloc: Global,
    types: &mut Types,
    old: &'o Wit,
    new: &Wit,
) -> Result<Vec<Move<'o>>, EntryError>
    ensures grows { Extends types.old types.new }
    ensures olds { IfOk result (λ ms. olds_of ms.items ≡ old.now.packages.items) }
    ensures moves { IfOk result (λ ms. All (IsMove new.now.packages.items) ms.items) }
{
    let packages = NewPackages::new(alloc, &new.packages)?;
    let mut moves = Vec::new(alloc);
    for package in &old.packages {
        moves.push(move_of(alloc, types, package, new, &packages)?)?;
    }
    Ok(moves)
}

// What belongs to an old package.
fn move_of<'o>(
    alloc: Global,
    types: &mut Types,
    old: &'o WitPackage,
    new: &Wit,
    packages: &NewPackages,
) -> Result<Move<'o>, EntryError>
    requires known { KnowsPackages new.now.packages.items packages.now }
    ensures grows { Extends types.old types.new }
    ensures old { IfOk result (λ m. m.old.now ≡ old.now) }
    ensures own { IfOk result (IsMove new.now.packages.items) }
{
    let found = packages.counterpart(old)?;
    let moved = if is_moved(found) {
        moved_worlds(alloc, types, old, new, packages)?
    } else {
        IndexMap::new(alloc)
    };
    Ok(Move {
        old,
        new: found,
        moved,
    })
}

// Whether the worlds of an old package are compared by names alone.
fn is_moved(found: Option<Counterpart>) -> bool
    ensures { (c : Counterpart) → found ≡ Some c → IsTrue c.is_on_track → IsFalse result }
{
    match found {
        Some(it) => !it.is_on_track,
        None => false,
    }
}

// The worlds of a package with the versions that new packages have.
fn moved_worlds(
    alloc: Global,
    types: &mut Types,
    of: &WitPackage,
    new: &Wit,
    packages: &NewPackages,
) -> Result<IndexMap<String, WorldId>, EntryError>
    ensures { Extends types.old types.new }
{
    let mut moved = IndexMap::new(alloc);
    for (name, id) in &of.worlds {
        let id = moved_world(alloc, types, *id, new, packages)?;
        moved.insert(name.clone()?, id)?;
    }
    Ok(moved)
}
