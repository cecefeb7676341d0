//! What one call has made and compared.

ghost use Rattle.std.specs.Prelude.{◌≡◌, ◌++◌, ◌∷◌, [], IsOk, OnOk};
ghost use Rattle.wac_component.specs.Collection.{Collection};
ghost use Rattle.wac_checker.specs.Compared.{KnowsTruly};
ghost use Rattle.wac_merge.specs.Memo.{made_of, refused_of, HasRoom, IsNew, IsMadeFor, IsToldOf, IsRefused, IsSame};
ghost use Rattle.wac_merge.specs.Told.{of_two};

use indexmap::{IndexMap, IndexSet};
use std::alloc::{AllocError, Global};
use wac_checker::Compared;
use wac_component::{InterfaceId, ItemKind, ModuleTypeId, WorldId};

/// A meet or a join.
#[derive(Clone, Copy, PartialEq, Eq, Hash)]
pub(crate) enum Bound {
    Meet,
    Join,
}

impl Bound {
    /// Which of two items is their bound, of which the first fits where the second is asked for.
    pub(crate) fn of_two(self, a: ItemKind, b: ItemKind) -> ItemKind
        ensures { result ≡ of_two self a b }
    {
        match self {
            Bound::Meet => a,
            Bound::Join => b,
        }
    }
}

/// Two entries of one sort, in order.
#[derive(Clone, Copy, PartialEq, Eq, Hash)]
pub(crate) enum BoundPair {
    Interfaces(InterfaceId, InterfaceId),
    Worlds(WorldId, WorldId),
    Modules(ModuleTypeId, ModuleTypeId),
}

/// Which bound of which two.
#[derive(Clone, Copy, PartialEq, Eq, Hash)]
pub(crate) struct Asked {
    pub(crate) bound: Bound,
    pub(crate) pair: BoundPair,
}

/// An entry that a bound of two may be.
#[derive(Clone, Copy)]
pub(crate) enum BoundId {
    Interface(InterfaceId),
    World(WorldId),
    Module(ModuleTypeId),
}

/// Why the bound of two items isn't told.
#[derive(Clone, Copy)]
pub(crate) enum Untold {
    Memory,
    /// The bound of these two entries is to be made first.
    Lacks(Asked),
}

impl From<AllocError> for Untold {
    ghost use Rattle.std.specs.Prelude.{◌≡◌};
    ghost use Rattle.wac_merge.specs.declared.memo.Untold.TheVariants.{Memory};

    ghost from_gives = { λ _ r. r ≡ Memory };

    fn from(_error: AllocError) -> Untold {
        Untold::Memory
    }
}

/// The entries that were made, each with what it was made for, what has no bound, and what is known
/// of pairs that were compared.
pub(crate) struct BoundMemo {
    pub(crate) alloc: Global,
    made: IndexMap<Asked, BoundId>,
    refused: IndexSet<Asked>,
    pub(crate) compared: Compared,
}

// By hand, as of `Types`.
impl Drop for BoundMemo {
    fn drop(self) {
        let BoundMemo {
            alloc: _,
            made: _,
            refused: _,
            compared: _,
        } = self;
    }
}

impl BoundMemo {
    /// Nothing is made.
    pub(crate) fn new(alloc: Global) -> Self
        ensures made { made_of result ≡ [] }
        ensures refused { refused_of result ≡ [] }
        ensures compared { (c d : Collection) → KnowsTruly c d result.compared }
    {
        BoundMemo {
            alloc,
            made: IndexMap::new(alloc),
            refused: IndexSet::new(alloc),
            compared: Compared::new(alloc),
        }
    }

    /// The entry that was made for what is asked, if one was.
    pub(crate) fn made_for(&self, asked: &Asked) -> Option<BoundId>
        ensures { IsMadeFor (made_of self.now) asked.now result }
    {
        self.made.get(asked).copied()
    }

    /// What is told of what is asked, if anything is: the entry that was made, or that it has no
    /// bound.
    pub(crate) fn told_of(&self, asked: &Asked) -> Option<Option<BoundId>>
        ensures { IsToldOf self.now asked.now result }
    {
        match self.made_for(asked) {
            Some(made) => Some(Some(made)),
            None if self.refused.contains(asked) => Some(None),
            None => None,
        }
    }

    /// Makes room for one more.
    pub(crate) fn reserve(&mut self) -> Result<(), AllocError>
        ensures same { IsSame self.old self.new }
        ensures room { OnOk result (HasRoom self.new) }
    {
        self.made.reserve(1)
    }

    /// Notes what was made for what is asked, for which nothing was. With room
    /// for it this needs no memory.
    pub(crate) fn put(
        &mut self,
        bound: Bound,
        pair: BoundPair,
        made: BoundId,
    ) -> Result<(), AllocError>
        requires room { HasRoom self.old }
        requires new { IsNew (made_of self.old) (record { bound = bound; pair = pair }) }
        ensures ok { IsOk result }
        ensures made { made_of self.new ≡ made_of self.old ++ (record { bound = bound; pair = pair }, made) ∷ [] }
        ensures refused { refused_of self.new ≡ refused_of self.old }
        ensures compared { self.new.compared ≡ self.old.compared }
    {
        self.made.insert(Asked { bound, pair }, made)?;
        Ok(())
    }

    /// Notes that what is asked has no bound.
    pub(crate) fn refuse(&mut self, bound: Bound, pair: BoundPair) -> Result<(), AllocError>
        ensures made { made_of self.new ≡ made_of self.old }
        ensures refused { IsRefused self.old self.new (record { bound = bound; pair = pair }) }
        ensures compared { self.new.compared ≡ self.old.compared }
    {
        self.refused.insert(Asked { bound, pair })?;
        Ok(())
    }
}
