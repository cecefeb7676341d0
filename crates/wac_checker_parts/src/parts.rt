//! Pairs of entries, the parts that they stand on, and where these end.

ghost use Rattle.std.specs.Prelude.{◌≡◌, ◌<◌, ◌+◌, ◌++◌, [], IfNone, IsTrue, Some, length, slice_get, take};
ghost use Rattle.std.specs.Option.{option_to_list};
ghost use Rattle.wac_checker_parts.specs.Listing.{AreNamedUnless, IsNamed};

use smallvec::SmallVec;
use std::alloc::{AllocError, Global};
use std::marker::Model;
use wac_mismatch::Difference;

/// A sort of entry that is compared part by part.
#[derive(Clone, Copy, PartialEq, Eq, Hash, Default)]
pub enum PairSort {
    #[default]
    Defined,
    Func,
    Interface,
    World,
    Module,
}

/// Two entries of one sort, by their indices: the left one is asked about, the right one asked for.
/// They are swapped where the left one is of the right collection, as below an import.
#[derive(Clone, Copy, PartialEq, Eq, Hash, Default)]
pub struct EntryPair {
    /// The index of the left entry.
    pub left: usize,
    /// That of the right one.
    pub right: usize,
    /// Of which sort both are.
    pub sort: PairSort,
    /// Whether they are swapped.
    pub swapped: bool,
}

/// The part of this index, which fits if this pair does.
#[derive(Clone, Copy, Default)]
pub struct PairPart {
    /// The pair on which it stands.
    pub pair: EntryPair,
    /// Which part it is.
    pub index: usize,
}

/// Whether two leaves are one, or two entries may be, which are named for it.
pub type Named = Result<bool, AllocError>;

/// The parts of the pairs that are open, and behind them those that are being named of one more.
#[derive(Drop)]
pub struct PairParts {
    list: SmallVec<PairPart, 4>,
    // where those that are being named begin
    first: usize,
}

impl Model for PairParts {
    ghost use Rattle.std.specs.Prelude.{take, drop, length, ◌≤◌};
    ghost use Rattle.wac_checker_parts.specs.PartLists.{PartLists};

    ghost Value = { PartLists };

    ghost view = { λ p. record { before = take p.first p.list.items; items = drop p.first p.list.items } };

    ghost invariant = { λ p. p.first ≤ length p.list.items };
}

impl PairParts {
    /// No parts.
    #[inline(always)]
    pub fn new(alloc: Global) -> Self
        ensures { result ≡ record { before = []; items = [] } }
    {
        PairParts {
            list: SmallVec::new(alloc),
            first: 0,
        }
    }

    /// How many parts there are.
    #[inline(always)]
    pub fn len(&self) -> usize
        ensures { result ≡ length self.now.before + length self.now.items }
    {
        self.list.len()
    }

    /// The part of an open pair at an index.
    #[inline(always)]
    pub fn at(&self, index: usize) -> PairPart
        requires { index < length self.now.before }
        ensures { slice_get self.now.before index ≡ Some result }
    {
        self.list.as_slice()[index]
    }

    // Whether a pair was named last: the same two stand there again and again, as in a tuple.
    #[inline(always)]
    fn is_last(&self, pair: &EntryPair) -> bool
        ensures { IsTrue result → IsNamed self.now.items pair.now }
    {
        let list = self.list.as_slice();
        self.first < list.len() && list[list.len() - 1].pair == *pair
    }

    /// Names a pair as the part of an index, unless its entries are one.
    #[inline(always)]
    pub(crate) fn name(&mut self, index: usize, same: bool, pair: EntryPair) -> Named
        ensures named { AreNamedUnless same index pair self.old.items self.new.items result }
        ensures kept { self.new.before ≡ self.old.before }
    {
        if !same && !self.is_last(&pair) {
            self.list.push(PairPart { pair, index })?;
        }
        Ok(true)
    }

    /// Takes the part off that was named last.
    pub fn pop(&mut self) -> Option<PairPart>
        ensures items { self.old.items ≡ self.new.items ++ option_to_list result }
        ensures none { IfNone result (self.old.items ≡ []) }
        ensures kept { self.new.before ≡ self.old.before }
    {
        if self.first == self.list.len() {
            return None;
        }
        self.list.pop()
    }

    /// The pair is open whose parts were being named.
    #[inline(always)]
    pub fn close(&mut self)
        ensures before { self.new.before ≡ self.old.before ++ self.old.items }
        ensures items { self.new.items ≡ [] }
    {
        self.first = self.list.len();
    }

    /// Takes the parts off that are past this length.
    #[inline(always)]
    pub fn truncate(&mut self, len: usize)
        requires none { self.old.items ≡ [] }
        ensures before { self.new.before ≡ take len self.old.before }
        ensures items { self.new.items ≡ [] }
    {
        self.list.truncate(len);
        self.first = self.list.len();
    }
}

/// Why the parts of two entries aren't listed further.
#[derive(Clone, Copy)]
pub enum Halt<'a> {
    /// The two themselves differ.
    Apart(Difference<'a>),
    /// The part of this index differs, the other way round if this is true.
    PartApart(usize, bool, Difference<'a>),
    /// The two are core modules, which differ.
    Modules,
    /// Memory was wanting.
    Memory,
}

impl<'a> From<AllocError> for Halt<'a> {
    ghost use Rattle.wac_checker_parts.specs.declared.parts.Halt.TheVariants.{Memory};

    ghost from_gives = { λ _ r. r ≡ Memory };

    fn from(_error: AllocError) -> Self {
        Halt::Memory
    }
}

/// Two entries whose parts are named up to the first difference: without one they fit, if the named
/// pairs do.
pub type Turn<'a> = Result<(), Halt<'a>>;
