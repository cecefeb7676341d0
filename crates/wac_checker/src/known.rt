//! The pairs that a comparison has opened, each once.

ghost use Rattle.std.specs.Prelude.{◌≡◌, ◌<◌, ◌≤◌, ◌++◌, ◌∷◌, [], Contains, IsTrue, ◌↔◌, true, false, Ok, length, take};

use indexmap::IndexSet;
use std::alloc::{AllocError, Global};
use wac_checker_parts::EntryPair;

// So many pairs are looked through one after another, and more are hashed: most comparisons open
// few.
const FEW: usize = 5;

/// Pairs of entries, in the order in which they were opened.
#[derive(Drop)]
pub(crate) struct Known {
    // the first of them, so that a comparison that opens no more allocates nothing
    few: [EntryPair; FEW],
    // how many of these are pairs
    len: usize,
    many: IndexSet<EntryPair>,
    ghost within: { len ≤ 5 },
    ghost room: { length few ≡ 5 },
}

impl Known {
    ghost use Rattle.wac_checker.specs.Known.{pairs_of};

    /// No pairs. The places hold one, since there is no pair that means none.
    #[inline(always)]
    pub(crate) fn new(alloc: Global) -> Self
        ensures { pairs_of result ≡ [] }
    {
        Known {
            few: [EntryPair::default(); FEW],
            len: 0,
            many: IndexSet::new(alloc),
        }
    }

    // The first pairs.
    #[inline(always)]
    fn few(&self) -> &[EntryPair]
        ensures { result.now ≡ take self.now.len self.now.few }
    {
        &self.few[..self.len]
    }

    /// How many pairs there are.
    pub(crate) fn len(&self) -> usize
        ensures { result ≡ length (pairs_of self.now) }
    {
        self.len + self.many.len()
    }

    /// Whether a pair is there.
    pub(crate) fn has(&self, pair: &EntryPair) -> bool
        ensures { IsTrue result ↔ Contains (pairs_of self.now) pair.now }
    {
        is_among(self.few(), pair) || is_known(&self.many, pair)
    }

    /// Puts a pair last, and answers whether it wasn't there.
    #[inline(always)]
    pub(crate) fn add(&mut self, pair: &EntryPair) -> Result<bool, AllocError>
        ensures there { result ≡ Ok false → Contains (pairs_of self.old) pair.now }
        ensures new { result ≡ Ok true → Contains (pairs_of self.old) pair.now → ⊥ }
        ensures added { result ≡ Ok true → pairs_of self.new ≡ pairs_of self.old ++ pair.now ∷ [] }
        ensures same { (result ≡ Ok true → ⊥) → pairs_of self.new ≡ pairs_of self.old }
    {
        if is_among(self.few(), pair) {
            return Ok(false);
        }
        if self.many.is_empty() && self.len < FEW {
            self.few[self.len] = *pair;
            self.len += 1;
            return Ok(true);
        }
        Ok(self.many.insert(*pair)?)
    }
}

// By hand, since a call of `contains` costs more than the few tests.
#[inline(always)]
fn is_among(pairs: &[EntryPair], pair: &EntryPair) -> bool
    ensures { IsTrue result ↔ Contains pairs.now pair.now }
{
    for i in 0..pairs.len() {
        if pairs[i] == *pair {
            return true;
        }
    }
    false
}

#[inline(never)]
fn is_known(pairs: &IndexSet<EntryPair>, pair: &EntryPair) -> bool
    ensures { IsTrue result ↔ Contains pairs.now.keys pair.now }
{
    !pairs.is_empty() && pairs.contains(pair)
}
