//! Where a comparison is: the parts that are listed, and the steps to the pair at hand.

ghost use Rattle.std.specs.Prelude.{◌≡◌, ◌≤◌, [], false, is_some, length, IfOk, IfSome, List, OnOk};
ghost use Rattle.wac_checker.specs.Cache.{Pair};
ghost use Rattle.wac_checker_parts.specs.Pairs.{IsStanding};
ghost use Rattle.wac_checker.specs.Walk.{AreListed, IsBegun, IsHaltOf, NotesHalt};

use std::alloc::{AllocError, Global};
use wac_checker_parts::{EntryPair, Halt, PairPart, PairParts, Sides};

/// A pair whose parts are being compared: those of the list from `first` on. Those before `next`
/// fit, but for the last of these where another pair is at hand, which is below it.
#[derive(Clone, Copy)]
pub(crate) struct WalkStep {
    // the pair, and which part of the one above it is
    pub(crate) part: PairPart,
    pub(crate) first: usize,
    pub(crate) next: usize,
    // whether the two of the pair differ after these parts
    pub(crate) differs: bool,
}

/// The parts of all pairs that are open, and the steps that lead to the pair at hand.
#[derive(Drop)]
pub(crate) struct Walk<'a> {
    // the pair that is asked about
    pub(crate) asked: EntryPair,
    pub(crate) parts: PairParts,
    pub(crate) open: Vec<WalkStep>,
    // why the two of the last pair differ of which the two do
    pub(crate) halt: Option<Halt<'a>>,
}

impl<'a> Walk<'a> {
    /// The begin of a comparison, of which the pair isn't known yet.
    #[inline(always)]
    pub(crate) fn new(alloc: Global) -> Walk<'a>
        ensures parts { result.parts ≡ record { before = []; items = [] } }
        ensures open { result.open.items ≡ [] }
    {
        Walk {
            asked: EntryPair::default(),
            parts: PairParts::new(alloc),
            open: Vec::new(alloc),
            halt: None,
        }
    }

    /// Lists the parts of a pair.
    pub(crate) fn begin(
        &mut self,
        sides: &Sides<'a>,
        part: PairPart,
    ) -> Result<WalkStep, AllocError>
        requires stands { IsStanding sides.now.left.now sides.now.right.now part.pair }
        requires straight { sides.now.swapped ≡ false }
        requires none { self.old.parts.items ≡ [] }
        ensures begun { IfOk result (λ s. (ps : List Pair) → IsBegun ps sides.now.left.now sides.now.right.now part self.old.parts.before self.new.parts.before s) }
        ensures halt { IfOk result (λ s. NotesHalt sides.now.left.now sides.now.right.now s self.old.halt self.new.halt) }
        ensures listed { OnOk result (self.new.parts.items ≡ []) }
        ensures open { self.new.open ≡ self.old.open }
        ensures asked { self.new.asked ≡ self.old.asked }
    {
        let first = self.parts.len();
        let halt = list_pair(sides, &part.pair, &mut self.parts)?;
        self.parts.close();
        let differs = halt.is_some();
        if differs {
            self.halt = halt;
        }
        Ok(WalkStep {
            part,
            first,
            next: first,
            differs,
        })
    }
}

// Lists the parts of a pair, and answers why its two differ after them, if they do.
#[inline(never)]
fn list_pair<'a>(
    sides: &Sides<'a>,
    pair: &EntryPair,
    parts: &mut PairParts,
) -> Result<Option<Halt<'a>>, AllocError>
    requires stands { IsStanding sides.now.left.now sides.now.right.now pair.now }
    requires straight { sides.now.swapped ≡ false }
    requires none { parts.old.items ≡ [] }
    ensures listed { IfOk result (λ o. AreListed sides.now.left.now sides.now.right.now pair.now parts.new.items (is_some o)) }
    ensures halt { IfOk result (λ o. IfSome o (IsHaltOf sides.now.left.now sides.now.right.now pair.now)) }
    ensures kept { parts.new.before ≡ parts.old.before }
{
    match sides.list_parts(pair, parts) {
        Ok(()) => Ok(None),
        Err(Halt::Apart(difference)) => Ok(Some(Halt::Apart(difference))),
        Err(Halt::PartApart(index, turned, difference)) => {
            Ok(Some(Halt::PartApart(index, turned, difference)))
        }
        Err(Halt::Modules) => Ok(Some(Halt::Modules)),
        Err(Halt::Memory) => Err(AllocError),
    }
}

/// Whether the pair of a step that begins has parts on the list, or its two differ.
pub(crate) fn has_more(step: &WalkStep, parts: &PairParts) -> bool
    requires { parts.now.items ≡ [] }
    ensures even { result ≡ false → step.now.differs ≡ false }
    ensures none { result ≡ false → length parts.now.before ≤ step.now.first }
{
    step.differs || step.first < parts.len()
}
