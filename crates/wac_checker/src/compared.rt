//! The one walk: of each pair the parts are listed, and then compared in order, each pair once.

ghost use Rattle.std.specs.Prelude.{◌≡◌, ◌↔◌, ◌<◌, [], false, length, reverse, IsTrue, IfOk};
ghost use Rattle.wac_model.specs.Order.{Fits};
ghost use Rattle.wac_component.specs.Collection.{Collection};
ghost use Rattle.wac_component.specs.Key.{AllStand, item_keys};
ghost use Rattle.wac_component.specs.Tree.{item_tree};
ghost use Rattle.wac_checker.specs.Believed.{told};
ghost use Rattle.wac_checker.specs.Compared.{IsAnswered, IsGoingOn, IsComparing, IsTrueOnceNoted, KnowsTruly};
ghost use Rattle.wac_checker.specs.Known.{pairs_of};
ghost use Rattle.wac_checker_parts.specs.Pairs.{ArePairsOf, IsFitting, IsStanding};
ghost use Rattle.wac_checker.specs.Walk.{kept_pair};

use super::cache::{Believed, Kinds, is_believed};
use super::known::Known;
use super::walk::{Walk, WalkStep, has_more};
use std::alloc::{AllocError, Global};
use wac_checker_parts::{EntryPair, PairPart, Sides};
use wac_component::{ItemKind, Types};

/// The pairs of entries of two collections that were compared, and those of them that don't fit.
pub struct Compared {
    pub(crate) known: Known,
    pub(crate) unfit: Known,
}

// By hand: what is derived is proved field by field in each function that drops one.
impl Drop for Compared {
    fn drop(self) {
        let Compared { known: _, unfit: _ } = self;
    }
}

impl Compared {
    /// No pairs were compared.
    pub fn new(alloc: Global) -> Self
        ensures { (c d : Collection) → KnowsTruly c d result }
    {
        Compared {
            known: Known::new(alloc),
            unfit: Known::new(alloc),
        }
    }

    /// Whether the item `a` of the collection `at` fits where the item `b` of `bt` is asked for
    /// (Component Model explainer, "Subtyping"). Of each pair that is compared for it the answer
    /// is remembered, so that none is compared again. Two entries of two collections, as they stand
    /// and swapped, as below an import, are two pairs.
    pub fn fits(
        &mut self,
        alloc: Global,
        a: ItemKind,
        at: &Types,
        b: ItemKind,
        bt: &Types,
    ) -> Result<bool, AllocError>
        requires left { AllStand at.now (item_keys a) }
        requires right { AllStand bt.now (item_keys b) }
        requires one { at.now.number ≡ bt.now.number → at.now ≡ bt.now }
        requires truly { KnowsTruly at.now bt.now self.old }
        ensures answer { IfOk result (λ yes. IsTrue yes ↔ Fits (item_tree at.now a) (item_tree bt.now b)) }
        ensures truly { KnowsTruly at.now bt.now self.new }
    {
        let sides = Sides {
            left: at,
            right: bt,
            swapped: false,
            alloc,
        };
        let mut walk = Walk::new(alloc);
        if !sides.name_items(&mut walk.parts, 0, &a, &b)? {
            return Ok(false);
        }
        let Some(part) = walk.parts.pop() else {
            return Ok(true);
        };
        walk.asked = part.pair;
        self.answer(&mut walk, &sides)
    }

    // Whether the pair fits that is asked about. After a no all pairs that are open don't fit.
    fn answer<'a>(&mut self, walk: &mut Walk<'a>, sides: &Sides<'a>) -> Result<bool, AllocError>
        requires straight { sides.now.swapped ≡ false }
        requires stands { IsStanding sides.now.left.now sides.now.right.now walk.old.asked }
        requires parts { walk.old.parts.before ≡ [] }
        requires open { walk.old.open.items ≡ [] }
        requires none { walk.old.parts.items ≡ [] }
        requires truly { KnowsTruly sides.now.left.now sides.now.right.now self.old }
        ensures answer { IfOk result (λ yes. IsTrue yes ↔ IsFitting sides.now.left.now sides.now.right.now walk.old.asked) }
        ensures truly { KnowsTruly sides.now.left.now sides.now.right.now self.new }
    {
        let nothing = Believed {
            cache: None,
            kinds: Kinds::None,
        };
        match self.compare(walk, sides, &nothing) {
            Ok(true) => Ok(true),
            Ok(false) => {
                self.note(sides, walk.open.as_slice())?;
                Ok(false)
            }
            Err(e) => {
                self.forget(sides.alloc);
                Err(e)
            }
        }
    }

    // Nothing is known: pairs were left open.
    fn forget(&mut self, alloc: Global)
        ensures { (c d : Collection) → KnowsTruly c d self.new }
    {
        self.known = Known::new(alloc);
        self.unfit = Known::new(alloc);
    }

    // The pairs of steps don't fit.
    fn note(&mut self, sides: &Sides<'_>, steps: &[WalkStep]) -> Result<(), AllocError>
        ensures { IsTrueOnceNoted sides.now.left.now sides.now.right.now self.old self.new (reverse steps.now) }
    {
        for i in 0..steps.len() {
            let step = steps[i];
            if let Err(e) = self.unfit.add(&kept_pair(sides, &step.part.pair)) {
                self.forget(sides.alloc);
                return Err(e);
            }
        }
        Ok(())
    }

    /// Whether the pair fits that is asked about, by comparing it and each pair below it that
    /// wasn't compared before. At a no the open steps lead to a pair that doesn't fit.
    pub(crate) fn compare<'a>(
        &mut self,
        walk: &mut Walk<'a>,
        sides: &Sides<'a>,
        believed: &Believed<'_>,
    ) -> Result<bool, AllocError>
        requires straight { sides.now.swapped ≡ false }
        requires stands { IsStanding sides.now.left.now sides.now.right.now walk.old.asked }
        requires parts { walk.old.parts.before ≡ [] }
        requires open { walk.old.open.items ≡ [] }
        requires none { walk.old.parts.items ≡ [] }
        requires truly { KnowsTruly sides.now.left.now sides.now.right.now self.old }
        ensures answer { IfOk result (IsAnswered (told believed.now) sides.now.left.now sides.now.right.now self.new walk.new) }
        ensures asked { walk.new.asked ≡ walk.old.asked }
        ensures pairs { ArePairsOf sides.now.left.now sides.now.right.now (pairs_of self.new.known) }
        ensures unfit { self.new.unfit ≡ self.old.unfit }
    {
        let asked = kept_pair(sides, &walk.asked);
        if self.unfit.has(&asked) {
            return Ok(false);
        }
        if !self.known.add(&asked)? {
            return Ok(true);
        }
        let part = PairPart {
            pair: walk.asked,
            index: 0,
        };
        let mut step = walk.begin(sides, part)?;
        for _turn in 0..u64::MAX {
            if let Some(yes) = self.turn(walk, sides, &mut step, believed)? {
                return Ok(yes);
            }
        }
        Err(AllocError)
    }

    // Goes on with the pair at hand: with its next part, or with the pair above it, or to the end.
    fn turn<'a>(
        &mut self,
        walk: &mut Walk<'a>,
        sides: &Sides<'a>,
        step: &mut WalkStep,
        believed: &Believed<'_>,
    ) -> Result<Option<bool>, AllocError>
        requires straight { sides.now.swapped ≡ false }
        requires way { IsComparing (told believed.now) sides.now.left.now sides.now.right.now self.old walk.old step.old }
        ensures way { IfOk result (IsGoingOn (told believed.now) sides.now.left.now sides.now.right.now self.new walk.new step.new) }
        ensures asked { walk.new.asked ≡ walk.old.asked }
        ensures pairs { ArePairsOf sides.now.left.now sides.now.right.now (pairs_of self.new.known) }
        ensures unfit { self.new.unfit ≡ self.old.unfit }
    {
        if step.next < walk.parts.len() {
            return self.go_below(walk, sides, step, believed);
        }
        if step.differs {
            walk.open.push(*step)?;
            return Ok(Some(false));
        }
        walk.parts.truncate(step.first);
        match walk.open.pop() {
            None => Ok(Some(true)),
            Some(above) => {
                *step = above;
                Ok(None)
            }
        }
    }

    // Goes on with the next part of the pair at hand.
    fn go_below<'a>(
        &mut self,
        walk: &mut Walk<'a>,
        sides: &Sides<'a>,
        step: &mut WalkStep,
        believed: &Believed<'_>,
    ) -> Result<Option<bool>, AllocError>
        requires straight { sides.now.swapped ≡ false }
        requires way { IsComparing (told believed.now) sides.now.left.now sides.now.right.now self.old walk.old step.old }
        requires within { step.old.next < length walk.old.parts.before }
        requires room { step.old.next < usize.MAX }
        ensures way { IfOk result (IsGoingOn (told believed.now) sides.now.left.now sides.now.right.now self.new walk.new step.new) }
        ensures asked { walk.new.asked ≡ walk.old.asked }
        ensures pairs { ArePairsOf sides.now.left.now sides.now.right.now (pairs_of self.new.known) }
        ensures unfit { self.new.unfit ≡ self.old.unfit }
    {
        let part = walk.parts.at(step.next);
        step.next += 1;
        let kept = kept_pair(sides, &part.pair);
        if self.unfit.has(&kept) {
            walk.open.push(*step)?;
            return Ok(Some(false));
        }
        if is_believed(believed, sides, &part.pair) {
            return Ok(None);
        }
        if self.known.add(&kept)? {
            let below = walk.begin(sides, part)?;
            // those that fit and have no parts are done
            if has_more(&below, &walk.parts) {
                walk.open.push(*step)?;
                *step = below;
            }
        }
        Ok(None)
    }
}

// The pair as it is kept: of one collection, swapped entries are asked about as they stand.
#[inline(always)]
fn kept_pair(sides: &Sides<'_>, pair: &EntryPair) -> EntryPair
    ensures { result ≡ kept_pair sides.now.left.now sides.now.right.now pair.now }
{
    EntryPair {
        left: pair.left,
        right: pair.right,
        sort: pair.sort,
        swapped: pair.swapped && sides.left.number() != sides.right.number(),
    }
}
