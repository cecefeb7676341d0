//! The errors: made once, of the place where two differ.

ghost use Rattle.std.specs.Prelude.{◌≡◌, false, reverse, IfOk};
ghost use Rattle.wac_component.specs.Key.{Stands, module_key};
ghost use Rattle.wac_mismatch.specs.Steps.{IsHere};
ghost use Rattle.wac_mismatch.specs.declared.check.SubtypeCheck.{SubtypeCheck};
ghost use Rattle.wac_mismatch.specs.Difference.{IsFaultOf};
ghost use Rattle.wac_checker_parts.specs.Pairs.{EntriesFit, ExplainsEntries, ExplainsPair, IsStanding, Modules, check_of, id_in, two_of};
ghost use Rattle.wac_checker.specs.Walk.{EndsApart, IsHaltOf, IsPathTo, LeadsFurther, PathFrom};

use super::frames::frame_to;
use super::walk::Walk;
use std::alloc::{AllocError, Global};
use wac_checker_parts::{EntryPair, Halt, PairPart, Sides, module_at};
use wac_core_checker::module_fits;
use wac_mismatch::refusals::{here_with, turned_check, under};
use wac_mismatch::{Difference, Frame, SubtypeCheck, SubtypeError};

/// The error of a difference right here.
pub(crate) fn refusal(check: SubtypeCheck, alloc: Global, difference: Difference) -> SubtypeError
    ensures { IsHere (IsFaultOf check difference.entry) result }
{
    here_with(alloc, difference.fault(check))
}

fn placed_check(check: SubtypeCheck, swapped: bool) -> SubtypeCheck
    ensures { result ≡ check_of check swapped }
{
    if swapped { turned_check(check) } else { check }
}

// The error of two core modules, which don't fit.
fn modules_refused(check: SubtypeCheck, sides: &Sides<'_>, a: usize, b: usize) -> SubtypeError
    requires left { Stands sides.now.left.now (module_key (id_in sides.now.left.now a)) }
    requires right { Stands sides.now.right.now (module_key (id_in sides.now.right.now b)) }
    requires apart { ¬ (EntriesFit sides.now.left.now sides.now.right.now (Modules (id_in sides.now.left.now a) (id_in sides.now.right.now b))) }
    ensures { ExplainsEntries check sides.now.left.now sides.now.right.now (Modules (id_in sides.now.left.now a) (id_in sides.now.right.now b)) result }
{
    let a = module_at(sides.left, a);
    let b = module_at(sides.right, b);
    match module_fits(check, sides.alloc, &sides.left[a], &sides.right[b]) {
        Ok(()) => unreachable!(),
        Err(e) => e,
    }
}

// The error of a pair whose two differ, or parts of them.
fn pair_refused<'a>(
    check: SubtypeCheck,
    both: &Sides<'a>,
    pair: &EntryPair,
    halt: Halt<'a>,
) -> Result<SubtypeError, AllocError>
    requires stands { IsStanding both.now.left.now both.now.right.now pair.now }
    requires straight { both.now.swapped ≡ false }
    requires halt { IsHaltOf both.now.left.now both.now.right.now pair.now halt }
    ensures { IfOk result (ExplainsPair check both.now.left.now both.now.right.now (two_of both.now.left.now both.now.right.now pair.now)) }
{
    let check = placed_check(check, pair.swapped);
    match halt {
        Halt::Apart(difference) => Ok(refusal(check, both.alloc, difference)),
        Halt::PartApart(index, turned, difference) => {
            let frame = frame_to(both, pair, index)?;
            let error = refusal(placed_check(check, turned), both.alloc, difference);
            Ok(under(error, frame))
        }
        Halt::Modules => {
            let sides = both.of(pair.swapped);
            Ok(modules_refused(check, &sides, pair.left, pair.right))
        }
        Halt::Memory => unreachable!(),
    }
}

// Puts the frames to a part, to which steps lead, before those below it.
fn frames_to(
    sides: &Sides<'_>,
    walk: &mut Walk<'_>,
    part: PairPart,
    mut below: Vec<Frame>,
) -> Result<Vec<Frame>, AllocError>
    requires straight { sides.now.swapped ≡ false }
    requires path { PathFrom sides.now.left.now sides.now.right.now walk.old.asked (reverse walk.old.open.items) part }
    ensures { IfOk result (λ fs. LeadsFurther sides.now part.pair below.items walk.old.asked fs.items) }
{
    let mut part = part;
    let mut frames = Vec::new(sides.alloc);
    while let Some(step) = walk.open.pop() {
        frames.push(frame_to(sides, &step.part.pair, part.index)?)?;
        part = step.part;
    }
    frames.reverse();
    frames.append(&mut below)?;
    Ok(frames)
}

/// The error of the pair to which a walk has led, which differs.
#[cold]
#[inline(never)]
pub(crate) fn refused_at<'a>(
    check: SubtypeCheck,
    sides: &Sides<'a>,
    walk: &mut Walk<'a>,
) -> Result<SubtypeError, AllocError>
    requires straight { sides.now.swapped ≡ false }
    requires path { IsPathTo sides.now.left.now sides.now.right.now walk.old.asked (reverse walk.old.open.items) }
    requires apart { EndsApart sides.now.left.now sides.now.right.now walk.old.halt (reverse walk.old.open.items) }
    ensures { IfOk result (ExplainsPair check sides.now.left.now sides.now.right.now (two_of sides.now.left.now sides.now.right.now walk.old.asked)) }
{
    let Some(last) = walk.open.pop() else {
        unreachable!()
    };
    let Some(halt) = walk.halt else {
        unreachable!()
    };
    match pair_refused(check, sides, &last.part.pair, halt)? {
        SubtypeError::Mismatch { frames, fault } => {
            let frames = frames_to(sides, walk, last.part, frames)?;
            Ok(SubtypeError::Mismatch { frames, fault })
        }
        SubtypeError::Memory => Err(AllocError),
    }
}
