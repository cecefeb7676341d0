//! The way to the innermost two that have no meet, and what is said there.

ghost use Rattle.std.specs.Prelude.{◌≡◌, ◌++◌, ◌∷◌, [], IfOk};
ghost use Rattle.wac_model.specs.ItemTree.{ItemTree};
ghost use Rattle.wac_bounds.specs.Bounds.{IsLowerBound};
ghost use Rattle.wac_component.specs.Growth.{Extends};
ghost use Rattle.wac_component.specs.Key.{AllStand, item_keys};
ghost use Rattle.wac_component.specs.Sound.{IsSound};
ghost use Rattle.wac_component.specs.Tree.{item_tree};
ghost use Rattle.wac_merge.specs.Known.{KnowsMeets};
ghost use Rattle.wac_aggregator_errors.specs.declared.frame.MergeFrame.TheVariants.{Export};
ghost use Rattle.wac_aggregator_errors.specs.Clashes.{AreApart, HasNoClash, IsMismatch, ClashesAt};
ghost use Rattle.wac_aggregator_errors.specs.Found.{IsWayTo};

use crate::checks::item_error;
use crate::exports::clash_below;
use crate::modules::{CoreClash, module_clash};
use crate::{AggregateError, MergeFrame};
use std::alloc::{AllocError, Global};
use wac_component::{ItemKind, Types};
use wac_merge::Meets;
use wac_mismatch::SubtypeCheck;

/// The mismatch of two items that have no meet: the frames go on to the innermost two of one name
/// that have none, and the error is what a checker of this direction says there of the existing one
/// where the new one is asked for.
pub fn mismatch(
    alloc: Global,
    own: &mut Types,
    check: SubtypeCheck,
    frames: Vec<MergeFrame>,
    existing: ItemKind,
    new: ItemKind,
) -> Result<AggregateError, AllocError>
    requires existing { AllStand own.old (item_keys existing) }
    requires new { AllStand own.old (item_keys new) }
    requires apart { (t : ItemTree) → ¬ (IsLowerBound t (item_tree own.old existing ∷ item_tree own.old new ∷ [])) }
    ensures mismatch { IfOk result (IsMismatch frames.items (λ more e. ClashesAt check e more (item_tree own.old existing) (item_tree own.old new))) }
    ensures grows { Extends own.old own.new }
{
    own.sound();
    let mut frames = frames;
    let mut meets = Meets::new(alloc);
    match follow(&mut meets, own, &mut frames, existing, new) {
        Ok(Clashing { existing, new }) => innermost(alloc, own, check, frames, existing, new),
        Err(error) => Err(error),
    }
}

// Two items that have no meet.
#[derive(Clone, Copy)]
struct Clashing {
    existing: ItemKind,
    new: ItemKind,
}

// Goes down from two items that have no meet to the innermost two of one name that have none, and
// puts the frames that lead there last. What is known of meets is kept meanwhile: below two that
// have none, the same pairs are asked about again. Each turn goes down: memory ends long before the
// turns do.
fn follow(
    meets: &mut Meets,
    own: &mut Types,
    frames: &mut Vec<MergeFrame>,
    existing: ItemKind,
    new: ItemKind,
) -> Result<Clashing, AllocError>
    requires existing { AllStand own.old (item_keys existing) }
    requires new { AllStand own.old (item_keys new) }
    requires apart { AreApart (item_tree own.old existing) (item_tree own.old new) }
    requires sound { IsSound own.old }
    requires known { KnowsMeets own.old own.old meets.old }
    ensures way { IfOk result (λ r. IsWayTo own.old (existing, new) frames.old.items own.new (r.existing, r.new) frames.new.items) }
    ensures innermost { IfOk result (λ r. HasNoClash (item_tree own.new r.existing) (item_tree own.new r.new)) }
    ensures grows { Extends own.old own.new }
{
    let mut at = Clashing { existing, new };
    for _turn in 0..u64::MAX {
        let Some(clash) = clash_below(meets, own, at.existing, at.new)? else {
            return Ok(at);
        };
        at = Clashing {
            existing: clash.existing,
            new: clash.new,
        };
        frames.push(MergeFrame::Export(clash.name))?;
    }
    Err(AllocError)
}

// The mismatch of two items that have no meet, and no exports of one name that have
// none, but those of core modules.
fn innermost(
    alloc: Global,
    own: &Types,
    check: SubtypeCheck,
    frames: Vec<MergeFrame>,
    existing: ItemKind,
    new: ItemKind,
) -> Result<AggregateError, AllocError>
    requires existing { AllStand own.now (item_keys existing) }
    requires new { AllStand own.now (item_keys new) }
    requires apart { AreApart (item_tree own.now existing) (item_tree own.now new) }
    requires innermost { HasNoClash (item_tree own.now existing) (item_tree own.now new) }
    ensures { IfOk result (IsMismatch frames.items (λ more e. ClashesAt check e more (item_tree own.now existing) (item_tree own.now new))) }
{
    match module_clash(alloc, own, existing, new)? {
        Some(CoreClash { name, error }) => Ok(AggregateError::Mismatch {
            frames: with_export(frames, name)?,
            error,
        }),
        None => {
            let error = item_error(alloc, own, check, existing, new)?;
            Ok(AggregateError::Mismatch { frames, error })
        }
    }
}

// The frames with one to an export last.
fn with_export(frames: Vec<MergeFrame>, name: String) -> Result<Vec<MergeFrame>, AllocError>
    ensures { IfOk result (λ more. more.items ≡ frames.items ++ Export name ∷ []) }
{
    let mut more = frames;
    more.push(MergeFrame::Export(name))?;
    Ok(more)
}
