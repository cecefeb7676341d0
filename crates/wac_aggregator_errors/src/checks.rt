//! What a checker says of what doesn't fit.

ghost use Rattle.std.specs.Prelude.{◌≡◌, ◌<◌, ◌++◌, ◌↔◌, IsTrue, IfOk};
ghost use Rattle.wac_model.specs.CoreTree.{CoreFits};
ghost use Rattle.wac_model.specs.Order.{Fits};
ghost use Rattle.wac_core.specs.Content.{core_tree};
ghost use Rattle.wac_component.specs.Growth.{Extends};
ghost use Rattle.wac_component.specs.Key.{AllStand, item_keys};
ghost use Rattle.wac_component.specs.Tree.{item_tree};
ghost use Rattle.wac_mismatch.specs.declared.check.SubtypeCheck.TheVariants.{Covariant};
ghost use Rattle.wac_mismatch.specs.Place.{item_side};
ghost use Rattle.wac_checker.specs.Checker.{direction, depth, remembered};
ghost use Rattle.wac_aggregator_errors.specs.Clashes.{AreApart, SaysNo, SaysOfCores};
ghost use Rattle.wac_aggregator_errors.specs.Found.{IsKnownFrom, GoesOnKnown};

use std::alloc::{AllocError, Global};
use std::collections::HashSet;
use wac_checker::SubtypeChecker;
use wac_component::{ItemKind, Types};
use wac_core::CoreExtern;
use wac_merge::Meets;
use wac_mismatch::{SubtypeCheck, SubtypeError};

// Whether two items have no meet.
pub(crate) fn are_apart(
    meets: &mut Meets,
    own: &mut Types,
    a: ItemKind,
    b: ItemKind,
) -> Result<bool, AllocError>
    requires known { IsKnownFrom own.old meets.old (item_keys a ++ item_keys b) }
    ensures grows { Extends own.old own.new }
    ensures known { GoesOnKnown (item_keys a ++ item_keys b) own.old meets.old own.new meets.new }
    ensures apart { IfOk result (λ yes. IsTrue yes ↔ AreApart (item_tree own.old a) (item_tree own.old b)) }
{
    match meets.meet(own, a, b) {
        Ok(met) => Ok(met.is_none()),
        Err(error) => Err(error),
    }
}

// Turns a new checker into this direction.
fn turn(checker: &mut SubtypeChecker<'_>, check: SubtypeCheck)
    requires covariant { direction checker.old ≡ Covariant }
    requires new { depth checker.old ≡ 0 }
    ensures direction { direction checker.new ≡ check }
    ensures remembered { remembered checker.new ≡ remembered checker.old }
{
    match check {
        SubtypeCheck::Covariant => {}
        SubtypeCheck::Contravariant => {
            checker.invert();
        }
    }
}

// What a checker of this direction says of an item that doesn't fit where another is asked for.
pub(crate) fn item_error(
    alloc: Global,
    own: &Types,
    check: SubtypeCheck,
    existing: ItemKind,
    new: ItemKind,
) -> Result<SubtypeError, AllocError>
    requires existing { AllStand own.now (item_keys existing) }
    requires new { AllStand own.now (item_keys new) }
    requires unfit { ¬ (Fits (item_tree own.now existing) (item_tree own.now new)) }
    ensures { IfOk result (λ e. SaysNo e check (item_side (item_tree own.now existing)) (item_side (item_tree own.now new))) }
{
    let mut pairs = HashSet::new(alloc);
    let mut checker = SubtypeChecker::new(&mut pairs);
    turn(&mut checker, check);
    match checker.is_subtype(alloc, existing, own, new, own) {
        Ok(()) => unreachable!(),
        Err(SubtypeError::Memory) => Err(AllocError),
        Err(error) => Ok(error),
    }
}

// What a checker says of a core extern that doesn't fit where another is asked for.
pub(crate) fn core_error(
    alloc: Global,
    existing: &CoreExtern,
    new: &CoreExtern,
) -> Result<SubtypeError, AllocError>
    requires unfit { ¬ (CoreFits (core_tree existing.now) (core_tree new.now)) }
    ensures { IfOk result (λ e. SaysOfCores e (core_tree existing.now) (core_tree new.now)) }
{
    let mut pairs = HashSet::new(alloc);
    let checker = SubtypeChecker::new(&mut pairs);
    match checker.core_subtype(alloc, existing, new) {
        Ok(()) => unreachable!(),
        Err(SubtypeError::Memory) => Err(AllocError),
        Err(error) => Ok(error),
    }
}
