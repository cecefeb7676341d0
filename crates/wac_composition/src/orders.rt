//! Lists of calls in another order, and calls that come later.

ghost use Rattle.std.specs.Prelude.{◌⊎◌, [], ◌∷◌, ◌++◌, IfOk, IsPermutation};
ghost use Rattle.wac_types.specs.HandedIn.{called, handed_in};
ghost use Rattle.wac_types.specs.PlainList.{IsPlainList};
ghost use Rattle.wac_types.specs.WitList.{IsWitList};
ghost use Rattle.wac_composition.specs.Answered.{AreAnsweredAlike, AreNamesServed};
ghost use Rattle.wac_composition.specs.Calls.{MayBeAggregated};

use super::failure::CompositionFailure;
use std::alloc::{AllocError, Global};
use std::collections::HashSet;
use wac_types::laws::{lists, trees};
use wac_types::{
    AggregateAllError, AggregateError, Call, SubtypeChecker, TypeAggregator, aggregate_all,
};

/// What is answered to calls, and to the same calls in another order, whichever that is. Of plain
/// items, and of WIT interfaces, both are accepted or both refused, and the imports are equal.
fn aggregate_in_two_orders(
    alloc: Global,
    number: u64,
    calls: &[Call<'_>],
    others: &[Call<'_>],
    checker: &mut SubtypeChecker<'_>,
) -> (
    Result<TypeAggregator, AggregateAllError>,
    Result<TypeAggregator, AggregateAllError>,
)
    requires calls { MayBeAggregated number (handed_in calls.now) }
    requires permuted { IsPermutation (handed_in calls.now) (handed_in others.now) }
    ensures { IsPlainList (handed_in calls.now) ⊎ IsWitList (handed_in calls.now) → AreAnsweredAlike result.0 result.1 }
{
    lists::imports_are_greatest_bounds();
    let given = aggregate_all(alloc, number, calls, checker);
    let other = aggregate_all(alloc, number, others, checker);
    (given, other)
}

/// Aggregates calls, and then one more with what became of them: the name of each leads to an
/// import that fits where its item is asked for.
fn aggregate_all_and_one(
    alloc: Global,
    number: u64,
    calls: &[Call<'_>],
    last: &Call<'_>,
    checker: &mut SubtypeChecker<'_>,
) -> Result<TypeAggregator, AggregateError>
    requires { MayBeAggregated number (handed_in calls.now ++ called last.now ∷ []) }
    ensures { IfOk result (AreNamesServed (handed_in calls.now ++ called last.now ∷ [])) }
{
    trees::order_is_transitive();
    match aggregate_all(alloc, number, calls, checker) {
        Ok(merged) => merged.aggregate(last.name, last.types, last.kind, checker),
        Err(refusal) => Err(refusal.error),
    }
}

/// Says what is answered to calls in reverse order, and where the last comes once the others were
/// merged.
pub(crate) fn push_other_orders(
    alloc: Global,
    text: &mut String,
    calls: &[Call<'_>],
) -> Result<(), CompositionFailure>
    requires { MayBeAggregated 4 (handed_in calls.now) }
{
    push_reversed(alloc, text, calls)?;
    match calls.split_last() {
        Some((last, others)) => push_last(alloc, text, others, last),
        None => Ok(()),
    }
}

// Says whether calls are answered alike in reverse order.
fn push_reversed(
    alloc: Global,
    text: &mut String,
    calls: &[Call<'_>],
) -> Result<(), CompositionFailure>
    requires { MayBeAggregated 4 (handed_in calls.now) }
{
    let reversed = reversed(alloc, calls)?;
    let mut cache = HashSet::new(alloc);
    let mut checker = SubtypeChecker::new(&mut cache);
    let (given, other) = aggregate_in_two_orders(alloc, 4, calls, &reversed, &mut checker);
    let said = match (is_merged(&given)?, is_merged(&other)?) {
        (true, true) => "merged as well",
        (false, false) => "refused as well",
        _ => "answered otherwise",
    };
    writeln!(text, "  the same calls in reverse order: {said}")?;
    Ok(())
}

// Whether calls were merged. A failed allocation says nothing of them.
fn is_merged(
    answer: &Result<TypeAggregator, AggregateAllError>,
) -> Result<bool, CompositionFailure> {
    match answer {
        Ok(_) => Ok(true),
        Err(refusal) if matches!(&refusal.error, AggregateError::Memory) => Err(
            CompositionFailure::Memory,
        ),
        Err(_) => Ok(false),
    }
}

// The same calls, the last first.
fn reversed<'a>(alloc: Global, calls: &[Call<'a>]) -> Result<Vec<Call<'a>>, AllocError>
    ensures { IfOk result (λ v. IsPermutation calls.now v.items) }
{
    let mut reversed = Vec::new(alloc);
    reversed.extend_from_slice(calls)?;
    reversed.reverse();
    Ok(reversed)
}

// Says whether a call is merged into what became of those before it.
fn push_last(
    alloc: Global,
    text: &mut String,
    calls: &[Call<'_>],
    last: &Call<'_>,
) -> Result<(), CompositionFailure>
    requires { MayBeAggregated 4 (handed_in calls.now ++ called last.now ∷ []) }
{
    let mut cache = HashSet::new(alloc);
    let mut checker = SubtypeChecker::new(&mut cache);
    let name = last.name;
    let said = match aggregate_all_and_one(alloc, 4, calls, last, &mut checker) {
        Ok(_) => "merged",
        Err(AggregateError::Memory) => return Err(CompositionFailure::Memory),
        Err(_) => "refused",
    };
    writeln!(
        text,
        "  the last call, {name}, once the others were merged: {said}"
    )?;
    Ok(())
}
