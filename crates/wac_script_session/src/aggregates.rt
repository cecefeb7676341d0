//! What an aggregator makes of calls.

ghost use Rattle.std.specs.Prelude.{◌≡◌, [], ◌∷◌, ◌++◌, IfOk, OnOk};
ghost use Rattle.wac_component.specs.Collection.{Collection};
ghost use Rattle.wac_component.specs.Key.{AllStand, item_keys};
ghost use Rattle.wac_names.specs.Class.{class_of};
ghost use Rattle.wac_aggregator_narrowing.specs.Remembers.{RemembersTruly};
ghost use Rattle.wac_aggregator_narrowing.specs.State.{IsOneWith};
ghost use Rattle.wac_aggregator.specs.Content.{state_in};
ghost use Rattle.wac_aggregator.specs.HandedIn.{called, handed_in};
ghost use Rattle.wac_script_session.specs.Calls.{IsCallIn, AreCallsIn, AreAsked};
ghost use Rattle.wac_script_session.specs.Props.{props};

use super::collections::Collections;
use super::comparisons::push_path;
use super::imports::push_imports;
use super::lines::push_on_one_line;
use std::alloc::{AllocError, Global};
use std::collections::HashSet;
use wac_aggregator::{AggregateAllError, AggregateError, Call, TypeAggregator, aggregate_all};
use wac_checker::SubtypeChecker;
use wac_component::{ItemKind, Types};
use wac_script_entries::find_item;
use wac_script_syntax::{ItemCall, ScriptError, unexpected};

// Whether one checker is asked at all calls.
fn read_is_shared<'a>(words: &[&'a str]) -> Result<bool, ScriptError<'a>> {
    let [word] = *words else {
        return Err(ScriptError::Misused("aggregate shared|fresh"));
    };
    match word {
        "shared" => Ok(true),
        "fresh" => Ok(false),
        _ => Err(unexpected("`shared` or `fresh`", word)),
    }
}

/// What a call hands to an aggregator.
pub(crate) fn call_of<'a, 'b>(
    collections: &'b Collections,
    call: &'b ItemCall,
) -> Result<Call<'b>, ScriptError<'a>>
    ensures { IfOk result (λ c. IsCallIn collections.now (called c)) }
{
    let types = collections.get(call.collection)?;
    match find_item(types, call.item) {
        Ok(kind) => Ok(Call {
            name: call.name.as_str(),
            types,
            kind,
        }),
        Err(missing) => Err(ScriptError::NoEntry(missing)),
    }
}

// What calls hand to an aggregator.
fn calls_of<'a, 'b>(
    alloc: Global,
    collections: &'b Collections,
    calls: &'b [ItemCall],
) -> Result<Vec<Call<'b>>, ScriptError<'a>>
    ensures { IfOk result (λ found. AreCallsIn collections.now (handed_in found.items)) }
{
    let mut found = Vec::with_capacity(alloc, calls.len())?;
    for call in calls {
        match call_of(collections, call) {
            Ok(call) => push_call(&mut found, call.name, call.types, call.kind)?,
            Err(error) => return Err(error),
        }
    }
    Ok(found)
}

fn push_call<'a>(
    calls: &mut Vec<Call<'a>>,
    name: &'a str,
    types: &'a Types,
    kind: ItemKind,
) -> Result<(), AllocError>
    ensures { OnOk result (handed_in calls.new.items ≡ handed_in calls.old.items ++ (record { name = name.now; types = types.now; kind = kind }) ∷ []) }
{
    match calls.push(Call { name, types, kind }) {
        Ok(()) => Ok(()),
        Err(_) => Err(AllocError),
    }
}

/// What calls hand to an aggregator, with a number for its collection.
#[derive(Drop)]
pub struct HandedCalls<'a> {
    number: u64,
    calls: Vec<Call<'a>>,
    ghost asked: { AreAsked number (handed_in calls.items) } by { Prim.hlevel props },
}

impl<'a> HandedCalls<'a> {
    /// What calls hand in. `Memory` is a failed allocation.
    pub(crate) fn of<'b>(
        alloc: Global,
        collections: &'a Collections,
        calls: &'a [ItemCall],
    ) -> Result<HandedCalls<'a>, ScriptError<'b>> {
        let Some(number) = collections.free_number() else {
            return Err(ScriptError::Memory);
        };
        let calls = calls_of(alloc, collections, calls)?;
        Ok(HandedCalls { number, calls })
    }

    /// What a new aggregator makes of them, with one checker and an empty cache for all of them.
    pub fn aggregate(&self, alloc: Global) -> Result<TypeAggregator, AggregateAllError> {
        aggregated(alloc, self.number, &self.calls, true)
    }
}

/// Puts the answer to `aggregate` last: the imports that calls make, the names that lead to them,
/// and whether they fit where the items are asked for, or why a call is refused.
pub(crate) fn aggregate<'a>(
    alloc: Global,
    text: &mut String,
    collections: &Collections,
    calls: &[ItemCall],
    words: &[&'a str],
) -> Result<(), ScriptError<'a>> {
    let is_shared = read_is_shared(words)?;
    let handed = HandedCalls::of(alloc, collections, calls)?;
    let outcome = aggregated(alloc, handed.number, &handed.calls, is_shared);
    Ok(push_outcome(alloc, text, &handed.calls, outcome)?)
}

// Aggregates items with one checker, or with a new one for each.
fn aggregated(
    alloc: Global,
    number: u64,
    calls: &[Call<'_>],
    is_shared: bool,
) -> Result<TypeAggregator, AggregateAllError>
    requires { AreAsked number (handed_in calls.now) }
    ensures { IfOk result (λ a. a.types.number ≡ number) }
{
    if is_shared {
        let mut cache = HashSet::new(alloc);
        let mut checker = SubtypeChecker::new(&mut cache);
        return aggregate_all(alloc, number, calls, &mut checker);
    }
    aggregate_each(alloc, number, calls)
}

// Aggregates items with a new checker for each.
fn aggregate_each(
    alloc: Global,
    number: u64,
    calls: &[Call<'_>],
) -> Result<TypeAggregator, AggregateAllError>
    requires { AreAsked number (handed_in calls.now) }
    ensures { IfOk result (λ a. a.types.number ≡ number) }
{
    let mut aggregator = TypeAggregator::new(alloc, number);
    for at in 0..calls.len() {
        match aggregate_one(alloc, aggregator, &calls[at]) {
            Ok(next) => aggregator = next,
            Err(error) => return Err(AggregateAllError { at, error }),
        }
    }
    Ok(aggregator)
}

// Aggregates an item with a new checker.
fn aggregate_one(
    alloc: Global,
    aggregator: TypeAggregator,
    call: &Call<'_>,
) -> Result<TypeAggregator, AggregateError>
    requires source { AllStand call.now.types.now (item_keys call.now.kind) }
    requires apart { ¬ (call.now.types.now.number ≡ aggregator.types.number) }
    requires remembered { RemembersTruly class_of call.now.types.now (state_in aggregator) }
    ensures truly { IfOk result (λ a. (g : Collection) → IsOneWith call.now.types.now g → RemembersTruly class_of g (state_in aggregator) → RemembersTruly class_of g (state_in a)) }
    ensures number { IfOk result (λ a. a.types.number ≡ aggregator.types.number) }
{
    let mut cache = HashSet::new(alloc);
    let mut checker = SubtypeChecker::new(&mut cache);
    aggregator.aggregate(call.name, call.types, call.kind, &mut checker)
}

// Puts last what calls came to.
fn push_outcome(
    alloc: Global,
    text: &mut String,
    calls: &[Call<'_>],
    outcome: Result<TypeAggregator, AggregateAllError>,
) -> Result<(), AllocError>
    requires { IfOk outcome (λ a. AreAsked a.types.number (handed_in calls.now)) }
{
    match outcome {
        Ok(aggregator) => push_imports(alloc, text, &aggregator, calls),
        Err(error) => push_refusal(alloc, text, &error),
    }
}

// Puts `no` last, which call was refused, and why.
fn push_refusal(
    alloc: Global,
    text: &mut String,
    refusal: &AggregateAllError,
) -> Result<(), AllocError> {
    let at = refusal.at;
    write!(text, "no at {at}: ")?;
    push_error(alloc, text, &refusal.error)
}

// Puts the texts of a refusal last, on one line.
fn push_error(alloc: Global, text: &mut String, error: &AggregateError) -> Result<(), AllocError> {
    match error {
        AggregateError::Memory => Err(AllocError),
        AggregateError::Mismatch { frames, error } => {
            for frame in frames {
                push_on_one_line(text, &format!(in alloc; "{frame} / ")?)?;
            }
            push_path(alloc, text, error)
        }
        error => push_on_one_line(text, &format!(in alloc; "{error}")?),
    }
}
