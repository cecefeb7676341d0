//! Lists of calls.

ghost use Rattle.std.specs.Prelude.{◌≡◌, ◌≢◌, ◌<◌, Some, Contains, IfErr, IfOk, MatchResult, length, slice_get, take};
ghost use Rattle.wac_component.specs.Collection.{Collection};
ghost use Rattle.wac_component.specs.Key.{AllStand, item_keys};
ghost use Rattle.wac_checker.specs.Cache.{without_number};
ghost use Rattle.wac_checker.specs.Checker.{direction, depth, remembered};
ghost use Rattle.wac_aggregator_promises.specs.Aggregated.{IsAggregated, IsByTrack};
ghost use Rattle.wac_aggregator_promises.specs.Answer.{accepted, refused, IsPlainAnswer, IsWitAnswer};
ghost use Rattle.wac_aggregator_promises.specs.PlainList.{IsPlainList};
ghost use Rattle.wac_aggregator_promises.specs.WitList.{IsWitList};
ghost use Rattle.wac_names.specs.Class.{class_of};
ghost use Rattle.wac_aggregator_narrowing.specs.Remembers.{RemembersTruly};
ghost use Rattle.wac_aggregator_errors.specs.declared.error.AggregateError.TheVariants.{Memory};
ghost use Rattle.wac_aggregator_taking.specs.Takes.{OwnersImported};
ghost use Rattle.wac_aggregator_promises.specs.Call as listed;
ghost use Rattle.wac_aggregator.specs.HandedIn.{handed_in, IsOneOf};
ghost use Rattle.wac_aggregator.specs.After.{HasReasonAfter};
ghost use Rattle.wac_aggregator.specs.Content.{shown, state_in, track_trees};

use super::aggregator::TypeAggregator;
use super::importing::advance;
use super::start::no_imports;
use std::alloc::Global;
use wac_aggregator_errors::AggregateAllError;
use wac_checker::SubtypeChecker;
use wac_component::{ItemKind, Types};

/// What is handed to an aggregator.
#[derive(Clone, Copy)]
pub struct Call<'a> {
    /// The name of the import.
    pub name: &'a str,
    /// The collection of the item.
    pub types: &'a Types,
    /// The item.
    pub kind: ItemKind,
}

/// Aggregates items one after the other, in a new aggregator whose collection has this number.
///
/// The items stand in their collections, none of which has this number;
/// equal numbers mean one collection.
///
/// A list of items that reach no interfaces with identifiers, no uses and no owners is accepted,
/// unless an allocation fails, exactly where the items of each track of names have a common lower
/// bound, whatever the order of calls; each import is then the greatest of these.
///
/// So is a list of interfaces as WIT packages give them: instances under their identifiers, whose
/// interfaces, with each that these use, have identifiers, export functions, value types and
/// resources alone, and use what owns their resources; and such items under names on other tracks.
/// It is accepted, unless an allocation fails, exactly where the interfaces on each track have a
/// common lower bound, and so the other items; where uses of one name, in interfaces on one track,
/// are of one track and one name there; and where no track leads back to itself by uses. Each
/// import is then the greatest lower bound of the interfaces on its track, or else of the items
/// there.
///
/// The first refusal is answered with the number of its call, from 0 on. Unless an allocation
/// fails, it comes only where there is reason, with a collection whose imports serve the calls
/// before it, and which holds interfaces with identifiers on no other tracks than those of
/// interfaces that their items openly reach.
///
/// What is remembered is true of the collections of the calls, and of what these grow to: the
/// answer may be handed more of their items by [`TypeAggregator::aggregate`].
///
/// No pair with an id of the number stays in the checker's cache;
/// nothing else of the checker changes.
pub fn aggregate_all(
    alloc: Global,
    number: u64,
    calls: &[Call<'_>],
    checker: &mut SubtypeChecker<'_>,
) -> Result<TypeAggregator, AggregateAllError>
    requires source { (c : listed.Call) → Contains (handed_in calls.now) c → AllStand c.types (item_keys c.kind) }
    requires one { (c d : listed.Call) → Contains (handed_in calls.now) c → Contains (handed_in calls.now) d → c.types.number ≡ d.types.number → c.types ≡ d.types }
    requires apart { (c : listed.Call) → Contains (handed_in calls.now) c → c.types.number ≢ number }
    ensures aggregated { IfOk result (λ a. IsAggregated (handed_in calls.now) (shown a)) }
    ensures plain { let cs = handed_in calls.now in IsPlainList cs → MatchResult result (λ a. IsPlainAnswer cs (accepted (track_trees a))) (λ e. e.error ≢ Memory → IsPlainAnswer cs (refused e.at)) }
    ensures wit { let cs = handed_in calls.now in IsWitList cs → MatchResult result (λ a. IsWitAnswer cs (accepted (track_trees a))) (λ e. e.error ≢ Memory → IsWitAnswer cs (refused e.at)) }
    ensures reason { IfErr result (λ e. (c : listed.Call) → slice_get (handed_in calls.now) e.at ≡ Some c → HasReasonAfter number (take e.at (handed_in calls.now)) c e.error) }
    ensures by_track { IfOk result (λ a. IsByTrack (shown a)) }
    ensures owners { IfOk result (λ a. (g : Collection) → IsOneOf (handed_in calls.now) g → OwnersImported g (state_in a)) }
    ensures truly { IfOk result (λ a. (g : Collection) → IsOneOf (handed_in calls.now) g → RemembersTruly class_of g (state_in a)) }
    ensures number { IfOk result (λ a. a.types.number ≡ number) }
    ensures at { IfErr result (λ e. e.at < length calls.now) }
    ensures forgotten { remembered checker.new ≡ without_number number (remembered checker.old) }
    ensures direction { direction checker.new ≡ direction checker.old }
    ensures depth { depth checker.new ≡ depth checker.old }
    ensures same_cache { checker.new.cache.ghost_name ≡ checker.old.cache.ghost_name }
{
    checker.forget(number);
    let mut state = no_imports(alloc, number, checker.direction(), calls.len());
    for at in 0..calls.len() {
        let call = &calls[at];
        call.types.sound();
        if let Err(error) = advance(&mut state, call) {
            return Err(AggregateAllError { at, error });
        }
        state.imports.filed();
    }
    Ok(TypeAggregator { state })
}
