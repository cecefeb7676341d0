//! A caller of `aggregate_all`.

ghost use Rattle.std.specs.Prelude.{◌≡◌, ◌≢◌, Contains, IfOk, MatchResult};
ghost use Rattle.wac_types.specs.Aggregated.{AllAreServed};
ghost use Rattle.wac_types.specs.Aggregator.{shown};
ghost use Rattle.wac_types.specs.Call as listed;
ghost use Rattle.wac_types.specs.Compatible.{IsCompatibleWitList};
ghost use Rattle.wac_types.specs.HandedIn.{handed_in};
ghost use Rattle.wac_types.specs.Key.{AllStand, item_keys};
ghost use Rattle.wac_types.specs.WitList.{IsWitList};
ghost use Rattle.wac_types.specs.declared.AggregateError.TheVariants.{Memory};

use std::alloc::Global;
use std::collections::HashSet;
use wac_types::laws::lists;
use wac_types::{AggregateAllError, Call, SubtypeChecker, TypeAggregator, aggregate_all};

/// Merges what components import into one list. The import to which a name leads fits wherever an
/// item that was handed in on its track is asked for. WIT interfaces are refused, unless an
/// allocation fails, exactly where they aren't compatible.
pub fn merge_list(
    alloc: Global,
    number: u64,
    calls: &[Call<'_>],
) -> Result<TypeAggregator, AggregateAllError>
    requires source { (c : listed.Call) → Contains (handed_in calls.now) c → AllStand c.types (item_keys c.kind) }
    requires one { (c d : listed.Call) → Contains (handed_in calls.now) c → Contains (handed_in calls.now) d → c.types.number ≡ d.types.number → c.types ≡ d.types }
    requires apart { (c : listed.Call) → Contains (handed_in calls.now) c → c.types.number ≢ number }
    ensures served { IfOk result (λ a. AllAreServed (handed_in calls.now) (shown a)) }
    ensures wit { IsWitList (handed_in calls.now) → MatchResult result (λ a. IsCompatibleWitList (handed_in calls.now)) (λ e. e.error ≢ Memory → ¬ IsCompatibleWitList (handed_in calls.now)) }
{
    lists::answers_are_exact();
    let mut cache = HashSet::new(alloc);
    let mut checker = SubtypeChecker::new(&mut cache);
    aggregate_all(alloc, number, calls, &mut checker)
}
