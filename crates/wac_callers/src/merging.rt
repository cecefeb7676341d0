//! A caller of `aggregate`, in a loop.

ghost use Rattle.std.specs.Prelude.{◌≡◌, ◌≢◌, Contains, IfOk};
ghost use Rattle.wac_types.specs.Aggregated.{LeadsBelow};
ghost use Rattle.wac_types.specs.Aggregator.{shown};
ghost use Rattle.wac_types.specs.Call as listed;
ghost use Rattle.wac_types.specs.HandedIn.{handed_in};
ghost use Rattle.wac_types.specs.Key.{AllStand, item_keys};

use std::alloc::Global;
use wac_types::laws::trees;
use wac_types::{AggregateError, Call, SubtypeChecker, TypeAggregator};

/// Merges what components import, one item after another. The import to which a name leads fits
/// where each item that was handed in under the name is asked for.
pub fn merge_each(
    alloc: Global,
    number: u64,
    calls: &[Call<'_>],
    checker: &mut SubtypeChecker<'_>,
) -> Result<TypeAggregator, AggregateError>
    requires source { (c : listed.Call) → Contains (handed_in calls.now) c → AllStand c.types (item_keys c.kind) }
    requires one { (c d : listed.Call) → Contains (handed_in calls.now) c → Contains (handed_in calls.now) d → c.types.number ≡ d.types.number → c.types ≡ d.types }
    requires apart { (c : listed.Call) → Contains (handed_in calls.now) c → c.types.number ≢ number }
    ensures { IfOk result (λ a. (c : listed.Call) → Contains (handed_in calls.now) c → LeadsBelow (shown a) c.name (listed.call_tree c)) }
{
    trees::order_is_transitive();
    let mut merged = TypeAggregator::new(alloc, number);
    for call in calls {
        merged = merged.aggregate(call.name, call.types, call.kind, checker)?;
    }
    Ok(merged)
}
