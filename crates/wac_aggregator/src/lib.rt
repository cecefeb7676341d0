//! Aggregates items of different collections into imports: what is handed in under
//! compatible names becomes one import.
#![tactic(auto)]

mod aggregator;
mod all;
mod cases;
mod importing;
mod noting;
mod start;

pub use aggregator::TypeAggregator;
pub use all::{Call, aggregate_all};
pub use wac_aggregator_errors::{AggregateAllError, AggregateError, MergeFrame};
pub use wac_aggregator_imports::Imports;
