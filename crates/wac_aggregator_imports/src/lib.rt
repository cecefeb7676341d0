//! The imports of an aggregator, and the names that lead to them.
#![tactic(auto)]

mod import;
mod imports;
mod list;
mod newer;

pub use imports::Imports;
pub use list::ImportList;
