//! Why imports of components can't be merged: what an error says, and where two items that have no
//! meet clash.
#![tactic(auto)]

mod checks;
mod error;
mod explain;
mod exports;
mod frame;
mod modules;

pub use error::{AggregateAllError, AggregateError};
pub use explain::mismatch;
pub use frame::MergeFrame;
