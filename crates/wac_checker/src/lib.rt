//! The subtype checker: which type fits where another is asked for, and a path to where it doesn't.
#![tactic(auto)]

pub(crate) mod cache;
pub mod checker;
pub mod compared;
pub(crate) mod faults;
pub(crate) mod frames;
pub(crate) mod known;
pub mod laws;
pub(crate) mod walk;

pub use checker::SubtypeChecker;
pub use compared::Compared;
