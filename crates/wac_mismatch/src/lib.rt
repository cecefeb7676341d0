//! What a check of types answers where one doesn't fit another: a path of frames to the first
//! place where the two disagree, and the fault there.
#![tactic(auto)]

pub mod check;
pub mod difference;
pub mod error;
pub mod fault;
mod fault_text;
pub mod frame;
pub mod laws;
pub mod path;
pub mod refusals;

pub use check::SubtypeCheck;
pub use difference::Difference;
pub use error::SubtypeError;
pub use fault::{CoreField, CountOf, Fault, NameOf, ResultPart};
pub use frame::Frame;
pub use path::Path;
