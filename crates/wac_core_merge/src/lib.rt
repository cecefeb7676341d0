//! Greatest lower bounds (meets) and least upper bounds (joins) of core modules and of what they
//! import and export, in the order of WebAssembly core specification, "Import Subtyping".
#![tactic(auto)]

pub mod externs;
pub(crate) mod limits;
pub mod modules;
pub mod names;

pub use externs::{join_externs, meet_externs};
pub use modules::{join_modules, meet_modules};
pub use names::add_new;
