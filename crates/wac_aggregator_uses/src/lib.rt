//! Whether uses of one name agree, so that what uses them can be merged.
#![tactic(auto)]

mod uses;

pub use uses::{check_uses, check_uses_of};
