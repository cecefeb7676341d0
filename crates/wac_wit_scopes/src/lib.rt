//! The packages that files say, what shares names in them, and where paths lead there.
#![tactic(auto)]

mod packages;
mod paths;
mod scopes;
mod trees;

pub use packages::{have_one_name, is_same_package};
pub use paths::{leads, used_name};
pub use scopes::{ScopeItems, scopes_of};
pub use trees::SourceTrees;
