//! Proved callers of the calls that a user meets first, one in each module.
//!
//! Each stands on `wac_types` and on std, and on `indexmap` and `semver` where it makes the map of
//! an entry or the version of a package. `CALLING.md` of `wac_types` quotes them, to the letter,
//! and `tools/facade` checks that it does.
#![tactic(auto)]

pub mod building;
pub mod linking;
pub mod listing;
pub mod meeting;
pub mod merging;
pub mod naming;
pub mod registering;
pub mod targeting;
pub mod visiting;
