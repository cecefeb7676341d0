//! Checks that a collection of types has what WIT packages denote.
#![tactic(auto)]

mod checks;
mod externs;
mod imports;
mod includes;
mod interfaces;
pub mod laws;
mod layers;
mod listing;
mod marks;
mod needs;
mod noting;
mod origins;
mod validator;
mod worlds;

pub use listing::PackageListing;
pub use validator::Validator;
