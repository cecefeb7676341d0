//! Types of two collections that are alike: they have equal trees, and the owners of the resources
//! that they are made of are on the same tracks.
#![tactic(auto)]

mod alike;
mod owners;
mod parts;
mod walk;

pub use alike::{alike_resources, alike_values};
pub use owners::owner_of;
