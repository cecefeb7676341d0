//! Greatest lower and least upper bounds of items: what two imports that are merged into one must
//! be, and what fits where either of two items is given.
#![tactic(auto)]

mod bounds;
mod composites;
mod entries;
mod externs;
mod items;
mod meets;
mod memo;
mod modules;
mod names;
mod order;
mod pairs;
mod steps;

pub use bounds::{join, meet};
pub use meets::Meets;
pub use names::{extern_named, put_extern};
