//! Makes the interfaces and the worlds of WIT packages: the names in their syntax trees are looked
//! up, and each becomes an entry of a collection of types.
#![tactic(auto)]

mod adding;
mod builder;
mod exports;
mod functions;
mod includes;
mod interfaces;
mod making;
mod ordering;
mod renaming;
mod shapes;
mod typedefs;
mod typeorder;
mod uses;
mod values;
mod worlds;

pub use making::make_all;
