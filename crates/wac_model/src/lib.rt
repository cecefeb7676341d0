//! The definitions that every contract of `wac_types` stands on: what a type of a WebAssembly
//! component is, as a tree, and which tree fits where another is asked for.
#![tactic(auto)]

pub mod laws;
pub mod primitive;

pub use primitive::PrimitiveType;
