//! The part of the subtype checker that compares core modules and what they import and export
//! (WebAssembly core specification, "Import Subtyping").
#![tactic(auto)]

pub mod externs;
pub(crate) mod fields;
pub mod modules;

pub use externs::core_extern_fits;
pub use modules::module_fits;
