//! Copies of the entries of one collection in another: what stands below an import of a component,
//! which no place elsewhere names.
#![tactic(auto)]

mod copies;

pub use copies::copy_externs;
