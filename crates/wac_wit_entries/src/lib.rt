//! Looks entries of a collection up that may not stand there, and takes identifiers apart.
#![tactic(auto)]

mod error;
mod lookups;
mod names;

pub use error::EntryError;
pub use lookups::{
    defined_type, func_type, interface, interface_id, resource, root_of, sort_of, world,
};
pub use names::{IdentifierParts, parts_of, version_of};
