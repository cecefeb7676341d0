//! What is known of interfaces and worlds once they are made, and all that a world imports and
//! exports, in the order in which it is encoded.
#![tactic(auto)]

mod elaborating;
mod made;
mod site;

pub use made::{
    Exported, ImportSort, KnownEntries, MadeEntry, MadeInterface, MadeWorld, Meaning, NamedType,
    TypeNames, What, WorldExterns, WorldImport,
};
pub use site::Site;
