//! Reads WIT packages: each interface and world becomes an entry of a collection of types, as the
//! reader of components would make it of the packages once they are encoded, and is found to be
//! what its text denotes.
#![tactic(auto)]

mod complete;
mod packages;
mod reading;
mod telling;

pub use packages::{Wit, WitPackage};
pub use reading::{PairError, WitPair, read_both, read_packages};
pub use wac_wit_names::{Features, MAX_REFUSALS, Reason, SourceFile, WitError, WitRefusal};
