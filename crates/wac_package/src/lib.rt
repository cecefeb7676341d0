//! Packages: components, each with its name, its version, and the interfaces and worlds that it
//! defines.
#![tactic(auto)]

mod definitions;
mod interface_names;
mod keys;
pub mod laws;
mod packages;

pub use keys::{BorrowedKey, BorrowedPackageKey, PackageKey, is_same_key, same_key};
pub use packages::Package;
