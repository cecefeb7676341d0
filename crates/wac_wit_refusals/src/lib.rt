//! Why packages of WIT aren't read: a refusal names a reason, and what that says holds of the files.
#![tactic(auto)]

mod confirming;
mod externs;
mod given_twice;
mod hidden;
mod leading;
mod members;
mod packages;
mod reasons;
mod since;
mod used;

pub use confirming::confirmed;
