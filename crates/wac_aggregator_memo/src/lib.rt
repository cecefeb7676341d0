//! What stands for the entries of other collections, and contents that are made of it.
#![tactic(auto)]

pub mod memo;
pub mod order;
pub mod renamed;

pub use memo::Memo;
pub use order::parts_first;
