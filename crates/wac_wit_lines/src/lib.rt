//! Lists the entries of a collection as the lines of a script that builds them, so that
//! `wac-replay` can be asked anything about what was read.
#![tactic(auto)]

mod copies;
mod lines;
mod members;
mod picking;
mod placing;

pub use lines::{push_all, push_one};
