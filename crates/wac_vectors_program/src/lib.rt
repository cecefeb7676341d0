//! What the program `wac-vectors` does, over any writers: it asks the library built-in
//! questions and prints its answers.
#![tactic(auto)]

mod command_line;
mod rows;
mod sides;

pub use command_line::{FAILED, run, usage};
