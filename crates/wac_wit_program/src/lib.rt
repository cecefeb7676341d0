//! What the program `wac-wit` does with its words: it reads WIT packages from files, and answers
//! questions about them.
#![tactic(auto)]

mod command_line;
mod loading;
mod status;

pub use command_line::run;
pub use status::{NO, REFUSED, YES};
