//! What the program `wac-replay` does with its words: it answers a script, checks scripts whose
//! questions have their answers beside them, and measures how long some work takes.
//!
//! # Questions with their answers
//!
//! In a script that is checked, each line of the answer stands after its query, after `= `, without
//! the number of the query. After a line that is to be refused, one line says how, after `! `; it
//! is a question too, whatever the line asks for:
//!
//! ```text
//! # a component may import less than the target world has
//! coll 1
//! func sync -
//! world - m:log=F:fn0
//! world -
//! validate 1 w0 w1
//! = ok
//! # a component can't be asked about that isn't there
//! validate 1 w0 w2
//! ! there is no entry w2
//! ```
#![tactic(auto)]

mod benchmarks;
mod check;
mod command_line;
mod dialogue;
mod failure;
mod replaying;
mod status;

pub use benchmarks::{BenchError, Benchmark, bench};
pub use check::check_script;
pub use command_line::run;
pub use dialogue::Dialogue;
pub use replaying::replay;
pub use status::{DIFFERING, DONE, FAILED, MALFORMED, usage};
