//! What the crates of tests share: entries by their index, what values show, a visitor, and a
//! writer that knows what is to be written to it.
#![tactic(auto)]

mod finding;
mod showing;
mod visiting;
mod writers;

pub use finding::{Missing, defined, function, interface, module, resource, world};
pub use showing::{debugs, shows};
pub use visiting::lists_seen;
pub use writers::Expecting;
