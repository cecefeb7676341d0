//! Interners that number texts, for maps of names.
#![tactic(auto)]

mod interners;

pub use interners::{Countdown, Numbers};
