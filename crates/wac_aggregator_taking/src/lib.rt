//! Takes items of other collections into the state of merging: each entry once.
#![tactic(auto)]

mod entering;
mod entries;
mod growing;
mod handed_in;
mod identity;
mod interfaces;
mod meeting;
mod near;
mod noting;
mod owners;
mod ready;
mod serving;
mod state;
mod steps;
mod worlds;

pub use handed_in::HandedIn;
pub use meeting::meet_own;
pub use state::Merging;
pub use steps::take_item;
