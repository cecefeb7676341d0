//! Answers about packages of WIT, whose texts are given: what a new version breaks, whether a
//! component runs in a world, and what the imports of many components are together.
//!
//! `input` reads the texts, and `finding` finds what a word names. The answers stand in
//! `comparing`, `targeting`, `merging`, `showing` and `listing`; `pointing` shows the places of
//! what doesn't fit.
#![tactic(auto)]

mod answer;
mod comparing;
mod compat_json;
mod compat_text;
mod failure;
mod finding;
mod handing;
mod input;
mod lines;
mod listing;
mod merge_forms;
mod merge_packages;
mod merge_refusal;
mod merge_text;
mod merging;
mod options;
mod pointing;
mod showing;
mod targeting;

pub use answer::Answer;
pub use comparing::compat;
pub use failure::Failure;
pub use input::Texts;
pub use listing::list;
pub use merging::merge;
pub use options::{Form, Options};
pub use showing::show;
pub use targeting::targets;
