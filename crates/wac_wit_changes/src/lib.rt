//! Compares WIT packages with older ones, and worlds with targets: what doesn't fit has its path
//! and its place in both sources.
//!
//! The verdicts are the library's: `is_subtype` of interfaces, `validate_target` of worlds. Where
//! it says no of an interface, each member is asked about, so that all that breaks is listed.
#![tactic(auto)]

mod checking;
mod comparing;
mod moves;
mod packages;
mod problem;
mod report;
mod texts;
mod tracks;
mod worlds;

pub use packages::{Read, compare, target_problems};
pub use problem::{Problem, fault_text, steps_of};
pub use report::{Added, ComparedItem, PackageReport, Promise, ReportSort};
pub use texts::{ComparedTexts, TextsError, compare_texts};
