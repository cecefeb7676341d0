//! Whether a component fits a target world, and a report of what doesn't.
#![tactic(auto)]

mod checks;
mod given;
mod maps;
mod report;
mod target;
mod texts;

pub use report::{
    ImportsNotInTarget, MismatchedTypes, MissingExports, TargetValidationReport,
    TargetValidationResult,
};
pub use target::validate_target;
pub use texts::ItemText;
pub use wac_component::TargetError;
