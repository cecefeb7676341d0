//! Answers, and what they are to say.

use super::trial::Trial;
use std::fmt::Write;
use wac_test_tools::{Expecting, shows};
use wac_types::{AggregateAllError, AggregateError, SubtypeError, TypeAggregator};

// What a call answers.
pub(crate) trait Outcome: Drop {
    // Demands that it says this, unless it says that a request was refused.
    fn demand(&self, wanted: &str, trial: &mut Trial);
}

// Demands that an answer says this. It is let go here, whatever its type: one whose type is known is
// dropped field by field, which takes long to prove.
pub(crate) fn judge<O: Outcome>(answer: O, wanted: &str, trial: &mut Trial) {
    answer.demand(wanted, trial);
}

// That an item fits is `fits`, and else the path to where it doesn't.
impl Outcome for Result<(), SubtypeError> {
    fn demand(&self, wanted: &str, trial: &mut Trial) {
        match self {
            Ok(()) => trial.demand(wanted == "fits"),
            Err(SubtypeError::Memory) => trial.refuse(),
            Err(error) => trial.demand(shows(&error.path(), wanted)),
        }
    }
}

// Whether these are the names of the imports, each with a space after it.
fn imports(merged: &TypeAggregator, names: &str) -> bool {
    let mut out = Expecting::of(names);
    let mut is_written = true;
    for (name, _) in merged.imports() {
        is_written &= write!(out, "{name} ").is_ok();
    }
    is_written && out.has_all()
}

fn demand_refusal(error: &AggregateError, wanted: &str, trial: &mut Trial) {
    match error {
        AggregateError::Memory => trial.refuse(),
        error => trial.demand(shows(error, wanted)),
    }
}

// What merging comes to are the names of the imports, or what the refusal says.
impl Outcome for Result<TypeAggregator, AggregateError> {
    fn demand(&self, wanted: &str, trial: &mut Trial) {
        match self {
            Ok(merged) => trial.demand(imports(merged, wanted)),
            Err(error) => demand_refusal(error, wanted, trial),
        }
    }
}

impl Outcome for Result<TypeAggregator, AggregateAllError> {
    fn demand(&self, wanted: &str, trial: &mut Trial) {
        match self {
            Ok(merged) => trial.demand(imports(merged, wanted)),
            Err(refusal) => demand_refusal(&refusal.error, wanted, trial),
        }
    }
}
