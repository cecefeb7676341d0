//! Values displayed into a text.

use super::cases::{Cache, Case, Tried, try_each};
use super::trial::Trial;
use std::fmt::Display;
use wac_test_tools::defined;
use wac_types::{
    Fault, Frame, ItemKind, NameError, SubtypeChecker, SubtypeError, Types, ValueType,
};

// Displays a value.
fn display<D: Display>(value: &D, wanted: &str, trial: &mut Trial) {
    match format!(in trial.alloc; "{value}") {
        Ok(text) => trial.demand(text.as_str() == wanted),
        Err(_) => trial.refuse(),
    }
}

// Displays a value that is made for that. It is let go here, whatever its type: where its type is
// known it is dropped field by field, which takes long to prove.
fn display_made<D: Display + Drop>(value: D, wanted: &str, trial: &mut Trial) {
    display(&value, wanted, trial);
}

// Displays why a list of one type doesn't fit where a list of another is asked for.
fn display_refusal(answer: &Result<(), SubtypeError>, trial: &mut Trial) {
    match answer {
        Ok(()) => trial.demand(false),
        Err(SubtypeError::Memory) => trial.refuse(),
        Err(error) => {
            display(error, "mismatched type for list element", trial);
            let path = "mismatched type for list element / expected s8, found u8";
            display(&error.path(), path, trial);
        }
    }
}

// Displays what a collection of two lists shows: the refusal, and an id.
fn display_lists(types: &Types, checker: &mut SubtypeChecker<'_>, trial: &mut Trial) {
    let (Ok(a), Ok(b)) = (defined(types, 0), defined(types, 1)) else {
        return trial.demand(false);
    };
    display(&b, "1", trial);
    let a = ItemKind::Value(ValueType::Defined(a));
    let b = ItemKind::Value(ValueType::Defined(b));
    display_refusal(&checker.is_subtype(trial.alloc, a, types, b, types), trial);
}

// Displays what such a refusal is made of, and why a name is refused.
fn display_parts(trial: &mut Trial) {
    let (expected, found) = ("s8", "u8");
    let frame = "mismatched type for list element";
    display_made(Frame::ListElement, frame, trial);
    let fault = "expected s8, found u8";
    display_made(Fault::Kind { expected, found }, fault, trial);
    display_made(NameError::Memory, "out of memory", trial);
}

// Displays what shows itself, of a collection of two lists and alone.
pub(crate) fn display_all(types: &Types, cache: &mut Cache, trial: &mut Trial) {
    display_lists(types, &mut SubtypeChecker::new(cache), trial);
    display_parts(trial);
}

static CASES: [Case; 1] = [Case {
    shown: "a refusal, an id and parts",
    lines: &["def list u8", "def list s8"],
    ways: 1,
    tried: Tried::Display,
}];

#[test]
fn a_value_is_displayed_as_a_whole_or_not(rt: HostRuntime) {
    try_each(&rt, rt.alloc(), &CASES);
}
