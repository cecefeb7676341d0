//! Cases: what is tried, and with which collection.

use super::aggregating::Merging;
use super::bounding::Bounding;
use super::changing::Putting;
use super::cloning::clone_all;
use super::comparing::Comparison;
use super::displaying::display_all;
use super::filling::{UNCHANGED, fill};
use super::naming::Use;
use super::packaging::make_package;
use super::targeting::Validation;
use super::trial::Trial;
use super::without_memory::demand_all_answers;
use std::alloc::Global;
use std::collections::HashSet;
use std::process::Abort;
use wac_types::{ItemKind, Types};

// The pairs of which a checker keeps that the one fits where the other is asked for.
pub(crate) type Cache = HashSet<(ItemKind, ItemKind)>;

// What is tried, in one way or in several, whose numbers begin with 0.
pub(crate) enum Tried {
    Answers,
    Bounds(Bounding),
    Clones,
    Comparison(Comparison),
    Display,
    Merging(Merging),
    Names(Use),
    Package,
    Putting(Putting),
    Validation(Validation),
}

impl Tried {
    // Tries it in one way with a collection and an empty cache.
    fn attempt(&self, types: &mut Types, cache: &mut Cache, way: usize, trial: &mut Trial) {
        match self {
            Tried::Answers => demand_all_answers(types, cache, trial),
            Tried::Bounds(bounding) => bounding.attempt(types, way, trial),
            Tried::Clones => clone_all(types, trial),
            Tried::Comparison(comparison) => comparison.attempt(types, cache, way, trial),
            Tried::Display => display_all(types, cache, trial),
            Tried::Merging(merging) => merging.attempt(types, cache, way, trial),
            Tried::Names(done) => done.attempt(trial),
            Tried::Package => make_package(types, way, trial),
            Tried::Putting(putting) => putting.attempt(types, way, trial),
            Tried::Validation(validation) => validation.attempt(types, trial),
        }
    }
}

pub(crate) struct Case {
    // What a failure says of the case.
    pub(crate) shown: &'static str,
    // The lines of the collection, whose number is 1.
    pub(crate) lines: &'static [&'static str],
    // In how many ways it is tried.
    pub(crate) ways: usize,
    pub(crate) tried: Tried,
}

// The one owner of each collection and each cache with which something is tried.
fn try_once(case: &Case, way: usize, trial: &mut Trial) {
    let mut types = Types::new(trial.alloc, 1);
    let mut cache = HashSet::new(trial.alloc);
    match fill(trial.alloc, &mut types, case.lines, &UNCHANGED) {
        Ok(()) => case.tried.attempt(&mut types, &mut cache, way, trial),
        Err(error) => trial.fail_line(&error),
    }
}

// Whether a case passes in one way, by two trials.
fn passes(alloc: Global, case: &Case, way: usize) -> bool {
    let mut trial = Trial::new(alloc);
    try_once(case, way, &mut trial);
    try_once(case, way, &mut trial);
    trial.is_passed()
}

// Tries each case in each way.
pub(crate) fn try_each<A: Abort>(rt: &A, alloc: Global, cases: &[Case]) {
    for case in cases {
        for way in 0..case.ways {
            assert!(rt; passes(alloc, case, way), "{}, way {way}", case.shown);
        }
    }
}
