//! Calls that take no memory, and so answer whatever is refused.

use super::cases::{Cache, Case, Tried, try_each};
use super::entries::ENTRIES;
use super::trial::{Trial, item};
use wac_test_tools::{defined, interface, lists_seen, resource, world};
use wac_types::{
    BorrowedPackageKey, ItemKind, SubtypeCheck, SubtypeChecker, TargetValidationReport,
    TargetValidationResult, Type, TypeAggregator, Types, ValueType, are_semver_compatible,
    is_same_key, track_of,
};

// Demands that what a collection of `entries` says of its first two defined types is right.
fn demand_defined_types(types: &Types, trial: &mut Trial) {
    let (Ok(list), Ok(record)) = (defined(types, 0), defined(types, 1)) else {
        return trial.demand(false);
    };
    let value = ValueType::Defined(record);
    trial.demand(types.contains(Type::Value(value)));
    trial.demand(types.resolve_value_type(value) == value);
    trial.demand(!value.contains_borrow(types));
    trial.demand(value.desc(types) == "record");
    trial.demand(lists_seen(types, record) == 1);
    trial.demand(lists_seen(types, list) == 1);
}

// Demands that the root of the second resource is the first.
fn demand_root(types: &Types, trial: &mut Trial) {
    let (Ok(file), Ok(other)) = (resource(types, 0), resource(types, 1)) else {
        return trial.demand(false);
    };
    trial.demand(types.resolve_resource(other) == file);
}

// Demands that an item of a word has this description, and a type of this one.
fn demand_descriptions(types: &Types, word: &str, text: &str, ty: &str, trial: &mut Trial) {
    let Ok(kind) = item(types, word) else {
        return trial.demand(false);
    };
    trial.demand(types.contains_item(kind));
    trial.demand(kind.desc(types) == text);
    let promoted = ItemKind::Type(kind.ty());
    if !types.contains_item(promoted) {
        return trial.demand(false);
    }
    trial.demand(promoted.desc(types) == ty);
    trial.demand(promoted.promote() == kind);
}

// Demands that what is listed of a collection of `entries` is right.
fn demand_lists(types: &Types, trial: &mut Trial) {
    let (Ok(interface), Ok(world)) = (interface(types, 1), world(types, 1)) else {
        return trial.demand(false);
    };
    trial.demand(types.number() == 1);
    trial.demand(types.defined_types().len() >= 3);
    trial.demand(types.modules().len() >= 3);
    trial.demand(types[interface].exports.len() == 1);
    trial.demand(types[world].imports.len() == 1);
}

// Demands that names without versions, and with plain ones, have their tracks.
fn demand_tracks(trial: &mut Trial) {
    let same = are_semver_compatible(trial.alloc, "a", "a");
    trial.demand(matches!(same, Ok(true)));
    let other = are_semver_compatible(trial.alloc, "a:b/c@0.2.0", "a:b/c@0.3.0");
    trial.demand(matches!(other, Ok(false)));
    trial.demand(matches!(track_of(trial.alloc, "a:b/c"), Ok(None)));
}

// Demands that these calls answer as they always do of a collection of `entries`.
pub(crate) fn demand_answers(types: &Types, trial: &mut Trial) {
    demand_defined_types(types, trial);
    demand_root(types, trial);
    demand_lists(types, trial);
    demand_descriptions(types, "F:fn1", "function", "function type", trial);
    demand_descriptions(types, "I:i1", "instance", "interface", trial);
    demand_tracks(trial);
}

// Demands that a new checker forgets, turns and turns back.
fn demand_turns(checker: &mut SubtypeChecker<'_>, trial: &mut Trial) {
    checker.forget(1);
    if checker.depth() != 0 {
        return trial.demand(false);
    }
    trial.demand(checker.invert() == SubtypeCheck::Covariant);
    trial.demand(checker.direction() == SubtypeCheck::Contravariant);
    trial.demand(checker.depth() == 1);
    checker.revert();
    trial.demand(checker.depth() == 0);
    trial.demand(checker.opened() == 0);
}

// Demands that a new aggregator holds nothing.
fn demand_no_imports(trial: &mut Trial) {
    let merged = TypeAggregator::new(trial.alloc, 9);
    trial.demand(merged.imports().next().is_none());
    trial.demand(merged.canonical_import_name("a") == "a");
}

// The same, and what new values answer.
pub(crate) fn demand_all_answers(types: &Types, cache: &mut Cache, trial: &mut Trial) {
    demand_answers(types, trial);
    demand_turns(&mut SubtypeChecker::new(cache), trial);
    demand_no_imports(trial);
    // a report without entries says that a component fits
    let report = TargetValidationReport::new(trial.alloc);
    trial.demand(TargetValidationResult::from(report).is_ok());
    let key = BorrowedPackageKey::from_name_and_version("a:b", None);
    trial.demand(is_same_key(&key, &key));
}

static CASES: [Case; 1] = [Case {
    shown: "a collection, a checker, an aggregator, a report and a key",
    lines: &ENTRIES,
    ways: 1,
    tried: Tried::Answers,
}];

#[test]
fn calls_that_take_no_memory_answer_whatever_is_refused(rt: HostRuntime) {
    try_each(&rt, rt.alloc(), &CASES);
}
