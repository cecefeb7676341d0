//! Clones: a clone is like its original, and where it is refused the original is as before.

use super::cases::{Case, Tried, try_each};
use super::entries::ENTRIES;
use super::trial::Trial;
use indexmap::map::Values;
use std::fmt::Debug;
use std::slice;
use wac_types::{CoreExtern, DefinedType, EntryId, Interface, ModuleType, NameClass, Types};

// Clones a value.
pub(crate) fn clone<T: Clone + Debug>(value: &T, trial: &mut Trial) {
    let text = trial.text_of(value);
    match value.clone() {
        Ok(copy) => trial.demand_text(&copy, &text),
        Err(_) => trial.refuse(),
    }
    trial.demand_text(value, &text);
}

// Clones each value of a list.
fn clone_each<T: Clone + Debug>(values: slice::Iter<'_, T>, trial: &mut Trial) {
    for value in values {
        clone(value, trial);
    }
}

// Clones a defined type, and the part of it that has a type of its own.
fn clone_defined_type(ty: &DefinedType, trial: &mut Trial) {
    clone(ty, trial);
    match ty {
        DefinedType::Variant(part) => clone(part, trial),
        DefinedType::Record(part) => clone(part, trial),
        DefinedType::Flags(part) => clone(part, trial),
        DefinedType::Enum(part) => clone(part, trial),
        _ => {}
    }
}

// Clones an interface, and what it uses.
fn clone_interface(interface: &Interface, trial: &mut Trial) {
    clone(interface, trial);
    for used in interface.uses.values() {
        clone(used, trial);
    }
}

// Clones what is imported or exported, and of a function its type.
fn clone_externs<K>(items: Values<'_, K, CoreExtern>, trial: &mut Trial) {
    for item in items {
        clone(item, trial);
        if let CoreExtern::Func(ty) | CoreExtern::Tag(ty) = item {
            clone(ty, trial);
        }
    }
}

// Clones a core module, and what it imports and exports.
fn clone_module(module: &ModuleType, trial: &mut Trial) {
    clone(module, trial);
    clone_externs(module.imports.values(), trial);
    clone_externs(module.exports.values(), trial);
}

// Clones the contents that have parts, and their parts.
fn clone_with_parts(types: &Types, trial: &mut Trial) {
    for ty in types.defined_types() {
        clone_defined_type(ty, trial);
    }
    for interface in types.interfaces() {
        clone_interface(interface, trial);
    }
    for module in types.modules() {
        clone_module(module, trial);
    }
}

// Clones a class whose text is too long to lie in the value.
fn clone_class(trial: &mut Trial) {
    match NameClass::of(trial.alloc, "wasi:sockets/instance-network-provider@1.2.3") {
        Ok(class) => clone(&class, trial),
        Err(_) => trial.refuse(),
    }
}

// Lists what the second defined type names, which is the first.
fn list_named(types: &Types, trial: &mut Trial) {
    let Some(id) = types.defined_type_at(1) else {
        return trial.demand(false);
    };
    match types.ids_in(trial.alloc, EntryId::Defined(id)) {
        Ok(ids) => trial.demand(ids.len() == 1),
        Err(_) => trial.refuse(),
    }
}

// Clones each content of a collection, the ids in one, and a class of names.
pub(crate) fn clone_all(types: &Types, trial: &mut Trial) {
    list_named(types, trial);
    clone_with_parts(types, trial);
    clone_each(types.resources(), trial);
    clone_each(types.func_types(), trial);
    clone_each(types.worlds(), trial);
    clone_class(trial);
}

// Defined types of each kind.
const DEFINED: &[&str] = &[
    "def list u8",
    "def tuple d0 u8",
    "def fixed u8 4",
    "def map u8 d0",
    "def option d0",
    "def result u8 -",
    "def alias d0",
    "def stream u8",
    "def future -",
    "def variant a=- b=u8",
    "def record a=u8",
    "def flags a b",
    "def enum a b",
];

static CASES: [Case; 2] = [
    Case {
        shown: "defined types",
        lines: DEFINED,
        ways: 1,
        tried: Tried::Clones,
    },
    Case {
        shown: "entries",
        lines: &ENTRIES,
        ways: 1,
        tried: Tried::Clones,
    },
];

#[test]
fn a_value_is_as_before_where_its_clone_is_refused(rt: HostRuntime) {
    try_each(&rt, rt.alloc(), &CASES);
}
