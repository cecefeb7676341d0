//! Whether a core extern fits where another is asked for.

ghost use Rattle.std.specs.Prelude.{◌≡◌, ◌≢◌, MatchResult, IfOk};
ghost use Rattle.wac_model.specs.CoreTree.{CoreFits};
ghost use Rattle.wac_core.specs.Content.{core_tree, core_func_content};
ghost use Rattle.wac_core.specs.Texts.{core_extern_text};
ghost use Rattle.wac_mismatch.specs.Place.{by_check};
ghost use Rattle.wac_mismatch.specs.Holds.{IsCoreFunc};
ghost use Rattle.wac_mismatch.specs.Steps.{IsHere};
ghost use Rattle.wac_core_checker.specs.Sorts.{sort_tree};
ghost use Rattle.wac_core_checker.specs.Verdict.{RefusesHere, AreOtherSorts};

use crate::fields::{
    GlobalType, LimitsType, MemoryType, TableType, globals_fit, memories_fit, tables_fit,
};
use std::alloc::{AllocError, Global};
use wac_core::{CoreExtern, CoreFuncType};
use wac_mismatch::refusals::{expected_found, here, here_with};
use wac_mismatch::{Fault, SubtypeCheck, SubtypeError};

// The text of the sort of a core extern.
pub(crate) fn sort_text(of: &CoreExtern) -> &'static str
    ensures { result.now ≡ core_extern_text (core_tree of.now) }
{
    match of {
        CoreExtern::Func(_) => "function",
        CoreExtern::Table { .. } => "table",
        CoreExtern::Memory { .. } => "memory",
        CoreExtern::Global { .. } => "global",
        CoreExtern::Tag(_) => "tag",
    }
}

// The fault of two types of functions or tags.
fn func_fault(expected: &CoreFuncType, found: &CoreFuncType) -> Result<Fault, AllocError>
    requires { core_func_content expected.now ≢ core_func_content found.now }
    ensures { IfOk result (λ f. IsCoreFunc f (core_func_content expected.now) (core_func_content found.now)) }
{
    Ok(Fault::CoreFunc {
        expected: expected.clone()?,
        found: found.clone()?,
    })
}

// Whether two types of functions or tags are one.
fn same_funcs(
    check: SubtypeCheck,
    alloc: Global,
    a: &CoreFuncType,
    b: &CoreFuncType,
) -> Result<(), SubtypeError>
    ensures { MatchResult result (λ _. core_func_content a.now ≡ core_func_content b.now) (IsHere (λ f. by_check check (IsCoreFunc f) (core_func_content a.now) (core_func_content b.now))) }
{
    if a == b {
        return Ok(());
    }
    let (expected, found) = expected_found(check, a, b);
    Err(here_with(alloc, func_fault(expected, found)))
}

// A mismatch of two core externs of different sorts.
fn other_sorts(check: SubtypeCheck, alloc: Global, a: &CoreExtern, b: &CoreExtern) -> SubtypeError
    requires { AreOtherSorts (core_tree a.now) (core_tree b.now) }
    ensures { RefusesHere check (core_tree a.now) (core_tree b.now) result }
{
    let (expected, found) = expected_found(check, sort_text(a), sort_text(b));
    here(alloc, Fault::Kind { expected, found })
}

// A core extern by its sort, with the fields that are compared.
#[derive(Clone, Copy)]
enum Sort<'a> {
    Func(&'a CoreFuncType),
    Table(TableType),
    Memory(MemoryType),
    Global(GlobalType),
    Tag(&'a CoreFuncType),
}

// The sort of a core extern.
fn sort_of(of: &CoreExtern) -> Sort<'_>
    ensures { sort_tree result ≡ core_tree of.now }
{
    match of {
        CoreExtern::Func(x) => Sort::Func(x),
        CoreExtern::Table {
            element_type,
            initial,
            maximum,
            table64,
            shared,
        } => Sort::Table(TableType {
            element_type: *element_type,
            limits: LimitsType {
                initial: *initial,
                maximum: *maximum,
            },
            table64: *table64,
            shared: *shared,
        }),
        CoreExtern::Memory {
            memory64,
            shared,
            initial,
            maximum,
            page_size_log2,
        } => Sort::Memory(MemoryType {
            memory64: *memory64,
            shared: *shared,
            limits: LimitsType {
                initial: *initial,
                maximum: *maximum,
            },
            page_size_log2: *page_size_log2,
        }),
        CoreExtern::Global {
            val_type,
            mutable,
            shared,
        } => Sort::Global(GlobalType {
            val_type: *val_type,
            mutable: *mutable,
            shared: *shared,
        }),
        CoreExtern::Tag(x) => Sort::Tag(x),
    }
}

/// Whether a core extern fits where another is asked for: it is equal to it, but for limits, which
/// need only fit. A refusal has no frame.
pub fn core_extern_fits(
    check: SubtypeCheck,
    alloc: Global,
    a: &CoreExtern,
    b: &CoreExtern,
) -> Result<(), SubtypeError>
    ensures { MatchResult result (λ _. CoreFits (core_tree a.now) (core_tree b.now)) (RefusesHere check (core_tree a.now) (core_tree b.now)) }
{
    match (&sort_of(a), &sort_of(b)) {
        (Sort::Func(x), Sort::Func(y)) => same_funcs(check, alloc, x, y),
        (Sort::Table(x), Sort::Table(y)) => tables_fit(check, alloc, *x, *y),
        (Sort::Memory(x), Sort::Memory(y)) => memories_fit(check, alloc, *x, *y),
        (Sort::Global(x), Sort::Global(y)) => globals_fit(check, alloc, *x, *y),
        (Sort::Tag(x), Sort::Tag(y)) => same_funcs(check, alloc, x, y),
        _ => Err(other_sorts(check, alloc, a, b)),
    }
}
