//! Comparisons of tables, memories and globals, field by field.

ghost use Rattle.std.specs.Prelude.{◌↔◌, ◌≢◌, IsTrue, MatchResult};
ghost use Rattle.wac_core.specs.Content.{ref_tree, core_type_tree};
ghost use Rattle.wac_model.specs.CoreTree.{CoreFits, LimitsFit};
ghost use Rattle.wac_core_checker.specs.Fields.{declared_limits, table_tree, memory_tree, global_tree};
ghost use Rattle.wac_core_checker.specs.Verdict.{RefusesHere};

use std::alloc::Global;
use wac_core::{CoreRefType, CoreType};
use wac_mismatch::refusals::{expected_found, here};
use wac_mismatch::{CoreField, Fault, SubtypeCheck, SubtypeError};

// How many elements a table has, or a memory pages.
#[derive(Clone, Copy)]
pub(crate) struct LimitsType {
    pub(crate) initial: u64,
    pub(crate) maximum: Option<u64>,
}

// The fields of a table.
#[derive(Clone, Copy)]
pub(crate) struct TableType {
    pub(crate) element_type: CoreRefType,
    pub(crate) limits: LimitsType,
    pub(crate) table64: bool,
    pub(crate) shared: bool,
}

// The fields of a memory.
#[derive(Clone, Copy)]
pub(crate) struct MemoryType {
    pub(crate) memory64: bool,
    pub(crate) shared: bool,
    pub(crate) limits: LimitsType,
    pub(crate) page_size_log2: Option<u32>,
}

// The fields of a global.
#[derive(Clone, Copy)]
pub(crate) struct GlobalType {
    pub(crate) val_type: CoreType,
    pub(crate) mutable: bool,
    pub(crate) shared: bool,
}

// Whether limits fit where others are asked for.
fn limits_fit(a: LimitsType, b: LimitsType) -> bool
    ensures { IsTrue result ↔ LimitsFit (declared_limits a) (declared_limits b) }
{
    if a.initial < b.initial {
        return false;
    }
    match (a.maximum, b.maximum) {
        (_, None) => true,
        (None, Some(_)) => false,
        (Some(found), Some(asked)) => found <= asked,
    }
}

// A mismatch of two tables by their elements.
fn other_elements(check: SubtypeCheck, alloc: Global, a: TableType, b: TableType) -> SubtypeError
    requires { ref_tree a.element_type ≢ ref_tree b.element_type }
    ensures { RefusesHere check (table_tree a) (table_tree b) result }
{
    let (expected, found) = expected_found(check, a.element_type, b.element_type);
    here(alloc, Fault::TableElement { expected, found })
}

// Whether a table fits where another is asked for.
pub(crate) fn tables_fit(
    check: SubtypeCheck,
    alloc: Global,
    a: TableType,
    b: TableType,
) -> Result<(), SubtypeError>
    ensures { MatchResult result (λ _. CoreFits (table_tree a) (table_tree b)) (RefusesHere check (table_tree a) (table_tree b)) }
{
    if a.element_type != b.element_type {
        return Err(other_elements(check, alloc, a, b));
    }
    if !limits_fit(a.limits, b.limits) {
        return Err(here(alloc, Fault::Core(CoreField::TableLimits)));
    }
    if a.table64 != b.table64 {
        return Err(here(alloc, Fault::Core(CoreField::Table64)));
    }
    if a.shared != b.shared {
        return Err(here(alloc, Fault::Core(CoreField::TableShared)));
    }
    Ok(())
}

// Whether a memory fits where another is asked for.
pub(crate) fn memories_fit(
    check: SubtypeCheck,
    alloc: Global,
    a: MemoryType,
    b: MemoryType,
) -> Result<(), SubtypeError>
    ensures { MatchResult result (λ _. CoreFits (memory_tree a) (memory_tree b)) (RefusesHere check (memory_tree a) (memory_tree b)) }
{
    if a.shared != b.shared {
        return Err(here(alloc, Fault::Core(CoreField::MemoryShared)));
    }
    if a.memory64 != b.memory64 {
        return Err(here(alloc, Fault::Core(CoreField::Memory64)));
    }
    if !limits_fit(a.limits, b.limits) {
        return Err(here(alloc, Fault::Core(CoreField::MemoryLimits)));
    }
    if a.page_size_log2 != b.page_size_log2 {
        return Err(here(alloc, Fault::Core(CoreField::PageSizeLog2)));
    }
    Ok(())
}

// A mismatch of two globals by their values.
fn other_values(check: SubtypeCheck, alloc: Global, a: GlobalType, b: GlobalType) -> SubtypeError
    requires { core_type_tree a.val_type ≢ core_type_tree b.val_type }
    ensures { RefusesHere check (global_tree a) (global_tree b) result }
{
    let (expected, found) = expected_found(check, a.val_type, b.val_type);
    here(alloc, Fault::GlobalType { expected, found })
}

// Whether a global fits where another is asked for.
pub(crate) fn globals_fit(
    check: SubtypeCheck,
    alloc: Global,
    a: GlobalType,
    b: GlobalType,
) -> Result<(), SubtypeError>
    ensures { MatchResult result (λ _. CoreFits (global_tree a) (global_tree b)) (RefusesHere check (global_tree a) (global_tree b)) }
{
    if a.mutable != b.mutable {
        return Err(here(alloc, Fault::Core(CoreField::GlobalMutable)));
    }
    if a.val_type != b.val_type {
        return Err(other_values(check, alloc, a, b));
    }
    if a.shared != b.shared {
        return Err(here(alloc, Fault::Core(CoreField::GlobalShared)));
    }
    Ok(())
}
