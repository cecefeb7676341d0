//! Meets and joins of what core modules import and export.

ghost use Rattle.std.specs.Prelude.{◌≡◌, ◌↔◌, IsTrue, IfOk};
ghost use Rattle.std.specs.Option.{option_map};
ghost use Rattle.wac_model.specs.CoreTree.{CoreFits};
ghost use Rattle.wac_bounds.specs.MeetIn.{IsMeetIn, IsJoinIn};
ghost use Rattle.wac_bounds.specs.Valid.{ValidFits};
ghost use Rattle.wac_core.specs.Content.{core_tree};
ghost use Rattle.wac_core_merge.specs.Limits.{limits_tree, label_of, limits_of, with_limits};

use crate::limits::{LimitsType, join_limits, meet_limits, start_within};
use std::alloc::AllocError;
use wac_core::CoreExtern;

// Whether two core externs are equal, but for limits.
fn equal_but_for_limits(a: &CoreExtern, b: &CoreExtern) -> bool
    ensures { IsTrue result ↔ (label_of (core_tree a.now) ≡ label_of (core_tree b.now)) }
{
    match (a, b) {
        (CoreExtern::Func(x), CoreExtern::Func(y)) => x == y,
        (CoreExtern::Tag(x), CoreExtern::Tag(y)) => x == y,
        (
            CoreExtern::Table {
                element_type: x,
                table64: x64,
                shared: x_shared,
                ..
            },
            CoreExtern::Table {
                element_type: y,
                table64: y64,
                shared: y_shared,
                ..
            },
        ) => x == y && x64 == y64 && x_shared == y_shared,
        (
            CoreExtern::Memory {
                memory64: x64,
                shared: x_shared,
                page_size_log2: x_size,
                ..
            },
            CoreExtern::Memory {
                memory64: y64,
                shared: y_shared,
                page_size_log2: y_size,
                ..
            },
        ) => x64 == y64 && x_shared == y_shared && x_size == y_size,
        (
            CoreExtern::Global {
                val_type: x,
                mutable: x_mutable,
                shared: x_shared,
            },
            CoreExtern::Global {
                val_type: y,
                mutable: y_mutable,
                shared: y_shared,
            },
        ) => x == y && x_mutable == y_mutable && x_shared == y_shared,
        _ => false,
    }
}

// The limits of a table or of a memory.
fn limits(of: &CoreExtern) -> Option<LimitsType>
    ensures { option_map limits_tree result ≡ limits_of (core_tree of.now) }
{
    match of {
        CoreExtern::Table {
            initial,
            maximum,
            ..
        }
        | CoreExtern::Memory {
            initial,
            maximum,
            ..
        } => Some(LimitsType {
            initial: *initial,
            maximum: *maximum,
        }),
        CoreExtern::Func(_) | CoreExtern::Global { .. } | CoreExtern::Tag(_) => None,
    }
}

// A core extern, with these limits if it is a table or a memory.
fn limited(of: &CoreExtern, limits: LimitsType) -> Result<CoreExtern, AllocError>
    ensures { IfOk result (λ r. core_tree r ≡ with_limits (core_tree of.now) (limits_tree limits)) }
{
    match of {
        CoreExtern::Table {
            element_type,
            table64,
            shared,
            ..
        } => Ok(CoreExtern::Table {
            element_type: *element_type,
            initial: limits.initial,
            maximum: limits.maximum,
            table64: *table64,
            shared: *shared,
        }),
        CoreExtern::Memory {
            memory64,
            shared,
            page_size_log2,
            ..
        } => Ok(CoreExtern::Memory {
            memory64: *memory64,
            shared: *shared,
            initial: limits.initial,
            maximum: limits.maximum,
            page_size_log2: *page_size_log2,
        }),
        CoreExtern::Func(_) | CoreExtern::Global { .. } | CoreExtern::Tag(_) => of.clone(),
    }
}

/// The greatest valid core extern that fits where either is asked for, if any does: both are equal
/// but for limits, and it starts at the greater initial size, ends at the smaller maximum, and
/// starts within that (WebAssembly core specification, "Import Subtyping").
pub fn meet_externs(a: &CoreExtern, b: &CoreExtern) -> Result<Option<CoreExtern>, AllocError>
    ensures { IfOk result (λ m. IsMeetIn ValidFits (core_tree a.now) (core_tree b.now) (option_map core_tree m)) }
{
    if !equal_but_for_limits(a, b) {
        return Ok(None);
    }
    let (Some(x), Some(y)) = (limits(a), limits(b)) else {
        return Ok(Some(a.clone()?));
    };
    let met = meet_limits(x, y);
    if !start_within(met) {
        return Ok(None);
    }
    Ok(Some(limited(a, met)?))
}

/// The least core extern where either fits, if there is one: both are equal but for limits, and it
/// starts at the smaller initial size and ends at the greater maximum, or has none if either has
/// none (WebAssembly core specification, "Import Subtyping").
pub fn join_externs(a: &CoreExtern, b: &CoreExtern) -> Result<Option<CoreExtern>, AllocError>
    ensures { IfOk result (λ m. IsJoinIn CoreFits (core_tree a.now) (core_tree b.now) (option_map core_tree m)) }
{
    if !equal_but_for_limits(a, b) {
        return Ok(None);
    }
    match (limits(a), limits(b)) {
        (Some(x), Some(y)) => Ok(Some(limited(a, join_limits(x, y))?)),
        _ => Ok(Some(a.clone()?)),
    }
}
