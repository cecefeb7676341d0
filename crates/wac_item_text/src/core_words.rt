//! The words that write core types and core externs, as in a script.

use std::alloc::AllocError;
use wac_core::{CoreExtern, CoreFuncType, CoreRefType, CoreType, HeapType};

// Puts the word of a heap type last.
fn push_heap_type(text: &mut String, ty: HeapType) -> Result<(), AllocError> {
    let word = match ty {
        HeapType::Concrete(index) => return write!(text, "{index}"),
        HeapType::Func => "func",
        HeapType::Extern => "extern",
        HeapType::Any => "any",
        HeapType::None => "none",
        HeapType::NoExtern => "noextern",
        HeapType::NoFunc => "nofunc",
        HeapType::Eq => "eq",
        HeapType::Struct => "struct",
        HeapType::Array => "array",
        HeapType::I31 => "i31",
        HeapType::Exn => "exn",
        HeapType::NoExn => "noexn",
        HeapType::Cont => "cont",
        HeapType::NoCont => "nocont",
    };
    text.push_str(word)
}

// Puts the word of a reference type last.
fn push_ref(text: &mut String, ty: CoreRefType) -> Result<(), AllocError> {
    text.push_str(if ty.nullable { "null." } else { "ref." })?;
    push_heap_type(text, ty.heap_type)
}

// Puts the word of a core type last.
fn push_core(text: &mut String, ty: CoreType) -> Result<(), AllocError> {
    match ty {
        CoreType::I32 => text.push_str("i32"),
        CoreType::I64 => text.push_str("i64"),
        CoreType::F32 => text.push_str("f32"),
        CoreType::F64 => text.push_str("f64"),
        CoreType::V128 => text.push_str("v128"),
        CoreType::Ref(of) => push_ref(text, of),
    }
}

// Puts the words of core types last, with commas between them.
fn push_cores(text: &mut String, types: &[CoreType]) -> Result<(), AllocError> {
    let mut separator = "";
    for ty in types {
        text.push_str(separator)?;
        push_core(text, *ty)?;
        separator = ",";
    }
    Ok(())
}

// Puts the parameters and the results of a function or a tag last, each after a colon.
fn push_func(text: &mut String, ty: &CoreFuncType) -> Result<(), AllocError> {
    text.push_str(":")?;
    push_cores(text, &ty.params)?;
    text.push_str(":")?;
    push_cores(text, &ty.results)
}

// Puts a flag last, after a colon.
fn push_flag(text: &mut String, flag: bool) -> Result<(), AllocError> {
    text.push_str(if flag { ":1" } else { ":0" })
}

// Puts the sizes that something has at first and at most last, each after a colon.
fn push_limits(text: &mut String, initial: u64, maximum: Option<u64>) -> Result<(), AllocError> {
    match maximum {
        Some(maximum) => write!(text, ":{initial}:{maximum}"),
        None => write!(text, ":{initial}:-"),
    }
}

// Puts the logarithm of the size of pages last, where it isn't the usual one, after a colon.
fn push_page_size(text: &mut String, page_size_log2: Option<u32>) -> Result<(), AllocError> {
    match page_size_log2 {
        Some(page_size_log2) => write!(text, ":{page_size_log2}"),
        None => text.push_str(":-"),
    }
}

/// Puts the word that writes a core extern in a script last: `func:PARAMS:RESULTS`,
/// `tag:PARAMS:RESULTS`, `table:REF:INITIAL:MAXIMUM:TABLE64:SHARED`,
/// `mem:INITIAL:MAXIMUM:MEMORY64:SHARED:PAGE_SIZE_LOG2` or `global:CORE:MUTABLE:SHARED`. A flag is
/// `0` or `1`, and a number that isn't there `-`.
pub fn push_extern(text: &mut String, of: &CoreExtern) -> Result<(), AllocError> {
    match of {
        CoreExtern::Func(ty) => {
            text.push_str("func")?;
            push_func(text, ty)
        }
        CoreExtern::Table {
            element_type,
            initial,
            maximum,
            table64,
            shared,
        } => {
            text.push_str("table:")?;
            push_ref(text, *element_type)?;
            push_limits(text, *initial, *maximum)?;
            push_flag(text, *table64)?;
            push_flag(text, *shared)
        }
        CoreExtern::Memory {
            memory64,
            shared,
            initial,
            maximum,
            page_size_log2,
        } => {
            text.push_str("mem")?;
            push_limits(text, *initial, *maximum)?;
            push_flag(text, *memory64)?;
            push_flag(text, *shared)?;
            push_page_size(text, *page_size_log2)
        }
        CoreExtern::Global {
            val_type,
            mutable,
            shared,
        } => {
            text.push_str("global:")?;
            push_core(text, *val_type)?;
            push_flag(text, *mutable)?;
            push_flag(text, *shared)
        }
        CoreExtern::Tag(ty) => {
            text.push_str("tag")?;
            push_func(text, ty)
        }
    }
}
