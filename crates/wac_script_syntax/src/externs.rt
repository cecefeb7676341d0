//! What core modules import and export, as words write it.

use super::error::{ScriptError, unexpected};
use super::numbers::{flag_of, limit_of, number_of, small_number_of};
use std::alloc::Global;
use wac_core::{CoreExtern, CoreFuncType, CoreRefType, CoreType, HeapType};

// The words of the abstract heap types.
static HEAP_TYPES: [(&str, HeapType); 14] = [
    ("func", HeapType::Func),
    ("extern", HeapType::Extern),
    ("any", HeapType::Any),
    ("none", HeapType::None),
    ("noextern", HeapType::NoExtern),
    ("nofunc", HeapType::NoFunc),
    ("eq", HeapType::Eq),
    ("struct", HeapType::Struct),
    ("array", HeapType::Array),
    ("i31", HeapType::I31),
    ("exn", HeapType::Exn),
    ("noexn", HeapType::NoExn),
    ("cont", HeapType::Cont),
    ("nocont", HeapType::NoCont),
];

fn heap_types() -> &'static [(&'static str, HeapType)] {
    &HEAP_TYPES
}

// The heap type that a word names: an abstract one, or that of the type at an index.
fn heap_type_of(word: &str) -> Option<HeapType> {
    for (name, heap_type) in heap_types() {
        if *name == word {
            return Some(*heap_type);
        }
    }
    Some(HeapType::Concrete(small_number_of(word)?))
}

// The reference type that a word names.
fn ref_type_of(word: &str) -> Option<CoreRefType> {
    let (kind, heap_type) = word.split_once('.')?;
    let nullable = match kind {
        "null" => true,
        "ref" => false,
        _ => return None,
    };
    Some(CoreRefType {
        nullable,
        heap_type: heap_type_of(heap_type)?,
    })
}

// The core type that a word names.
fn core_type_of(word: &str) -> Option<CoreType> {
    match word {
        "i32" => Some(CoreType::I32),
        "i64" => Some(CoreType::I64),
        "f32" => Some(CoreType::F32),
        "f64" => Some(CoreType::F64),
        "v128" => Some(CoreType::V128),
        _ => Some(CoreType::Ref(ref_type_of(word)?)),
    }
}

// Reads core types with commas between them.
fn read_core_types(alloc: Global, list: &str) -> Result<Vec<CoreType>, ScriptError<'_>> {
    let mut types = Vec::new(alloc);
    if list.is_empty() {
        return Ok(types);
    }
    for word in list.split(',') {
        let Some(ty) = core_type_of(word) else {
            return Err(unexpected("a core type", word));
        };
        types.push(ty)?;
    }
    Ok(types)
}

// Reads the type of a function from its parameters and its results.
fn read_core_func<'a>(
    alloc: Global,
    params: &'a str,
    results: &'a str,
) -> Result<CoreFuncType, ScriptError<'a>> {
    Ok(CoreFuncType {
        params: read_core_types(alloc, params)?,
        results: read_core_types(alloc, results)?,
    })
}

// The logarithm of a memory's page size, or none for `-`.
fn page_size_of(word: &str) -> Option<Option<u32>> {
    if word == "-" {
        return Some(None);
    }
    Some(Some(small_number_of(word)?))
}

// The table, the memory or the global of these fields.
fn plain_extern_of(fields: &[&str]) -> Option<CoreExtern> {
    match *fields {
        ["table", element_type, initial, maximum, table64, shared] => Some(CoreExtern::Table {
            element_type: ref_type_of(element_type)?,
            initial: number_of(initial)?,
            maximum: limit_of(maximum)?,
            table64: flag_of(table64)?,
            shared: flag_of(shared)?,
        }),
        ["mem", initial, maximum, memory64, shared, page_size] => Some(CoreExtern::Memory {
            memory64: flag_of(memory64)?,
            shared: flag_of(shared)?,
            initial: number_of(initial)?,
            maximum: limit_of(maximum)?,
            page_size_log2: page_size_of(page_size)?,
        }),
        ["global", val_type, mutable, shared] => Some(CoreExtern::Global {
            val_type: core_type_of(val_type)?,
            mutable: flag_of(mutable)?,
            shared: flag_of(shared)?,
        }),
        _ => None,
    }
}

/// Reads a core extern.
pub fn read_extern(alloc: Global, word: &str) -> Result<CoreExtern, ScriptError<'_>> {
    let fields: Vec<&str> = word.split(':').collect(alloc)?;
    match *fields {
        ["func", params, results] => Ok(CoreExtern::Func(read_core_func(alloc, params, results)?)),
        ["tag", params, results] => Ok(CoreExtern::Tag(read_core_func(alloc, params, results)?)),
        _ => plain_extern_of(&fields).ok_or(unexpected("a core extern", word)),
    }
}
