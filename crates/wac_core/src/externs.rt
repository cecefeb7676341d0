//! What a core module imports or exports.

ghost use Rattle.std.specs.Prelude.{◌≡◌, Some};
ghost use Rattle.wac_core.specs.Content.{core_tree};
ghost use Rattle.wac_core.specs.Texts.{core_extern_text};

use super::values::{CoreFuncType, CoreRefType, CoreType};
use std::alloc::AllocError;
use std::fmt;

/// What a core module imports or exports (WebAssembly core specification, "External Types").
#[derive(Debug, Drop)]
pub enum CoreExtern {
    /// A function.
    Func(CoreFuncType),
    /// A table.
    Table {
        /// The type of its elements.
        element_type: CoreRefType,
        /// Its initial size, in elements.
        initial: u64,
        /// Its greatest size, in elements, if it has one.
        maximum: Option<u64>,
        /// Whether it is indexed by 64-bit integers.
        table64: bool,
        /// Whether it is shared among threads.
        shared: bool,
    },
    /// A memory.
    Memory {
        /// Whether it is indexed by 64-bit integers.
        memory64: bool,
        /// Whether it is shared among threads.
        shared: bool,
        /// Its initial size, in pages.
        initial: u64,
        /// Its greatest size, in pages, if it has one.
        maximum: Option<u64>,
        /// The logarithm to base 2 of the size of its pages in bytes,
        /// where that isn't the usual one.
        page_size_log2: Option<u32>,
    },
    /// A global.
    Global {
        /// The type of its value.
        val_type: CoreType,
        /// Whether its value can change.
        mutable: bool,
        /// Whether it is shared among threads.
        shared: bool,
    },
    /// A tag.
    Tag(CoreFuncType),
}

impl Clone for CoreExtern {
    ghost is_clone = { λ x y. core_tree y ≡ core_tree x };

    fn clone(&self) -> Result<CoreExtern, AllocError> {
        match self {
            CoreExtern::Func(of) => Ok(CoreExtern::Func(of.clone()?)),
            CoreExtern::Table {
                element_type,
                initial,
                maximum,
                table64,
                shared,
            } => Ok(CoreExtern::Table {
                element_type: *element_type,
                initial: *initial,
                maximum: *maximum,
                table64: *table64,
                shared: *shared,
            }),
            CoreExtern::Memory {
                memory64,
                shared,
                initial,
                maximum,
                page_size_log2,
            } => Ok(CoreExtern::Memory {
                memory64: *memory64,
                shared: *shared,
                initial: *initial,
                maximum: *maximum,
                page_size_log2: *page_size_log2,
            }),
            CoreExtern::Global {
                val_type,
                mutable,
                shared,
            } => Ok(CoreExtern::Global {
                val_type: *val_type,
                mutable: *mutable,
                shared: *shared,
            }),
            CoreExtern::Tag(of) => Ok(CoreExtern::Tag(of.clone()?)),
        }
    }
}

impl fmt::Display for CoreExtern {
    ghost output = { λ x. Some (core_extern_text (core_tree x)) };

    fn fmt<W: fmt::Write>(&self, f: &mut fmt::Formatter<W>) -> fmt::Result {
        match self {
            CoreExtern::Func(_) => write!(f, "function"),
            CoreExtern::Table { .. } => write!(f, "table"),
            CoreExtern::Memory { .. } => write!(f, "memory"),
            CoreExtern::Global { .. } => write!(f, "global"),
            CoreExtern::Tag(_) => write!(f, "tag"),
        }
    }
}
