//! Why a core module type is refused.

use thiserror::Error;

/// Why a core module type was not added: the collection is then unchanged.
#[derive(Debug, Drop, Error)]
pub enum ModuleError {
    /// A table or a memory starts above its maximum.
    #[error("initial above maximum")]
    Limits,
    /// An allocation failed.
    #[error("out of memory")]
    Memory,
}
