//! Why a composition wasn't made.

use std::alloc::{AllocError, AllocFailed};

/// Why a composition wasn't made.
#[derive(Clone, Copy)]
pub(crate) enum CompositionFailure {
    /// Something is named that isn't there.
    Missing,
    /// An allocation failed.
    Memory,
}

impl From<AllocError> for CompositionFailure {
    fn from(_error: AllocError) -> CompositionFailure {
        CompositionFailure::Memory
    }
}

impl<T: Drop> From<AllocFailed<T>> for CompositionFailure {
    fn from(_error: AllocFailed<T>) -> CompositionFailure {
        CompositionFailure::Memory
    }
}
