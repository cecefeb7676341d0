//! Why a question about entries isn't answered.

use std::alloc::{AllocError, AllocFailed};

/// Why a question about the entries of a collection isn't answered.
#[derive(Clone, Copy, PartialEq, Eq, Debug)]
pub enum EntryError {
    /// An entry isn't where another one, or a text that was read before, says.
    Missing,
    /// A type is used from an interface without identifier, so that no target is checked.
    NoIdentifier,
    /// An allocation failed.
    Memory,
}

impl From<AllocError> for EntryError {
    fn from(_error: AllocError) -> EntryError {
        EntryError::Memory
    }
}

impl<T: Drop> From<AllocFailed<T>> for EntryError {
    fn from(_error: AllocFailed<T>) -> EntryError {
        EntryError::Memory
    }
}
