//! Why a command isn't answered.

use std::alloc::{AllocError, AllocFailed};
use wac_wit_entries::EntryError;

/// Why a command isn't answered.
#[derive(Debug, Drop)]
pub enum Failure {
    /// The words, or the files that they name, are refused, for what these lines say.
    Refused(String),
    /// An allocation failed.
    Memory,
    /// An entry isn't where another one says. No text is known that leads to this.
    Missing,
    /// A type is used from an interface without identifier, so that no target is checked.
    NoIdentifier,
}

impl Failure {
    /// A refusal with one line.
    pub fn refused(line: Result<String, AllocError>) -> Failure {
        let Ok(mut line) = line else {
            return Failure::Memory;
        };
        match line.push('\n') {
            Ok(()) => Failure::Refused(line),
            Err(_) => Failure::Memory,
        }
    }
}

impl From<AllocError> for Failure {
    fn from(_error: AllocError) -> Failure {
        Failure::Memory
    }
}

impl<T: Drop> From<AllocFailed<T>> for Failure {
    fn from(_error: AllocFailed<T>) -> Failure {
        Failure::Memory
    }
}

impl From<EntryError> for Failure {
    fn from(error: EntryError) -> Failure {
        match error {
            EntryError::Missing => Failure::Missing,
            EntryError::NoIdentifier => Failure::NoIdentifier,
            EntryError::Memory => Failure::Memory,
        }
    }
}
