//! Why a line was not carried out.

use super::entries::EntryName;
use std::alloc::{AllocError, AllocFailed};
use std::{error, fmt};

/// Why a line was not read, or not carried out. Words are those of the line.
#[derive(Clone, Copy, Debug)]
pub enum ScriptError<'a> {
    /// A word stands where another is expected.
    Unexpected {
        /// What is expected.
        expected: &'static str,
        /// The word that was found.
        found: &'a str,
    },
    /// A command is not followed by the words of its form, which this is.
    Misused(&'static str),
    /// The name that this word writes, or these words, stands twice in one map.
    Repeated(&'a str),
    /// No collection has been begun.
    NoneAtHand,
    /// No collection of this number has been begun.
    NoCollection(u64),
    /// The line names an entry that isn't there.
    NoEntry(EntryName),
    /// Two keys of packages are equal as they are and not through `dyn
    /// BorrowedKey`, or the other way round.
    Keys,
    /// A table or a memory of a core module starts above its maximum.
    Limits,
    /// An allocation failed.
    Memory,
}

impl From<AllocError> for ScriptError<'_> {
    fn from(_error: AllocError) -> Self {
        ScriptError::Memory
    }
}

impl<T: Drop> From<AllocFailed<T>> for ScriptError<'_> {
    fn from(_error: AllocFailed<T>) -> Self {
        ScriptError::Memory
    }
}

impl From<EntryName> for ScriptError<'_> {
    fn from(entry: EntryName) -> Self {
        ScriptError::NoEntry(entry)
    }
}

impl error::Error for ScriptError<'_> {}

impl fmt::Display for ScriptError<'_> {
    fn fmt<W: fmt::Write>(&self, f: &mut fmt::Formatter<W>) -> fmt::Result {
        match self {
            ScriptError::Unexpected { expected, found } => {
                write!(f, "expected {expected}, found `{found}`")
            }
            ScriptError::Misused(form) => write!(f, "expected `{form}`"),
            ScriptError::Repeated(name) => write!(f, "the name `{name}` stands twice"),
            ScriptError::NoneAtHand => write!(f, "no collection has been begun"),
            ScriptError::NoCollection(number) => write!(f, "there is no collection {number}"),
            ScriptError::NoEntry(name) => write!(f, "there is no entry {name}"),
            ScriptError::Keys => write!(f, "two calls disagree on whether two keys are equal"),
            ScriptError::Limits => write!(f, "initial above maximum"),
            ScriptError::Memory => write!(f, "out of memory"),
        }
    }
}

/// The error for a word that stands where another is expected.
pub fn unexpected<'a>(expected: &'static str, found: &'a str) -> ScriptError<'a> {
    ScriptError::Unexpected { expected, found }
}
