//! Why nothing was measured.

use std::alloc::{AllocError, AllocFailed};
use std::{error, fmt, io};
use wac_script_syntax::ScriptError;

/// Why nothing was measured.
#[derive(Clone, Copy, Debug)]
pub enum BenchError {
    /// The work gave an answer that is not its answer.
    Answer,
    /// The input could not be built.
    Input,
    /// The clock could not be read.
    Clock,
    /// An allocation failed.
    Memory,
}

impl From<AllocError> for BenchError {
    fn from(_error: AllocError) -> BenchError {
        BenchError::Memory
    }
}

impl<T: Drop> From<AllocFailed<T>> for BenchError {
    fn from(_error: AllocFailed<T>) -> BenchError {
        BenchError::Memory
    }
}

impl From<ScriptError<'_>> for BenchError {
    fn from(error: ScriptError<'_>) -> BenchError {
        match error {
            ScriptError::Memory => BenchError::Memory,
            _ => BenchError::Input,
        }
    }
}

impl From<io::Error> for BenchError {
    fn from(_error: io::Error) -> BenchError {
        BenchError::Clock
    }
}

impl error::Error for BenchError {}

impl fmt::Display for BenchError {
    fn fmt<W: fmt::Write>(&self, f: &mut fmt::Formatter<W>) -> fmt::Result {
        match self {
            BenchError::Answer => write!(f, "the work gave a wrong answer"),
            BenchError::Input => write!(f, "the input could not be built"),
            BenchError::Clock => write!(f, "the clock could not be read"),
            BenchError::Memory => write!(f, "out of memory"),
        }
    }
}
