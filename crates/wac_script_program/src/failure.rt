//! Why a script was not read to its end.

use std::alloc::AllocError;
use std::{fmt, io};
use wac_script_syntax::ScriptError;

/// Why a script was not read to its end.
#[derive(Clone, Copy)]
pub(crate) enum ScriptFailure<'a> {
    /// A line is no text in UTF-8.
    NoText,
    /// A line is no command that can be carried out.
    Refused(ScriptError<'a>),
    /// An answer stands where there is no question.
    NoQuestion,
    /// A question has no answer beside it.
    NoAnswer,
    /// A refusal stands where there is no command, or one that is answered already.
    NoCommand,
    /// An allocation, a read or a write failed.
    Other,
}

impl From<AllocError> for ScriptFailure<'_> {
    fn from(_error: AllocError) -> Self {
        ScriptFailure::Other
    }
}

impl From<io::Error> for ScriptFailure<'_> {
    fn from(_error: io::Error) -> Self {
        ScriptFailure::Other
    }
}

impl<'a> From<ScriptError<'a>> for ScriptFailure<'a> {
    fn from(error: ScriptError<'a>) -> Self {
        match error {
            ScriptError::Memory => ScriptFailure::Other,
            error => ScriptFailure::Refused(error),
        }
    }
}

impl fmt::Display for ScriptFailure<'_> {
    fn fmt<W: fmt::Write>(&self, f: &mut fmt::Formatter<W>) -> fmt::Result {
        match self {
            ScriptFailure::NoText => write!(f, "expected text in UTF-8"),
            ScriptFailure::Refused(error) => write!(f, "{error}"),
            ScriptFailure::NoQuestion => write!(f, "expected a question before an answer"),
            ScriptFailure::NoAnswer => write!(f, "expected an answer after the question"),
            ScriptFailure::NoCommand => write!(f, "expected a command before a refusal"),
            ScriptFailure::Other => write!(f, "an allocation, a read or a write failed"),
        }
    }
}
