//! Why packages aren't resolved.

use super::reason::Reason;
use super::sources::SourceFile;
use std::alloc::{AllocError, AllocFailed};
use wac_wit_syntax::{Refusal, Span, push_report};

/// What is wrong in a file.
pub struct WitRefusal {
    /// The index of the file.
    pub file: usize,
    /// What is wrong, and where.
    pub refusal: Refusal,
    /// Why, if that is known to be so.
    pub reason: Option<Reason>,
}

impl Drop for WitRefusal {
    fn drop(self) {
        let WitRefusal {
            file: _,
            refusal: _,
            reason: _,
        } = self;
    }
}

impl WitRefusal {
    /// The same, with another reason.
    pub fn because(self, reason: Option<Reason>) -> WitRefusal {
        let WitRefusal {
            file,
            refusal,
            reason: _,
        } = self;
        WitRefusal {
            file,
            refusal,
            reason,
        }
    }
}

/// Why packages weren't resolved.
#[derive(Drop)]
pub enum WitError {
    /// Files are refused: at least one refusal and at most [`MAX_REFUSALS`](super::MAX_REFUSALS),
    /// in the order of the files and of the places in them.
    Refused(Vec<WitRefusal>),
    /// An id doesn't stand in the collection, or an interface in it isn't what its text denotes. No
    /// packages are known that lead to it, which isn't proved.
    Missing,
    /// An allocation failed.
    Memory,
}

impl WitError {
    /// Puts what is wrong last, each refusal with the line of its file.
    pub fn push_report(&self, out: &mut String, files: &[SourceFile]) -> Result<(), AllocError> {
        match self {
            WitError::Refused(refusals) => push_reports(out, files, refusals),
            WitError::Missing => out.push_str("an entry isn't there\n"),
            WitError::Memory => out.push_str("out of memory\n"),
        }
    }
}

fn push_reports(
    out: &mut String,
    files: &[SourceFile],
    refusals: &[WitRefusal],
) -> Result<(), AllocError> {
    for of in refusals {
        match files.get(of.file) {
            Some(file) => push_report(out, &file.name, &file.text, &of.refusal)?,
            None => out.push_str("a file isn't there\n")?,
        }
    }
    Ok(())
}

/// Why an item isn't resolved.
#[derive(Drop)]
pub enum Fault {
    /// It is refused.
    Refused(WitRefusal),
    /// It stands on something that was refused before.
    Known,
    /// As many refusals were noted as are listed.
    Enough,
    /// The collection isn't as it should be, as in [`WitError::Missing`].
    Missing,
    /// An allocation failed.
    Memory,
}

impl Fault {
    /// A refusal with this message, or `Memory` where an allocation failed for the message.
    pub fn at(file: usize, span: Span, message: Result<String, AllocError>) -> Fault {
        match message {
            Ok(message) => Fault::Refused(WitRefusal {
                file,
                refusal: Refusal { span, message },
                reason: None,
            }),
            Err(_) => Fault::Memory,
        }
    }

    /// The same, with the reason.
    pub fn because(self, reason: Reason) -> Fault {
        match self {
            Fault::Refused(refused) => Fault::Refused(refused.because(Some(reason))),
            other => other,
        }
    }
}

impl From<AllocError> for Fault {
    fn from(_error: AllocError) -> Fault {
        Fault::Memory
    }
}

impl<T: Drop> From<AllocFailed<T>> for Fault {
    fn from(_error: AllocFailed<T>) -> Fault {
        Fault::Memory
    }
}

impl From<AllocError> for WitError {
    fn from(_error: AllocError) -> WitError {
        WitError::Memory
    }
}

impl<T: Drop> From<AllocFailed<T>> for WitError {
    fn from(_error: AllocFailed<T>) -> WitError {
        WitError::Memory
    }
}
