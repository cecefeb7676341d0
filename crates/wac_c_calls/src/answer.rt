//! Answers, and the buffers that they go into.

ghost use Rattle.std.specs.Prelude.{◌≡◌, ◌++◌, take, drop, length};

use std::alloc::{AllocError, AllocFailed};

/// Why there is no answer.
#[derive(Clone, Copy)]
pub(crate) enum NoAnswer {
    /// What was given is no text in UTF-8.
    NoText,
    /// An allocation failed.
    Memory,
}

impl From<AllocError> for NoAnswer {
    fn from(_error: AllocError) -> NoAnswer {
        NoAnswer::Memory
    }
}

impl<T: Drop> From<AllocFailed<T>> for NoAnswer {
    fn from(_error: AllocFailed<T>) -> NoAnswer {
        NoAnswer::Memory
    }
}

/// What a function gives where there is no answer: `WAC_NO_TEXT`, `WAC_NO_MEMORY`, `WAC_NO_SESSION`.
pub(crate) const NO_TEXT: isize = -1;

pub(crate) const NO_MEMORY: isize = -2;

pub(crate) const NO_SESSION: isize = -3;

/// The text that bytes are.
pub(crate) fn text_of(bytes: &[u8]) -> Result<&str, NoAnswer> {
    std::str::from_utf8(bytes).map_err(|_| NoAnswer::NoText)
}

/// How many bytes there are.
pub(crate) fn length_of(bytes: &[u8]) -> isize {
    isize::try_from(bytes.len()).unwrap_or(NO_MEMORY)
}

/// Writes the bytes that fit into a buffer, and gives the number of all.
pub fn put(bytes: &[u8], out: &mut [u8]) -> isize
    ensures { out.new ≡ take (length out.old) bytes.now ++ drop (length bytes.now) out.old }
{
    if bytes.len() <= out.len() {
        out[..bytes.len()].copy_from_slice(bytes);
    } else {
        let count = out.len();
        out.copy_from_slice(&bytes[..count]);
    }
    length_of(bytes)
}

/// Writes what fits of an answer into a buffer, and gives the length of all of it, or why there is
/// none.
pub(crate) fn put_answer(answer: Result<String, NoAnswer>, out: &mut [u8]) -> isize {
    match answer {
        Ok(text) => put(text.as_bytes(), out),
        Err(NoAnswer::NoText) => NO_TEXT,
        Err(NoAnswer::Memory) => NO_MEMORY,
    }
}
