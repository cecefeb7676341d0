//! The lines of a text, so that the place of a byte is found at once, however many are asked for.

use std::alloc::{AllocError, Global};
use wac_wit_syntax::Position;

/// Where the lines of a text begin.
pub(crate) struct Lines {
    starts: Vec<usize>,
}

impl Drop for Lines {
    fn drop(self) {
        let Lines { starts: _ } = self;
    }
}

impl Lines {
    /// Of a text.
    pub(crate) fn new(alloc: Global, text: &str) -> Result<Lines, AllocError> {
        let mut starts = vec![in alloc; 0usize]?;
        for (at, byte) in text.as_bytes().iter().enumerate() {
            if *byte == b'\n' {
                starts.push(at.saturating_add(1))?;
            }
        }
        Ok(Lines { starts })
    }

    /// The line and the column of a byte; columns count bytes.
    pub(crate) fn position(&self, offset: usize) -> Position {
        let line = match self.starts.binary_search(&offset) {
            Ok(index) => index,
            Err(index) => index.saturating_sub(1),
        };
        let start = self.starts.get(line).copied().unwrap_or(0);
        Position {
            line: line.saturating_add(1),
            column: offset.saturating_sub(start).saturating_add(1),
        }
    }
}
