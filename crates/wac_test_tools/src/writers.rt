//! A writer that knows what is to be written to it.

use std::{fmt, io};

/// A writer that compares what it is given with a text, and whose write of one number fails.
#[derive(Drop)]
pub struct Expecting<'a> {
    // What is still to come of the text.
    rest: &'a [u8],
    // Whether all was as in the text so far.
    is_right: bool,
    writes: u32,
    failing: u32,
}

impl<'a> Expecting<'a> {
    /// None of whose writes fails.
    pub fn of(text: &'a str) -> Self {
        Expecting::failing_at(text, 0)
    }

    /// Whose write of this number fails, from 1.
    pub fn failing_at(text: &'a str, failing: u32) -> Self {
        Expecting {
            rest: text.as_bytes(),
            is_right: true,
            writes: 0,
            failing,
        }
    }

    /// Whether the write that fails came, and none after it.
    pub fn has_failed(&self) -> bool {
        self.failing != 0 && self.writes == self.failing
    }

    /// Whether it was given the front of the text.
    pub fn has_front(&self) -> bool {
        self.is_right
    }

    /// Whether it was given the text.
    pub fn has_all(&self) -> bool {
        self.is_right && self.rest.is_empty()
    }

    fn compare(&mut self, bytes: &[u8]) {
        match self.rest.strip_prefix(bytes) {
            Some(rest) => self.rest = rest,
            None => self.is_right = false,
        }
    }
}

impl io::Write for Expecting<'_> {
    fn write(&mut self, buf: &[u8]) -> io::Result<usize> {
        self.writes = self.writes.saturating_add(1);
        if self.writes == self.failing {
            return Err(io::Error::from(io::ErrorKind::Other));
        }
        self.compare(buf);
        Ok(buf.len())
    }

    fn flush(&mut self) -> io::Result<()> {
        Ok(())
    }
}

impl fmt::Write for Expecting<'_> {
    fn write_str(&mut self, text: &str) -> fmt::Result {
        self.compare(text.as_bytes());
        Ok(())
    }
}
