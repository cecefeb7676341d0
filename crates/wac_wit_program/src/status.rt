//! What the program answers to its caller.

use std::io;

/// The status after a yes.
pub const YES: u8 = 0;

/// The status after a no, where there was no memory, and where a write failed.
pub const NO: u8 = 1;

/// The status after words that are no command, and after files that aren't read.
pub const REFUSED: u8 = 2;

/// This status, or `NO` where something was not written.
pub(crate) fn status_of(status: u8, written: io::Result<()>) -> u8 {
    match written {
        Ok(()) => status,
        Err(_) => NO,
    }
}
