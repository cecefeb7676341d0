//! What the program answers to its caller.

use std::io;
use std::io::Write;

/// The status after a script that was read to its end, after scripts whose answers are
/// right, and after a benchmark.
pub const DONE: u8 = 0;

/// The status where an allocation, a read or a write failed.
pub const FAILED: u8 = 1;

/// The status after a line that is malformed and isn't said to be refused,
/// or words that are no command.
pub const MALFORMED: u8 = 2;

/// The status of a check where an answer or a refusal differs from the one beside its line.
pub const DIFFERING: u8 = 3;

// Which words are commands, and which statuses tell what became of them.
const USAGE: &str = "usage: wac-replay < SCRIPT | wac-replay check FILE.. | wac-replay bench NAME N
status: 0 done, 1 a failed allocation, read or write, 2 refused, 3 an answer that differs";

/// Prints the usage, and answers the status.
pub fn usage<E: Write>(err: &mut E) -> u8 {
    status_of(MALFORMED, writeln!(err, "{USAGE}"))
}

/// This status, or `FAILED` where something was not written.
pub(crate) fn status_of(status: u8, written: io::Result<()>) -> u8 {
    match written {
        Ok(()) => status,
        Err(_) => FAILED,
    }
}
