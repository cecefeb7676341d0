//! The command line.

use super::rows::print_rows;
use std::alloc::Global;
use std::io;
use std::io::Write;
use wac_names::{are_semver_compatible, track_of};

/// The status after a command that was carried out.
const DONE: u8 = 0;

/// The status where an allocation or a write failed.
pub const FAILED: u8 = 1;

/// The status after words that are no command.
const NO_COMMAND: u8 = 2;

/// Carries out the command that the words after the program's name give, and answers the status.
///
/// `rows` prints the built-in rows to `out`, `track NAME` the track key of a name or `none`, and
/// `compatible A B` whether two names are compatible, `yes` or `no`. Any other words give the usage
/// line on `err` and the status 2. Where an allocation or a write fails, nothing more is written,
/// and the status is 1.
pub fn run<W: Write, E: Write>(alloc: Global, words: &[&str], out: &mut W, err: &mut E) -> u8 {
    match words {
        ["rows"] => status_of(DONE, print_rows(alloc, out)),
        ["track", name] => status_of(DONE, print_track(alloc, name, out)),
        ["compatible", a, b] => status_of(DONE, print_compatible(alloc, a, b, out)),
        _ => usage(err),
    }
}

/// Prints the usage line, and answers the status.
pub fn usage<E: Write>(err: &mut E) -> u8 {
    status_of(
        NO_COMMAND,
        writeln!(err, "usage: wac-vectors rows | track NAME | compatible A B"),
    )
}

fn print_track<W: Write>(alloc: Global, name: &str, out: &mut W) -> io::Result<()> {
    let key = track_of(alloc, name)?;
    writeln!(out, "{}", key.unwrap_or("none"))
}

fn print_compatible<W: Write>(alloc: Global, a: &str, b: &str, out: &mut W) -> io::Result<()> {
    let answer = if are_semver_compatible(alloc, a, b)? {
        "yes"
    } else {
        "no"
    };
    writeln!(out, "{answer}")
}

fn status_of(status: u8, outcome: io::Result<()>) -> u8 {
    match outcome {
        Ok(()) => status,
        Err(_) => FAILED,
    }
}
