//! The command line of `wac-replay`.

use super::benchmarks::{BenchError, bench};
use super::check::check_files;
use super::replaying::replay;
use super::status::{DONE, FAILED, MALFORMED, status_of, usage};
use std::alloc::Global;
use std::io::{BufRead, Write};
use std::rt::Files;
use std::time::Clock;

/// Carries out the words after the program's name, and answers the status.
///
/// Without words the script on `reader` is answered. `check FILE..` checks scripts that have
/// answers and refusals beside their lines, and `bench NAME N` prints the line of a benchmark. Any
/// other words give the usage line on `err` and the status 2.
pub fn run<H: Clock + Files + AllocGlobal, R: BufRead + Drop, W: Write, E: Write>(
    rt: &H,
    words: &[&str],
    reader: R,
    out: &mut W,
    err: &mut E,
) -> u8 {
    match words {
        [] => replay(rt.alloc(), reader, out, err),
        ["check", files @ ..] => check_files(rt, files, out, err),
        ["bench", name, size] => run_benchmark(rt, rt.alloc(), name, size, out, err),
        _ => usage(err),
    }
}

// Runs the benchmark of this name at this size, prints its line to `out`, and answers the status. A
// size that is no number from 1 to 2^32 - 1 gives the usage line on `err`, and a name of no
// benchmark a line that says so, both with the status 2. Where nothing could be measured, `err`
// gets a line that says why, and the status is 1.
fn run_benchmark<C: Clock, W: Write, E: Write>(
    clock: &C,
    alloc: Global,
    name: &str,
    size: &str,
    out: &mut W,
    err: &mut E,
) -> u8 {
    let size = match size.parse::<u32>() {
        Ok(0) | Err(_) => return usage(err),
        Ok(size) => size,
    };
    match bench(clock, alloc, name, size) {
        Ok(Some(line)) => status_of(DONE, writeln!(out, "{line}")),
        Ok(None) => status_of(MALFORMED, writeln!(err, "there is no benchmark `{name}`")),
        Err(error) => refuse(err, &error),
    }
}

fn refuse<E: Write>(err: &mut E, error: &BenchError) -> u8 {
    status_of(FAILED, writeln!(err, "{error}"))
}
