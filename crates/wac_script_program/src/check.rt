//! Checks scripts that have answers and refusals beside their lines.

mod outcome;
mod progress;

use super::failure::ScriptFailure;
use super::status::{DIFFERING, DONE, FAILED, MALFORMED, status_of};
use progress::{Line, Progress};
use std::alloc::Global;
use std::io::Write;
use std::rt::Files;
use std::{fs, io};

// Checks each line of a script, and what is expected of the last.
fn check_lines<'a, W: Write>(
    alloc: Global,
    progress: &mut Progress<'a>,
    script: &'a str,
    out: &mut W,
) -> Result<(), ScriptFailure<'a>> {
    for (i, text) in script.lines().enumerate() {
        let number = i.saturating_add(1);
        progress.take(alloc, Line { number, text }, out)?;
    }
    progress.settle(out)
}

// Prints how many questions there are, and how many answers differ.
fn print_counts<W: Write>(name: &str, progress: &Progress<'_>, out: &mut W) -> io::Result<()> {
    let questions = progress.questions;
    match progress.differing {
        0 => writeln!(out, "{name}: {questions} questions"),
        differing => writeln!(out, "{name}: {questions} questions, {differing} differ"),
    }
}

// Prints the counts of a script that was read to its end, and answers the status.
fn end<W: Write>(name: &str, progress: &Progress<'_>, out: &mut W) -> u8 {
    let status = if progress.differing == 0 {
        DONE
    } else {
        DIFFERING
    };
    status_of(status, print_counts(name, progress, out))
}

// Says why a script was not read beyond a line, and answers the status.
fn refuse<E: Write>(err: &mut E, name: &str, line: usize, failure: &ScriptFailure<'_>) -> u8 {
    match failure {
        ScriptFailure::Other => FAILED,
        failure => status_of(MALFORMED, writeln!(err, "{name}:{line}: {failure}")),
    }
}

/// Checks a script that has answers and refusals beside its lines, and answers the status.
///
/// Each line that is answered otherwise, or not refused as is said beside it, is printed to `out`,
/// after the name of the script and its number, from 1, with what is expected and what is found;
/// then one line has the number of questions. The status is 3 where one differs. A line that is
/// refused with no refusal beside it, a question without an answer, and an answer or a refusal with
/// nothing before it end the check: `err` gets a line that says so, and the status is 2. Where an
/// allocation or a write fails, nothing more is written, and the status is 1.
pub fn check_script<W: Write, E: Write>(
    alloc: Global,
    name: &str,
    text: &str,
    out: &mut W,
    err: &mut E,
) -> u8 {
    let mut progress = Progress::new(alloc, name);
    match check_lines(alloc, &mut progress, text, out) {
        Ok(()) => end(name, &progress, out),
        Err(failure) => refuse(err, name, progress.line, &failure),
    }
}

// Checks the script in a file.
fn check_file<H: Files + AllocGlobal, W: Write, E: Write>(
    rt: &H,
    name: &str,
    out: &mut W,
    err: &mut E,
) -> u8 {
    match fs::read_to_string(rt, name) {
        Ok(text) => check_script(rt.alloc(), name, &text, out, err),
        Err(e) if e.kind() == io::ErrorKind::OutOfMemory => FAILED,
        Err(_) => status_of(
            MALFORMED,
            writeln!(err, "{name}: expected a file of text in UTF-8"),
        ),
    }
}

/// Checks the scripts in files, each as [`check_script`] does, and answers the status: 1 where
/// an allocation or a write fails, and 2 where a script is refused, and then no other is looked at;
/// else 3 where an answer of one differs, else 0. A file that can't be read as text is refused.
pub(crate) fn check_files<H: Files + AllocGlobal, W: Write, E: Write>(
    rt: &H,
    names: &[&str],
    out: &mut W,
    err: &mut E,
) -> u8 {
    let mut status = DONE;
    for name in names {
        match check_file(rt, name, out, err) {
            DONE => {}
            DIFFERING => status = DIFFERING,
            ended => return ended,
        }
    }
    status
}
