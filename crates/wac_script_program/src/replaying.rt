//! Reads a script, and prints its answers.

use super::failure::ScriptFailure;
use super::status::{DONE, FAILED, MALFORMED, status_of};
use std::alloc::Global;
use std::io;
use std::io::{BufRead, Write};
use wac_script_session::Session;
use wac_script_syntax::read_line;

/// Reads a script, prints the answers to `out`, and answers the status.
///
/// A line that is malformed, or that names what isn't there, ends the script: `err` gets one line
/// with its number, from 1, and what was wrong, and the status is 2. Where an allocation fails, or
/// a read or a write fails, nothing more is written, and the status is 1.
pub fn replay<R: BufRead + Drop, W: Write, E: Write>(
    alloc: Global,
    reader: R,
    out: &mut W,
    err: &mut E,
) -> u8 {
    let mut session = Session::new(alloc);
    go_on(alloc, &mut session, reader, out, err)
}

/// Goes on with a script: as `replay`, over what a session has built so far. The lines before one
/// that is refused, or that fails, have been carried out.
pub(crate) fn go_on<R: BufRead + Drop, W: Write, E: Write>(
    alloc: Global,
    session: &mut Session,
    reader: R,
    out: &mut W,
    err: &mut E,
) -> u8 {
    for (i, line) in reader.lines(alloc).enumerate() {
        match take(alloc, session, i, &line, out, err) {
            DONE => {}
            status => return status,
        }
    }
    DONE
}

// Carries out the line at this index, and answers the status.
fn take<W: Write, E: Write>(
    alloc: Global,
    session: &mut Session,
    index: usize,
    line: &io::Result<String>,
    out: &mut W,
    err: &mut E,
) -> u8 {
    let outcome = match line {
        Ok(line) => carry_out(alloc, session, line.as_str(), out),
        Err(e) if e.kind() == io::ErrorKind::InvalidData => Err(ScriptFailure::NoText),
        Err(_) => Err(ScriptFailure::Other),
    };
    match outcome {
        Ok(()) => DONE,
        Err(ScriptFailure::Other) => FAILED,
        Err(failure) => refuse(err, index, &failure),
    }
}

// Carries out what a line says.
fn carry_out<'a, W: Write>(
    alloc: Global,
    session: &mut Session,
    line: &'a str,
    out: &mut W,
) -> Result<(), ScriptFailure<'a>> {
    let Some(command) = read_line(alloc, line)? else {
        return Ok(());
    };
    if let Some(text) = session.run(alloc, command)? {
        writeln!(out, "{text}")?;
    }
    Ok(())
}

// Says what is wrong with the line at this index, and answers the status.
fn refuse<E: Write>(err: &mut E, index: usize, failure: &ScriptFailure<'_>) -> u8 {
    let number = index.saturating_add(1);
    status_of(MALFORMED, writeln!(err, "line {number}: {failure}"))
}
