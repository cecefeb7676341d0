//! What became of a line that holds a command.

use crate::failure::ScriptFailure;
use std::alloc::{AllocError, Global};
use wac_script_session::Session;
use wac_script_syntax::{Command, ScriptError, read_line};

/// What became of a line that holds a command.
#[derive(Drop)]
pub(crate) enum Outcome<'a> {
    /// It is a question, and this is the answer, without its number.
    Answer(String),
    /// It was refused, and this is why.
    Refusal(ScriptError<'a>),
    /// It was carried out, and is no question.
    Done,
}

impl Outcome<'_> {
    /// The outcome as it would stand beside the line in a script.
    pub(crate) fn shown(&self, alloc: Global) -> Result<String, AllocError> {
        match self {
            Outcome::Answer(answer) => format!(in alloc; "= {answer}"),
            Outcome::Refusal(error) => format!(in alloc; "! {error}"),
            Outcome::Done => String::from_str(alloc, "no refusal"),
        }
    }
}

// The answer in what a question prints, without its number.
fn answer_in(alloc: Global, text: &str) -> Result<String, AllocError> {
    match text.split_once(' ') {
        Some((_, answer)) => String::from_str(alloc, answer),
        None => String::from_str(alloc, text),
    }
}

// Carries out a line, whose refusal is an error.
fn carry_out<'a>(
    alloc: Global,
    session: &mut Session,
    line: &'a str,
) -> Result<Option<Outcome<'a>>, ScriptFailure<'a>> {
    let Some(command) = read_line(alloc, line)? else {
        return Ok(None);
    };
    let is_question = matches!(&command, Command::Query(_));
    let Some(text) = session.run(alloc, command)? else {
        return Ok(Some(Outcome::Done));
    };
    if !is_question {
        return Ok(Some(Outcome::Done));
    }
    Ok(Some(Outcome::Answer(answer_in(alloc, &text)?)))
}

/// Carries out a line, and tells what became of it; none where it holds no command. The error is a
/// failed allocation.
pub(crate) fn outcome_of<'a>(
    alloc: Global,
    session: &mut Session,
    line: &'a str,
) -> Result<Option<Outcome<'a>>, ScriptFailure<'a>> {
    match carry_out(alloc, session, line) {
        Err(ScriptFailure::Refused(error)) => Ok(Some(Outcome::Refusal(error))),
        outcome => outcome,
    }
}
