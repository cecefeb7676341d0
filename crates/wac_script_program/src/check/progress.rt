//! How far a script has been checked.

use super::outcome::{Outcome, outcome_of};
use crate::failure::ScriptFailure;
use std::alloc::{AllocError, Global};
use std::io::Write;
use wac_script_session::Session;

/// A line of a script.
#[derive(Clone, Copy)]
pub(crate) struct Line<'a> {
    /// Its number, from 1.
    pub(crate) number: usize,
    pub(crate) text: &'a str,
}

// A line that holds a command, and what became of it.
#[derive(Drop)]
struct Before<'a> {
    line: Line<'a>,
    outcome: Outcome<'a>,
    // The answer that stands beside it so far.
    expected: Option<String>,
}

/// How far a script has been checked.
#[derive(Drop)]
pub(crate) struct Progress<'a> {
    // The name of the script.
    name: &'a str,
    session: Session,
    // The command before, until it is settled whether what became of it is as expected.
    before: Option<Before<'a>>,
    /// The number of the line that a failure is about, from 1.
    pub(crate) line: usize,
    /// How many answers and refusals were expected.
    pub(crate) questions: u64,
    /// How many of them were found to be others.
    pub(crate) differing: u64,
}

impl<'a> Progress<'a> {
    /// The start of the script of this name.
    pub(crate) fn new(alloc: Global, name: &'a str) -> Progress<'a> {
        Progress {
            name,
            session: Session::new(alloc),
            before: None,
            line: 0,
            questions: 0,
            differing: 0,
        }
    }

    /// Takes the next line.
    pub(crate) fn take<W: Write>(
        &mut self,
        alloc: Global,
        line: Line<'a>,
        out: &mut W,
    ) -> Result<(), ScriptFailure<'a>> {
        self.line = line.number;
        if let Some(answer) = line.text.strip_prefix("= ") {
            return self.expect_answer(alloc, answer, out);
        }
        if line.text.starts_with("! ") {
            return self.expect_refusal(alloc, line.text, out);
        }
        self.settle(out)?;
        self.carry_out(alloc, line)
    }

    // Carries out a line; what is expected of it may stand in the lines after it.
    fn carry_out(&mut self, alloc: Global, line: Line<'a>) -> Result<(), ScriptFailure<'a>> {
        if let Some(outcome) = outcome_of(alloc, &mut self.session, line.text)? {
            self.before = Some(Before {
                line,
                outcome,
                expected: None,
            });
        }
        Ok(())
    }

    // Puts a line of an expected answer beside the question before it.
    fn expect_answer<W: Write>(
        &mut self,
        alloc: Global,
        answer: &str,
        out: &mut W,
    ) -> Result<(), ScriptFailure<'a>> {
        if let Some(before) = &mut self.before
            && let Outcome::Answer(_) = &before.outcome
        {
            before.expected = Some(with_line(alloc, &before.expected, answer)?);
            return Ok(());
        }
        self.settle(out)?;
        Err(ScriptFailure::NoQuestion)
    }

    // Compares what became of the command before with the refusal that is expected.
    fn expect_refusal<W: Write>(
        &mut self,
        alloc: Global,
        refusal: &str,
        out: &mut W,
    ) -> Result<(), ScriptFailure<'a>> {
        let Some(before) = self.before.take() else {
            return Err(ScriptFailure::NoCommand);
        };
        if before.expected.is_some() {
            return Err(ScriptFailure::NoCommand);
        }
        let found = before.outcome.shown(alloc)?;
        self.compare(before.line, refusal, &found, out)
    }

    /// Settles whether what became of the command before is as expected.
    pub(crate) fn settle<W: Write>(&mut self, out: &mut W) -> Result<(), ScriptFailure<'a>> {
        let Some(before) = self.before.take() else {
            return Ok(());
        };
        let line = before.line;
        match (before.outcome, before.expected) {
            (Outcome::Done, _) => Ok(()),
            (Outcome::Answer(found), Some(expected)) => self.compare(line, &expected, &found, out),
            (Outcome::Answer(_), None) => self.fail(line, ScriptFailure::NoAnswer),
            (Outcome::Refusal(error), _) => self.fail(line, ScriptFailure::Refused(error)),
        }
    }

    // Counts a question, and prints it where something else is found than what is expected.
    fn compare<W: Write>(
        &mut self,
        line: Line<'a>,
        expected: &str,
        found: &str,
        out: &mut W,
    ) -> Result<(), ScriptFailure<'a>> {
        self.questions = self.questions.saturating_add(1);
        if found == expected {
            return Ok(());
        }
        self.differing = self.differing.saturating_add(1);
        let Line { number, text } = line;
        writeln!(out, "{}:{number}: {text}", self.name)?;
        writeln!(out, "expected: {expected}")?;
        writeln!(out, "found: {found}")?;
        Ok(())
    }

    // Fails on an earlier line.
    fn fail(
        &mut self,
        line: Line<'a>,
        failure: ScriptFailure<'a>,
    ) -> Result<(), ScriptFailure<'a>> {
        self.line = line.number;
        Err(failure)
    }
}

// The lines of an answer with one more line.
fn with_line(alloc: Global, before: &Option<String>, line: &str) -> Result<String, AllocError> {
    match before {
        Some(before) => format!(in alloc; "{before}\n{line}"),
        None => String::from_str(alloc, line),
    }
}
