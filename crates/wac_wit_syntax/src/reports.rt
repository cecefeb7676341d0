//! Prints a refusal, with the line of the text.

use super::characters::fault_of;
use super::error::Refusal;
use super::positions::{Position, Span, position_of};
use std::alloc::AllocError;
use unicode_width::UnicodeWidthStr;

// How many characters of a line are shown at most before a place, and from there on.
const SHOWN: usize = 60;

/// Puts a refusal last: the place and what is wrong, and below them the line with marks under the
/// place.
pub fn push_report(
    out: &mut String,
    name: &str,
    text: &str,
    refusal: &Refusal,
) -> Result<(), AllocError> {
    let Position { line, column } = position_of(text, refusal.span.start);
    let message = refusal.message.as_str();
    writeln!(out, "{name}:{line}:{column}: {message}")?;
    let margin = digits_of(line);
    push_times(out, ' ', margin)?;
    write!(out, " |\n{line} | ")?;
    let shown = text.lines().nth(line.saturating_sub(1)).unwrap_or("");
    let indent = push_line(out, shown, column.saturating_sub(1))?;
    push_times(out, ' ', margin)?;
    out.push_str(" | ")?;
    push_times(out, ' ', indent)?;
    push_times(out, '^', marks(text, refusal.span))?;
    out.push('\n')?;
    Ok(())
}

// Puts what is shown of a line last, and answers how wide that is before a place.
fn push_line(out: &mut String, shown: &str, place: usize) -> Result<usize, AllocError> {
    let before = shown.get(0..place).unwrap_or(shown);
    let after = shown.get(place..shown.len()).unwrap_or("");
    let hidden = before.chars().count().saturating_sub(SHOWN);
    let indent = push_shown(out, before, hidden)?;
    push_shown(out, after, 0)?;
    out.push('\n')?;
    Ok(indent)
}

// How many decimal digits a number has.
fn digits_of(number: usize) -> usize {
    let mut rest = number;
    for count in 1..20usize {
        rest /= 10;
        if rest == 0 {
            return count;
        }
    }
    20
}

fn push_times(out: &mut String, c: char, count: usize) -> Result<(), AllocError> {
    for _time in 0..count {
        out.push(c)?;
    }
    Ok(())
}

// Puts a part of a line last without its first characters, and answers how wide that is shown.
// What would not be shown as itself gives way to what is.
fn push_shown(out: &mut String, part: &str, hidden: usize) -> Result<usize, AllocError> {
    let start = out.len();
    for c in part.chars().skip(hidden).take(SHOWN) {
        out.push(shown_as(c))?;
    }
    Ok(out.get(start..out.len()).unwrap_or("").width())
}

fn shown_as(c: char) -> char {
    if matches!(c, '\t' | '\r') {
        ' '
    } else if fault_of(c).is_some() {
        char::REPLACEMENT_CHARACTER
    } else {
        c
    }
}

// How many marks stand below a span: as many as what is shown of its first line is wide, and at
// least one.
fn marks(text: &str, span: Span) -> usize {
    let part = text.get(span.start..span.end).unwrap_or("");
    let first = part.lines().next().unwrap_or("");
    first.width().min(SHOWN).max(1)
}
