//! Reads versions.

ghost use Rattle.std.specs.Prelude.{◌≡◌, ◌⊎◌, false, true, IfOk, IfSome, IsSome, string_bytes};
ghost use Rattle.wac_wit_syntax.specs.Completing.{AnyOf, Completes};
ghost use Rattle.wac_wit_syntax.specs.Cursors.{Reads, SpellsVersion};
ghost use Rattle.wac_wit_syntax.specs.Faults.{IsPlaceIn};
ghost use Rattle.wac_wit_syntax.specs.Paths.{IsSemVer, IsVersion, has_keyword};

use super::cursor::Cursor;
use super::error::Fault;
use super::keywords::is_keyword;
use super::positions::Span;
use super::scanning::{Run, byte_at, quoted};
use super::token::{Token, TokenKind};
use super::tree::Gate;
use semver::Version;
use std::alloc::{AllocError, Global};

// What is wrong with a version, from one byte of it to another.
#[derive(Clone, Copy)]
struct Wrong {
    start: usize,
    end: usize,
    message: &'static str,
}

/// Reads a version of SemVer 2.0.0, as `0.2.0`. Its numbers are below 2^64.
pub(crate) fn read_version(cursor: &mut Cursor) -> Result<Gate, Fault>
    ensures read { IfOk result (λ version. Reads cursor.old cursor.new (IsVersion version)) }
    ensures complete { Completes cursor.old cursor.new result (AnyOf IsVersion) }
{
    let token = cursor.peek();
    let Some(text) = version_text(cursor, token) else {
        return Err(cursor.refuse("a version, as `1.2.3`"));
    };
    if !is_version(cursor.alloc, text)? {
        return Err(refuse_version(cursor, token));
    }
    let text = String::from_str(cursor.alloc, text)?;
    let span = cursor.take().span;
    Ok(Gate { text, span })
}

// The text of a token that may be a version.
fn version_text(cursor: &Cursor, token: Token) -> Option<&str>
    ensures text { IfSome result (λ text. SpellsVersion (string_bytes cursor.now.text) token text.now) }
    ensures complete { IsPlaceIn (string_bytes cursor.now.text) token.span → (token.kind ≡ TokenKind.Version) ⊎ (token.kind ≡ TokenKind.Integer) → IsSome result }
{
    match token.kind {
        TokenKind::Version | TokenKind::Integer => cursor.spelling(token),
        _ => None,
    }
}

// Whether a text is a version of SemVer 2.0.0 in which no identifier is a keyword.
fn is_version(alloc: Global, text: &str) -> Result<bool, AllocError>
    ensures yes { IfOk result (λ answer. answer ≡ true → IsSemVer text.now) }
    ensures no { IfOk result (λ answer. answer ≡ false → IsSemVer text.now → ⊥) }
{
    match Version::parse(alloc, text) {
        Ok(version) => {
            if has_keyword(version.pre.as_str()) {
                return Ok(false);
            }
            Ok(!has_keyword(version.build.as_str()))
        }
        Err(error) => {
            if error == semver::Error::from(AllocError) {
                Err(AllocError)
            } else {
                Ok(false)
            }
        }
    }
}

// Whether a keyword stands among identifiers with dots between them.
fn has_keyword(identifiers: &str) -> bool
    ensures { result ≡ has_keyword identifiers.now }
{
    identifiers.split('.').any(is_keyword)
}

// Refuses a token that may be a version and is none, and tells what is wrong with it.
fn refuse_version(cursor: &mut Cursor, token: Token) -> Fault {
    let text = cursor.text_of(token);
    if let Some(wrong) = fault_of_version(text) {
        let span = Span {
            start: token.span.start.saturating_add(wrong.start),
            end: token.span.start.saturating_add(wrong.end),
        };
        return cursor.refuse_at(span, wrong.message);
    }
    let error = match Version::parse(cursor.alloc, text) {
        Ok(_parsed) => return cursor.refuse("a version, as `1.2.3`"),
        Err(error) => error,
    };
    if error == semver::Error::from(AllocError) {
        return Fault::Memory;
    }
    let text = quoted(text);
    let message = format!(in cursor.alloc; "`{text}` is no version of SemVer 2.0.0: {error}");
    cursor.note(token.span, message)
}

// What is wrong with the form of a version: it has three numbers with dots between them, and none
// of the identifiers behind them is a keyword, as the readers in use ask.
fn fault_of_version(text: &str) -> Option<Wrong> {
    match end_of_numbers(text.as_bytes()) {
        Ok(end) => keyword_in(text, end.saturating_add(1)),
        Err(end) => Some(Wrong {
            start: end,
            end,
            message: "expected a version of three numbers, as `1.2.3`",
        }),
    }
}

// Where three numbers end that have dots between them, or where what there is of them ends.
fn end_of_numbers(bytes: &[u8]) -> Result<usize, usize> {
    let mut end = Run::Digits.end(bytes, 0);
    for _number in 0..2 {
        let next = end.saturating_add(1);
        if byte_at(bytes, end) != b'.' || !byte_at(bytes, next).is_ascii_digit() {
            return Err(end);
        }
        end = Run::Digits.end(bytes, next);
    }
    match byte_at(bytes, end) {
        0 | b'-' | b'+' => Ok(end),
        _ => Err(end),
    }
}

// The first keyword among the identifiers of a version, which begin at a place.
fn keyword_in(text: &str, first: usize) -> Option<Wrong> {
    let bytes = text.as_bytes();
    let mut start = first;
    for end in first..bytes.len().saturating_add(1) {
        if !matches!(byte_at(bytes, end), 0 | b'.' | b'+') {
            continue;
        }
        if is_keyword(text.get(start..end).unwrap_or("")) {
            let message = "a keyword can't stand in a version";
            return Some(Wrong {
                start,
                end,
                message,
            });
        }
        start = end.saturating_add(1);
    }
    None
}
