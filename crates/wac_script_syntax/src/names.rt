//! Reading names.

use super::error::{ScriptError, unexpected};
use super::writing::name_word;
use percent_encoding::{AsciiSet, NON_ALPHANUMERIC, ascii_set, percent_decode_str};
use std::alloc::{AllocError, Global};

/// The ASCII bytes that never stand for themselves.
pub(crate) const ESCAPED: AsciiSet = ascii_set!(
    NON_ALPHANUMERIC
        .remove(b':')
        .remove(b'/')
        .remove(b'@')
        .remove(b'.')
        .remove(b'+')
        .remove(b'_')
        .remove(b'-')
        .remove(b'[')
        .remove(b']')
        .remove(b'#')
        .remove(b'*')
);

// The text that a word's escapes stand for, where it is UTF-8.
fn unescaped(alloc: Global, word: &str) -> Result<Option<String>, AllocError> {
    if word == "%" {
        return Ok(Some(String::new(alloc)));
    }
    let mut bytes = Vec::new(alloc);
    percent_decode_str(word).append_to(&mut bytes)?;
    Ok(String::from_utf8(bytes).ok())
}

/// Reads a name. Each name is written in one way alone.
pub fn read_name(alloc: Global, word: &str) -> Result<String, ScriptError<'_>> {
    let Some(name) = unescaped(alloc, word)? else {
        return Err(unexpected("a name", word));
    };
    if name_word(alloc, &name)?.as_str() != word {
        return Err(unexpected("a name", word));
    }
    Ok(name)
}

/// Reads a name, or none from `-`.
pub fn read_optional_name(alloc: Global, word: &str) -> Result<Option<String>, ScriptError<'_>> {
    if word == "-" {
        return Ok(None);
    }
    Ok(Some(read_name(alloc, word)?))
}

/// Splits a word `NAME=REST` in two.
pub fn split_named<'a>(
    expected: &'static str,
    word: &'a str,
) -> Result<(&'a str, &'a str), ScriptError<'a>> {
    word.split_once('=').ok_or(unexpected(expected, word))
}
