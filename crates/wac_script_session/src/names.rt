//! Answers about names with versions.

use super::lines::push_yes_or_no;
use std::alloc::Global;
use wac_names::{are_semver_compatible, track_of};
use wac_script_syntax::{ScriptError, push_name, read_name};

/// Puts the word that writes the track key of a name last, or `none`: the answer to `track`.
pub(crate) fn track<'a>(
    alloc: Global,
    text: &mut String,
    words: &[&'a str],
) -> Result<(), ScriptError<'a>> {
    let [word] = *words else {
        return Err(ScriptError::Misused("track NAME"));
    };
    let name = read_name(alloc, word)?;
    match track_of(alloc, &name)? {
        Some(key) => push_name(text, key)?,
        None => text.push_str("none")?,
    }
    Ok(())
}

/// Puts last whether two names are equal or on one track: the answer to `compatible`.
pub(crate) fn compatible<'a>(
    alloc: Global,
    text: &mut String,
    words: &[&'a str],
) -> Result<(), ScriptError<'a>> {
    let [a, b] = *words else {
        return Err(ScriptError::Misused("compatible NAME NAME"));
    };
    let a = read_name(alloc, a)?;
    let b = read_name(alloc, b)?;
    push_yes_or_no(text, are_semver_compatible(alloc, &a, &b)?)?;
    Ok(())
}
