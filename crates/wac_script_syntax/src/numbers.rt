//! Numbers, flags and indices.

use super::error::{ScriptError, unexpected};

/// The number below 2^64 that a word writes in decimal digits, with no sign.
pub(crate) fn number_of(word: &str) -> Option<u64> {
    if word.starts_with('+') {
        return None;
    }
    word.parse::<u64>().ok()
}

/// The number below 2^32 that a word writes in decimal digits.
pub(crate) fn small_number_of(word: &str) -> Option<u32> {
    u32::try_from(number_of(word)?).ok()
}

/// The index that follows the letters of a list, as 3 in `fn3`.
pub(crate) fn index_after(letters: &str, word: &str) -> Option<usize> {
    let number = number_of(word.strip_prefix(letters)?)?;
    usize::try_from(number).ok()
}

/// The number of a word, or none for `-`.
pub(crate) fn limit_of(word: &str) -> Option<Option<u64>> {
    if word == "-" {
        return Some(None);
    }
    Some(Some(number_of(word)?))
}

/// The flag of a word, `0` or `1`.
pub(crate) fn flag_of(word: &str) -> Option<bool> {
    match word {
        "0" => Some(false),
        "1" => Some(true),
        _ => None,
    }
}

/// Reads a number.
pub fn read_number(word: &str) -> Result<u64, ScriptError<'_>> {
    number_of(word).ok_or(unexpected("a number", word))
}

/// Reads a number below 2^32.
pub fn read_small_number(word: &str) -> Result<u32, ScriptError<'_>> {
    small_number_of(word).ok_or(unexpected("a number below 2^32", word))
}

/// Reads the index of a resource.
pub fn read_resource(word: &str) -> Result<usize, ScriptError<'_>> {
    index_after("r", word).ok_or(unexpected("a resource", word))
}

/// Reads the index of an interface.
pub fn read_interface(word: &str) -> Result<usize, ScriptError<'_>> {
    index_after("i", word).ok_or(unexpected("an interface", word))
}

/// Reads the index of an interface, or none from `-`.
pub fn read_optional_interface(word: &str) -> Result<Option<usize>, ScriptError<'_>> {
    if word == "-" {
        return Ok(None);
    }
    Ok(Some(read_interface(word)?))
}

/// Reads the index of a world.
pub fn read_world(word: &str) -> Result<usize, ScriptError<'_>> {
    index_after("w", word).ok_or(unexpected("a world", word))
}
