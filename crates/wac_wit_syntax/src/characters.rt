//! The characters that can't stand in a text, not even in a comment: those that let a text be shown
//! as something else than it is.

ghost use Rattle.std.specs.Prelude.{◌≡◌, ◌+◌, ◌<◌, ◌≤◌, true, false, [], ◌∷◌, OnOk, is_some, length, slice_index, vec_len};
ghost use Rattle.std.specs.Char.{len_utf8};
ghost use Rattle.std.specs.Str.{chars};
ghost use Rattle.wac_wit_syntax.specs.Characters.{is_refused, is_refused_before, none_refused};
ghost use Rattle.wac_wit_syntax.specs.Faults.{AreFaults};
ghost use Rattle.wac_wit_syntax.specs.Steps.{AddsOnly};

use super::positions::Span;
use super::refusals::Refusals;
use super::scanning::byte_at;
use std::alloc::{AllocError, Global};

/// Notes the characters that can't stand in a text.
pub(crate) fn note_characters(
    alloc: Global,
    text: &str,
    refusals: &mut Refusals,
) -> Result<(), AllocError>
    ensures shown { OnOk result (vec_len refusals.new.found ≡ 0 → none_refused (chars text.now) ≡ true) }
    ensures quiet { none_refused (chars text.now) ≡ true → refusals.new.found.items ≡ refusals.old.found.items }
    ensures kept { vec_len refusals.new.found ≡ 0 → vec_len refusals.old.found ≡ 0 }
    ensures faults { AreFaults text.now refusals.old.found.items → AreFaults text.now refusals.new.found.items }
{
    for (at, c) in text.char_indices() {
        note_character(alloc, text, at, c, refusals)?;
    }
    Ok(())
}

// Notes the character at a place, if it can't stand there and there is room for more.
fn note_character(
    alloc: Global,
    text: &str,
    at: usize,
    c: char,
    refusals: &mut Refusals,
) -> Result<(), AllocError>
    requires { at + len_utf8 c ≤ length text.now }
    ensures noted { is_refused_before c (slice_index text.now (at + 1) ∷ []) ≡ true → OnOk result (0 < vec_len refusals.new.found) }
    ensures quiet { is_refused_before c (slice_index text.now (at + 1) ∷ []) ≡ false → refusals.new.found.items ≡ refusals.old.found.items }
    ensures only { AddsOnly (record { start = at; end = at + len_utf8 c }) refusals.old.found.items refusals.new.found.items }
    ensures kept { vec_len refusals.new.found ≡ 0 → vec_len refusals.old.found ≡ 0 }
{
    let Some(fault) = fault_at(text, at, c) else {
        return Ok(());
    };
    if refusals.is_full() {
        return Ok(());
    }
    let end = at + c.len_utf8();
    let code = u32::from(c);
    let message = format!(in alloc; "found the character U+{code:04X}: {fault}");
    refusals.add(Span { start: at, end }, message)
}

// Why the character at a place can't stand there.
fn fault_at(text: &str, at: usize, c: char) -> Option<&'static str>
    ensures { at < length text.now → is_some result ≡ is_refused_before c (slice_index text.now (at + 1) ∷ []) }
{
    if c == '\r' && byte_at(text.as_bytes(), at.saturating_add(1)) != b'\n' {
        return Some("a carriage return stands only before a line feed");
    }
    if matches!(c, '\t' | '\n' | '\r') {
        return None;
    }
    fault_of(c)
}

/// Why a character other than white space can't stand in a text.
pub(crate) fn fault_of(c: char) -> Option<&'static str>
    ensures { is_some result ≡ is_refused c }
{
    match c {
        ' '..='~' => None,
        '\u{202a}'..='\u{202e}' | '\u{2066}'..='\u{2069}' => {
            Some("it changes the direction in which text is shown")
        }
        '\u{149}' | '\u{673}' | '\u{f77}' | '\u{f79}' => Some("it is deprecated in Unicode"),
        '\u{17a3}' | '\u{17a4}' | '\u{17b4}' | '\u{17b5}' => Some("it is deprecated in Unicode"),
        c if c.is_control() => Some("control characters can't stand in WIT"),
        _ => None,
    }
}
