//! What a name is.

ghost use Rattle.std.specs.Prelude.{◌≡◌};
ghost use Rattle.wac_wit_syntax.specs.Bytes.{is_lower_or_digit, is_upper_or_digit};
ghost use Rattle.wac_wit_syntax.specs.Names.{is_fragment, is_label};

use super::scanning::byte_at;

/// Whether bytes are a name: words with `-` between them, each in one case, and the first begins with
/// a letter.
pub(crate) fn is_label(words: &[u8]) -> bool
    ensures { result ≡ is_label words.now }
{
    byte_at(words, 0).is_ascii_alphabetic() && words.split(|byte| *byte == b'-').all(is_fragment)
}

// Whether bytes are a word of a name: letters of one case and digits, at least one.
fn is_fragment(word: &[u8]) -> bool
    ensures { result ≡ is_fragment word.now }
{
    !word.is_empty()
        && (word.iter().all(|byte| is_lower_or_digit(*byte))
            || word.iter().all(|byte| is_upper_or_digit(*byte)))
}

fn is_lower_or_digit(byte: u8) -> bool
    ensures { result ≡ is_lower_or_digit byte }
{
    byte.is_ascii_lowercase() || byte.is_ascii_digit()
}

fn is_upper_or_digit(byte: u8) -> bool
    ensures { result ≡ is_upper_or_digit byte }
{
    byte.is_ascii_uppercase() || byte.is_ascii_digit()
}

/// Why a text between bytes that can't stand in names is no name: words with `-` between them, each
/// in one case, and the first begins with a letter.
pub(crate) fn fault_of_name(words: &str) -> Option<&'static str> {
    if words.is_empty() {
        return Some("a name follows `%`");
    }
    if !byte_at(words.as_bytes(), 0).is_ascii_alphabetic() {
        return Some("a name begins with a letter");
    }
    for word in words.split('-') {
        if let Some(fault) = fault_of_word(word) {
            return Some(fault);
        }
    }
    None
}

fn fault_of_word(word: &str) -> Option<&'static str> {
    if word.is_empty() {
        return Some("between two words stands one `-`, and none at the end");
    }
    let mut has_lower = false;
    let mut has_upper = false;
    for byte in word.as_bytes() {
        match *byte {
            b'_' => return Some("`_` can't stand in a name; between words stands `-`"),
            b'a'..=b'z' => has_lower = true,
            b'A'..=b'Z' => has_upper = true,
            _ => {}
        }
    }
    if has_lower && has_upper {
        return Some("each word is in lower case or in upper case; between words stands `-`");
    }
    None
}
