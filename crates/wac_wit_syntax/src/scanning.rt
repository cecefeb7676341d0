//! Steps over the bytes of a text.

ghost use Rattle.std.specs.Prelude.{◌≡◌, ◌+◌, ◌≤◌, drop, length, option_map, slice_index};
ghost use Rattle.wac_wit_syntax.specs.Bytes.{is_space, is_version_byte, is_word_byte};
ghost use Rattle.wac_wit_syntax.specs.Reading.{closing_length, goes_on, run_length};

// How many characters of a text are quoted at most.
const QUOTED: usize = 60;

/// The byte at an index, or 0 past the end.
pub(crate) fn byte_at(bytes: &[u8], index: usize) -> u8
    ensures { result ≡ slice_index bytes.now index }
{
    bytes.get(index).copied().unwrap_or(0)
}

/// A part of a text as messages quote it: not more of it than its first characters.
pub(crate) fn quoted(part: &str) -> &str {
    match part.char_indices().nth(QUOTED) {
        Some((end, _)) => part.get(0..end).unwrap_or(part),
        None => part,
    }
}

/// Whether a byte may stand in a word of a name.
pub(crate) fn is_word_byte(byte: u8) -> bool
    ensures { result ≡ is_word_byte byte }
{
    byte.is_ascii_alphanumeric() || byte == b'_'
}

/// Whether a byte is white space.
pub(crate) fn is_space(byte: u8) -> bool
    ensures { result ≡ is_space byte }
{
    matches!(byte, b' ' | b'\t' | b'\r' | b'\n')
}

/// Bytes that are read in a row.
#[derive(Clone, Copy)]
pub(crate) enum Run {
    /// The rest of a line.
    Line,
    /// White space.
    Space,
    /// Digits.
    Digits,
    /// The bytes that stand in names, none of which is the `-` of an arrow.
    Name,
    /// The bytes that stand in versions. A dot is one if more of the version follows, so that
    /// `1.2.3.{` ends before the last.
    Version,
    /// The bytes of characters that aren't ASCII.
    Foreign,
}

impl Run {
    /// Where the run ends that begins at an index.
    pub(crate) fn end(self, bytes: &[u8], from: usize) -> usize
        ensures { from ≤ length bytes.now → result ≡ from + run_length self (drop from bytes.now) }
    {
        for at in from..bytes.len() {
            if !self.goes_on(bytes[at], byte_at(bytes, at + 1)) {
                return at;
            }
        }
        bytes.len()
    }

    // Whether a byte belongs to the run, where this one follows it.
    fn goes_on(self, byte: u8, next: u8) -> bool
        ensures { result ≡ goes_on self byte next }
    {
        match self {
            Run::Line => byte != b'\n',
            Run::Space => is_space(byte),
            Run::Digits => byte.is_ascii_digit(),
            Run::Name => is_word_byte(byte) || byte == b'-' && next != b'>',
            Run::Version => is_version_byte(byte) || byte == b'.' && is_version_byte(next),
            Run::Foreign => !byte.is_ascii(),
        }
    }
}

fn is_version_byte(byte: u8) -> bool
    ensures { result ≡ is_version_byte byte }
{
    byte.is_ascii_alphanumeric() || matches!(byte, b'-' | b'+')
}

/// Where a comment ends whose inside begins at an index, or `None` if it doesn't. Comments nest, as
/// deep as one likes: their depth is a number.
pub(crate) fn comment_end(bytes: &[u8], from: usize) -> Option<usize>
    ensures { from ≤ length bytes.now → result ≡ option_map (λ n. from + n) (closing_length 1 (drop from bytes.now)) }
{
    let mut depth = 1usize;
    // the byte before, or 0 where it belongs to a delimiter
    let mut before = 0u8;
    for at in from..bytes.len() {
        let byte = bytes[at];
        if before == b'/' && byte == b'*' {
            depth += 1;
            before = 0;
        } else if before == b'*' && byte == b'/' {
            if depth == 1 {
                return Some(at + 1);
            }
            depth -= 1;
            before = 0;
        } else {
            before = byte;
        }
    }
    None
}
