//! Cuts a text into tokens.

ghost use Rattle.std.specs.Prelude.{◌≡◌, ◌+◌, ◌<◌, ◌≤◌, true, List, [], ◌∷◌, ◌++◌, IfOk, OnOk, drop, length, slice_index, vec_len};
ghost use Rattle.std.specs.Char.{is_ascii_digit};
ghost use Rattle.wac_wit_syntax.specs.Faults.{AreFaults};
ghost use Rattle.wac_wit_syntax.specs.Parts.{HasNoPart, IsRead, first_place, tokens_of, with_docs};
ghost use Rattle.wac_wit_syntax.specs.Reading.{BeginsWord, IsPieceAt};
ghost use Rattle.wac_wit_syntax.specs.Steps.{IsStep};
ghost use Rattle.wac_wit_syntax.specs.declared.token.Token.{Token};

use super::characters::note_characters;
use super::names::{fault_of_name, is_label};
use super::positions::Span;
use super::refusals::Refusals;
use super::scanning::{Run, byte_at, comment_end, is_space, is_word_byte, quoted};
use super::token::{Token, TokenKind};
use std::alloc::{AllocError, Global};

// The bytes of a byte order mark, which may stand at the start of a text.
const MARK: [u8; 3] = [0xef, 0xbb, 0xbf];

// What stands at a place of a text, and where it ends.
#[derive(Clone, Copy)]
enum Piece {
    // White space.
    Space(usize),
    // A comment.
    Comment(usize),
    // A comment that is documentation.
    Docs(usize),
    // A token.
    Token(TokenKind, usize),
    // What begins as such a token and is none.
    Refused(TokenKind, usize),
}

// The tokens that are cut so far, and what follows.
struct Cutter {
    found: Vec<Token>,
    // where the next piece begins
    at: usize,
    // the documentation that the next token has
    docs: Option<Span>,
}

impl Drop for Cutter {
    fn drop(self) {
        let Cutter {
            found: _,
            at: _,
            docs: _,
        } = self;
    }
}

/// The tokens of a text, the last of which is its end. What is none is of the kind `Invalid`, and
/// is noted as refused.
pub(crate) fn cut(
    alloc: Global,
    text: &str,
    refusals: &mut Refusals,
) -> Result<Vec<Token>, AllocError>
    // Where nothing is refused, the tokens are what the text says.
    ensures read { IfOk result (λ tokens. vec_len refusals.new.found ≡ 0 → IsRead text.now tokens.items) }
    // What a text says is read, and nothing of it is refused.
    ensures complete { (tokens : List Token) → IsRead text.now tokens → vec_len refusals.old.found ≡ 0 → IfOk result (λ read. (read.items ≡ tokens) × (vec_len refusals.new.found ≡ 0)) }
    // Each refusal is where a character is refused, or no part of a text begins.
    ensures faults { AreFaults text.now refusals.old.found.items → AreFaults text.now refusals.new.found.items }
{
    note_characters(alloc, text, refusals)?;
    let bytes = text.as_bytes();
    let mut cutter = Cutter {
        found: Vec::new(alloc),
        at: first_byte(bytes),
        docs: None,
    };
    for _turn in 0..bytes.len() {
        if cutter.at >= bytes.len() || refusals.is_full() {
            break;
        }
        cutter.step(alloc, text, refusals)?;
    }
    cutter.finish(bytes.len())
}

// Where a text begins after its byte order mark.
fn first_byte(bytes: &[u8]) -> usize
    ensures place { result ≡ first_place bytes.now }
    ensures within { result ≤ length bytes.now }
{
    if bytes.starts_with(&MARK) {
        MARK.len()
    } else {
        0
    }
}

// A span that goes on to another.
fn joined(first: Option<Span>, last: Span) -> Span
    ensures { Some result ≡ with_docs first last }
{
    match first {
        Some(first) => first.to(last),
        None => last,
    }
}

impl Cutter {
    // Takes the next piece.
    fn step(&mut self, alloc: Global, text: &str, refusals: &mut Refusals) -> Result<(), AllocError>
        requires { self.old.at < length text.now }
        ensures step { OnOk result (IsStep text.now self.old self.new refusals.old.found.items refusals.new.found.items) }
        ensures faults { AreFaults text.now refusals.old.found.items → AreFaults text.now refusals.new.found.items }
    {
        match piece_at(text.as_bytes(), self.at) {
            Piece::Space(end) => {
                self.at = end;
                Ok(())
            }
            Piece::Comment(end) => {
                self.at = end;
                Ok(())
            }
            Piece::Docs(end) => {
                let start = self.at;
                self.docs = Some(joined(self.docs, Span { start, end }));
                self.at = end;
                Ok(())
            }
            Piece::Token(kind, end) => self.push(kind, end),
            Piece::Refused(kind, end) => {
                refuse(alloc, text, self.at, end, refusals)?;
                self.push(kind, end)
            }
        }
    }

    // Takes a token, which ends at a place.
    fn push(&mut self, kind: TokenKind, end: usize) -> Result<(), AllocError>
        ensures found { OnOk result (self.new.found.items ≡ self.old.found.items ++ record { kind = kind; span = record { start = self.old.at; end = end }; docs = self.old.docs } ∷ []) }
        ensures at { OnOk result (self.new.at ≡ end) }
        ensures docs { OnOk result (self.new.docs ≡ None) }
    {
        let span = Span {
            start: self.at,
            end,
        };
        let docs = self.docs;
        self.found.push(Token { kind, span, docs })?;
        self.at = end;
        self.docs = None;
        Ok(())
    }

    // The tokens, and the end of the text.
    fn finish(self, end: usize) -> Result<Vec<Token>, AllocError>
        ensures { IfOk result (λ tokens. tokens.items ≡ self.found.items ++ tokens_of end self.docs []) }
    {
        let Cutter {
            mut found,
            at: _,
            docs,
        } = self;
        let span = Span { start: end, end };
        let kind = TokenKind::End;
        found.push(Token { kind, span, docs })?;
        Ok(found)
    }
}

// What stands at a place.
fn piece_at(bytes: &[u8], at: usize) -> Piece
    requires { at < length bytes.now }
    ensures { IsPieceAt bytes.now at result }
{
    let byte = bytes[at];
    if byte.is_ascii_alphabetic() {
        name(bytes, at)
    } else if is_space(byte) {
        Piece::Space(Run::Space.end(bytes, at))
    } else if byte.is_ascii_digit() {
        number(bytes, at)
    } else if byte == b'/' {
        comment_or_slash(bytes, at)
    } else if byte == b'-' {
        arrow(bytes, at)
    } else if byte == b'%' {
        escaped_name(bytes, at)
    } else if byte == b'_' {
        underscore(bytes, at)
    } else {
        match TokenKind::of_byte(byte) {
            Some(kind) => Piece::Token(kind, at + 1),
            None => stray(bytes, at),
        }
    }
}

// A comment, or the token `/`.
fn comment_or_slash(bytes: &[u8], at: usize) -> Piece
    requires within { at < length bytes.now }
    requires slash { slice_index bytes.now at ≡ 47 }
    ensures { IsPieceAt bytes.now at result }
{
    let next = byte_at(bytes, at + 1);
    if next == b'/' {
        line_comment(bytes, at)
    } else if next == b'*' {
        block_comment(bytes, at)
    } else {
        Piece::Token(TokenKind::Slash, at + 1)
    }
}

// A comment to the end of the line: documentation after exactly three slashes.
fn line_comment(bytes: &[u8], at: usize) -> Piece
    requires within { at < length bytes.now }
    requires slash { slice_index bytes.now at ≡ 47 }
    requires second { slice_index bytes.now (at + 1) ≡ 47 }
    ensures { IsPieceAt bytes.now at result }
{
    let end = Run::Line.end(bytes, at);
    let third = byte_at(bytes, at + 2);
    let fourth = byte_at(bytes, at + 3);
    if third == b'/' && fourth != b'/' {
        Piece::Docs(end)
    } else {
        Piece::Comment(end)
    }
}

// A comment between `/*` and `*/`: documentation after exactly two stars. One that isn't closed
// takes the rest of the text.
fn block_comment(bytes: &[u8], at: usize) -> Piece
    requires within { at < length bytes.now }
    requires slash { slice_index bytes.now at ≡ 47 }
    requires second { slice_index bytes.now (at + 1) ≡ 42 }
    ensures { IsPieceAt bytes.now at result }
{
    let third = byte_at(bytes, at + 2);
    let fourth = byte_at(bytes, at + 3);
    match comment_end(bytes, at + 2) {
        Some(end) if third == b'*' && fourth != b'*' && fourth != b'/' => Piece::Docs(end),
        Some(end) => Piece::Comment(end),
        None => Piece::Refused(TokenKind::Invalid, bytes.len()),
    }
}

// A number or a version.
fn number(bytes: &[u8], at: usize) -> Piece
    requires within { at < length bytes.now }
    requires digit { is_ascii_digit (slice_index bytes.now at) ≡ true }
    ensures { IsPieceAt bytes.now at result }
{
    let end = Run::Digits.end(bytes, at);
    let byte = byte_at(bytes, end);
    if byte == b'.' && byte_at(bytes, end + 1).is_ascii_digit() {
        Piece::Token(TokenKind::Version, Run::Version.end(bytes, end))
    } else if is_word_byte(byte) {
        Piece::Refused(TokenKind::Word, Run::Name.end(bytes, at))
    } else {
        Piece::Token(TokenKind::Integer, end)
    }
}

// A name.
fn name(bytes: &[u8], at: usize) -> Piece
    requires within { at < length bytes.now }
    requires first { BeginsWord (slice_index bytes.now at) (slice_index bytes.now (at + 1)) }
    ensures { IsPieceAt bytes.now at result }
{
    let end = Run::Name.end(bytes, at);
    if is_label(&bytes[at..end]) {
        Piece::Token(TokenKind::Word, end)
    } else {
        Piece::Refused(TokenKind::Word, end)
    }
}

// A name behind its `%`.
fn escaped_name(bytes: &[u8], at: usize) -> Piece
    requires within { at < length bytes.now }
    requires percent { slice_index bytes.now at ≡ 37 }
    ensures { IsPieceAt bytes.now at result }
{
    let first = at + 1;
    let end = Run::Name.end(bytes, first);
    if is_label(&bytes[first..end]) {
        Piece::Token(TokenKind::Escaped, end)
    } else {
        Piece::Refused(TokenKind::Escaped, end)
    }
}

// `->`, since a `-` by itself is no token.
fn arrow(bytes: &[u8], at: usize) -> Piece
    requires within { at < length bytes.now }
    requires dash { slice_index bytes.now at ≡ 45 }
    ensures { IsPieceAt bytes.now at result }
{
    if byte_at(bytes, at + 1) == b'>' {
        Piece::Token(TokenKind::Arrow, at + 2)
    } else {
        stray(bytes, at)
    }
}

// `_`, if no name begins with it.
fn underscore(bytes: &[u8], at: usize) -> Piece
    requires within { at < length bytes.now }
    requires underscore { slice_index bytes.now at ≡ 95 }
    ensures { IsPieceAt bytes.now at result }
{
    if is_word_byte(byte_at(bytes, at + 1)) {
        name(bytes, at)
    } else {
        Piece::Token(TokenKind::Underscore, at + 1)
    }
}

// Characters with which no token begins: one, or as many as aren't ASCII.
fn stray(bytes: &[u8], at: usize) -> Piece
    requires within { at < length bytes.now }
    requires none { HasNoPart (drop at bytes.now) }
    ensures { IsPieceAt bytes.now at result }
{
    let end = Run::Foreign.end(bytes, at);
    Piece::Refused(TokenKind::Invalid, end.max(at + 1))
}

// Refuses what stands at a place, up to an end, and is no token.
fn refuse(
    alloc: Global,
    text: &str,
    start: usize,
    end: usize,
    refusals: &mut Refusals,
) -> Result<(), AllocError>
    requires begins { start < end }
    requires within { end ≤ length text.now }
    requires none { HasNoPart (drop start text.now) }
    ensures noted { OnOk result (0 < vec_len refusals.new.found) }
    ensures kept { vec_len refusals.new.found ≡ 0 → vec_len refusals.old.found ≡ 0 }
    ensures faults { AreFaults text.now refusals.old.found.items → AreFaults text.now refusals.new.found.items }
{
    match byte_at(text.as_bytes(), start) {
        b'/' => {
            let end = end.min(start + 2);
            let message = String::from_str(alloc, "this comment isn't closed: expected `*/`");
            refusals.add(Span { start, end }, message)
        }
        byte => {
            let part = text.get(start..end).unwrap_or("");
            refusals.add(Span { start, end }, message_of(alloc, byte, part))
        }
    }
}

// What is said of a part of a text that is no token, by the byte with which it begins.
fn message_of(alloc: Global, byte: u8, part: &str) -> Result<String, AllocError> {
    match byte {
        b'0'..=b'9' => {
            let found = quoted(part);
            format!(in alloc;
                "expected a name or a number, found `{found}`: a name begins with a letter"
            )
        }
        b'%' => message_of_name(alloc, part.strip_prefix('%').unwrap_or(part)),
        b'_' => message_of_name(alloc, part),
        _ if byte.is_ascii_alphabetic() => message_of_name(alloc, part),
        _ => message_of_stray(alloc, part.chars().next().unwrap_or(' ')),
    }
}

fn message_of_name(alloc: Global, words: &str) -> Result<String, AllocError> {
    let fault = fault_of_name(words).unwrap_or("a name begins with a letter");
    let words = quoted(words);
    format!(in alloc; "`{words}` is no name: {fault}")
}

fn message_of_stray(alloc: Global, c: char) -> Result<String, AllocError> {
    match c {
        '-' => format!(in alloc;
            "found a lone `-`: it stands between the words of a name, or in `->`"
        ),
        '"' | '\'' => format!(in alloc; "found a quote: WIT has no quoted texts"),
        '#' => format!(in alloc; "found `#`: a comment begins with `//`"),
        c if c.is_ascii() && !c.is_control() => {
            format!(in alloc; "found the character `{c}`, which stands in comments alone")
        }
        c => {
            let code = u32::from(c);
            format!(in alloc; "found the character U+{code:04X}, which stands in comments alone")
        }
    }
}
