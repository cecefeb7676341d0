//! The tokens of WIT.

ghost use Rattle.std.specs.Prelude.{◌≡◌};
ghost use Rattle.wac_wit_syntax.specs.Reading.{kind_of};

use super::positions::Span;

/// What a token is.
#[derive(Clone, Copy, PartialEq, Eq)]
pub(crate) enum TokenKind {
    /// A name or a keyword.
    Word,
    /// A name with `%` before it, which is never a keyword.
    Escaped,
    /// Digits.
    Integer,
    /// Digits, a dot and digits, and what may follow in a version.
    Version,
    /// `_`.
    Underscore,
    /// `=`.
    Equals,
    /// `,`.
    Comma,
    /// `:`.
    Colon,
    /// `;`.
    Semicolon,
    /// `(`.
    OpenParen,
    /// `)`.
    CloseParen,
    /// `{`.
    OpenBrace,
    /// `}`.
    CloseBrace,
    /// `<`.
    OpenAngle,
    /// `>`.
    CloseAngle,
    /// `*`.
    Star,
    /// `->`.
    Arrow,
    /// `/`.
    Slash,
    /// `.`.
    Dot,
    /// `@`.
    At,
    /// What is no token, and is refused.
    Invalid,
    /// The end of the text.
    End,
}

impl TokenKind {
    /// The kind in words.
    pub(crate) fn description(self) -> &'static str {
        match self {
            TokenKind::Word | TokenKind::Escaped => "a name",
            TokenKind::Integer => "a number",
            TokenKind::Version => "a version",
            TokenKind::Underscore => "`_`",
            TokenKind::Equals => "`=`",
            TokenKind::Comma => "`,`",
            TokenKind::Colon => "`:`",
            TokenKind::Semicolon => "`;`",
            TokenKind::OpenParen => "`(`",
            TokenKind::CloseParen => "`)`",
            TokenKind::OpenBrace => "`{`",
            TokenKind::CloseBrace => "`}`",
            TokenKind::OpenAngle => "`<`",
            TokenKind::CloseAngle => "`>`",
            TokenKind::Star => "`*`",
            TokenKind::Arrow => "`->`",
            TokenKind::Slash => "`/`",
            TokenKind::Dot => "`.`",
            TokenKind::At => "`@`",
            TokenKind::Invalid => "a token",
            TokenKind::End => "the end of the file",
        }
    }

    /// The kind that a byte is, whatever follows it.
    pub(crate) fn of_byte(byte: u8) -> Option<TokenKind>
        ensures { result ≡ kind_of byte }
    {
        Some(match byte {
            b'=' => TokenKind::Equals,
            b',' => TokenKind::Comma,
            b':' => TokenKind::Colon,
            b';' => TokenKind::Semicolon,
            b'(' => TokenKind::OpenParen,
            b')' => TokenKind::CloseParen,
            b'{' => TokenKind::OpenBrace,
            b'}' => TokenKind::CloseBrace,
            b'<' => TokenKind::OpenAngle,
            b'>' => TokenKind::CloseAngle,
            b'*' => TokenKind::Star,
            b'.' => TokenKind::Dot,
            b'@' => TokenKind::At,
            _ => return None,
        })
    }
}

/// A token of a text.
#[derive(Clone, Copy)]
pub(crate) struct Token {
    /// What it is.
    pub(crate) kind: TokenKind,
    /// Where it stands.
    pub(crate) span: Span,
    /// The documentation that stands before it, if there is any: from the first such comment to
    /// the last.
    pub(crate) docs: Option<Span>,
}
