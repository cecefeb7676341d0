//! Places in a text.

ghost use Rattle.std.specs.Prelude.{◌≡◌};
ghost use Rattle.wac_wit_syntax.specs.Faults.{IsPlaceIn};
ghost use Rattle.wac_wit_syntax.specs.Positions.{IsPosition};

/// Bytes of a text, from the first up to but without the last.
#[derive(Clone, Copy, PartialEq, Eq, Debug)]
pub struct Span {
    /// Where the bytes begin.
    pub start: usize,
    /// Where they end.
    pub end: usize,
}

impl Span {
    /// From the start of this to the end of another.
    pub fn to(self, last: Span) -> Span
        ensures { result ≡ record { start = self.start; end = last.end } }
    {
        Span {
            start: self.start,
            end: last.end,
        }
    }

    /// This place if a text has it, and else the end of the text.
    pub(crate) fn within(self, text: &str) -> Span
        ensures { IsPlaceIn text.now result }
    {
        let Span { start, end } = self;
        if start <= end && text.is_char_boundary(start) && text.is_char_boundary(end) {
            return self;
        }
        let end = text.len();
        Span { start: end, end }
    }
}

/// A line and a column, each from 1. A column counts bytes, those of a byte order mark too.
#[derive(Clone, Copy)]
pub struct Position {
    /// The line.
    pub line: usize,
    /// The column.
    pub column: usize,
}

/// The line and the column of a byte.
pub fn position_of(text: &str, offset: usize) -> Position
    ensures { IsPosition text.now offset result }
{
    let before = &text.as_bytes()[..offset.min(text.len())];
    let mut line = 1;
    let mut column = 1;
    for byte in before {
        if *byte == b'\n' {
            line += 1;
            column = 1;
        } else {
            column += 1;
        }
    }
    Position { line, column }
}
