//! What follows from the lexical grammar.

ghost use Rattle.wac_wit_syntax.specs.Laws.{HasLongestTokens, HasOnePart, HasOneReading, KeywordsAreNames};

/// At a place of a text stands one token at most, or one comment or byte of white space.
pub fn one_part()
    ensures { HasOnePart }
{}

/// A text is read as one list of tokens at most.
pub fn one_reading()
    ensures { HasOneReading }
{}

/// The token that stands at a place is the longest that begins there.
pub fn longest_tokens()
    ensures { HasLongestTokens }
{}

/// Each keyword is a name by its form, so that a text says it as a token of the same kind.
pub fn keywords_are_names()
    ensures { KeywordsAreNames }
{}
