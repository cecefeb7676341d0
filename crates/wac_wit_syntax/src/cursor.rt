//! Steps over tokens.

ghost use Rattle.std.specs.Prelude.{◌≡◌, ◌≢◌, ◌⊎◌, ◌+◌, ◌-◌, ◌<◌, true, false, [], IfErr, IfOk, IfSome, IsErr, IsOk, IsSome, OnOk, length, slice_range, string_bytes, vec_len};
ghost use Rattle.wac_model.specs.Text.{Text};
ghost use Rattle.wac_wit_syntax.specs.Completing.{AnyOf, IsReadable, Completes, Eats, IsCutOut};
ghost use Rattle.wac_wit_syntax.specs.Cursors.{HasNoRefusal, Reads, ReadsKind, SpellsName, source};
ghost use Rattle.wac_wit_syntax.specs.Faults.{IsPlaceIn, LiesIn};
ghost use Rattle.wac_wit_syntax.specs.Productions.{◌▸◌, IsKind, IsName, IsNameAt, IsWord, SaysWord, is_keyword, token_at};
ghost use Rattle.wac_wit_syntax.specs.declared.error.Fault.TheVariants.{Memory, Refused};
ghost use Rattle.wac_wit_syntax.specs.declared.error.SyntaxError.TheVariants as syntax;

use super::error::{Fault, SyntaxError};
use super::keywords::is_keyword;
use super::positions::{Position, Span, position_of};
use super::refusals::Refusals;
use super::scanning::quoted;
use super::token::{Token, TokenKind};
use super::tree::Ident;
use std::alloc::{AllocError, Global};

/// The tokens of a text, which is the next, and what is refused so far. It owns the text: each step
/// over one that is lent takes a quarter longer to prove.
#[derive(Drop)]
pub(crate) struct Cursor {
    pub(crate) alloc: Global,
    text: String,
    tokens: Vec<Token>,
    next: usize,
    refusals: Refusals,
}

impl Cursor {
    /// At the first token.
    pub(crate) fn new(alloc: Global, text: String, tokens: Vec<Token>, refusals: Refusals) -> Cursor
        ensures { result ≡ record { alloc = alloc; text = text; tokens = tokens; next = 0; refusals = refusals } }
    {
        Cursor {
            alloc,
            text,
            tokens,
            next: 0,
            refusals,
        }
    }

    /// How many tokens there are, which bounds the turns of each loop.
    pub(crate) fn len(&self) -> usize
        ensures { result ≡ length (source self.now).tokens }
    {
        self.tokens.len()
    }

    /// Which token is the next.
    pub(crate) fn index(&self) -> usize {
        self.next
    }

    /// The next token; the end stays.
    pub(crate) fn peek(&self) -> Token
        ensures { result ≡ token_at (source self.now) self.now.next }
    {
        self.token_at(self.next)
    }

    /// The token so many behind the next.
    pub(crate) fn ahead(&self, by: usize) -> Token
        ensures { result ≡ token_at (source self.now) (self.now.next + by) }
    {
        self.token_at(self.next.saturating_add(by))
    }

    // A token by its index, or the end of the text.
    fn token_at(&self, index: usize) -> Token
        ensures { result ≡ token_at (source self.now) index }
    {
        match self.tokens.get(index) {
            Some(token) => *token,
            None => {
                let end = self.text.len();
                Token {
                    kind: TokenKind::End,
                    span: Span { start: end, end },
                    docs: None,
                }
            }
        }
    }

    /// Where the last token stands that was taken.
    pub(crate) fn last_span(&self) -> Span
        ensures { result ≡ (token_at (source self.now) (self.now.next - 1)).span }
    {
        self.token_at(self.next.saturating_sub(1)).span
    }

    /// The text of a token.
    pub(crate) fn text_of(&self, token: Token) -> &str
        ensures text { result.now ≢ [] → result.now ≡ slice_range (string_bytes self.now.text) token.span.start token.span.end }
        ensures complete { IsPlaceIn (string_bytes self.now.text) token.span → result.now ≡ slice_range (string_bytes self.now.text) token.span.start token.span.end }
    {
        self.spelling(token).unwrap_or("")
    }

    /// The text of a token, if it stands where one can be cut out.
    pub(crate) fn spelling(&self, token: Token) -> Option<&str>
        ensures text { IfSome result (λ text. text.now ≡ slice_range (string_bytes self.now.text) token.span.start token.span.end) }
        ensures complete { IsPlaceIn (string_bytes self.now.text) token.span → IsSome result }
    {
        self.text.get(token.span.start..token.span.end)
    }

    /// The next token, if it is a word that stands without `%`; else nothing.
    pub(crate) fn word(&self) -> &str
        ensures word { result.now ≢ [] → SaysWord (source self.now) self.now.next result.now }
        ensures complete { (w : Text) → IsReadable (source self.now) → SaysWord (source self.now) self.now.next w → result.now ≡ w }
    {
        let token = self.peek();
        if token.kind == TokenKind::Word {
            self.text_of(token)
        } else {
            ""
        }
    }

    /// Takes the next token.
    pub(crate) fn take(&mut self) -> Token
        ensures token { result ≡ token_at (source self.old) self.old.next }
        ensures rest { self.new ≡ record self.old { next = self.new.next } }
        ensures next { result.kind ≢ TokenKind.End → self.new.next ≡ self.old.next + 1 }
    {
        let token = self.peek();
        self.next = self.next.saturating_add(1).min(self.tokens.len());
        token
    }

    /// Whether the next token is of a kind.
    pub(crate) fn sees(&self, kind: TokenKind) -> bool
        ensures seen { result ≡ true → (token_at (source self.now) self.now.next).kind ≡ kind }
        ensures complete { (token_at (source self.now) self.now.next).kind ≡ kind → result ≡ true }
    {
        self.peek().kind == kind
    }

    /// Takes the next token if it is of a kind.
    pub(crate) fn eat(&mut self, kind: TokenKind) -> bool
        ensures eaten { result ≡ true → ReadsKind kind self.old self.new }
        ensures left { result ≡ false → self.new ≡ self.old }
        ensures seen { result ≡ true → (token_at (source self.old) self.old.next).kind ≡ kind }
        ensures complete { kind ≢ TokenKind.End → Eats self.old self.new result (IsKind kind) }
    {
        let found = self.sees(kind);
        if found {
            self.take();
        }
        found
    }

    /// Takes the next token if it is this word.
    pub(crate) fn eat_word(&mut self, word: &str) -> bool
        ensures eaten { word.now ≢ [] → result ≡ true → Reads self.old self.new (IsWord word.now) }
        ensures left { result ≡ false → self.new ≡ self.old }
        ensures seen { word.now ≢ [] → result ≡ true → SaysWord (source self.old) self.old.next word.now }
        ensures complete { Eats self.old self.new result (IsWord word.now) }
    {
        let found = self.word() == word;
        if found {
            self.take();
        }
        found
    }

    /// Takes the next token, which has to be of a kind.
    pub(crate) fn expect(&mut self, kind: TokenKind) -> Result<Span, Fault>
        ensures read { OnOk result (ReadsKind kind self.old self.new) }
        ensures complete { kind ≢ TokenKind.End → Completes self.old self.new result (IsKind kind) }
    {
        if self.sees(kind) {
            return Ok(self.take().span);
        }
        Err(self.refuse(kind.description()))
    }

    /// Takes the next token, which has to be of a kind, behind what was read.
    pub(crate) fn before<T: Drop>(&mut self, read: T, kind: TokenKind) -> Result<T, Fault>
        ensures kind { OnOk result (ReadsKind kind self.old self.new) }
        ensures value { IfOk result (λ value. value ≡ read) }
        ensures complete { kind ≢ TokenKind.End → Completes self.old self.new result (IsKind kind) }
    {
        self.expect(kind)?;
        Ok(read)
    }

    /// Takes the `;` of an item. Where it is missing and a line or what the item stands in ends,
    /// the item is read as if it stood there.
    pub(crate) fn expect_end(&mut self) -> Result<(), Fault>
        ensures read { OnOk result (Reads self.old self.new (IsKind TokenKind.Semicolon)) }
        ensures complete { Completes self.old self.new result (IsKind TokenKind.Semicolon) }
    {
        if self.eat(TokenKind::Semicolon) {
            return Ok(());
        }
        if self.is_line_over() {
            return self.refuse_open_line();
        }
        match self.refuse("`;`") {
            Fault::Refused if self.sees(TokenKind::CloseBrace) => Ok(()),
            fault => Err(fault),
        }
    }

    /// Takes the `;` of an item behind the rest of it.
    pub(crate) fn ended<T: Drop>(&mut self, item: T) -> Result<T, Fault>
        ensures end { OnOk result (Reads self.old self.new (IsKind TokenKind.Semicolon)) }
        ensures value { IfOk result (λ value. value ≡ item) }
        ensures complete { Completes self.old self.new result (IsKind TokenKind.Semicolon) }
    {
        self.expect_end()?;
        Ok(item)
    }

    // Refuses the next token, before which the last line lacks its `;`.
    fn refuse_open_line(&mut self) -> Result<(), Fault>
        ensures { OnOk result (0 < vec_len self.new.refusals.found) }
    {
        let token = self.peek();
        if !self.refusals.takes(token.span.start) {
            return Ok(());
        }
        let Position { line, .. } = position_of(&self.text, self.last_span().end);
        let message = format!(in self.alloc; "expected `;` at the end of line {line}");
        self.refusals.add(token.span, message)?;
        Ok(())
    }

    // Whether the next token stands on a later line than the last.
    fn is_line_over(&self) -> bool {
        let between = self.last_span().end..self.peek().span.start;
        self.text.get(between).unwrap_or("").contains('\n')
    }

    /// Takes a name.
    pub(crate) fn ident(&mut self, expected: &str) -> Result<Ident, Fault>
        ensures read { IfOk result (λ ident. Reads self.old self.new (IsName ident)) }
        ensures complete { Completes self.old self.new result (AnyOf IsName) }
    {
        let token = self.peek();
        let Some(text) = self.name_of(token) else {
            return Err(self.refuse(expected));
        };
        if is_bare_keyword(token, text) {
            return Err(self.refuse_keyword(expected));
        }
        let name = String::from_str(self.alloc, text)?;
        let span = self.take().span;
        Ok(Ident { name, span })
    }

    /// Whether a name comes next.
    pub(crate) fn sees_name(&self) -> bool
        ensures { IsReadable (source self.now) → (name : Text) → IsNameAt (source self.now) self.now.next name → result ≡ true }
    {
        let token = self.peek();
        match self.name_of(token) {
            Some(text) => !is_bare_keyword(token, text),
            None => false,
        }
    }

    // The text of a name without the `%` that may stand before it, if the token is of such a kind.
    fn name_of(&self, token: Token) -> Option<&str>
        ensures name { IfSome result (λ name. SpellsName (string_bytes self.now.text) token name.now) }
        ensures complete { IsCutOut (string_bytes self.now.text) token → (token.kind ≡ TokenKind.Word) ⊎ (token.kind ≡ TokenKind.Escaped) → IsSome result }
    {
        let Span { start, end } = token.span;
        match token.kind {
            TokenKind::Word => self.text.get(start..end),
            TokenKind::Escaped if start < end => self.text.get(start + 1..end),
            _ => None,
        }
    }

    /// Takes a name and the colon behind it.
    pub(crate) fn label(&mut self, expected: &str) -> Result<Ident, Fault>
        ensures read { IfOk result (λ ident. Reads self.old self.new (IsName ident ▸ IsKind TokenKind.Colon)) }
        ensures complete { Completes self.old self.new result (AnyOf IsName ▸ IsKind TokenKind.Colon) }
    {
        let name = self.ident(expected)?;
        self.expect(TokenKind::Colon)?;
        Ok(name)
    }

    /// Refuses the next token, where something else was expected.
    pub(crate) fn refuse(&mut self, expected: &str) -> Fault
        ensures { result ≡ Refused → 0 < vec_len self.new.refusals.found }
    {
        let token = self.peek();
        // the search for an open brace is long, so it is for the first refusal at the end alone
        if !self.refusals.takes(token.span.start) {
            return Fault::Refused;
        }
        let found = quoted(self.text_of(token));
        let message = match token.kind {
            TokenKind::End => self.end_message(expected),
            _ => format!(in self.alloc; "expected {expected}, found `{found}`"),
        };
        self.note(token.span, message)
    }

    // What is said where the text ends too early.
    fn end_message(&self, expected: &str) -> Result<String, AllocError> {
        match self.open_brace() {
            Some(open) => {
                let Position { line, column } = position_of(&self.text, open.start);
                format!(in self.alloc;
                    "expected {expected}, found the end of the file: \
                     the brace at {line}:{column} isn't closed"
                )
            }
            None => format!(in self.alloc; "expected {expected}, found the end of the file"),
        }
    }

    // Where the last brace opens that isn't closed.
    fn open_brace(&self) -> Option<Span> {
        let mut closed = 0usize;
        for token in self.tokens.iter().rev() {
            match token.kind {
                TokenKind::CloseBrace => closed = closed.saturating_add(1),
                TokenKind::OpenBrace if closed == 0 => return Some(token.span),
                TokenKind::OpenBrace => closed = closed.saturating_sub(1),
                _ => {}
            }
        }
        None
    }

    // Refuses a keyword, where a name was expected.
    fn refuse_keyword(&mut self, expected: &str) -> Fault {
        let token = self.peek();
        let word = self.text_of(token);
        let message = format!(in self.alloc;
            "expected {expected}, found the keyword `{word}`: as a name it is written `%{word}`"
        );
        self.note(token.span, message)
    }

    /// Refuses what stands at a place.
    pub(crate) fn refuse_at(&mut self, span: Span, message: &str) -> Fault {
        let message = String::from_str(self.alloc, message);
        self.note(span, message)
    }

    /// Notes a refusal.
    pub(crate) fn note(&mut self, span: Span, message: Result<String, AllocError>) -> Fault
        ensures { result ≡ Refused → 0 < vec_len self.new.refusals.found }
    {
        match self.refusals.add(span, message) {
            Ok(()) => Fault::Refused,
            Err(_) => Fault::Memory,
        }
    }

    /// Goes on behind a refused item, which begins at the token of this index.
    ///
    /// `Err` where nothing follows it, where enough is refused, and after a failed allocation.
    pub(crate) fn recover(&mut self, fault: Fault, start: usize) -> Result<(), Fault>
        ensures refused { OnOk result (0 < vec_len self.new.refusals.found) }
        ensures memory { fault ≡ Memory → IsErr result }
        ensures fault { IfErr result (λ same. same ≡ fault) }
    {
        // where an item is refused, a refusal is noted
        let is_over = self.refusals.is_empty() || self.refusals.is_full();
        if matches!(fault, Fault::Memory) || is_over {
            return Err(fault);
        }
        self.next = self.end_of_item(start);
        self.eat(TokenKind::Semicolon);
        if self.sees(TokenKind::End) {
            Err(fault)
        } else {
            Ok(())
        }
    }

    // Which token ends a refused item: a `;` outside of its braces, or the next after the brace
    // that closes the last of them, or the brace that closes what the item stands in.
    fn end_of_item(&self, start: usize) -> usize {
        let mut depth = 0usize;
        for at in start..self.tokens.len() {
            let kind = self.token_at(at).kind;
            let is_refused = at >= self.next;
            match kind {
                TokenKind::OpenBrace => depth = depth.saturating_add(1),
                TokenKind::CloseBrace if depth > 1 => depth = depth.saturating_sub(1),
                // a brace too many, with which the item begins, is the whole of it
                TokenKind::CloseBrace if depth == 0 && at > start => return at.max(self.next),
                TokenKind::CloseBrace if is_refused && self.ends_at(at) => {
                    return at.saturating_add(1);
                }
                TokenKind::CloseBrace => depth = 0,
                TokenKind::Semicolon if depth == 0 && is_refused => return at,
                _ => {}
            }
        }
        self.tokens.len()
    }

    // Whether an item may end with this token: what follows could begin another.
    fn ends_at(&self, at: usize) -> bool {
        !matches!(
            self.token_at(at.saturating_add(1)).kind,
            TokenKind::CloseParen | TokenKind::CloseAngle | TokenKind::Comma | TokenKind::Arrow
        )
    }

    /// What was read of the text, if nothing is refused.
    ///
    /// `text` is what was read.
    pub(crate) fn finish<T: Drop>(
        self,
        read: Result<T, Fault>,
        text: &str,
    ) -> Result<T, SyntaxError>
        ensures read { IfOk result (λ value. (read ≡ Ok value) × HasNoRefusal self) }
        ensures complete { OnOk read (HasNoRefusal self) → IfErr read (λ fault. fault ≡ Memory) → IfErr result (λ error. error ≡ syntax.Memory) }
        ensures places { IfErr result (LiesIn text.now) }
    {
        match read {
            Err(Fault::Memory) => Err(SyntaxError::Memory),
            Ok(read) => self.unless_refused(read, text),
            Err(Fault::Refused) => Err(self.refusals.into_error(text)),
        }
    }

    // What was read, if nothing is refused.
    fn unless_refused<T: Drop>(self, read: T, text: &str) -> Result<T, SyntaxError>
        ensures read { IfOk result (λ value. (value ≡ read) × HasNoRefusal self) }
        ensures complete { HasNoRefusal self → IsOk result }
        ensures places { IfErr result (LiesIn text.now) }
    {
        if self.refusals.is_empty() {
            return Ok(read);
        }
        Err(self.refusals.into_error(text))
    }
}

// Whether a token with this text is a keyword, which `%` before it would make a name.
fn is_bare_keyword(token: Token, text: &str) -> bool
    ensures bare { result ≡ false → token.kind ≡ TokenKind.Word → is_keyword text.now ≡ false }
    ensures complete { result ≡ true → (token.kind ≡ TokenKind.Word) × (is_keyword text.now ≡ true) }
{
    token.kind == TokenKind::Word && is_keyword(text)
}
