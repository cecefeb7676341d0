//! Reads what stands one after another.

ghost use Rattle.std.specs.Prelude.{◌≢◌, ℕ, Bool, IfOk};
ghost use Rattle.wac_wit_syntax.specs.Completing.{AllBegin, AnyOf, BeforeEnd, Completes, IsCloser, IsListOf};
ghost use Rattle.wac_wit_syntax.specs.Cursors.{Reads};
ghost use Rattle.wac_wit_syntax.specs.Lists.{IsBlock, IsListing};
ghost use Rattle.wac_wit_syntax.specs.Productions.{Source};

use super::cursor::Cursor;
use super::error::Fault;
use super::token::TokenKind;

/// What stands in a block: it begins with attributes, and where one is refused, the next is read.
pub(crate) trait Item: Drop {
    /// What the tokens of one are.
    ghost item: { Self → Source → ℕ → ℕ → Type 0 };

    /// Reads one.
    fn read(cursor: &mut Cursor) -> Result<Self, Fault>
        ensures read { IfOk result (λ read. Reads cursor.old cursor.new (item read)) }
        ensures complete { Completes cursor.old cursor.new result (AnyOf item) };
}

/// Reads items between braces, and leaves out those that are refused.
pub(crate) fn read_block<T: Item>(cursor: &mut Cursor) -> Result<Vec<T>, Fault>
    ensures read { IfOk result (λ items. Reads cursor.old cursor.new (IsBlock T.item items.items)) }
    ensures complete { AllBegin T.item → Completes cursor.old cursor.new result (AnyOf (IsBlock T.item)) }
{
    cursor.expect(TokenKind::OpenBrace)?;
    let mut items = Vec::new(cursor.alloc);
    for _turn in 0..cursor.len() {
        if cursor.eat(TokenKind::CloseBrace) {
            return Ok(items);
        }
        let start = cursor.index();
        match T::read(cursor) {
            Ok(item) => items.push(item)?,
            Err(fault) => cursor.recover(fault, start)?,
        }
    }
    Err(cursor.refuse("`}`"))
}

/// What stands in a list.
pub(crate) trait Member: Drop {
    /// What the tokens of one are, and whether it has to get another name.
    ghost member: { Bool → Self → Source → ℕ → ℕ → Type 0 };

    /// Reads one of a list of a form.
    fn read(cursor: &mut Cursor, form: ListForm) -> Result<Self, Fault>
        ensures read { IfOk result (λ read. Reads cursor.old cursor.new (member form.needs_alias read)) }
        ensures complete { Completes cursor.old cursor.new result (BeforeEnd (AnyOf (member form.needs_alias))) };
}

/// How a list with commas is written, one of which may stand behind the last member.
#[derive(Clone, Copy)]
pub(crate) struct ListForm {
    /// What stands before the first member.
    pub(crate) open: TokenKind,
    /// What stands behind the last.
    pub(crate) close: TokenKind,
    /// What is expected where a member begins.
    pub(crate) member: &'static str,
    /// What is expected where one ends.
    pub(crate) separator: &'static str,
    /// Whether each member has to get another name.
    pub(crate) needs_alias: bool,
}

/// Reads a list.
pub(crate) fn read_list<T: Member>(cursor: &mut Cursor, form: ListForm) -> Result<Vec<T>, Fault>
    ensures read { IfOk result (λ xs. form.open ≢ TokenKind.End → form.close ≢ TokenKind.End → Reads cursor.old cursor.new (IsListing form.open (T.member form.needs_alias) form.close xs.items)) }
    ensures complete { let P = T.member form.needs_alias in AllBegin P → IsCloser form.close → form.open ≢ TokenKind.End → Completes cursor.old cursor.new result (IsListOf form.open P form.close) }
{
    cursor.expect(form.open)?;
    let mut members = Vec::new(cursor.alloc);
    for _turn in 0..cursor.len() {
        if cursor.eat(form.close) {
            return Ok(members);
        }
        members.push(T::read(cursor, form)?)?;
        if !cursor.eat(TokenKind::Comma) {
            if cursor.eat(form.close) {
                return Ok(members);
            }
            return Err(cursor.refuse(form.separator));
        }
    }
    Err(cursor.refuse(form.separator))
}
