//! Reads functions.

ghost use Rattle.std.specs.Prelude.{◌≡◌, ◌⊎◌, true, codes, IfOk};
ghost use Rattle.wac_wit_syntax.specs.Behind.{IsSignatureRest, ReadsSignature};
ghost use Rattle.wac_wit_syntax.specs.Completing.{AnyOf, Before, Completes, IsReadable};
ghost use Rattle.wac_wit_syntax.specs.Cursors.{Reads, source};
ghost use Rattle.wac_wit_syntax.specs.Functions.{IsFieldDecl, IsReturns, IsSignature};
ghost use Rattle.wac_wit_syntax.specs.Productions.{SaysWord};

use super::cursor::Cursor;
use super::error::Fault;
use super::lists::{ListForm, Member, read_list};
use super::positions::Span;
use super::token::TokenKind;
use super::tree::{Field, Signature, TypeExpr};
use super::types::read_type;

const PARAMS: ListForm = ListForm {
    open: TokenKind::OpenParen,
    close: TokenKind::CloseParen,
    member: "a parameter or `)`",
    separator: "`,` or `)`",
    needs_alias: false,
};

/// Whether a function's type comes next.
pub(crate) fn sees_func(cursor: &Cursor) -> bool
    ensures seen { result ≡ true → SaysWord (source cursor.now) cursor.now.next (codes "func") ⊎ SaysWord (source cursor.now) cursor.now.next (codes "async") }
    ensures func { IsReadable (source cursor.now) → SaysWord (source cursor.now) cursor.now.next (codes "func") → result ≡ true }
    ensures is_async { IsReadable (source cursor.now) → SaysWord (source cursor.now) cursor.now.next (codes "async") → result ≡ true }
{
    matches!(cursor.word(), "func" | "async")
}

/// Reads `async? func(..) -> TYPE;`.
pub(crate) fn read_signature(cursor: &mut Cursor) -> Result<Signature, Fault>
    ensures read { IfOk result (λ signature. Reads cursor.old cursor.new (IsSignature signature)) }
    ensures complete { Completes cursor.old cursor.new result (AnyOf IsSignature) }
{
    let start = cursor.peek().span;
    let is_async = cursor.eat_word("async");
    if !cursor.eat_word("func") {
        return Err(cursor.refuse("`func`"));
    }
    signature_after(cursor, start, is_async)
}

/// Reads `(..) -> TYPE;` behind the word where the signature starts.
pub(crate) fn signature_after(
    cursor: &mut Cursor,
    start: Span,
    is_async: bool,
) -> Result<Signature, Fault>
    ensures read { IfOk result (λ signature. ReadsSignature start signature cursor.old cursor.new) }
    ensures kind { IfOk result (λ signature. signature.is_async ≡ is_async) }
    ensures complete { Completes cursor.old cursor.new result IsSignatureRest }
{
    let params = read_list(cursor, PARAMS)?;
    let returns = read_returns(cursor)?;
    let span = start.to(cursor.last_span());
    cursor.ended(Signature {
        params,
        returns,
        is_async,
        span,
    })
}

// Reads `-> TYPE`, if that comes next.
fn read_returns(cursor: &mut Cursor) -> Result<Option<TypeExpr>, Fault>
    ensures read { IfOk result (λ returns. Reads cursor.old cursor.new (IsReturns returns)) }
    ensures complete { Completes cursor.old cursor.new result (Before TokenKind.Semicolon (AnyOf IsReturns)) }
{
    if !cursor.eat(TokenKind::Arrow) {
        return Ok(None);
    }
    if cursor.sees(TokenKind::OpenParen) {
        return Err(cursor.refuse("the type of the result: it has no name"));
    }
    Ok(Some(read_type(cursor)?))
}

// A parameter, or a field of a record.
impl Member for Field {
    ghost member = { λ _ field. IsFieldDecl field };

    fn read(cursor: &mut Cursor, form: ListForm) -> Result<Field, Fault> {
        let name = cursor.label(form.member)?;
        let ty = read_type(cursor)?;
        let span = name.span.to(cursor.last_span());
        Ok(Field { name, ty, span })
    }
}
