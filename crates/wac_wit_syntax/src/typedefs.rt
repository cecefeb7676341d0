//! Reads types that have names.

ghost use Rattle.std.specs.Prelude.{◌≡◌, ◌≢◌, ◌+◌, IfOk, IfSome, IsSome, codes};
ghost use Rattle.wac_wit_syntax.specs.Behind.{IsBodyOf, IsNamedMethod, IsSignatureRest, ReadsAfter, ReadsAfterWord, TellsDef, def_text};
ghost use Rattle.wac_wit_syntax.specs.Completing.{AnyOf, BeforeEnd, Completes};
ghost use Rattle.wac_wit_syntax.specs.Cursors.{Reads, source};
ghost use Rattle.wac_wit_syntax.specs.Gates.{IsGates};
ghost use Rattle.wac_wit_syntax.specs.Productions.{◌▸◌, IsKind, IsName, SaysWord, token_at};
ghost use Rattle.wac_wit_syntax.specs.Typedefs.{AreMethods, IsBody, IsCaseDecl, IsMethod, IsPayloadDecl, IsTypeItem, word_of};
ghost use Rattle.wac_wit_syntax.specs.Types.{IsTypeOf};
ghost use Rattle.wac_wit_syntax.specs.declared.typedefs.DefWord.{DefWord};

use super::cursor::Cursor;
use super::error::Fault;
use super::functions::{read_signature, signature_after};
use super::gates::read_gates;
use super::lists::{Item, ListForm, Member, read_block, read_list};
use super::token::TokenKind;
use super::tree::{Case, Gates, Ident, Method, MethodKind, TypeDef, TypeExpr, TypeItem};
use super::types::read_type;

const FIELDS: ListForm = ListForm {
    open: TokenKind::OpenBrace,
    close: TokenKind::CloseBrace,
    member: "the name of a field or `}`",
    separator: "`,` or `}`",
    needs_alias: false,
};

const CASES: ListForm = ListForm {
    open: TokenKind::OpenBrace,
    close: TokenKind::CloseBrace,
    member: "the name of a case or `}`",
    separator: "`,`, `(` or `}`",
    needs_alias: false,
};

const FLAGS: ListForm = ListForm {
    open: TokenKind::OpenBrace,
    close: TokenKind::CloseBrace,
    member: "the name of a flag or `}`",
    separator: "`,` or `}`",
    needs_alias: false,
};

// Of an enum.
const NAMES: ListForm = ListForm {
    open: TokenKind::OpenBrace,
    close: TokenKind::CloseBrace,
    member: "the name of a case or `}`",
    separator: "`,` or `}`",
    needs_alias: false,
};

/// What a type with a name is.
#[derive(Clone, Copy)]
pub(crate) enum DefWord {
    Alias,
    Record,
    Variant,
    Flags,
    Enum,
    Resource,
}

/// The word that comes next, if a type with a name begins with it.
pub(crate) fn def_word(cursor: &Cursor) -> Option<DefWord>
    ensures word { IfSome result (λ word. SaysWord (source cursor.now) cursor.now.next (def_text word)) }
    ensures name { IsSome result → (token_at (source cursor.now) (cursor.now.next + 1)).kind ≢ TokenKind.Colon }
    ensures complete { TellsDef cursor.now result }
{
    if cursor.ahead(1).kind == TokenKind::Colon {
        return None;
    }
    Some(match cursor.word() {
        "type" => DefWord::Alias,
        "record" => DefWord::Record,
        "variant" => DefWord::Variant,
        "flags" => DefWord::Flags,
        "enum" => DefWord::Enum,
        "resource" => DefWord::Resource,
        _ => return None,
    })
}

/// Reads a type with a name, which begins with this word.
pub(crate) fn read_typedef(
    cursor: &mut Cursor,
    gates: Gates,
    word: DefWord,
) -> Result<TypeItem, Fault>
    ensures read { IfOk result (λ item. ReadsAfterWord (IsGates gates) (def_text word) cursor.old cursor.new (IsTypeItem item)) }
    ensures complete { Completes cursor.old cursor.new result (IsKind TokenKind.Word ▸ AnyOf IsName ▸ IsBodyOf word) }
{
    let start = cursor.take().span;
    let name = cursor.ident("the name of the type")?;
    let def = read_def(cursor, word)?;
    let span = start.to(cursor.last_span());
    Ok(TypeItem {
        gates,
        name,
        def,
        span,
    })
}

// Reads what follows the name of a type that begins with this word.
fn read_def(cursor: &mut Cursor, word: DefWord) -> Result<TypeDef, Fault>
    ensures read { IfOk result (λ def. Reads cursor.old cursor.new (IsBody def)) }
    ensures word { IfOk result (λ def. word_of def ≡ def_text word) }
    ensures complete { Completes cursor.old cursor.new result (IsBodyOf word) }
{
    match word {
        DefWord::Alias => read_alias(cursor),
        DefWord::Record => Ok(TypeDef::Record(read_list(cursor, FIELDS)?)),
        DefWord::Variant => Ok(TypeDef::Variant(read_list(cursor, CASES)?)),
        DefWord::Flags => Ok(TypeDef::Flags(read_list(cursor, FLAGS)?)),
        DefWord::Enum => Ok(TypeDef::Enum(read_list(cursor, NAMES)?)),
        DefWord::Resource => Ok(TypeDef::Resource(read_methods(cursor)?)),
    }
}

fn read_alias(cursor: &mut Cursor) -> Result<TypeDef, Fault>
    ensures read { IfOk result (λ def. Reads cursor.old cursor.new (IsBody def)) }
    ensures word { IfOk result (λ def. word_of def ≡ def_text DefWord.Alias) }
    ensures complete { Completes cursor.old cursor.new result (IsKind TokenKind.Equals ▸ AnyOf IsTypeOf ▸ IsKind TokenKind.Semicolon) }
{
    cursor.expect(TokenKind::Equals)?;
    let ty = read_type(cursor)?;
    cursor.ended(TypeDef::Alias(ty))
}

// A case of a variant.
impl Member for Case {
    ghost member = { λ _ case. IsCaseDecl case };

    fn read(cursor: &mut Cursor, form: ListForm) -> Result<Case, Fault> {
        let name = cursor.ident(form.member)?;
        let ty = read_payload(cursor)?;
        let span = name.span.to(cursor.last_span());
        Ok(Case { name, ty, span })
    }
}

// Reads `(TYPE)`, if that comes next.
fn read_payload(cursor: &mut Cursor) -> Result<Option<TypeExpr>, Fault>
    ensures read { IfOk result (λ ty. Reads cursor.old cursor.new (IsPayloadDecl ty)) }
    ensures complete { Completes cursor.old cursor.new result (BeforeEnd (AnyOf IsPayloadDecl)) }
{
    if !cursor.eat(TokenKind::OpenParen) {
        return Ok(None);
    }
    let ty = read_type(cursor)?;
    cursor.before(Some(ty), TokenKind::CloseParen)
}

// A flag, or a case of an enum.
impl Member for Ident {
    ghost member = { λ _ id. IsName id };

    fn read(cursor: &mut Cursor, form: ListForm) -> Result<Ident, Fault> {
        cursor.ident(form.member)
    }
}

// Reads `;` or the functions of a resource.
fn read_methods(cursor: &mut Cursor) -> Result<Vec<Method>, Fault>
    ensures read { IfOk result (λ methods. Reads cursor.old cursor.new (AreMethods methods.items)) }
    ensures complete { Completes cursor.old cursor.new result (AnyOf AreMethods) }
{
    if cursor.eat(TokenKind::Semicolon) {
        return Ok(Vec::new(cursor.alloc));
    }
    if !cursor.sees(TokenKind::OpenBrace) {
        return Err(cursor.refuse("`;` or `{`"));
    }
    read_block(cursor)
}

impl Item for Method {
    ghost item = { λ method. IsMethod method };

    fn read(cursor: &mut Cursor) -> Result<Method, Fault> {
        let gates = read_gates(cursor)?;
        if cursor.word() == "constructor" {
            read_constructor(cursor, gates)
        } else {
            read_named_method(cursor, gates)
        }
    }
}

fn read_constructor(cursor: &mut Cursor, gates: Gates) -> Result<Method, Fault>
    ensures read { IfOk result (λ method. ReadsAfterWord (IsGates gates) (codes "constructor") cursor.old cursor.new (IsMethod method)) }
    ensures complete { Completes cursor.old cursor.new result (IsKind TokenKind.Word ▸ IsSignatureRest) }
{
    let start = cursor.take().span;
    let signature = signature_after(cursor, start, false)?;
    let name = String::from_str(cursor.alloc, "constructor")?;
    let span = signature.span;
    Ok(Method {
        gates,
        kind: MethodKind::Constructor,
        name: Ident { name, span: start },
        signature,
        span,
    })
}

fn read_named_method(cursor: &mut Cursor, gates: Gates) -> Result<Method, Fault>
    ensures read { IfOk result (λ method. ReadsAfter (IsGates gates) cursor.old cursor.new (IsMethod method)) }
    ensures complete { Completes cursor.old cursor.new result IsNamedMethod }
{
    let name = cursor.label("the name of a method, `constructor` or `}`")?;
    let kind = if cursor.eat_word("static") {
        MethodKind::Static
    } else {
        MethodKind::Method
    };
    let signature = read_signature(cursor)?;
    let span = name.span.to(signature.span);
    Ok(Method {
        gates,
        kind,
        name,
        signature,
        span,
    })
}
