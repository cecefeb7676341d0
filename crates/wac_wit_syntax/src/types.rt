//! Reads types.

ghost use Rattle.std.specs.Prelude.{◌≡◌, ◌≢◌, ℕ, ◌+◌, ◌<◌, true, false, [], ◌∷◌, ◌++◌, length, IfErr, IfOk, IfSome, IsNone, IsOk, IsSome};
ghost use Rattle.wac_model.specs.Desc.{primitive_desc};
ghost use Rattle.wac_model.specs.declared.primitive.PrimitiveType.{PrimitiveType};
ghost use Rattle.wac_wit_syntax.specs.Completing.{AnyOf, Completes, Eats, ComesTo, IsReadable, NotBefore};
ghost use Rattle.wac_wit_syntax.specs.Cursors.{Reads, ReadsBehind, source};
ghost use Rattle.wac_wit_syntax.specs.Productions.{◌▸◌, IsKind, IsName, SaysWord, token_at};
ghost use Rattle.wac_wit_syntax.specs.TypeParts.{AreAtStage, AreBegun, AreEnough, AreParted, BeginsPlain, EndsPart, HasMapKey, IsPlainType, IsTypeAhead, IsTypeMade, KeepsKey, OpensParts, ReadsOther, Stage, TakesLast, is_empty, is_first, may_end, may_go_on, next_is_type, stands_alone, word_text};
ghost use Rattle.wac_wit_syntax.specs.Types.{IsLength, IsTypeOf, SaysLength, is_key};
ghost use Rattle.wac_wit_syntax.specs.declared.cursor.Cursor.{Cursor};
ghost use Rattle.wac_wit_syntax.specs.declared.error.Fault.TheVariants.{Memory};
ghost use Rattle.wac_wit_syntax.specs.declared.positions.Span.{Span};

use super::cursor::Cursor;
use super::error::Fault;
use super::positions::Span;
use super::token::TokenKind;
use super::tree::{Ident, TypeExpr};
use std::alloc::{AllocError, Global};
use std::mem;
use wac_model::PrimitiveType;

/// How deep types nest at most.
pub const MAX_DEPTH: usize = 1000;

// A word that makes a type out of what stands behind it between angles.
#[derive(Clone, Copy)]
enum TypeWord {
    List,
    Option,
    Result,
    Tuple,
    Map,
    Future,
    Stream,
}

// What stands between the angles.
struct Parts {
    types: Vec<TypeExpr>,
    // whether `_` stands in the place of the first type
    lacks_first: bool,
    length: Option<u32>,
}

// By hand, as in the tree.
impl Drop for Parts {
    fn drop(self) {
        let Parts {
            types: _,
            lacks_first: _,
            length: _,
        } = self;
    }
}

impl Parts {
    // Whether there is none so far.
    fn is_empty(&self) -> bool
        ensures { result ≡ is_empty self.now.types.items self.now.lacks_first }
    {
        self.types.is_empty() && !self.lacks_first
    }

    // Whether the only part is a type.
    fn is_first(&self) -> bool
        ensures { result ≡ is_first self.now.types.items self.now.lacks_first self.now.length }
    {
        self.types.len() == 1 && !self.lacks_first && self.length.is_none()
    }

    // Takes the last of the types, if there is one.
    fn take_last(&mut self, alloc: Global) -> Result<Option<Box<TypeExpr>>, AllocError>
        ensures last { IfOk result (λ last. TakesLast self.old.types.items self.new.types.items last) }
        ensures rest { self.new ≡ record self.old { types = self.new.types } }
    {
        match self.types.pop() {
            Some(ty) => Ok(Some(Box::new(alloc, ty)?)),
            None => Ok(None),
        }
    }
}

/// Reads a type.
pub(crate) fn read_type(cursor: &mut Cursor) -> Result<TypeExpr, Fault>
    ensures read { IfOk result (λ t. Reads cursor.old cursor.new (IsTypeOf t)) }
    ensures complete { Completes cursor.old cursor.new result (NotBefore TokenKind.OpenAngle (AnyOf IsTypeOf)) }
{
    type_within(cursor, MAX_DEPTH)
}

// Reads a type in which at most so many nest. This is the one function that calls itself, so the
// stack is bounded by that number.
fn type_within(cursor: &mut Cursor, depth: usize) -> Result<TypeExpr, Fault>
    ensures read { IfOk result (λ t. Reads cursor.old cursor.new (IsTypeOf t)) }
    ensures complete { (j : ℕ) → IsTypeAhead cursor.old depth j → ComesTo j cursor.old cursor.new result }
    ensures key { IfOk result (λ t. KeepsKey cursor.old t) }
{
    let start = cursor.peek().span;
    let Some(word) = type_word(cursor) else {
        return read_plain(cursor);
    };
    if depth == 0 {
        return Err(cursor.refuse_at(start, "types nest at most 1000 deep"));
    }
    cursor.take();
    let mut parts = Parts {
        types: Vec::new(cursor.alloc),
        lacks_first: false,
        length: None,
    };
    let mut is_open = opens(cursor, word)?;
    for _turn in 0..cursor.len() {
        if !is_open {
            break;
        }
        if !read_other(cursor, word, &mut parts)? {
            parts.types.push(type_within(cursor, depth - 1)?)?;
        }
        is_open = goes_on(cursor, word, &parts)?;
    }
    if is_open {
        return Err(cursor.refuse("`>`"));
    }
    let span = start.to(cursor.last_span());
    build(cursor, word, &mut parts, span)
}

// The word that comes next, if it makes types. `map` may be a name too.
fn type_word(cursor: &Cursor) -> Option<TypeWord>
    ensures word { IfSome result (λ word. SaysWord (source cursor.now) cursor.now.next (word_text word)) }
    ensures map { IfSome result (λ word. word ≡ TypeWord.Map → (token_at (source cursor.now) (cursor.now.next + 1)).kind ≡ TokenKind.OpenAngle) }
    ensures complete { IsReadable (source cursor.now) → IsNone result → BeginsPlain (source cursor.now) cursor.now.next }
{
    Some(match cursor.word() {
        "list" => TypeWord::List,
        "option" => TypeWord::Option,
        "result" => TypeWord::Result,
        "tuple" => TypeWord::Tuple,
        "future" => TypeWord::Future,
        "stream" => TypeWord::Stream,
        "map" => map_word(cursor)?,
        _ => return None,
    })
}

// `map`, if it makes a type: before `<` alone.
fn map_word(cursor: &Cursor) -> Option<TypeWord>
    ensures map { IfSome result (λ word. word ≡ TypeWord.Map) }
    ensures angle { IsSome result → (token_at (source cursor.now) (cursor.now.next + 1)).kind ≡ TokenKind.OpenAngle }
    ensures complete { IsNone result → (token_at (source cursor.now) (cursor.now.next + 1)).kind ≢ TokenKind.OpenAngle }
{
    if cursor.ahead(1).kind == TokenKind::OpenAngle {
        Some(TypeWord::Map)
    } else {
        None
    }
}

// Reads a type that is one word, or a handle.
fn read_plain(cursor: &mut Cursor) -> Result<TypeExpr, Fault>
    ensures read { IfOk result (λ t. Reads cursor.old cursor.new (IsTypeOf t)) }
    ensures complete { Completes cursor.old cursor.new result IsPlainType }
    ensures key { IfOk result (λ t. KeepsKey cursor.old t) }
{
    match cursor.word() {
        "own" => Ok(TypeExpr::Own(read_resource(cursor)?)),
        "borrow" => Ok(TypeExpr::Borrow(read_resource(cursor)?)),
        word => match primitive_of(word) {
            Some(primitive) => Ok(TypeExpr::Primitive(primitive, cursor.take().span)),
            None => Ok(TypeExpr::Name(cursor.ident("a type")?)),
        },
    }
}

// Reads the name of the resource of a handle, from the word of the handle on.
fn read_resource(cursor: &mut Cursor) -> Result<Ident, Fault>
    ensures read { IfOk result (λ id. ReadsBehind cursor.old cursor.new (IsKind TokenKind.OpenAngle ▸ IsName id ▸ IsKind TokenKind.CloseAngle)) }
    ensures complete { Completes cursor.old cursor.new result (IsKind TokenKind.Word ▸ IsKind TokenKind.OpenAngle ▸ AnyOf IsName ▸ IsKind TokenKind.CloseAngle) }
{
    cursor.take();
    cursor.expect(TokenKind::OpenAngle)?;
    let resource = cursor.ident("the name of a resource")?;
    cursor.before(resource, TokenKind::CloseAngle)
}

// The primitive type of a name.
fn primitive_of(word: &str) -> Option<PrimitiveType>
    ensures primitive { IfSome result (λ primitive. word.now ≡ primitive_desc primitive) }
    ensures complete { (primitive : PrimitiveType) → word.now ≡ primitive_desc primitive → IsSome result }
{
    Some(match word {
        "u8" => PrimitiveType::U8,
        "s8" => PrimitiveType::S8,
        "u16" => PrimitiveType::U16,
        "s16" => PrimitiveType::S16,
        "u32" => PrimitiveType::U32,
        "s32" => PrimitiveType::S32,
        "u64" => PrimitiveType::U64,
        "s64" => PrimitiveType::S64,
        "f32" => PrimitiveType::F32,
        "f64" => PrimitiveType::F64,
        "char" => PrimitiveType::Char,
        "bool" => PrimitiveType::Bool,
        "string" => PrimitiveType::String,
        "error-context" => PrimitiveType::ErrorContext,
        _ => return None,
    })
}

// Takes the angle behind a word, which some words stand without.
fn opens(cursor: &mut Cursor, word: TypeWord) -> Result<bool, Fault>
    ensures read { IfOk result (λ is_open. Reads cursor.old cursor.new (Stage is_open word [] false None)) }
    ensures complete { OpensParts cursor.old cursor.new word result }
{
    if stands_alone(word) {
        return Ok(cursor.eat(TokenKind::OpenAngle));
    }
    cursor.expect(TokenKind::OpenAngle)?;
    Ok(true)
}

// Whether a word may be a type by itself.
fn stands_alone(word: TypeWord) -> bool
    ensures { result ≡ stands_alone word }
{
    matches!(word, TypeWord::Result | TypeWord::Future | TypeWord::Stream)
}

// Reads the next part, if it is none of the types: the `_` of a result, the length of a list.
fn read_other(cursor: &mut Cursor, word: TypeWord, parts: &mut Parts) -> Result<bool, Fault>
    ensures other { IfOk result (λ is_other. is_other ≡ true → (before : Cursor) → Reads before cursor.old (AreBegun word parts.old) → Reads before cursor.new (AreParted word parts.new)) }
    ensures left { IfOk result (λ is_other. is_other ≡ false → (cursor.new ≡ cursor.old) × (parts.new ≡ parts.old)) }
    ensures ty { IfOk result (λ is_other. is_other ≡ false → next_is_type word parts.old.types.items parts.old.lacks_first ≡ true) }
    ensures complete { ReadsOther cursor.old cursor.new word parts.old parts.new result }
{
    if eats_lack(cursor, word, parts) {
        parts.lacks_first = true;
        return Ok(true);
    }
    if !takes_type(word, parts) {
        parts.length = Some(read_length(cursor)?);
        return Ok(true);
    }
    Ok(false)
}

// Takes the `_` of a result, where it may stand.
fn eats_lack(cursor: &mut Cursor, word: TypeWord, parts: &Parts) -> bool
    ensures eaten { result ≡ true → Reads cursor.old cursor.new (IsKind TokenKind.Underscore) }
    ensures seen { result ≡ true → (token_at (source cursor.old) cursor.old.next).kind ≡ TokenKind.Underscore }
    ensures may { result ≡ true → (word ≡ TypeWord.Result) × (is_empty parts.now.types.items parts.now.lacks_first ≡ true) }
    ensures left { result ≡ false → cursor.new ≡ cursor.old }
    ensures complete { word ≡ TypeWord.Result → is_empty parts.now.types.items parts.now.lacks_first ≡ true → Eats cursor.old cursor.new result (IsKind TokenKind.Underscore) }
{
    match word {
        TypeWord::Result => parts.is_empty() && cursor.eat(TokenKind::Underscore),
        _ => false,
    }
}

// Whether the next part is a type or `_`.
fn takes_type(word: TypeWord, parts: &Parts) -> bool
    ensures { result ≡ next_is_type word parts.now.types.items parts.now.lacks_first }
{
    match word {
        TypeWord::List => parts.is_empty(),
        _ => true,
    }
}

// Reads a number below 2^32.
fn read_length(cursor: &mut Cursor) -> Result<u32, Fault>
    ensures read { IfOk result (λ length. Reads cursor.old cursor.new (IsLength length)) }
    ensures complete { Completes cursor.old cursor.new result (AnyOf IsLength) }
{
    match length_of(cursor) {
        Some(length) => {
            cursor.take();
            Ok(length)
        }
        None => Err(cursor.refuse("a length below 2^32")),
    }
}

// The number below 2^32 that comes next.
fn length_of(cursor: &Cursor) -> Option<u32>
    ensures length { IfSome result (λ length. SaysLength (source cursor.now) cursor.now.next length) }
    ensures complete { IsReadable (source cursor.now) → (length : ℕ) → SaysLength (source cursor.now) cursor.now.next length → IsSome result }
{
    let token = cursor.peek();
    if token.kind != TokenKind::Integer {
        return None;
    }
    match cursor.spelling(token)?.parse::<u32>() {
        Ok(length) => Some(length),
        Err(_) => None,
    }
}

// Takes the comma or the angle behind a part; whether another part follows.
fn goes_on(cursor: &mut Cursor, word: TypeWord, parts: &Parts) -> Result<bool, Fault>
    ensures read { IfOk result (λ is_open. (before : Cursor) → Reads before cursor.old (AreParted word parts.now) → Reads before cursor.new (AreAtStage is_open word parts.now)) }
    ensures complete { EndsPart cursor.old cursor.new word parts.now result }
{
    if eats_comma(cursor, word, parts) {
        if ends_tuple(cursor, word) {
            return Ok(false);
        }
        return Ok(true);
    }
    if eats_end(cursor, word, parts) {
        return Ok(false);
    }
    let message = match (may_go_on(word, parts), may_end(word, parts)) {
        (true, true) => "`,` or `>`",
        (true, false) => "`,`",
        _ => "`>`",
    };
    Err(cursor.refuse(message))
}

// Takes a comma, if another part may follow.
fn eats_comma(cursor: &mut Cursor, word: TypeWord, parts: &Parts) -> bool
    ensures eaten { result ≡ true → Reads cursor.old cursor.new (IsKind TokenKind.Comma) }
    ensures seen { result ≡ true → (token_at (source cursor.old) cursor.old.next).kind ≡ TokenKind.Comma }
    ensures may { result ≡ true → may_go_on word parts.now.types.items parts.now.lacks_first parts.now.length ≡ true }
    ensures left { result ≡ false → cursor.new ≡ cursor.old }
    ensures complete { may_go_on word parts.now.types.items parts.now.lacks_first parts.now.length ≡ true → Eats cursor.old cursor.new result (IsKind TokenKind.Comma) }
{
    may_go_on(word, parts) && cursor.eat(TokenKind::Comma)
}

// Takes the angle that closes a tuple, behind a comma.
fn ends_tuple(cursor: &mut Cursor, word: TypeWord) -> bool
    ensures eaten { result ≡ true → Reads cursor.old cursor.new (IsKind TokenKind.CloseAngle) }
    ensures seen { result ≡ true → (token_at (source cursor.old) cursor.old.next).kind ≡ TokenKind.CloseAngle }
    ensures tuple { result ≡ true → word ≡ TypeWord.Tuple }
    ensures left { result ≡ false → cursor.new ≡ cursor.old }
    ensures complete { word ≡ TypeWord.Tuple → Eats cursor.old cursor.new result (IsKind TokenKind.CloseAngle) }
{
    match word {
        TypeWord::Tuple => cursor.eat(TokenKind::CloseAngle),
        _ => false,
    }
}

// Takes the angle behind the parts, if no other needs to follow.
fn eats_end(cursor: &mut Cursor, word: TypeWord, parts: &Parts) -> bool
    ensures eaten { result ≡ true → Reads cursor.old cursor.new (IsKind TokenKind.CloseAngle) }
    ensures seen { result ≡ true → (token_at (source cursor.old) cursor.old.next).kind ≡ TokenKind.CloseAngle }
    ensures may { result ≡ true → may_end word parts.now.types.items parts.now.lacks_first parts.now.length ≡ true }
    ensures left { result ≡ false → cursor.new ≡ cursor.old }
    ensures complete { may_end word parts.now.types.items parts.now.lacks_first parts.now.length ≡ true → Eats cursor.old cursor.new result (IsKind TokenKind.CloseAngle) }
{
    may_end(word, parts) && cursor.eat(TokenKind::CloseAngle)
}

// Whether another part may follow.
fn may_go_on(word: TypeWord, parts: &Parts) -> bool
    ensures { result ≡ may_go_on word parts.now.types.items parts.now.lacks_first parts.now.length }
{
    match word {
        TypeWord::Tuple => true,
        TypeWord::Map | TypeWord::List => parts.is_first(),
        TypeWord::Result => parts.types.is_empty() || parts.is_first(),
        TypeWord::Option | TypeWord::Future | TypeWord::Stream => false,
    }
}

// Whether no other part needs to follow.
fn may_end(word: TypeWord, parts: &Parts) -> bool
    ensures { result ≡ may_end word parts.now.types.items parts.now.lacks_first parts.now.length }
{
    match word {
        TypeWord::Map => !parts.is_first(),
        TypeWord::Result => !parts.types.is_empty(),
        _ => true,
    }
}

// The type that a word makes out of its parts.
fn build(
    cursor: &mut Cursor,
    word: TypeWord,
    parts: &mut Parts,
    span: Span,
) -> Result<TypeExpr, Fault>
    ensures made { IfOk result (λ t. IsTypeMade word parts.old.types.items parts.old.lacks_first parts.old.length span t) }
    ensures rest { IsOk result → cursor.new ≡ cursor.old }
    ensures complete { AreEnough word parts.old.types.items → IfErr result (λ fault. fault ≡ Memory) }
{
    let alloc = cursor.alloc;
    match word {
        TypeWord::Tuple => {
            let types = mem::replace(&mut parts.types, Vec::new(alloc));
            Ok(TypeExpr::Tuple(types, span))
        }
        TypeWord::Result => build_result(alloc, parts),
        TypeWord::Map => build_map(cursor, parts, span),
        TypeWord::Future => Ok(TypeExpr::Future(parts.take_last(alloc)?)),
        TypeWord::Stream => Ok(TypeExpr::Stream(parts.take_last(alloc)?)),
        TypeWord::Option => Ok(TypeExpr::Option(needed(cursor, parts, span)?)),
        TypeWord::List => build_list(cursor, parts, span),
    }
}

fn build_list(cursor: &mut Cursor, parts: &mut Parts, span: Span) -> Result<TypeExpr, Fault>
    ensures made { IfOk result (λ t. IsTypeMade TypeWord.List parts.old.types.items parts.old.lacks_first parts.old.length span t) }
    ensures rest { IsOk result → cursor.new ≡ cursor.old }
    ensures complete { AreEnough TypeWord.List parts.old.types.items → IfErr result (λ fault. fault ≡ Memory) }
{
    let element = needed(cursor, parts, span)?;
    match parts.length {
        Some(length) => Ok(TypeExpr::FixedList(element, length, span)),
        None => Ok(TypeExpr::List(element)),
    }
}

// A result, of which an only type is that of an error where `_` stands before it.
fn build_result(alloc: Global, parts: &mut Parts) -> Result<TypeExpr, Fault>
    ensures complete { IfErr result (λ fault. fault ≡ Memory) }
    ensures made { IfOk result (λ t. (span : Span) → IsTypeMade TypeWord.Result parts.old.types.items parts.old.lacks_first parts.old.length span t) }
{
    if parts.types.len() == 1 && !parts.lacks_first {
        return Ok(TypeExpr::Result(parts.take_last(alloc)?, None));
    }
    let second = parts.take_last(alloc)?;
    let first = parts.take_last(alloc)?;
    Ok(TypeExpr::Result(first, second))
}

fn build_map(cursor: &mut Cursor, parts: &mut Parts, span: Span) -> Result<TypeExpr, Fault>
    ensures made { IfOk result (λ t. IsTypeMade TypeWord.Map parts.old.types.items parts.old.lacks_first parts.old.length span t) }
    ensures rest { IsOk result → cursor.new ≡ cursor.old }
    ensures complete { AreEnough TypeWord.Map parts.old.types.items → IfErr result (λ fault. fault ≡ Memory) }
{
    if !has_key(parts) {
        return Err(cursor.refuse_at(
            span,
            "the key of a map is `bool`, `char`, `string` or an integer type, by that name",
        ));
    }
    let value = needed(cursor, parts, span)?;
    let key = needed(cursor, parts, span)?;
    Ok(TypeExpr::Map(key, value, span))
}

// Takes the last of the types, which is there: `goes_on` asks for the parts that a word needs.
fn needed(cursor: &mut Cursor, parts: &mut Parts, span: Span) -> Result<Box<TypeExpr>, Fault>
    ensures last { IfOk result (λ last. parts.old.types.items ≡ parts.new.types.items ++ last.value ∷ []) }
    ensures parts { parts.new ≡ record parts.old { types = parts.new.types } }
    ensures rest { IsOk result → cursor.new ≡ cursor.old }
    ensures complete { 0 < length parts.old.types.items → IfErr result (λ fault. fault ≡ Memory) }
{
    match parts.take_last(cursor.alloc)? {
        Some(ty) => Ok(ty),
        None => Err(cursor.refuse_at(span, "expected a type")),
    }
}

// Whether the first type can be the key of a map.
fn has_key(parts: &Parts) -> bool
    ensures key { result ≡ true → HasMapKey parts.now.types.items }
    ensures complete { HasMapKey parts.now.types.items → result ≡ true }
{
    match parts.types.first() {
        Some(TypeExpr::Primitive(primitive, _)) => is_key(*primitive),
        _ => false,
    }
}

fn is_key(primitive: PrimitiveType) -> bool
    ensures { result ≡ is_key primitive }
{
    !matches!(
        primitive,
        PrimitiveType::F32 | PrimitiveType::F64 | PrimitiveType::ErrorContext
    )
}
