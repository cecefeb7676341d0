//! Reads interfaces.

ghost use Rattle.std.specs.Prelude.{◌≡◌, false, codes, IfOk};
ghost use Rattle.wac_wit_syntax.specs.Behind.{IsFuncRest, IsUseRest, ReadsAfter, ReadsAfterWord};
ghost use Rattle.wac_wit_syntax.specs.Completing.{AnyOf, Completes, NotBeforeWord};
ghost use Rattle.wac_wit_syntax.specs.Cursors.{Reads};
ghost use Rattle.wac_wit_syntax.specs.Functions.{IsFunc};
ghost use Rattle.wac_wit_syntax.specs.Gates.{IsGates};
ghost use Rattle.wac_wit_syntax.specs.Interfaces.{IsAlias, IsInterfaceItem, IsRename, IsUse};

use super::cursor::Cursor;
use super::error::Fault;
use super::functions::read_signature;
use super::gates::read_gates;
use super::lists::{Item, ListForm, Member, read_list};
use super::paths::read_path;
use super::token::TokenKind;
use super::tree::{FuncItem, Gates, Ident, InterfaceItem, Rename, UseItem};
use super::typedefs::{def_word, read_typedef};

const USED_NAMES: ListForm = ListForm {
    open: TokenKind::OpenBrace,
    close: TokenKind::CloseBrace,
    member: "a name or `}`",
    separator: "`,`, `as` or `}`",
    needs_alias: false,
};

impl Item for InterfaceItem {
    ghost item = { λ item. IsInterfaceItem item };

    fn read(cursor: &mut Cursor) -> Result<InterfaceItem, Fault> {
        let gates = read_gates(cursor)?;
        if let Some(word) = def_word(cursor) {
            return Ok(InterfaceItem::Type(read_typedef(cursor, gates, word)?));
        }
        if cursor.word() == "use" {
            return Ok(InterfaceItem::Use(read_use(cursor, gates)?));
        }
        Ok(InterfaceItem::Func(read_func(cursor, gates)?))
    }
}

fn read_func(cursor: &mut Cursor, gates: Gates) -> Result<FuncItem, Fault>
    ensures read { IfOk result (λ func. ReadsAfter (IsGates gates) cursor.old cursor.new (IsFunc func)) }
    ensures complete { Completes cursor.old cursor.new result IsFuncRest }
{
    let name = cursor.label("a function, a type, `use` or `}`")?;
    let signature = read_signature(cursor)?;
    let span = name.span.to(signature.span);
    Ok(FuncItem {
        gates,
        name,
        signature,
        span,
    })
}

/// Reads `use PATH.{..};`.
pub(crate) fn read_use(cursor: &mut Cursor, gates: Gates) -> Result<UseItem, Fault>
    ensures read { IfOk result (λ item. ReadsAfterWord (IsGates gates) (codes "use") cursor.old cursor.new (IsUse item)) }
    ensures complete { Completes cursor.old cursor.new result IsUseRest }
{
    cursor.take();
    let path = read_path(cursor)?;
    let path = cursor.before(path, TokenKind::Dot)?;
    let names = read_list(cursor, USED_NAMES)?;
    cursor.ended(UseItem { gates, path, names })
}

// A name with the one that it gets, if it gets another.
impl Member for Rename {
    ghost member = { λ needed rename. IsRename needed rename };

    fn read(cursor: &mut Cursor, form: ListForm) -> Result<Rename, Fault> {
        let name = cursor.ident(form.member)?;
        let alias = read_alias(cursor)?;
        if form.needs_alias && alias.is_none() {
            return Err(cursor.refuse("`as` and the name that it gets"));
        }
        Ok(Rename { name, alias })
    }
}

/// Reads `as NAME`, if that comes next.
pub(crate) fn read_alias(cursor: &mut Cursor) -> Result<Option<Ident>, Fault>
    ensures read { IfOk result (λ alias. Reads cursor.old cursor.new (IsAlias false alias)) }
    ensures complete { Completes cursor.old cursor.new result (NotBeforeWord (codes "as") (AnyOf (IsAlias false))) }
    ensures none { IfOk result (λ alias. alias ≡ None → cursor.new ≡ cursor.old) }
{
    if !cursor.eat_word("as") {
        return Ok(None);
    }
    Ok(Some(cursor.ident("the name that it gets")?))
}
