//! Reads worlds.

ghost use Rattle.std.specs.Prelude.{◌≡◌, ◌≢◌, ◌⊎◌, ◌+◌, false, true, codes, IfOk};
ghost use Rattle.wac_model.specs.Text.{Text};
ghost use Rattle.wac_wit_syntax.specs.Behind.{IsIncludeRest, IsNamedRest, ReadsAfter, ReadsAfterWord};
ghost use Rattle.wac_wit_syntax.specs.Completing.{AnyOf, Completes};
ghost use Rattle.wac_wit_syntax.specs.Cursors.{Reads, source};
ghost use Rattle.wac_wit_syntax.specs.Gates.{IsGates};
ghost use Rattle.wac_wit_syntax.specs.Productions.{◌▸◌, IsKind, IsName, token_at};
ghost use Rattle.wac_wit_syntax.specs.Worlds.{AreRenames, IsExtern, IsExternItem, IsInclude, IsWorldItem};

use super::cursor::Cursor;
use super::error::Fault;
use super::functions::{read_signature, sees_func};
use super::gates::read_gates;
use super::interfaces::read_use;
use super::lists::{Item, ListForm, read_block, read_list};
use super::paths::{path_after, read_path};
use super::token::TokenKind;
use super::tree::{Extern, ExternItem, Gates, Ident, IncludeItem, Rename, WorldItem};
use super::typedefs::{def_word, read_typedef};

const RENAMED: ListForm = ListForm {
    open: TokenKind::OpenBrace,
    close: TokenKind::CloseBrace,
    member: "a name or `}`",
    separator: "`,`, `as` or `}`",
    needs_alias: true,
};

impl Item for WorldItem {
    ghost item = { λ item. IsWorldItem item };

    fn read(cursor: &mut Cursor) -> Result<WorldItem, Fault> {
        let gates = read_gates(cursor)?;
        if let Some(word) = def_word(cursor) {
            return Ok(WorldItem::Type(read_typedef(cursor, gates, word)?));
        }
        match cursor.word() {
            "use" => Ok(WorldItem::Use(read_use(cursor, gates)?)),
            "include" => Ok(WorldItem::Include(read_include(cursor, gates)?)),
            "import" => Ok(WorldItem::Import(read_extern_item(cursor, gates)?)),
            "export" => Ok(WorldItem::Export(read_extern_item(cursor, gates)?)),
            _ => Err(cursor.refuse("`import`, `export`, `include`, `use`, a type or `}`")),
        }
    }
}

fn read_include(cursor: &mut Cursor, gates: Gates) -> Result<IncludeItem, Fault>
    ensures read { IfOk result (λ item. ReadsAfterWord (IsGates gates) (codes "include") cursor.old cursor.new (IsInclude item)) }
    ensures complete { Completes cursor.old cursor.new result IsIncludeRest }
{
    cursor.take();
    let path = read_path(cursor)?;
    let renames = read_renames(cursor)?;
    Ok(IncludeItem {
        gates,
        path,
        renames,
    })
}

// Reads `with { .. }` or `;`.
fn read_renames(cursor: &mut Cursor) -> Result<Vec<Rename>, Fault>
    ensures read { IfOk result (λ renames. Reads cursor.old cursor.new (AreRenames renames.items)) }
    ensures complete { Completes cursor.old cursor.new result (AnyOf AreRenames) }
{
    if cursor.eat_word("with") {
        return read_list(cursor, RENAMED);
    }
    cursor.ended(Vec::new(cursor.alloc))
}

// Reads an import or an export from its first word on.
fn read_extern_item(cursor: &mut Cursor, gates: Gates) -> Result<ExternItem, Fault>
    ensures read { IfOk result (λ item. (word : Text) → ReadsAfterWord (IsGates gates) word cursor.old cursor.new (IsExternItem word item)) }
    ensures complete { Completes cursor.old cursor.new result (IsKind TokenKind.Word ▸ AnyOf IsExtern) }
{
    cursor.take();
    let start = cursor.peek().span;
    let what = read_extern(cursor)?;
    let span = start.to(cursor.last_span());
    Ok(ExternItem { gates, what, span })
}

fn read_extern(cursor: &mut Cursor) -> Result<Extern, Fault>
    ensures read { IfOk result (λ what. Reads cursor.old cursor.new (IsExtern what)) }
    ensures complete { Completes cursor.old cursor.new result (AnyOf IsExtern) }
{
    let first = cursor.ident("a name or the path of an interface")?;
    if is_path_ahead(cursor) {
        let path = path_after(cursor, first)?;
        return cursor.ended(Extern::Path(path));
    }
    cursor.expect(TokenKind::Colon)?;
    read_named_extern(cursor, first)
}

// Reads what is imported or exported under a name, behind its colon.
fn read_named_extern(cursor: &mut Cursor, name: Ident) -> Result<Extern, Fault>
    ensures read { IfOk result (λ what. ReadsAfter (IsName name ▸ IsKind TokenKind.Colon) cursor.old cursor.new (IsExtern what)) }
    ensures complete { Completes cursor.old cursor.new result IsNamedRest }
{
    if sees_func(cursor) {
        return Ok(Extern::Func(name, read_signature(cursor)?));
    }
    if cursor.eat_word("interface") {
        return Ok(Extern::Inline(name, read_block(cursor)?));
    }
    if !cursor.sees_name() {
        return Err(cursor.refuse("`func`, `async func`, `interface` or the path of an interface"));
    }
    let path = read_path(cursor)?;
    cursor.ended(Extern::Named(name, path))
}

// Whether what follows a first name makes it a path: no colon, or a colon, a name and a slash.
fn is_path_ahead(cursor: &Cursor) -> bool
    ensures path { result ≡ true → ((token_at (source cursor.now) cursor.now.next).kind ≢ TokenKind.Colon) ⊎ ((token_at (source cursor.now) (cursor.now.next + 2)).kind ≡ TokenKind.Slash) }
    ensures colon { result ≡ false → ((token_at (source cursor.now) cursor.now.next).kind ≡ TokenKind.Colon) × ((token_at (source cursor.now) (cursor.now.next + 2)).kind ≢ TokenKind.Slash) }
{
    !cursor.sees(TokenKind::Colon) || cursor.ahead(2).kind == TokenKind::Slash
}
