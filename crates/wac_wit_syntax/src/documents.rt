//! Reads files.

ghost use Rattle.std.specs.Prelude.{◌≡◌, true, codes, IfErr, IfOk, OnOk, vec_len};
ghost use Rattle.wac_wit_syntax.specs.Behind.{HasNothing, IsDeclOf, IsTopUseRest, PackageRest, ReadsAfter, ReadsAfterWord, TopRest, TopStep};
ghost use Rattle.wac_wit_syntax.specs.Completing.{AnyOf, Before, Completes};
ghost use Rattle.wac_wit_syntax.specs.Cursors.{Reads, source};
ghost use Rattle.wac_wit_syntax.specs.Documents.{IsDocument, IsInterface, IsShallowText, IsTopItem, IsTopUse, IsWorld, Says};
ghost use Rattle.wac_wit_syntax.specs.Faults.{LiesIn};
ghost use Rattle.wac_wit_syntax.specs.Gates.{IsGates};
ghost use Rattle.wac_wit_syntax.specs.Interfaces.{IsInterfaceItem};
ghost use Rattle.wac_wit_syntax.specs.Paths.{IsPackageName};
ghost use Rattle.wac_wit_syntax.specs.Productions.{◌▸◌, IsKind, IsWord, Nothing, SaysWord, token_at};
ghost use Rattle.wac_wit_syntax.specs.Worlds.{IsWorldItem};
ghost use Rattle.wac_wit_syntax.specs.declared.cursor.Cursor.{Cursor};
ghost use Rattle.wac_wit_syntax.specs.declared.error.SyntaxError.TheVariants.{Memory};

use super::cursor::Cursor;
use super::error::{Fault, SyntaxError};
use super::gates::{read_gates, refuse_gates};
use super::interfaces::read_alias;
use super::lexer::cut;
use super::lists::{Item, read_block};
use super::paths::{read_package_name, read_path};
use super::refusals::Refusals;
use super::token::TokenKind;
use super::tree::{
    Document, Gates, InterfaceDecl, NestedPackage, PackageName, TopItem, TopUse, WorldDecl,
};
use std::alloc::Global;

/// Reads a file.
///
/// After an item that is refused the rest of the text is read too, so that all its refusals are
/// told at once. The time is linear in the length of the text, whatever is refused.
pub fn parse(alloc: Global, text: &str) -> Result<Document, SyntaxError>
    ensures read { IfOk result (λ document. Says text.now document) }
    ensures complete { (document : Document) → Says text.now document → IsShallowText text.now → IfErr result (λ error. error ≡ Memory) }
    ensures places { IfErr result (LiesIn text.now) }
{
    let mut refusals = Refusals::new(alloc);
    let tokens = cut(alloc, text, &mut refusals)?;
    if refusals.is_full() {
        return Err(refusals.into_error(text));
    }
    let owned = String::from_str(alloc, text)?;
    let mut cursor = Cursor::new(alloc, owned, tokens, refusals);
    let document = read_document(&mut cursor);
    cursor.finish(document, text)
}

fn read_document(cursor: &mut Cursor) -> Result<Document, Fault>
    ensures read { IfOk result (λ document. Reads cursor.old cursor.new (IsDocument document)) }
    ensures end { OnOk result ((token_at (source cursor.new) cursor.new.next).kind ≡ TokenKind.End) }
    ensures complete { Completes cursor.old cursor.new result (Before TokenKind.End (AnyOf IsDocument)) }
{
    let mut document = Document {
        package: None,
        items: Vec::new(cursor.alloc),
        packages: Vec::new(cursor.alloc),
    };
    // the last turn sees the end
    for _turn in 0..cursor.len().saturating_add(1) {
        if cursor.sees(TokenKind::End) {
            return Ok(document);
        }
        let start = cursor.index();
        if let Err(fault) = read_top(cursor, &mut document) {
            cursor.recover(fault, start)?;
        }
    }
    Err(cursor.refuse("the end of the file"))
}

// Reads an item of a file, or the name of its package.
fn read_top(cursor: &mut Cursor, document: &mut Document) -> Result<(), Fault>
    ensures read { OnOk result (ReadsAfter (IsDocument document.old) cursor.old cursor.new (IsDocument document.new)) }
    ensures complete { Completes cursor.old cursor.new result (TopStep document.old) }
{
    let gates = read_gates(cursor)?;
    if cursor.word() == "package" {
        refuse_gates(cursor, &gates)?;
        return read_package(cursor, document);
    }
    let item = read_item_after(cursor, gates, "`package`, `interface`, `world` or `use`")?;
    document.items.push(item)?;
    Ok(())
}

// Reads a package that is written inside a file, or the name of the file's own.
fn read_package(cursor: &mut Cursor, document: &mut Document) -> Result<(), Fault>
    ensures read { OnOk result (ReadsAfterWord (IsDocument document.old) (codes "package") cursor.old cursor.new (IsDocument document.new)) }
    ensures complete { Completes cursor.old cursor.new result (PackageRest document.old) }
{
    cursor.take();
    let name = read_package_name(cursor)?;
    if !cursor.sees(TokenKind::OpenBrace) {
        return name_package(cursor, document, name);
    }
    let items = read_block(cursor)?;
    document.packages.push(NestedPackage { name, items })?;
    Ok(())
}

// Takes the end of the line that names the package of a file.
fn name_package(
    cursor: &mut Cursor,
    document: &mut Document,
    name: PackageName,
) -> Result<(), Fault>
    ensures read { OnOk result (ReadsAfter (IsDocument document.old ▸ IsWord (codes "package") ▸ IsPackageName name) cursor.old cursor.new (IsDocument document.new)) }
    ensures complete { HasNothing document.old → Completes cursor.old cursor.new result (IsKind TokenKind.Semicolon) }
{
    if !has_nothing(document) {
        return Err(cursor.refuse("`{`, since a file names its package once, before all else"));
    }
    cursor.expect_end()?;
    document.package = Some(name);
    Ok(())
}

// Whether nothing of a file is read so far.
fn has_nothing(document: &Document) -> bool
    ensures nothing { result ≡ true → (document.now.«package» ≡ None) × (vec_len document.now.items ≡ 0) × (vec_len document.now.packages ≡ 0) }
    ensures complete { document.now.«package» ≡ None → vec_len document.now.items ≡ 0 → vec_len document.now.packages ≡ 0 → result ≡ true }
{
    document.package.is_none() && document.items.is_empty() && document.packages.is_empty()
}

// An item of a package that is written inside a file.
impl Item for TopItem {
    ghost item = { λ item. IsTopItem item };

    fn read(cursor: &mut Cursor) -> Result<TopItem, Fault> {
        let gates = read_gates(cursor)?;
        if cursor.eat_word("package") {
            let span = cursor.peek().span;
            return Err(cursor.refuse_at(span, "a package can't stand inside of another"));
        }
        read_item_after(cursor, gates, "`interface`, `world`, `use` or `}`")
    }
}

// Reads an item after its attributes.
fn read_item_after(cursor: &mut Cursor, gates: Gates, expected: &str) -> Result<TopItem, Fault>
    ensures read { IfOk result (λ item. ReadsAfter (IsGates gates) cursor.old cursor.new (IsTopItem item)) }
    ensures complete { Completes cursor.old cursor.new result (TopRest gates) }
{
    match cursor.word() {
        "interface" => Ok(TopItem::Interface(read_interface(cursor, gates)?)),
        "world" => Ok(TopItem::World(read_world(cursor, gates)?)),
        "use" => {
            refuse_gates(cursor, &gates)?;
            Ok(TopItem::Use(read_top_use(cursor)?))
        }
        _ => Err(cursor.refuse(expected)),
    }
}

fn read_interface(cursor: &mut Cursor, gates: Gates) -> Result<InterfaceDecl, Fault>
    ensures read { IfOk result (λ interface. ReadsAfterWord (IsGates gates) (codes "interface") cursor.old cursor.new (IsInterface interface)) }
    ensures complete { Completes cursor.old cursor.new result (IsDeclOf IsInterfaceItem) }
{
    cursor.take();
    let name = cursor.ident("the name of the interface")?;
    let items = read_block(cursor)?;
    Ok(InterfaceDecl { gates, name, items })
}

fn read_world(cursor: &mut Cursor, gates: Gates) -> Result<WorldDecl, Fault>
    ensures read { IfOk result (λ world. ReadsAfterWord (IsGates gates) (codes "world") cursor.old cursor.new (IsWorld world)) }
    ensures complete { Completes cursor.old cursor.new result (IsDeclOf IsWorldItem) }
{
    cursor.take();
    let name = cursor.ident("the name of the world")?;
    let items = read_block(cursor)?;
    Ok(WorldDecl { gates, name, items })
}

fn read_top_use(cursor: &mut Cursor) -> Result<TopUse, Fault>
    ensures read { IfOk result (λ item. (before : Cursor) → Reads before cursor.old Nothing → SaysWord (source cursor.old) cursor.old.next (codes "use") → Reads before cursor.new (IsTopUse item)) }
    ensures complete { Completes cursor.old cursor.new result IsTopUseRest }
{
    cursor.take();
    let path = read_path(cursor)?;
    let alias = read_alias(cursor)?;
    cursor.ended(TopUse { path, alias })
}
