//! Answers of a collection.

ghost use Rattle.wac_component.specs.Key.{AllStand, type_keys, item_keys};

use super::collections::Collections;
use super::lines::push_yes_or_no;
use std::alloc::{AllocError, Global};
use wac_component::{ItemKind, Type, Types};
use wac_item_text::push_item_text;
use wac_script_entries::{find_item, find_type, push_entry, push_item, push_type, push_value};
use wac_script_syntax::{
    Item, ScriptError, TypeWord, read_entry, read_item, read_number, read_resolvable, read_type,
    read_value,
};

/// What is asked of an item or a type.
#[derive(Clone, Copy)]
pub(crate) enum ItemQuery {
    /// The canonical text of an item's tree.
    Tree,
    /// The text of an item's kind.
    Desc,
    /// The item that an item is promoted to.
    Promoted,
    /// The type of an item.
    Type,
    /// The line that builds an entry.
    Entry,
    /// Whether a value type contains a borrowed handle.
    Borrows,
    /// What a value type or a resource is an alias of.
    Root,
}

impl ItemQuery {
    // The form of the query.
    fn form(self) -> &'static str {
        match self {
            ItemQuery::Tree => "tree COLL ITEM",
            ItemQuery::Desc => "desc COLL ITEM",
            ItemQuery::Promoted => "promote COLL ITEM",
            ItemQuery::Type => "ty COLL ITEM",
            ItemQuery::Entry => "entry COLL ENTRY",
            ItemQuery::Borrows => "borrows COLL VALUE",
            ItemQuery::Root => "resolve COLL VALUE|rN",
        }
    }

    // Reads what is asked about; a type stands for the item that it is.
    fn read(self, word: &str) -> Result<Item, ScriptError<'_>> {
        match self {
            ItemQuery::Entry => Ok(Item::Type(TypeWord::Entry(read_entry(word)?))),
            ItemQuery::Borrows => Ok(Item::Value(read_value(word)?)),
            ItemQuery::Root => Ok(Item::Type(read_resolvable(word)?)),
            _ => read_item(word),
        }
    }
}

/// Puts the answer to a query about one item or type last.
pub(crate) fn about<'a>(
    alloc: Global,
    text: &mut String,
    collections: &Collections,
    asked: ItemQuery,
    words: &[&'a str],
) -> Result<(), ScriptError<'a>> {
    let [collection, item] = *words else {
        return Err(ScriptError::Misused(asked.form()));
    };
    let (number, item) = (read_number(collection)?, asked.read(item)?);
    let types = collections.get(number)?;
    match find_item(types, item) {
        Ok(item) => Ok(push_asked(alloc, text, types, asked, item)?),
        Err(missing) => Err(ScriptError::NoEntry(missing)),
    }
}

fn push_asked(
    alloc: Global,
    text: &mut String,
    types: &Types,
    asked: ItemQuery,
    item: ItemKind,
) -> Result<(), AllocError>
    requires { AllStand types.now (item_keys item) }
{
    match asked {
        ItemQuery::Tree => push_item_text(alloc, text, types, item),
        ItemQuery::Desc => text.push_str(item.desc(types)),
        ItemQuery::Promoted => push_item(text, item.promote()),
        ItemQuery::Type => push_type(text, item.ty()),
        ItemQuery::Entry => push_entry(text, types, item.ty()),
        ItemQuery::Borrows => push_yes_or_no(text, contains_borrow(types, item)),
        ItemQuery::Root => push_root(text, types, item.ty()),
    }
}

// Whether an item is a value whose type contains a borrowed handle.
fn contains_borrow(types: &Types, item: ItemKind) -> bool
    requires { AllStand types.now (item_keys item) }
{
    match item {
        ItemKind::Value(ty) => ty.contains_borrow(types),
        _ => false,
    }
}

// Puts last what a value type or a resource is an alias of; another type stands for itself.
fn push_root(text: &mut String, types: &Types, ty: Type) -> Result<(), AllocError>
    requires { AllStand types.now (type_keys ty) }
{
    match ty {
        Type::Value(value) => push_value(text, types.resolve_value_type(value)),
        Type::Resource(id) => push_type(text, Type::Resource(types.resolve_resource(id))),
        _ => push_type(text, ty),
    }
}

/// Puts last whether a collection contains a type of another.
pub(crate) fn contains<'a>(
    text: &mut String,
    collections: &Collections,
    words: &[&'a str],
) -> Result<(), ScriptError<'a>> {
    let [collection, other, ty] = *words else {
        return Err(ScriptError::Misused("contains COLL OTHER TYPE"));
    };
    let (number, other) = (read_number(collection)?, read_number(other)?);
    let ty = read_type(ty)?;
    let types = collections.get(number)?;
    match find_type(collections.get(other)?, ty) {
        Ok(ty) => Ok(push_yes_or_no(text, types.contains(ty))?),
        Err(missing) => Err(ScriptError::NoEntry(missing)),
    }
}

/// Puts last how many entries of each sort a collection has.
pub(crate) fn count<'a>(
    text: &mut String,
    collections: &Collections,
    words: &[&'a str],
) -> Result<(), ScriptError<'a>> {
    let [collection] = *words else {
        return Err(ScriptError::Misused("count COLL"));
    };
    let types = collections.get(read_number(collection)?)?;
    Ok(push_lengths(text, types)?)
}

// Puts the lengths of the six lists last.
fn push_lengths(text: &mut String, types: &Types) -> Result<(), AllocError> {
    write!(
        text,
        "{} {} {} {} {} {}",
        types.defined_types().len(),
        types.resources().len(),
        types.func_types().len(),
        types.interfaces().len(),
        types.worlds().len(),
        types.modules().len(),
    )
}
