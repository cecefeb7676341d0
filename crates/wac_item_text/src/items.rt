//! The texts of items and of their types.

ghost use Rattle.std.specs.Prelude.{◌≡◌, ◌<◌, OnOk, Some, length, slice_get};
ghost use Rattle.wac_component.specs.Content.{named, types_of};
ghost use Rattle.wac_component.specs.Key.{AllStand, type_keys, item_keys, named_keys};
ghost use Rattle.wac_item_text.specs.Rest.{AreStanding};

use super::modules::push_module;
use super::rest::{Chunk, Rest};
use super::values::{begin_func, begin_value, push_resource};
use indexmap::IndexMap;
use std::alloc::{AllocError, Global};
use wac_component::{ItemKind, Type, Types};
use wac_script_syntax::push_name;

/// Puts the canonical text of an item's tree last. `Err` is a failed allocation, and what was put
/// then is of no use.
pub fn push_item_text(
    alloc: Global,
    text: &mut String,
    types: &Types,
    item: ItemKind,
) -> Result<(), AllocError>
    requires { AllStand types.now (item_keys item) }
{
    let mut rest = Rest::new(alloc);
    push_item(&mut rest, types, item)?;
    // no memory lasts for so many turns
    for _ in 0..u64::MAX {
        match rest.chunks.pop() {
            Some(chunk) => put_chunk(alloc, text, &mut rest, types, chunk)?,
            None => return Ok(()),
        }
    }
    Ok(())
}

// Puts a chunk, or what it begins with, and lets the rest of it come next.
fn put_chunk<'a>(
    alloc: Global,
    text: &mut String,
    rest: &mut Rest<'a>,
    types: &'a Types,
    chunk: Chunk,
) -> Result<(), AllocError>
    requires { AreStanding types.now rest.old.pending.items }
    ensures { OnOk result (AreStanding types.now rest.new.pending.items) }
{
    match chunk {
        Chunk::Text => text.push_str(rest.texts.pop().unwrap_or("")),
        Chunk::Name => push_name(text, rest.texts.pop().unwrap_or("")),
        Chunk::Number(number) => write!(text, "{number}"),
        Chunk::Type => match rest.pending.pop() {
            Some(pending) => begin_type(alloc, text, rest, types, pending.ty),
            None => Ok(()),
        },
    }
}

// Lets the text of an item come next.
fn push_item(rest: &mut Rest<'_>, types: &Types, item: ItemKind) -> Result<(), AllocError>
    requires before { AreStanding types.now rest.old.pending.items }
    requires item { AllStand types.now (item_keys item) }
    ensures { OnOk result (AreStanding types.now rest.new.pending.items) }
{
    rest.push_text(")")?;
    rest.push_type(types, item.ty())?;
    rest.push_text(sort_word(types, item))
}

// The word of an item's sort, and a parenthesis; of the type of a core module that is empty, which
// would else be written as that of a world is, what it is too.
fn sort_word(types: &Types, item: ItemKind) -> &'static str
    requires { AllStand types.now (item_keys item) }
{
    match item {
        ItemKind::Type(ty) if is_empty_module(types, ty) => "Type(module ",
        ItemKind::Type(_) => "Type(",
        ItemKind::Func(_) => "Func(",
        ItemKind::Instance(_) => "Instance(",
        ItemKind::Component(_) => "Component(",
        ItemKind::Module(_) => "Module(",
        ItemKind::Value(_) => "Value(",
    }
}

// Whether a type is that of a core module which imports and exports nothing.
fn is_empty_module(types: &Types, ty: Type) -> bool
    requires { AllStand types.now (type_keys ty) }
{
    match ty {
        Type::Module(id) => types[id].imports.is_empty() && types[id].exports.is_empty(),
        _ => false,
    }
}

// Begins the text of a type.
fn begin_type<'a>(
    alloc: Global,
    text: &mut String,
    rest: &mut Rest<'a>,
    types: &'a Types,
    ty: Type,
) -> Result<(), AllocError>
    requires before { AreStanding types.now rest.old.pending.items }
    requires ty { AllStand types.now (type_keys ty) }
    ensures { OnOk result (AreStanding types.now rest.new.pending.items) }
{
    match ty {
        Type::Resource(id) => push_resource(text, types, "resource ", id),
        Type::Func(id) => begin_func(text, rest, types, &types[id]),
        Type::Value(ty) => begin_value(text, rest, types, ty),
        Type::Interface(id) => {
            text.push_str("{")?;
            push_items(alloc, rest, types, &types[id].exports)
        }
        Type::World(id) => {
            let world = &types[id];
            text.push_str("imports{")?;
            push_items(alloc, rest, types, &world.exports)?;
            rest.push_text("exports{")?;
            push_items(alloc, rest, types, &world.imports)
        }
        Type::Module(id) => push_module(alloc, text, &types[id]),
    }
}

// Lets named items come next in the order of their names, with semicolons between them and a brace
// behind.
fn push_items<'a>(
    alloc: Global,
    rest: &mut Rest<'a>,
    types: &Types,
    items: &'a IndexMap<String, ItemKind>,
) -> Result<(), AllocError>
    requires before { AreStanding types.now rest.old.pending.items }
    requires items { AllStand types.now (named_keys item_keys (named (λ k. k) items.now.entries)) }
    ensures { OnOk result (AreStanding types.now rest.new.pending.items) }
{
    rest.push_text("}")?;
    let names = sorted_names(alloc, items)?;
    let count = names.len();
    for i in 0..count {
        push_named(rest, types, items, names[count - 1 - i])?;
        rest.push_text(if count - 1 - i == 0 { "" } else { ";" })?;
    }
    Ok(())
}

// The names of items in order.
fn sorted_names<'a>(
    alloc: Global,
    items: &'a IndexMap<String, ItemKind>,
) -> Result<Vec<&'a str>, AllocError> {
    let mut names = Vec::new(alloc);
    for name in items.keys() {
        names.push(name.as_str())?;
    }
    names.sort()?;
    Ok(names)
}

// Lets the item of a name come next, and its name before it.
fn push_named<'a>(
    rest: &mut Rest<'a>,
    types: &Types,
    items: &IndexMap<String, ItemKind>,
    name: &'a str,
) -> Result<(), AllocError>
    requires before { AreStanding types.now rest.old.pending.items }
    requires items { AllStand types.now (named_keys item_keys (named (λ k. k) items.now.entries)) }
    ensures { OnOk result (AreStanding types.now rest.new.pending.items) }
{
    if let Some(at) = items.get_index_of(name) {
        push_item(rest, types, item_at(items, at))?;
        rest.push_key(name)?;
    }
    Ok(())
}

// The item at an index.
fn item_at(items: &IndexMap<String, ItemKind>, index: usize) -> ItemKind
    requires { index < length items.now.entries }
    ensures { slice_get (types_of items.now.entries) index ≡ Some result }
{
    *items.get_index(index).unwrap().1
}
