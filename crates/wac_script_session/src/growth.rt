//! Answers that add entries to a collection.

ghost use Rattle.std.specs.Prelude.{◌≡◌, IfOk, IfSome};
ghost use Rattle.wac_component.specs.Key.{AllStand, item_keys};

use super::lines::push_binding;
use std::alloc::{AllocError, Global};
use wac_component::{ItemKind, Types};
use wac_item_text::push_item_text;
use wac_merge::{join, meet};
use wac_package::Package;
use wac_script_entries::{find_item, find_world, push_item};
use wac_script_syntax::{Item, ScriptError, read_item, read_number, read_world};

/// Whether a bound is the greatest below two items or the least above them.
#[derive(Clone, Copy)]
pub(crate) enum BoundKind {
    /// The greatest below.
    Meet,
    /// The least above.
    Join,
}

/// What is made of entries of a collection.
#[derive(Clone, Copy)]
pub(crate) enum Growth {
    /// A bound of two items.
    Bound(BoundKind, Item, Item),
    /// A package of a world.
    Package(usize),
}

// Reads two items of which a bound is made, and before them the number of their collection.
fn read_bound<'a>(
    bound: BoundKind,
    form: &'static str,
    words: &[&'a str],
) -> Result<(u64, Growth), ScriptError<'a>> {
    let [collection, left, right] = *words else {
        return Err(ScriptError::Misused(form));
    };
    let number = read_number(collection)?;
    let (left, right) = (read_item(left)?, read_item(right)?);
    Ok((number, Growth::Bound(bound, left, right)))
}

// Reads a world of which a package is made, and before it the number of its collection.
fn read_package<'a>(words: &[&'a str]) -> Result<(u64, Growth), ScriptError<'a>> {
    let [collection, world] = *words else {
        return Err(ScriptError::Misused("package COLL wN"));
    };
    let number = read_number(collection)?;
    Ok((number, Growth::Package(read_world(world)?)))
}

/// Reads what is made of entries of the collection of a number, which comes first, from the words
/// after a command: `meet`, `join`, or else `package`.
pub(crate) fn read_growth<'a>(
    command: &str,
    words: &[&'a str],
) -> Result<(u64, Growth), ScriptError<'a>> {
    match command {
        "meet" => read_bound(BoundKind::Meet, "meet COLL ITEM ITEM", words),
        "join" => read_bound(BoundKind::Join, "join COLL ITEM ITEM", words),
        _ => read_package(words),
    }
}

/// Adds to a collection what is made of its entries, and puts the answer last.
pub(crate) fn grow<'a>(
    alloc: Global,
    text: &mut String,
    types: &mut Types,
    growth: Growth,
) -> Result<(), ScriptError<'a>>
    ensures { types.new.number ≡ types.old.number }
{
    match growth {
        Growth::Bound(bound, left, right) => add_bound(alloc, text, types, bound, left, right),
        Growth::Package(world) => add_package(alloc, text, types, world),
    }
}

// The number of entries of a collection.
fn entry_count(types: &Types) -> usize {
    let values = types
        .defined_types()
        .len()
        .saturating_add(types.resources().len());
    let functions = types
        .func_types()
        .len()
        .saturating_add(types.modules().len());
    let composites = types
        .interfaces()
        .len()
        .saturating_add(types.worlds().len());
    values.saturating_add(functions).saturating_add(composites)
}

// Puts a bound of two items last: its word, its canonical tree, and how many entries were added.
fn add_bound<'a>(
    alloc: Global,
    text: &mut String,
    types: &mut Types,
    bound: BoundKind,
    left: Item,
    right: Item,
) -> Result<(), ScriptError<'a>>
    ensures { types.new.number ≡ types.old.number }
{
    let before = entry_count(types);
    match (find_item(types, left), find_item(types, right)) {
        (Ok(a), Ok(b)) => {
            push_bound(alloc, text, types, bound, a, b)?;
            let added = entry_count(types).saturating_sub(before);
            write!(text, " added {added}")?;
            Ok(())
        }
        (Err(missing), _) | (_, Err(missing)) => Err(ScriptError::NoEntry(missing)),
    }
}

// Puts the word and the canonical tree of a bound last, or `none`.
fn push_bound(
    alloc: Global,
    text: &mut String,
    types: &mut Types,
    bound: BoundKind,
    a: ItemKind,
    b: ItemKind,
) -> Result<(), AllocError>
    requires left { AllStand types.old (item_keys a) }
    requires right { AllStand types.old (item_keys b) }
    ensures { types.new.number ≡ types.old.number }
{
    match bound_of(alloc, types, bound, a, b) {
        Ok(Some(item)) => push_standing(alloc, text, types, &item),
        Ok(None) => text.push_str("none"),
        Err(error) => Err(error),
    }
}

// Puts the word and the canonical tree of an item last.
fn push_standing(
    alloc: Global,
    text: &mut String,
    types: &Types,
    item: &ItemKind,
) -> Result<(), AllocError>
    requires { AllStand types.now (item_keys item.now) }
{
    push_item(text, *item)?;
    text.push_str(" ")?;
    push_item_text(alloc, text, types, *item)
}

// A bound of two items.
fn bound_of(
    alloc: Global,
    types: &mut Types,
    bound: BoundKind,
    a: ItemKind,
    b: ItemKind,
) -> Result<Option<ItemKind>, AllocError>
    requires left { AllStand types.old (item_keys a) }
    requires right { AllStand types.old (item_keys b) }
    ensures standing { IfOk result (λ bound. IfSome bound (λ item. AllStand types.new (item_keys item))) }
    ensures number { types.new.number ≡ types.old.number }
{
    match bound {
        BoundKind::Meet => meet(alloc, types, a, b),
        BoundKind::Join => join(alloc, types, a, b),
    }
}

// Puts a package that is made of a world last: the interface that is
// added, and the definitions in order.
fn add_package<'a>(
    alloc: Global,
    text: &mut String,
    types: &mut Types,
    world: usize,
) -> Result<(), ScriptError<'a>>
    ensures { types.new.number ≡ types.old.number }
{
    let world = find_world(types, world)?;
    let package = Package::from_world(alloc, "package", None, Vec::new(alloc), types, world)?;
    Ok(push_definitions(text, &package)?)
}

fn push_definitions(text: &mut String, package: &Package) -> Result<(), AllocError> {
    let interface = package.instance_type();
    write!(text, "i{interface}")?;
    for (name, item) in package.definitions() {
        push_binding(text, name, *item)?;
    }
    Ok(())
}
