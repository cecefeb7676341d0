//! The imports of an aggregator.

ghost use Rattle.std.specs.Prelude.{◌≡◌, ◌<◌, IfOk, OnOk, Some, length, slice_get};
ghost use Rattle.wac_component.specs.Content.{named, types_of, use_content};
ghost use Rattle.wac_component.specs.Key.{AllStand, Stands, interface_key, item_keys, named_keys, use_keys};
ghost use Rattle.wac_aggregator.specs.HandedIn.{called, handed_in};
ghost use Rattle.wac_script_session.specs.Calls.{AreAsked, IsAsked};
ghost use Rattle.wac_script_session.specs.Provided.{AreProvided};

use indexmap::{IndexMap, IndexSet};
use std::alloc::{AllocError, Global};
use std::collections::HashSet;
use wac_aggregator::{Call, TypeAggregator};
use wac_checker::SubtypeChecker;
use wac_component::{ItemKind, Type, Types, UsedType};
use wac_item_text::push_item_text;
use wac_mismatch::SubtypeError;
use wac_script_syntax::push_name;

/// Puts `ok` last, the imports of an aggregator, the names that lead to
/// them, and which item each serves.
pub(crate) fn push_imports(
    alloc: Global,
    text: &mut String,
    aggregator: &TypeAggregator,
    calls: &[Call<'_>],
) -> Result<(), AllocError>
    requires { AreAsked aggregator.now.types.number (handed_in calls.now) }
{
    text.push_str("ok")?;
    for (name, kind) in aggregator.imports() {
        push_import(alloc, text, aggregator.types(), name, &kind)?;
    }
    push_names(alloc, text, aggregator, calls)?;
    push_served(alloc, text, aggregator, calls)
}

// Puts of each call last whether it is served by the import to which its name leads.
fn push_served(
    alloc: Global,
    text: &mut String,
    aggregator: &TypeAggregator,
    calls: &[Call<'_>],
) -> Result<(), AllocError>
    requires { AreAsked aggregator.now.types.number (handed_in calls.now) }
{
    let names = import_names(alloc, aggregator)?;
    let provided = provided_by(alloc, aggregator)?;
    for at in 0..calls.len() {
        let name = aggregator.canonical_import_name(calls[at].name);
        let place = names.get_index_of(name).unwrap_or(provided.len());
        let answer = match provided.get(place) {
            Some(import) => fits(alloc, aggregator.types(), import.kind, &calls[at])?,
            None => "missing",
        };
        write!(text, "\n  serves {at} {answer}")?;
    }
    Ok(())
}

// The names of the imports in order.
fn import_names(alloc: Global, aggregator: &TypeAggregator) -> Result<IndexSet<&str>, AllocError> {
    let mut names = IndexSet::new(alloc);
    for (name, _) in aggregator.imports() {
        names.insert(name)?;
    }
    Ok(names)
}

// The item of an import, which serves calls. (The prover asks for a type of this crate around an
// enum of another one that is pushed.)
#[derive(Drop)]
struct Provided {
    kind: ItemKind,
}

// The items of the imports in order.
fn provided_by(alloc: Global, aggregator: &TypeAggregator) -> Result<Vec<Provided>, AllocError>
    ensures { IfOk result (λ provided. AreProvided aggregator.now.types provided.items) }
{
    let mut provided = Vec::new(alloc);
    for (_, kind) in aggregator.imports() {
        push_kind(aggregator.types(), &mut provided, kind)?;
    }
    Ok(provided)
}

fn push_kind(types: &Types, provided: &mut Vec<Provided>, kind: ItemKind) -> Result<(), AllocError>
    requires before { AreProvided types.now provided.old.items }
    requires kind { AllStand types.now (item_keys kind) }
    ensures { OnOk result (AreProvided types.now provided.new.items) }
{
    provided.push(Provided { kind })?;
    Ok(())
}

// Puts the tree of an import last, and its identifier and uses.
fn push_import(
    alloc: Global,
    text: &mut String,
    types: &Types,
    name: &str,
    kind: &ItemKind,
) -> Result<(), AllocError>
    requires { AllStand types.now (item_keys kind.now) }
{
    text.push_str("\n  import ")?;
    push_name(text, name)?;
    text.push_str(" ")?;
    push_item_text(alloc, text, types, *kind)?;
    text.push_str("\n  meta ")?;
    push_name(text, name)?;
    text.push_str(" ")?;
    push_about(alloc, text, types, *kind)
}

// Puts the identifier and the uses of an interface or a world last; of another item `-`.
fn push_about(
    alloc: Global,
    text: &mut String,
    types: &Types,
    kind: ItemKind,
) -> Result<(), AllocError>
    requires { AllStand types.now (item_keys kind) }
{
    match kind.ty() {
        Type::Interface(id) => {
            push_identifier(text, &types[id].id)?;
            push_uses(alloc, text, types, &types[id].uses)
        }
        Type::World(id) => {
            push_identifier(text, &types[id].id)?;
            push_uses(alloc, text, types, &types[id].uses)
        }
        _ => text.push_str("-"),
    }
}

fn push_identifier(text: &mut String, id: &Option<String>) -> Result<(), AllocError> {
    match id {
        Some(name) => push_name(text, name),
        None => text.push_str("-"),
    }
}

// Puts uses last, in the order of their words.
fn push_uses(
    alloc: Global,
    text: &mut String,
    types: &Types,
    uses: &IndexMap<String, UsedType>,
) -> Result<(), AllocError>
    requires { AllStand types.now (named_keys use_keys (named use_content uses.now.entries)) }
{
    let mut words = Vec::new(alloc);
    for i in 0..uses.len() {
        let (name, used) = use_at(uses, i);
        words.push(use_word(alloc, types, name, used)?)?;
    }
    words.sort()?;
    for word in &words {
        text.push_str(" ")?;
        text.push_str(word)?;
    }
    Ok(())
}

// The use at an index, with its name.
fn use_at(uses: &IndexMap<String, UsedType>, index: usize) -> (&str, &UsedType)
    requires { index < length uses.now.entries }
    ensures { slice_get (types_of uses.now.entries) index ≡ Some result.1.now }
{
    let (name, used) = uses.get_index(index).unwrap();
    (name.as_str(), used)
}

// The word of a use, with the identifier of the interface that it is of.
fn use_word(alloc: Global, types: &Types, name: &str, used: &UsedType) -> Result<String, AllocError>
    requires { Stands types.now (interface_key used.now.interface) }
{
    let mut word = String::from_str(alloc, "u:")?;
    push_name(&mut word, name)?;
    word.push_str("=")?;
    push_identifier(&mut word, &types[used.interface].id)?;
    if let Some(name) = &used.name {
        word.push_str("=")?;
        push_name(&mut word, name)?;
    }
    Ok(word)
}

// Puts each name that was handed in last, once, and the name of the import that it leads to.
fn push_names(
    alloc: Global,
    text: &mut String,
    aggregator: &TypeAggregator,
    calls: &[Call<'_>],
) -> Result<(), AllocError> {
    let mut seen = IndexSet::new(alloc);
    for call in calls {
        if seen.insert(call.name)? {
            push_canonical(text, aggregator, call.name)?;
        }
    }
    Ok(())
}

fn push_canonical(
    text: &mut String,
    aggregator: &TypeAggregator,
    name: &str,
) -> Result<(), AllocError> {
    text.push_str("\n  canon ")?;
    push_name(text, name)?;
    text.push_str(" ")?;
    push_name(text, aggregator.canonical_import_name(name))
}

// Whether an import fits where the item of a call is asked for.
fn fits(
    alloc: Global,
    types: &Types,
    kind: ItemKind,
    call: &Call<'_>,
) -> Result<&'static str, AllocError>
    requires import { AllStand types.now (item_keys kind) }
    requires call { IsAsked types.now.number (called call.now) }
{
    let mut cache = HashSet::new(alloc);
    let mut checker = SubtypeChecker::new(&mut cache);
    match checker.is_subtype(alloc, kind, types, call.kind, call.types) {
        Ok(()) => Ok("yes"),
        Err(SubtypeError::Memory) => Err(AllocError),
        Err(_) => Ok("no"),
    }
}
