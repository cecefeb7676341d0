//! The steps of a composition, each with what is said of it.

use super::checking::push_answer;
use super::component::Component;
use super::failure::CompositionFailure;
use super::graph::Graph;
use super::merging::{import_named, remaining};
use super::orders::push_other_orders;
use super::targets::push_targets;
use std::alloc::Global;
use std::collections::HashSet;
use wac_types::{
    AggregateAllError, AggregateError, ItemKind, PrimitiveType, SubtypeChecker, Type,
    TypeAggregator, Types, aggregate_all, are_semver_compatible,
};

/// Composes the three components, whose client has texts of this type.
pub(crate) fn compose(
    alloc: Global,
    text: &mut String,
    client_text: PrimitiveType,
) -> Result<(), CompositionFailure> {
    let graph = Graph::new(alloc, client_text)?;
    push_links(alloc, text, &graph.handler, &graph.middleware)?;
    push_links(alloc, text, &graph.client, &graph.handler)?;
    merge(alloc, text, &graph)
}

// Merges what remains to be imported.
fn merge(alloc: Global, text: &mut String, graph: &Graph) -> Result<(), CompositionFailure> {
    let calls = remaining(alloc, graph)?;
    let mut cache = HashSet::new(alloc);
    let mut checker = SubtypeChecker::new(&mut cache);
    // the collection of the merged imports has a number of its own
    match aggregate_all(alloc, 4, &calls, &mut checker) {
        Ok(merged) => push_merged(alloc, text, &merged, graph)?,
        Err(refusal) => push_refusal(text, calls[refusal.at].name, &refusal)?,
    }
    push_other_orders(alloc, text, &calls)
}

// What the composed component imports, what each component has of that, and the
// worlds that it may be made for.
fn push_merged(
    alloc: Global,
    text: &mut String,
    merged: &TypeAggregator,
    graph: &Graph,
) -> Result<(), CompositionFailure> {
    for (name, kind) in merged.imports() {
        push_import(text, merged.types(), name, kind)?;
    }
    push_served(alloc, text, merged, &graph.middleware)?;
    push_served(alloc, text, merged, &graph.handler)?;
    push_served(alloc, text, merged, &graph.client)?;
    push_targets(alloc, text, merged, &graph.middleware)
}

// Each export of one component that gives another what it imports.
fn push_links(
    alloc: Global,
    text: &mut String,
    giver: &Component,
    asker: &Component,
) -> Result<(), CompositionFailure> {
    let (from, to) = (giver.name, asker.name);
    for (export, given) in giver.exports() {
        for (import, wanted) in asker.imports() {
            if are_semver_compatible(alloc, export, import)? {
                write!(text, "  {to} imports {import}, {from} exports {export}: ")?;
                push_answer(alloc, text, given, &giver.types, wanted, &asker.types)?;
            }
        }
    }
    Ok(())
}

// Which call was refused, the steps to the two items that have no common lower
// bound, and the path from there. A failed allocation says nothing of the call.
fn push_refusal(
    text: &mut String,
    name: &str,
    refusal: &AggregateAllError,
) -> Result<(), CompositionFailure> {
    let at = refusal.at;
    if matches!(&refusal.error, AggregateError::Memory) {
        return Err(CompositionFailure::Memory);
    }
    write!(text, "  call {at}, {name}, isn't merged: ")?;
    match &refusal.error {
        AggregateError::Mismatch { frames, error } => {
            for frame in frames {
                write!(text, "{frame} / ")?;
            }
            let path = error.path();
            writeln!(text, "{path}")?;
        }
        error => writeln!(text, "{error}")?,
    }
    Ok(())
}

// A merged import, and the names of what it exports.
fn push_import(
    text: &mut String,
    types: &Types,
    name: &str,
    kind: ItemKind,
) -> Result<(), CompositionFailure> {
    let ItemKind::Instance(id) = kind else {
        return Err(CompositionFailure::Missing);
    };
    if !types.contains(Type::Interface(id)) {
        return Err(CompositionFailure::Missing);
    }
    write!(text, "  merged import {name} exports:")?;
    for export in types[id].exports.keys() {
        write!(text, " {export}")?;
    }
    text.push_str("\n")?;
    Ok(())
}

// Of each name that a component imports, the merged import to which it leads,
// if no other component gives it.
fn push_served(
    alloc: Global,
    text: &mut String,
    merged: &TypeAggregator,
    component: &Component,
) -> Result<(), CompositionFailure> {
    let to = component.name;
    for (import, wanted) in component.imports() {
        let name = merged.canonical_import_name(import);
        if let Some(given) = import_named(merged, name) {
            write!(text, "  {to} imports {import}, merged into {name}: ")?;
            push_answer(
                alloc,
                text,
                &given,
                merged.types(),
                wanted,
                &component.types,
            )?;
        }
    }
    Ok(())
}
