//! What remains to be imported by the components of a graph, and the
//! imports that it is merged into.

ghost use Rattle.std.specs.Prelude.{◌≡◌, [], ◌∷◌, ◌++◌, Some, IfOk, OnOk};
ghost use Rattle.wac_types.specs.HandedIn.{handed_in};
ghost use Rattle.wac_composition.specs.Calls.{AreCallsOf, component_types};

use super::component::Component;
use super::failure::CompositionFailure;
use super::graph::Graph;
use std::alloc::{AllocError, Global};
use wac_types::{Call, ItemKind, TypeAggregator, Types, are_semver_compatible};

// Whether a component gives another what it imports: exports something on the track of that name.
fn is_given(
    alloc: Global,
    giver: Option<&Component>,
    import: &str,
) -> Result<bool, CompositionFailure> {
    let Some(giver) = giver else {
        return Ok(false);
    };
    for export in giver.exports().keys() {
        if are_semver_compatible(alloc, export, import)? {
            return Ok(true);
        }
    }
    Ok(false)
}

// Puts what a component imports and another doesn't give it last.
fn push_remaining<'a>(
    alloc: Global,
    calls: &mut Vec<Call<'a>>,
    graph: &Graph,
    component: &'a Component,
    giver: Option<&Component>,
) -> Result<(), CompositionFailure>
    requires component { component_types graph.now component.now.types.number ≡ Some component.now.types }
    requires calls { AreCallsOf graph.now (handed_in calls.old.items) }
    ensures { OnOk result (AreCallsOf graph.now (handed_in calls.new.items)) }
{
    let types = &component.types;
    for (name, kind) in component.imports() {
        if !types.contains_item(*kind) {
            return Err(CompositionFailure::Missing);
        }
        if !is_given(alloc, giver, name)? {
            push_call(calls, name, types, *kind)?;
        }
    }
    Ok(())
}

fn push_call<'a>(
    calls: &mut Vec<Call<'a>>,
    name: &'a str,
    types: &'a Types,
    kind: ItemKind,
) -> Result<(), AllocError>
    ensures { OnOk result (handed_in calls.new.items ≡ handed_in calls.old.items ++ (record { name = name.now; types = types.now; kind = kind }) ∷ []) }
{
    match calls.push(Call { name, types, kind }) {
        Ok(()) => Ok(()),
        Err(_) => Err(AllocError),
    }
}

/// What remains to be imported by the components of a graph.
pub(crate) fn remaining(alloc: Global, graph: &Graph) -> Result<Vec<Call<'_>>, CompositionFailure>
    ensures { IfOk result (λ calls. AreCallsOf graph.now (handed_in calls.items)) }
{
    let mut calls = Vec::new(alloc);
    let (handler, client) = (&graph.handler, &graph.client);
    push_remaining(alloc, &mut calls, graph, &graph.middleware, Some(handler))?;
    push_remaining(alloc, &mut calls, graph, handler, Some(client))?;
    push_remaining(alloc, &mut calls, graph, client, None)?;
    Ok(calls)
}

/// The merged import of this name.
pub(crate) fn import_named(merged: &TypeAggregator, name: &str) -> Option<ItemKind> {
    for (import, kind) in merged.imports() {
        if import == name {
            return Some(kind);
        }
    }
    None
}
