//! What worlds import, as it is handed to an aggregator.

ghost use Rattle.std.specs.Prelude.{◌≡◌, ◌++◌, [], ◌∷◌, ◌+◌, IsTrue, OnOk};
ghost use Rattle.wac_types.specs.HandedIn.{handed_in};
ghost use Rattle.wac_wit_answers.specs.Calls.{AreHandedFrom};

use super::failure::Failure;
use super::merging::Source;
use indexmap::IndexMap;
use std::alloc::{AllocError, Global};
use wac_types::{Call, ItemKind, TypeAggregator, Types};
use wac_wit_entries::world;

/// What was handed in.
#[derive(Clone, Copy)]
pub(crate) struct Handed<'h> {
    pub(crate) sources: &'h [Source],
    /// The imports of all worlds in order.
    pub(crate) calls: &'h [Call<'h>],
    /// The index of the world of each.
    pub(crate) owners: &'h [usize],
}

impl<'h> Handed<'h> {
    /// The world that an import is of.
    pub(crate) fn source_of(&self, call: usize) -> Option<&'h Source> {
        self.sources.get(*self.owners.get(call)?)
    }
}

/// Puts what a world imports last.
pub(crate) fn push_imports<'s>(
    calls: &mut Vec<Call<'s>>,
    sources: &'s [Source],
    index: usize,
) -> Result<(), Failure>
    requires calls { AreHandedFrom sources.now (handed_in calls.old.items) }
    ensures { OnOk result (AreHandedFrom sources.now (handed_in calls.new.items)) }
{
    let Some(source) = sources.get(index) else {
        return Err(Failure::Missing);
    };
    let types = &source.types;
    let Some(of) = world(types, source.world) else {
        return Err(Failure::Missing);
    };
    if !is_number_of(index, types.number()) {
        return Err(Failure::Missing);
    }
    for (name, kind) in &of.imports {
        if !types.contains_item(*kind) {
            return Err(Failure::Missing);
        }
        push_call(calls, name, types, *kind)?;
    }
    Ok(())
}

// Whether the collection of the world at an index has this number.
fn is_number_of(index: usize, number: u64) -> bool
    ensures { IsTrue result → number ≡ index + 1 }
{
    match (u64::try_from(index), number.checked_sub(1)) {
        (Ok(index), Some(before)) => index == before,
        _ => false,
    }
}

fn push_call<'s>(
    calls: &mut Vec<Call<'s>>,
    name: &'s str,
    types: &'s Types,
    kind: ItemKind,
) -> Result<(), AllocError>
    ensures { OnOk result (handed_in calls.new.items ≡ handed_in calls.old.items ++ (record { name = name.now; types = types.now; kind = kind }) ∷ []) }
{
    match calls.push(Call { name, types, kind }) {
        Ok(()) => Ok(()),
        Err(_) => Err(AllocError),
    }
}

/// Puts the index of a world last, up to this count.
pub(crate) fn push_owner(
    owners: &mut Vec<usize>,
    index: usize,
    count: usize,
) -> Result<(), AllocError> {
    for _ in owners.len()..count {
        owners.push(index)?;
    }
    Ok(())
}

/// The indices of the calls whose names lead to each merged import, by its name.
pub(crate) type Leading = IndexMap<String, Vec<usize>>;

/// The calls that lead to each import.
pub(crate) fn leading_of(
    alloc: Global,
    calls: &[Call<'_>],
    merged: &TypeAggregator,
) -> Result<Leading, AllocError> {
    let mut leading = IndexMap::new(alloc);
    for (name, _) in merged.imports() {
        leading.insert(String::from_str(alloc, name)?, Vec::new(alloc))?;
    }
    for (index, call) in calls.iter().enumerate() {
        push_index(&mut leading, merged.canonical_import_name(call.name), index)?;
    }
    Ok(leading)
}

// Puts an index last among those of a name that has some.
fn push_index(leading: &mut Leading, name: &str, index: usize) -> Result<(), AllocError> {
    match leading.get_mut(name) {
        Some(calls) => calls.push(index)?,
        None => {}
    }
    Ok(())
}

/// The calls that lead to an import.
pub(crate) fn calls_to<'l>(leading: &'l Leading, import: &str) -> &'l [usize] {
    match leading.get(import) {
        Some(calls) => calls.as_slice(),
        None => &[],
    }
}
