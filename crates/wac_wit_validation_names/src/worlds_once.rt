//! Whether a world, with those that come into it, gives each name once.

ghost use Rattle.std.specs.Prelude.{IfOk, IsTrue};
ghost use Rattle.indexmap.specs.IndexMap.{get_by_text};
ghost use Rattle.wac_component.specs.declared.worlds.ExternKind.{ExternKind as KindOf};
ghost use Rattle.wac_wit_scopes.specs.WitSources.{ident_text};
ghost use Rattle.wac_wit_validation_names.specs.Ambiguity.{KeepsNoted};
ghost use Rattle.wac_wit_validation_names.specs.GivenNames.{GivesNewName, HoldsWith};
ghost use Rattle.wac_wit_validation_names.specs.Once.{InsideGivesOnce};
ghost use Rattle.wac_wit_validation_types.specs.Reading.{new_name};
ghost use Rattle.wac_wit_validation_names.specs.WorldOnce.{GiveOnce, GivesExtern, GivesItem, GivesItems, GivesLayer, GivesLayers};

use super::given::{GivenNames, NamePlace, give_name, give_type, give_use, is_enabled};
use super::layers::Layer;
use super::once::gives_once;
use indexmap::IndexMap;
use std::alloc::{AllocError, Global};
use wac_component::ExternKind;
use wac_wit_names::Features;
use wac_wit_syntax::{Extern, ExternItem, Ident, InterfaceItem, WorldItem};
use wac_wit_validation_types::NewNames;

/// Whether the layers of a world give each name of its imports once, and each of its exports, and none
/// that is an interface's identifier.
pub fn layers_give_once(
    alloc: Global,
    features: &Features<'_>,
    layers: &[Layer<'_>],
) -> Result<bool, AllocError>
    ensures { IfOk result (λ is. IsTrue is → (k : KindOf) → GiveOnce features.now k layers.now) }
{
    if !give_once(alloc, features, ExternKind::Import, layers)? {
        return Ok(false);
    }
    give_once(alloc, features, ExternKind::Export, layers)
}

fn give_once(
    alloc: Global,
    features: &Features<'_>,
    kind: ExternKind,
    layers: &[Layer<'_>],
) -> Result<bool, AllocError>
    ensures { IfOk result (λ is. IsTrue is → GiveOnce features.now kind layers.now) }
{
    let mut given = IndexMap::new(alloc);
    give_layers(features, &mut given, kind, layers)
}

fn give_layers(
    features: &Features<'_>,
    given: &mut GivenNames,
    kind: ExternKind,
    layers: &[Layer<'_>],
) -> Result<bool, AllocError>
    ensures { IfOk result (λ is. IsTrue is → HoldsWith features.now (λ of. GivesLayers of (get_by_text given.new) kind layers.now)) }
{
    for (index, layer) in layers.iter().enumerate() {
        if !give_layer(features, given, kind, index, layer)? {
            return Ok(false);
        }
    }
    Ok(true)
}

fn give_layer(
    features: &Features<'_>,
    given: &mut GivenNames,
    kind: ExternKind,
    index: usize,
    layer: &Layer<'_>,
) -> Result<bool, AllocError>
    ensures grows { IfOk result (λ is. IsTrue is → KeepsNoted (get_by_text given.old) (get_by_text given.new)) }
    ensures gives { IfOk result (λ is. IsTrue is → HoldsWith features.now (λ of. GivesLayer of (get_by_text given.new) kind index layer.now)) }
{
    give_items(features, given, kind, &layer.names, index, &layer.items)
}

fn give_items(
    features: &Features<'_>,
    given: &mut GivenNames,
    kind: ExternKind,
    names: &NewNames<'_>,
    layer: usize,
    items: &[&WorldItem],
) -> Result<bool, AllocError>
    ensures grows { IfOk result (λ is. IsTrue is → KeepsNoted (get_by_text given.old) (get_by_text given.new)) }
    ensures gives { IfOk result (λ is. IsTrue is → HoldsWith features.now (λ of. GivesItems of (get_by_text given.new) kind names.now layer items.now)) }
{
    for (item, of) in items.iter().enumerate() {
        let place = NamePlace {
            layer,
            item,
            part: 0,
        };
        if !give_item(features, given, kind, names, place, of)? {
            return Ok(false);
        }
    }
    Ok(true)
}

fn give_item(
    features: &Features<'_>,
    given: &mut GivenNames,
    kind: ExternKind,
    names: &NewNames<'_>,
    place: NamePlace,
    item: &WorldItem,
) -> Result<bool, AllocError>
    ensures grows { IfOk result (λ is. IsTrue is → KeepsNoted (get_by_text given.old) (get_by_text given.new)) }
    ensures gives { IfOk result (λ is. IsTrue is → HoldsWith features.now (λ of. GivesItem of (get_by_text given.new) kind names.now place item.now)) }
{
    match (kind, item) {
        (ExternKind::Import, WorldItem::Use(it)) => {
            give_use(features, given, Some(names), place, it)
        }
        (ExternKind::Import, WorldItem::Type(it)) => {
            give_type(features, given, Some(names), place, it)
        }
        (ExternKind::Import, WorldItem::Import(it)) => {
            give_extern(features, given, names, place, it)
        }
        (ExternKind::Export, WorldItem::Export(it)) => {
            give_extern(features, given, names, place, it)
        }
        _ => Ok(true),
    }
}

fn give_extern(
    features: &Features<'_>,
    given: &mut GivenNames,
    names: &NewNames<'_>,
    place: NamePlace,
    item: &ExternItem,
) -> Result<bool, AllocError>
    ensures grows { IfOk result (λ is. IsTrue is → KeepsNoted (get_by_text given.old) (get_by_text given.new)) }
    ensures gives { IfOk result (λ is. IsTrue is → HoldsWith features.now (λ of. GivesExtern of (get_by_text given.new) names.now place item.now)) }
{
    if !is_enabled(features, &item.gates) {
        return Ok(true);
    }
    match &item.what {
        Extern::Func(name, _) => give_name(given, Some(names), place, name),
        Extern::Inline(name, items) => give_inline(features, given, names, place, name, items),
        Extern::Path(_) | Extern::Named(_, _) => Ok(true),
    }
}

fn give_inline(
    features: &Features<'_>,
    given: &mut GivenNames,
    names: &NewNames<'_>,
    place: NamePlace,
    name: &Ident,
    items: &[InterfaceItem],
) -> Result<bool, AllocError>
    ensures grows { IfOk result (λ is. IsTrue is → KeepsNoted (get_by_text given.old) (get_by_text given.new)) }
    ensures name { IfOk result (λ is. IsTrue is → GivesNewName (get_by_text given.new) (new_name names.now) (ident_text name.now) place) }
    ensures items { IfOk result (λ is. IsTrue is → HoldsWith features.now (λ of. InsideGivesOnce of items.now)) }
{
    if !give_name(given, Some(names), place, name)? {
        return Ok(false);
    }
    gives_once(*given.allocator(), features, items)
}
