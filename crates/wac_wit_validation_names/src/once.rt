//! Whether the names in interfaces are given once.

ghost use Rattle.std.specs.Prelude.{Contains, IfOk, IsTrue, Some};
ghost use Rattle.indexmap.specs.IndexMap.{get_by_text};
ghost use Rattle.wac_wit_validation_names.specs.Ambiguity.{KeepsNoted};
ghost use Rattle.wac_wit_validation_names.specs.GivenNames.{GivesNewName, HoldsWith};
ghost use Rattle.wac_wit_validation_names.specs.Once.{GivesInner, GivesInside, InsideGivesOnce, ItemGivesOnce, ItemsGiveOnce};
ghost use Rattle.wac_wit_scopes.specs.WitSources.{IsEnabled, ident_text};
ghost use Rattle.wac_wit_scopes.specs.declared.scopes.ScopeItems.{ScopeItems as Scopes};

use super::given::{GivenNames, NamePlace, give_name, give_type, give_use, is_enabled};
use indexmap::IndexMap;
use std::alloc::{AllocError, Global};
use wac_wit_names::Features;
use wac_wit_scopes::ScopeItems;
use wac_wit_syntax::{FuncItem, InterfaceDecl, InterfaceItem, TopItem};

/// Whether each interface that is there gives each name once.
pub fn all_give_once(
    alloc: Global,
    features: &Features<'_>,
    scopes: &[ScopeItems<'_>],
) -> Result<bool, AllocError>
    ensures { IfOk result (λ is. IsTrue is → (w : Scopes) → Contains scopes.now w → ItemsGiveOnce features.now w.items.now) }
{
    for scope in scopes {
        if !items_give_once(alloc, features, scope.items)? {
            return Ok(false);
        }
    }
    Ok(true)
}

fn items_give_once(
    alloc: Global,
    features: &Features<'_>,
    items: &[TopItem],
) -> Result<bool, AllocError>
    ensures { IfOk result (λ is. IsTrue is → ItemsGiveOnce features.now items.now) }
{
    for item in items {
        if !item_gives_once(alloc, features, item)? {
            return Ok(false);
        }
    }
    Ok(true)
}

fn item_gives_once(
    alloc: Global,
    features: &Features<'_>,
    item: &TopItem,
) -> Result<bool, AllocError>
    ensures { IfOk result (λ is. IsTrue is → ItemGivesOnce features.now item.now) }
{
    match item {
        TopItem::Interface(decl) => interface_gives_once(alloc, features, decl),
        _ => Ok(true),
    }
}

fn interface_gives_once(
    alloc: Global,
    features: &Features<'_>,
    decl: &InterfaceDecl,
) -> Result<bool, AllocError>
    ensures { IfOk result (λ is. IsTrue is → HoldsWith features.now (λ of. IsEnabled of decl.now.gates → InsideGivesOnce of decl.now.items.items)) }
{
    if !is_enabled(features, &decl.gates) {
        return Ok(true);
    }
    gives_once(alloc, features, &decl.items)
}

/// Whether the items of an interface give each name once.
pub(crate) fn gives_once(
    alloc: Global,
    features: &Features<'_>,
    items: &[InterfaceItem],
) -> Result<bool, AllocError>
    ensures { IfOk result (λ is. IsTrue is → HoldsWith features.now (λ of. InsideGivesOnce of items.now)) }
{
    let mut given = IndexMap::new(alloc);
    give_inside(features, &mut given, items)
}

fn give_inside(
    features: &Features<'_>,
    given: &mut GivenNames,
    items: &[InterfaceItem],
) -> Result<bool, AllocError>
    ensures { IfOk result (λ is. IsTrue is → HoldsWith features.now (λ of. GivesInside of (get_by_text given.new) items.now)) }
{
    for (index, item) in items.iter().enumerate() {
        let place = NamePlace {
            layer: 0,
            item: index,
            part: 0,
        };
        if !give_inner(features, given, place, item)? {
            return Ok(false);
        }
    }
    Ok(true)
}

fn give_inner(
    features: &Features<'_>,
    given: &mut GivenNames,
    place: NamePlace,
    item: &InterfaceItem,
) -> Result<bool, AllocError>
    ensures grows { IfOk result (λ is. IsTrue is → KeepsNoted (get_by_text given.old) (get_by_text given.new)) }
    ensures gives { IfOk result (λ is. IsTrue is → HoldsWith features.now (λ of. GivesInner of (get_by_text given.new) place item.now)) }
{
    match item {
        InterfaceItem::Type(it) => give_type(features, given, None, place, it),
        InterfaceItem::Use(it) => give_use(features, given, None, place, it),
        InterfaceItem::Func(it) => give_func(features, given, place, it),
    }
}

fn give_func(
    features: &Features<'_>,
    given: &mut GivenNames,
    place: NamePlace,
    item: &FuncItem,
) -> Result<bool, AllocError>
    ensures grows { IfOk result (λ is. IsTrue is → KeepsNoted (get_by_text given.old) (get_by_text given.new)) }
    ensures gives { IfOk result (λ is. IsTrue is → HoldsWith features.now (λ of. IsEnabled of item.now.gates → GivesNewName (get_by_text given.new) (λ n. Some n) (ident_text item.now.name) place)) }
{
    if !is_enabled(features, &item.gates) {
        return Ok(true);
    }
    give_name(given, None, place, &item.name)
}
