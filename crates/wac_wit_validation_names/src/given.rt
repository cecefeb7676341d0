//! The names that items of interfaces and worlds give, each with its place, and whether each is new.

ghost use Rattle.std.specs.Prelude.{◌≡◌, ◌↔◌, IfOk, IsTrue, string_bytes};
ghost use Rattle.indexmap.specs.IndexMap.{get_by_text};
ghost use Rattle.wac_wit_scopes.specs.WitSources.{IsEnabled, ident_text};
ghost use Rattle.wac_wit_validation_names.specs.Ambiguity.{KeepsNoted};
ghost use Rattle.wac_wit_validation_names.specs.GivenNames.{GivesFuncs, GivesMethodAt, GivesMethods, GivesNewName, GivesTypeItem, GivesUseItem, GivesUsed, HoldsWith, IsGivenAt};
ghost use Rattle.wac_wit_validation_types.specs.Reading.{name_by};

use super::ambiguity::note;
use indexmap::IndexMap;
use std::alloc::AllocError;
use wac_wit_names::Features;
use wac_wit_syntax::{Gates, Ident, Method, Rename, TypeDef, TypeItem, UseItem};
use wac_wit_validation_types::{NewNames, is_plain, local_name, method_text, named_by};

/// Where a name is given: the index of a layer, where there are some, that of an item there, and one
/// for each name that the item gives.
#[derive(Clone, Copy)]
pub struct NamePlace {
    /// The index of the layer.
    pub layer: usize,
    /// That of the item there.
    pub item: usize,
    /// That of the name.
    pub part: usize,
}

/// Names, each with the place that gives it.
pub(crate) type GivenNames = IndexMap<String, NamePlace>;

impl NamePlace {
    // That of another name of the item.
    fn at(self, part: usize) -> NamePlace
        ensures { result ≡ record self { part = part } }
    {
        NamePlace {
            layer: self.layer,
            item: self.item,
            part,
        }
    }
}

/// Notes the names that a `use` gives, if it is there, and says whether each is new.
pub(crate) fn give_use(
    features: &Features<'_>,
    given: &mut GivenNames,
    names: Option<&NewNames<'_>>,
    place: NamePlace,
    item: &UseItem,
) -> Result<bool, AllocError>
    ensures grows { IfOk result (λ is. IsTrue is → KeepsNoted (get_by_text given.old) (get_by_text given.new)) }
    ensures gives { IfOk result (λ is. IsTrue is → HoldsWith features.now (λ of. GivesUseItem of (get_by_text given.new) (name_by names.entry) place item.now)) }
{
    if !is_enabled(features, &item.gates) {
        return Ok(true);
    }
    give_renames(given, names, place, &item.names)
}

fn give_renames(
    given: &mut GivenNames,
    names: Option<&NewNames<'_>>,
    place: NamePlace,
    renames: &[Rename],
) -> Result<bool, AllocError>
    ensures grows { IfOk result (λ is. IsTrue is → KeepsNoted (get_by_text given.old) (get_by_text given.new)) }
    ensures gives { IfOk result (λ is. IsTrue is → GivesUsed (get_by_text given.new) (name_by names.entry) place renames.now) }
{
    for (index, rename) in renames.iter().enumerate() {
        if !give_name(given, names, place.at(index), local_name(rename))? {
            return Ok(false);
        }
    }
    Ok(true)
}

/// Notes the names of a type, and of the functions of a resource, if they are there, and says whether
/// each is new.
pub(crate) fn give_type(
    features: &Features<'_>,
    given: &mut GivenNames,
    names: Option<&NewNames<'_>>,
    place: NamePlace,
    item: &TypeItem,
) -> Result<bool, AllocError>
    ensures grows { IfOk result (λ is. IsTrue is → KeepsNoted (get_by_text given.old) (get_by_text given.new)) }
    ensures gives { IfOk result (λ is. IsTrue is → HoldsWith features.now (λ of. GivesTypeItem of (get_by_text given.new) (name_by names.entry) place item.now)) }
{
    if !is_enabled(features, &item.gates) {
        return Ok(true);
    }
    if !give_name(given, names, place, &item.name)? {
        return Ok(false);
    }
    give_functions(features, given, names, place, item)
}

fn give_functions(
    features: &Features<'_>,
    given: &mut GivenNames,
    names: Option<&NewNames<'_>>,
    place: NamePlace,
    item: &TypeItem,
) -> Result<bool, AllocError>
    ensures grows { IfOk result (λ is. IsTrue is → KeepsNoted (get_by_text given.old) (get_by_text given.new)) }
    ensures gives { IfOk result (λ is. IsTrue is → HoldsWith features.now (λ of. GivesFuncs of (get_by_text given.new) (name_by names.entry) place item.now)) }
{
    let TypeDef::Resource(methods) = &item.def else {
        return Ok(true);
    };
    match named_by(names, &item.name) {
        Some(resource) => give_methods(features, given, resource, place, methods),
        None => Ok(false),
    }
}

fn give_methods(
    features: &Features<'_>,
    given: &mut GivenNames,
    resource: &Ident,
    place: NamePlace,
    methods: &[Method],
) -> Result<bool, AllocError>
    ensures grows { IfOk result (λ is. IsTrue is → KeepsNoted (get_by_text given.old) (get_by_text given.new)) }
    ensures gives { IfOk result (λ is. IsTrue is → HoldsWith features.now (λ of. GivesMethods of (get_by_text given.new) (ident_text resource.now) place methods.now)) }
{
    for (index, method) in methods.iter().enumerate() {
        if !give_method(features, given, resource, place.at(index + 1), method)? {
            return Ok(false);
        }
    }
    Ok(true)
}

fn give_method(
    features: &Features<'_>,
    given: &mut GivenNames,
    resource: &Ident,
    place: NamePlace,
    method: &Method,
) -> Result<bool, AllocError>
    ensures grows { IfOk result (λ is. IsTrue is → KeepsNoted (get_by_text given.old) (get_by_text given.new)) }
    ensures gives { IfOk result (λ is. IsTrue is → HoldsWith features.now (λ of. GivesMethodAt of (get_by_text given.new) (ident_text resource.now) place method.now)) }
{
    if !is_enabled(features, &method.gates) {
        return Ok(true);
    }
    let key = method_text(*given.allocator(), &resource.name, method)?;
    give(given, key, place)
}

/// Notes what a name becomes, and says whether it is new.
pub(crate) fn give_name(
    given: &mut GivenNames,
    names: Option<&NewNames<'_>>,
    place: NamePlace,
    name: &Ident,
) -> Result<bool, AllocError>
    ensures grows { IfOk result (λ is. IsTrue is → KeepsNoted (get_by_text given.old) (get_by_text given.new)) }
    ensures gives { IfOk result (λ is. IsTrue is → GivesNewName (get_by_text given.new) (name_by names.entry) (ident_text name.now) place) }
{
    match named_by(names, name) {
        Some(new) => give(given, new.name.clone()?, place),
        None => Ok(false),
    }
}

// Notes a name, and says whether it is new, and no interface's identifier.
fn give(given: &mut GivenNames, name: String, place: NamePlace) -> Result<bool, AllocError>
    ensures grows { IfOk result (λ is. IsTrue is → KeepsNoted (get_by_text given.old) (get_by_text given.new)) }
    ensures gives { IfOk result (λ is. IsTrue is → IsGivenAt (get_by_text given.new) (string_bytes name) place) }
{
    if !is_plain(&name) {
        return Ok(false);
    }
    note(given, name, place)
}

/// Whether an item is there.
pub fn is_enabled(features: &Features<'_>, gates: &Gates) -> bool
    ensures { HoldsWith features.now (λ of. IsTrue result ↔ IsEnabled of gates.now) }
{
    match &gates.unstable {
        Some(feature) => features.has(&feature.text),
        None => true,
    }
}
