//! Whether a path can lead to two interfaces or worlds.

ghost use Rattle.std.specs.Prelude.{◌≡◌, ◌++◌, ℕ, Contains, IfOk, IsTrue, OnOk, Some, slice_get, string_bytes};
ghost use Rattle.indexmap.specs.IndexMap.{get_by_text};
ghost use Rattle.wac_model.specs.Text.{Text};
ghost use Rattle.wac_wit_syntax.specs.declared.tree.TopItem.TheVariants.{Use};
ghost use Rattle.wac_wit_syntax.specs.declared.tree.TopUse.{TopUse as Used};
ghost use Rattle.wac_wit_validation_names.specs.Ambiguity.{GiveNamesOnce, HasFreeUses, IsFreeUse, KeepsName, KeepsNoted, NotesItems, NotesScopes, item_identifier, item_use_name};
ghost use Rattle.wac_wit_scopes.specs.WitSources.{ident_text, interface_identifier, package_id, version_part, version_text};
ghost use Rattle.wac_wit_scopes.specs.declared.scopes.ScopeItems.{ScopeItems as Scopes};

use super::places::ItemPlace;
use indexmap::IndexMap;
use std::alloc::{AllocError, Global};
use wac_wit_scopes::{ScopeItems, used_name};
use wac_wit_syntax::{Gate, Ident, PackageName, TopItem, TopUse};

/// Whether each package gives a name to one interface or world alone, and each file's `use` gives
/// one that nothing else has there.
pub fn give_names_once(alloc: Global, scopes: &[ScopeItems<'_>]) -> Result<bool, AllocError>
    ensures { IfOk result (λ is. IsTrue is → GiveNamesOnce scopes.now) }
{
    let mut noted = IndexMap::new(alloc);
    if !note_scopes(alloc, &mut noted, scopes)? {
        return Ok(false);
    }
    have_free_uses(alloc, &noted, scopes)
}

// NotesItems the interfaces and worlds of all scopes, and says whether none was there already.
fn note_scopes(
    alloc: Global,
    noted: &mut IndexMap<String, ItemPlace>,
    scopes: &[ScopeItems<'_>],
) -> Result<bool, AllocError>
    ensures { IfOk result (λ is. IsTrue is → NotesScopes (get_by_text noted.new) scopes.now) }
{
    for (index, scope) in scopes.iter().enumerate() {
        if !note_items(alloc, noted, index, scope)? {
            return Ok(false);
        }
    }
    Ok(true)
}

fn note_items(
    alloc: Global,
    noted: &mut IndexMap<String, ItemPlace>,
    index: usize,
    scope: &ScopeItems<'_>,
) -> Result<bool, AllocError>
    ensures grows { IfOk result (λ is. IsTrue is → KeepsNoted (get_by_text noted.old) (get_by_text noted.new)) }
    ensures notes { IfOk result (λ is. IsTrue is → NotesItems (get_by_text noted.new) (item_identifier (package_id scope.now.package.now)) index scope.now.items.now) }
{
    for (item, of) in scope.items.iter().enumerate() {
        let place = ItemPlace { scope: index, item };
        if !note_item(alloc, noted, scope.package, of, place)? {
            return Ok(false);
        }
    }
    Ok(true)
}

// NotesItems an interface or a world, and says whether none of its name was there already.
fn note_item(
    alloc: Global,
    noted: &mut IndexMap<String, ItemPlace>,
    package: &PackageName,
    item: &TopItem,
    place: ItemPlace,
) -> Result<bool, AllocError>
    ensures grows { IfOk result (λ is. IsTrue is → KeepsNoted (get_by_text noted.old) (get_by_text noted.new)) }
    ensures notes { IfOk result (λ is. IsTrue is → (k : Text) → item_identifier (package_id «package».now) item.now ≡ Some k → get_by_text noted.new k ≡ Some place) }
{
    match item {
        TopItem::Interface(decl) => note_name(alloc, noted, package, &decl.name, place),
        TopItem::World(decl) => note_name(alloc, noted, package, &decl.name, place),
        TopItem::Use(_) => Ok(true),
    }
}

fn note_name(
    alloc: Global,
    noted: &mut IndexMap<String, ItemPlace>,
    package: &PackageName,
    name: &Ident,
    place: ItemPlace,
) -> Result<bool, AllocError>
    ensures grows { IfOk result (λ is. IsTrue is → KeepsNoted (get_by_text noted.old) (get_by_text noted.new)) }
    ensures notes { IfOk result (λ is. IsTrue is → get_by_text noted.new (interface_identifier (package_id «package».now) (ident_text name.now)) ≡ Some place) }
{
    let key = identifier_of(alloc, package, name)?;
    note(noted, key, place)
}

/// Notes what a key stands for, and says whether it stood for nothing.
pub(crate) fn note<P: Copy>(
    noted: &mut IndexMap<String, P>,
    key: String,
    place: P,
) -> Result<bool, AllocError>
    ensures grows { IfOk result (λ is. IsTrue is → KeepsNoted (get_by_text noted.old) (get_by_text noted.new)) }
    ensures notes { IfOk result (λ is. IsTrue is → get_by_text noted.new (string_bytes key) ≡ Some place) }
{
    Ok(noted.insert(key, place)?.is_none())
}

// The identifier of an interface or a world, as `wasi:http/types@0.2.0`.
fn identifier_of(alloc: Global, package: &PackageName, name: &Ident) -> Result<String, AllocError>
    ensures { IfOk result (λ t. string_bytes t ≡ interface_identifier (package_id «package».now) (ident_text name.now)) }
{
    let mut text = String::from_str(alloc, &package.namespace.name)?;
    text.push_str(":")?;
    text.push_str(&package.name.name)?;
    text.push_str("/")?;
    text.push_str(&name.name)?;
    push_version(&mut text, &package.version)?;
    Ok(text)
}

fn push_version(text: &mut String, version: &Option<Gate>) -> Result<(), AllocError>
    ensures { OnOk result (string_bytes text.new ≡ string_bytes text.old ++ version_part (version_text version.now)) }
{
    let Some(version) = version else {
        return Ok(());
    };
    text.push_str("@")?;
    text.push_str(&version.text)?;
    Ok(())
}

// Whether the uses of each scope give names that nothing else has there.
fn have_free_uses(
    alloc: Global,
    noted: &IndexMap<String, ItemPlace>,
    scopes: &[ScopeItems<'_>],
) -> Result<bool, AllocError>
    ensures { IfOk result (λ is. IsTrue is → (i : ℕ) (w : Scopes) → slice_get scopes.now i ≡ Some w → HasFreeUses (get_by_text noted.now) w) }
{
    for (index, scope) in scopes.iter().enumerate() {
        if !has_free_uses(alloc, noted, index, scope)? {
            return Ok(false);
        }
    }
    Ok(true)
}

fn has_free_uses(
    alloc: Global,
    noted: &IndexMap<String, ItemPlace>,
    index: usize,
    scope: &ScopeItems<'_>,
) -> Result<bool, AllocError>
    ensures { IfOk result (λ is. IsTrue is → HasFreeUses (get_by_text noted.now) scope.now) }
{
    let mut uses = IndexMap::new(alloc);
    if !note_uses(&mut uses, index, scope.items)? {
        return Ok(false);
    }
    are_free(alloc, noted, scope.package, scope.items)
}

// NotesItems the uses of a scope by the names that they give, and says whether these differ.
fn note_uses(
    uses: &mut IndexMap<String, ItemPlace>,
    index: usize,
    items: &[TopItem],
) -> Result<bool, AllocError>
    ensures { IfOk result (λ is. IsTrue is → NotesItems (get_by_text uses.new) item_use_name index items.now) }
{
    for (item, of) in items.iter().enumerate() {
        let place = ItemPlace { scope: index, item };
        if !note_use(uses, of, place)? {
            return Ok(false);
        }
    }
    Ok(true)
}

fn note_use(
    uses: &mut IndexMap<String, ItemPlace>,
    item: &TopItem,
    place: ItemPlace,
) -> Result<bool, AllocError>
    ensures grows { IfOk result (λ is. IsTrue is → KeepsNoted (get_by_text uses.old) (get_by_text uses.new)) }
    ensures notes { IfOk result (λ is. IsTrue is → (k : Text) → item_use_name item.now ≡ Some k → get_by_text uses.new k ≡ Some place) }
{
    match item {
        TopItem::Use(used) => note_given(uses, used_name(used), place),
        _ => Ok(true),
    }
}

/// Notes a name, and says whether it was new.
pub(crate) fn note_given(
    uses: &mut IndexMap<String, ItemPlace>,
    name: &Ident,
    place: ItemPlace,
) -> Result<bool, AllocError>
    ensures grows { IfOk result (λ is. IsTrue is → KeepsNoted (get_by_text uses.old) (get_by_text uses.new)) }
    ensures notes { IfOk result (λ is. IsTrue is → get_by_text uses.new (ident_text name.now) ≡ Some place) }
{
    let key = name.name.clone()?;
    note(uses, key, place)
}

// Whether the uses among items give names that nothing else has in their package.
fn are_free(
    alloc: Global,
    noted: &IndexMap<String, ItemPlace>,
    package: &PackageName,
    items: &[TopItem],
) -> Result<bool, AllocError>
    ensures { IfOk result (λ is. IsTrue is → (u : Used) → Contains items.now (Use u) → IsFreeUse (get_by_text noted.now) (package_id «package».now) u) }
{
    for item in items {
        if !is_free(alloc, noted, package, item)? {
            return Ok(false);
        }
    }
    Ok(true)
}

fn is_free(
    alloc: Global,
    noted: &IndexMap<String, ItemPlace>,
    package: &PackageName,
    item: &TopItem,
) -> Result<bool, AllocError>
    ensures { IfOk result (λ is. IsTrue is → (u : Used) → item.now ≡ Use u → IsFreeUse (get_by_text noted.now) (package_id «package».now) u) }
{
    match item {
        TopItem::Use(used) => is_free_use(alloc, noted, package, used),
        _ => Ok(true),
    }
}

fn is_free_use(
    alloc: Global,
    noted: &IndexMap<String, ItemPlace>,
    package: &PackageName,
    used: &TopUse,
) -> Result<bool, AllocError>
    ensures { IfOk result (λ is. IsTrue is → IsFreeUse (get_by_text noted.now) (package_id «package».now) used.now) }
{
    if keeps_name(used) {
        return Ok(true);
    }
    let key = identifier_of(alloc, package, used_name(used))?;
    Ok(noted.get(key.as_str()).is_none())
}

// Whether a `use` gives the name that something has in its own package.
fn keeps_name(used: &TopUse) -> bool
    ensures { IsTrue result → KeepsName used.now }
{
    used.path.package.is_none() && used_name(used).name == used.path.name.name
}
