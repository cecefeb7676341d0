//! What a world exports.

ghost use Rattle.std.specs.Prelude.{◌≡◌, IfOk, IfSome, IsTrue, None, OnOk, Some, string_bytes};
ghost use Rattle.indexmap.specs.IndexMap.{get_by_text};
ghost use Rattle.wac_wit_refusals_sites.specs.Judging.{Judges};
ghost use Rattle.wac_wit_refusals_sites.specs.Leading.{IsPlacedItem};
ghost use Rattle.wac_wit_refusals_worlds.specs.NeededSteps.{AddsExportsOf, AreBrought, AreExports, AreExportsIn, AreGiven, IsExportListed, IsExportedBy, IsExternListed, IsFoundExported, IsFoundUnexported, IsListed, IsNameListed, IsTheExport, IsUnlisted, KeepsListed, ListsExports, ListsWorlds};
ghost use Rattle.wac_wit_scopes.specs.Scopes.{scope_syntax};
ghost use Rattle.wac_wit_scopes.specs.WitSources.{WitSources};

use super::said_twice::says;
use super::worlds::{PlacedWorld, include_there, world_led_to, worlds_within};
use indexmap::IndexMap;
use std::alloc::{AllocError, Global};
use wac_wit_refusals_sites::{Judge, LedTo, id_of, name_of};
use wac_wit_scopes::ScopeItems;
use wac_wit_syntax::{Extern, ExternItem, IncludeItem, Path, WorldItem};

/// An export, and the scope that it stands in.
#[derive(Clone, Copy)]
pub(crate) struct PlacedExport<'j> {
    pub(crate) scope: ScopeItems<'j>,
    pub(crate) item: &'j ExternItem,
}

/// A world, and what it exports.
pub(crate) struct WorldExports<'j> {
    pub(crate) world: PlacedWorld<'j>,
    /// The world, and the worlds that come with what it includes.
    pub(crate) worlds: Vec<PlacedWorld<'j>>,
    // the indices of worlds that export interfaces, by the identifiers of these
    listed: IndexMap<String, usize>,
}

impl Drop for WorldExports<'_> {
    fn drop(self) {
        let WorldExports {
            world: _,
            worlds: _,
            listed: _,
        } = self;
    }
}

/// What a world exports, with what it includes. Nothing is answered where a path leads nowhere,
/// or there is very much.
pub(crate) fn exports_of<'j>(
    judge: &Judge<'j>,
    world: &PlacedWorld<'j>,
) -> Result<Option<WorldExports<'j>>, AllocError>
    ensures of { IfOk result (λ o. IfSome o (λ e. (of : WitSources) → Judges of judge.now → AreExports of e)) }
    ensures world { IfOk result (λ o. IfSome o (λ e. e.world ≡ world.now)) }
{
    let Some(worlds) = worlds_within(judge, world)? else {
        return Ok(None);
    };
    let mut listed = IndexMap::new(judge.alloc);
    if !list_worlds(judge, &mut listed, &worlds)? {
        return Ok(None);
    }
    Ok(Some(WorldExports {
        world: *world,
        worlds,
        listed,
    }))
}

/// The exports that an item of a world gives it.
pub(crate) fn exports_given<'j>(
    judge: &Judge<'j>,
    scope: &ScopeItems<'j>,
    item: &'j WorldItem,
) -> Result<Vec<PlacedExport<'j>>, AllocError>
    ensures { IfOk result (λ xs. (of : WitSources) → Judges of judge.now → AreGiven of (scope_syntax scope.now) item.now xs.items) }
{
    if let Some(include) = include_there(judge, item) {
        return exports_brought(judge, scope, include);
    }
    let mut exports = Vec::new(judge.alloc);
    if let Some(export) = export_there(judge, item) {
        exports.push(PlacedExport {
            scope: *scope,
            item: export,
        })?;
    }
    Ok(exports)
}

// The exports that an `include` brings.
fn exports_brought<'j>(
    judge: &Judge<'j>,
    scope: &ScopeItems<'j>,
    include: &'j IncludeItem,
) -> Result<Vec<PlacedExport<'j>>, AllocError>
    ensures { IfOk result (λ xs. (of : WitSources) → Judges of judge.now → AreBrought of (scope_syntax scope.now) include.now xs.items) }
{
    match world_led_to(judge, scope, &include.path)? {
        Some(world) => exports_within(judge, &world),
        None => Ok(Vec::new(judge.alloc)),
    }
}

// The exports of a world, unless a path leads nowhere, or there are very many worlds.
fn exports_within<'j>(
    judge: &Judge<'j>,
    world: &PlacedWorld<'j>,
) -> Result<Vec<PlacedExport<'j>>, AllocError>
    ensures { IfOk result (λ xs. (of : WitSources) → Judges of judge.now → AreExportsIn of world.now xs.items) }
{
    let mut exports = Vec::new(judge.alloc);
    let Some(worlds) = worlds_within(judge, world)? else {
        return Ok(exports);
    };
    for inner in &worlds {
        push_exports_of(judge, &mut exports, inner)?;
    }
    Ok(exports)
}

// Puts the exports last that stand in a world.
fn push_exports_of<'j>(
    judge: &Judge<'j>,
    exports: &mut Vec<PlacedExport<'j>>,
    world: &PlacedWorld<'j>,
) -> Result<(), AllocError>
    ensures { OnOk result ((of : WitSources) → Judges of judge.now → AddsExportsOf of world.now exports.old.items exports.new.items) }
{
    for item in world.items {
        if let Some(export) = export_there(judge, item) {
            exports.push(PlacedExport {
                scope: world.scope,
                item: export,
            })?;
        }
    }
    Ok(())
}

/// The export that an item of a world is, if it is there.
pub(crate) fn export_there<'i>(judge: &Judge<'_>, item: &'i WorldItem) -> Option<&'i ExternItem>
    ensures { IfSome result (λ x. (of : WitSources) → Judges of judge.now → IsTheExport of item.now x.now) }
{
    match item {
        WorldItem::Export(it) if judge.is_there(&it.gates) => Some(it),
        _ => None,
    }
}

fn list_worlds<'j>(
    judge: &Judge<'j>,
    listed: &mut IndexMap<String, usize>,
    worlds: &[PlacedWorld<'j>],
) -> Result<bool, AllocError>
    ensures { IfOk result (λ is. IsTrue is → (of : WitSources) → Judges of judge.now → ListsWorlds of (get_by_text listed.new) worlds.now) }
{
    for (index, world) in worlds.iter().enumerate() {
        if !list_items(judge, listed, &world.scope, world.items, index)? {
            return Ok(false);
        }
    }
    Ok(true)
}

fn list_items<'j>(
    judge: &Judge<'j>,
    listed: &mut IndexMap<String, usize>,
    scope: &ScopeItems<'j>,
    items: &[WorldItem],
    index: usize,
) -> Result<bool, AllocError>
    ensures keeps { IfOk result (λ is. IsTrue is → KeepsListed (get_by_text listed.old) (get_by_text listed.new)) }
    ensures lists { IfOk result (λ is. IsTrue is → (of : WitSources) → Judges of judge.now → ListsExports of (scope_syntax scope.now) (get_by_text listed.new) items.now) }
{
    for item in items {
        if !list_item(judge, listed, scope, item, index)? {
            return Ok(false);
        }
    }
    Ok(true)
}

fn list_item<'j>(
    judge: &Judge<'j>,
    listed: &mut IndexMap<String, usize>,
    scope: &ScopeItems<'j>,
    item: &WorldItem,
    index: usize,
) -> Result<bool, AllocError>
    ensures keeps { OnOk result (KeepsListed (get_by_text listed.old) (get_by_text listed.new)) }
    ensures lists { IfOk result (λ is. IsTrue is → (of : WitSources) → Judges of judge.now → IsExportListed of (scope_syntax scope.now) (get_by_text listed.new) item.now) }
{
    match item {
        WorldItem::Export(it) => list_extern(judge, listed, scope, it, index),
        _ => Ok(true),
    }
}

fn list_extern<'j>(
    judge: &Judge<'j>,
    listed: &mut IndexMap<String, usize>,
    scope: &ScopeItems<'j>,
    item: &ExternItem,
    index: usize,
) -> Result<bool, AllocError>
    ensures keeps { OnOk result (KeepsListed (get_by_text listed.old) (get_by_text listed.new)) }
    ensures lists { IfOk result (λ is. IsTrue is → (of : WitSources) → Judges of judge.now → IsExternListed of (scope_syntax scope.now) (get_by_text listed.new) item.now) }
{
    if !judge.is_there(&item.gates) {
        return Ok(true);
    }
    match &item.what {
        Extern::Path(path) => list_path(judge, listed, scope, path, index),
        _ => Ok(true),
    }
}

// Lists where a path leads, and says whether it leads anywhere.
fn list_path<'j>(
    judge: &Judge<'j>,
    listed: &mut IndexMap<String, usize>,
    scope: &ScopeItems<'j>,
    path: &Path,
    index: usize,
) -> Result<bool, AllocError>
    ensures keeps { OnOk result (KeepsListed (get_by_text listed.old) (get_by_text listed.new)) }
    ensures lists { IfOk result (λ is. IsTrue is → (of : WitSources) → Judges of judge.now → IsListed of (scope_syntax scope.now) (get_by_text listed.new) path.now) }
{
    match judge.led_to(scope, path)? {
        Some(led) => list(judge.alloc, listed, &led, index),
        None => Ok(false),
    }
}

/// Whether a world exports what was found.
pub(crate) fn is_exported<'j>(
    judge: &Judge<'j>,
    exports: &WorldExports<'j>,
    led: &LedTo<'j>,
) -> Result<bool, AllocError>
    ensures { IfOk result (λ is. IsTrue is → (of : WitSources) → Judges of judge.now → IsPlacedItem judge.now led.now → AreExports of exports.now → IsFoundExported of exports.now led.now) }
{
    let Some(index) = exports.index_of(judge.alloc, led)? else {
        return Ok(false);
    };
    match exports.worlds.get(index) {
        Some(world) => is_exported_by(judge, world, led),
        None => Ok(false),
    }
}

// Whether an item of a world exports what was found.
fn is_exported_by<'j>(
    judge: &Judge<'j>,
    world: &PlacedWorld<'j>,
    led: &LedTo<'j>,
) -> Result<bool, AllocError>
    ensures { IfOk result (λ is. IsTrue is → (of : WitSources) → Judges of judge.now → IsPlacedItem judge.now led.now → IsExportedBy of world.now led.now) }
{
    for item in world.items {
        if says(judge, &world.scope, item, true, led)? {
            return Ok(true);
        }
    }
    Ok(false)
}

/// Whether a world doesn't export what was found.
pub(crate) fn is_not_exported<'j>(
    judge: &Judge<'j>,
    exports: &WorldExports<'j>,
    led: &LedTo<'j>,
) -> Result<bool, AllocError>
    ensures { IfOk result (λ is. IsTrue is → (of : WitSources) → AreExports of exports.now → IsFoundUnexported of exports.now led.now) }
{
    Ok(exports.index_of(judge.alloc, led)?.is_none())
}

impl WorldExports<'_> {
    // The index of a world that may export what was found.
    fn index_of(&self, alloc: Global, led: &LedTo<'_>) -> Result<Option<usize>, AllocError>
        ensures { IfOk result (λ o. o ≡ None → IsUnlisted self.now led.now) }
    {
        match name_of(led.item) {
            Some(name) => {
                let id = id_of(alloc, led.scope.package, name)?;
                Ok(self.listed.get(id.as_str()).copied())
            }
            None => Ok(None),
        }
    }
}

// Lists what was found, and says whether it has a name.
fn list(
    alloc: Global,
    listed: &mut IndexMap<String, usize>,
    led: &LedTo<'_>,
    index: usize,
) -> Result<bool, AllocError>
    ensures keeps { OnOk result (KeepsListed (get_by_text listed.old) (get_by_text listed.new)) }
    ensures lists { IfOk result (λ is. IsTrue is → IsNameListed (get_by_text listed.new) (scope_syntax led.now.scope).package led.now.item.now) }
{
    match name_of(led.item) {
        Some(name) => {
            let id = id_of(alloc, led.scope.package, name)?;
            put(listed, id, index)?;
            Ok(true)
        }
        None => Ok(false),
    }
}

fn put(listed: &mut IndexMap<String, usize>, id: String, index: usize) -> Result<(), AllocError>
    ensures keeps { OnOk result (KeepsListed (get_by_text listed.old) (get_by_text listed.new)) }
    ensures lists { OnOk result (get_by_text listed.new (string_bytes id) ≡ Some index) }
{
    listed.insert(id, index)?;
    Ok(())
}
