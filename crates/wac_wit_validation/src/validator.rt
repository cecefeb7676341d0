//! What is known while interfaces are checked.

ghost use Rattle.std.specs.Prelude.{◌≡◌, ◌↔◌, IfOk, IfSome, IsTrue, None, Some, length, slice_get};
ghost use Rattle.wac_component.specs.Collection.{InterfaceContent};
ghost use Rattle.wac_wit_validation_types.specs.Exports.{AreNamesAt, named_items};
ghost use Rattle.wac_wit_validation.specs.Checking.{IsSettingAt, Knows, LeadsToFound};
ghost use Rattle.wac_wit_validation_types.specs.Denoted.{Setting};
ghost use Rattle.wac_wit_scopes.specs.WitSources.{IsEnabled, WitSources};

use super::marks::WorldMarks;
use indexmap::IndexMap;
use std::alloc::{AllocError, Global};
use wac_component::{ExternKind, Interface, InterfaceId, Type, Types, World, WorldId};
use wac_wit_names::{Catalog, Features, FoundPlace};
use wac_wit_scopes::{ScopeItems, leads};
use wac_wit_syntax::{Gates, Path, TopItem, WorldDecl};
use wac_wit_validation_names::{FoundInterface, ItemPlace, Layer, is_enabled};
use wac_wit_validation_types::NamedTypes;

/// A world that is as it is written.
pub struct FoundWorld<'v> {
    /// Where it is written.
    pub place: ItemPlace,
    /// Its entry.
    pub id: WorldId,
    /// What was found of its imports and exports.
    pub(crate) marks: WorldMarks,
    /// Itself, and the worlds that come into it and give names.
    pub(crate) layers: Vec<Layer<'v>>,
}

impl Drop for FoundWorld<'_> {
    fn drop(self) {
        let FoundWorld {
            place: _,
            id: _,
            marks: _,
            layers: _,
        } = self;
    }
}

/// A world as it is written, with its entry.
#[derive(Clone, Copy)]
pub(crate) struct WorldText<'w> {
    pub(crate) place: ItemPlace,
    pub(crate) decl: &'w WorldDecl,
    pub(crate) entry: &'w World,
}

/// Checks interfaces and worlds.
pub struct Validator<'v> {
    pub(crate) alloc: Global,
    pub(crate) types: &'v Types,
    pub(crate) catalog: &'v Catalog<'v>,
    pub(crate) features: Features<'v>,
    pub(crate) scopes: Vec<ScopeItems<'v>>,
    pub(crate) found: Vec<FoundInterface>,
    // where among these an interface of the catalog stands
    pub(crate) positions: IndexMap<usize, usize>,
    // where among these an entry stands
    pub(crate) by_id: IndexMap<InterfaceId, usize>,
    // the interfaces of the catalog, by their identifiers
    pub(crate) identifiers: IndexMap<&'v str, usize>,
    // where interfaces stand that have other entries among the exports of a world
    pub(crate) exported: IndexMap<usize, usize>,
    // where the worlds are written that the one that is looked at includes, by where their paths
    // begin
    pub(crate) include_places: IndexMap<usize, FoundPlace>,
    pub(crate) worlds: Vec<FoundWorld<'v>>,
    // where among these a world of the catalog stands, and an entry
    pub(crate) world_nodes: IndexMap<usize, usize>,
    pub(crate) world_ids: IndexMap<WorldId, usize>,
}

impl Drop for Validator<'_> {
    fn drop(self) {
        let Validator {
            alloc: _,
            types: _,
            catalog: _,
            features: _,
            scopes: _,
            found: _,
            positions: _,
            by_id: _,
            identifiers: _,
            exported: _,
            include_places: _,
            worlds: _,
            world_nodes: _,
            world_ids: _,
        } = self;
    }
}

impl<'v> Validator<'v> {
    /// Whether an item is there.
    pub(crate) fn is_there(&self, gates: &Gates) -> bool
        ensures { (of : WitSources) → Knows of self.now → IsTrue result ↔ IsEnabled of gates.now }
    {
        is_enabled(&self.features, gates)
    }

    /// The names of an interface that was found to be as it is written, if a path leads to one: of
    /// its entry among the exports of the world that is looked at, if it has one there and they are
    /// wanted.
    pub(crate) fn names_at(
        &self,
        scope: usize,
        path: &Path,
        kind: ExternKind,
    ) -> Result<Option<NamedTypes<'v>>, AllocError>
        ensures types { IfOk result (λ o. IfSome o (λ n. n.types.now ≡ self.now.types.now)) }
        ensures named { IfOk result (λ o. IfSome o (λ n. (s : Setting) → IsSettingAt self.now scope s → AreNamesAt s path.now n)) }
    {
        match self.found_at(scope, path, kind)? {
            Some(found) => Ok(self.names_with(found.id)),
            None => Ok(None),
        }
    }

    /// An interface that was found to be as it is written, if a path leads to it: its entry among
    /// the exports of the world that is looked at, if it has one there and that is wanted.
    pub(crate) fn found_at(
        &self,
        scope: usize,
        path: &Path,
        kind: ExternKind,
    ) -> Result<Option<FoundInterface>, AllocError>
        ensures { IfOk result (λ o. IfSome o (λ f. (s : Setting) → IsSettingAt self.now scope s → LeadsToFound self.now s path.now f)) }
    {
        match self.catalog.find_place(scope, path)? {
            Some(place) => Ok(self.found_from(scope, path, &place, kind)),
            None => Ok(None),
        }
    }

    // The interface at a place, if the path leads to it.
    fn found_from(
        &self,
        scope: usize,
        path: &Path,
        place: &FoundPlace,
        kind: ExternKind,
    ) -> Option<FoundInterface>
        ensures { IfSome result (λ f. (s : Setting) → IsSettingAt self.now scope s → LeadsToFound self.now s path.now f) }
    {
        let from = self.scopes.get(scope)?;
        let found = self.found.get(*self.position_of(place.node, kind)?)?;
        let to = self.scopes.get(found.place.scope)?;
        let TopItem::Interface(decl) = to.items.get(found.place.item)? else {
            return None;
        };
        if !leads(from, path, place.via, to, &decl.name) {
            return None;
        }
        Some(*found)
    }

    // Where an interface of the catalog stands among those that were taken in.
    fn position_of(&self, node: usize, kind: ExternKind) -> Option<&usize> {
        match (kind, self.exported.get(&node)) {
            (ExternKind::Export, Some(position)) => Some(position),
            _ => self.positions.get(&node),
        }
    }

    // The names of the entry of an interface.
    fn names_with(&self, id: InterfaceId) -> Option<NamedTypes<'v>>
        ensures types { IfSome result (λ n. n.types.now ≡ self.now.types.now) }
        ensures entry { IfSome result (λ n. (e : InterfaceContent) × (slice_get self.now.types.now.interfaces id.index ≡ Some e) × (e.exports ≡ named_items n)) }
        ensures limit { IfSome result (λ n. n.limit ≡ length (named_items n)) }
    {
        if !self.types.contains(Type::Interface(id)) {
            return None;
        }
        Some(self.names_of(&self.types[id]))
    }

    /// The names of an interface.
    pub(crate) fn names_of<'n>(&self, of: &'n Interface) -> NamedTypes<'n>
    where
        'v: 'n,
        ensures types { result.types.now ≡ self.now.types.now }
        ensures items { result.items.now ≡ of.now.exports }
        ensures limit { result.limit ≡ length of.now.exports.entries }
        ensures new_names { result.new_names ≡ None }
    {
        NamedTypes {
            types: self.types,
            items: &of.exports,
            limit: of.exports.len(),
            new_names: None,
        }
    }
}
