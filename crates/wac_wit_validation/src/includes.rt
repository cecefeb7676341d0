//! The interfaces that a world has of the worlds that it includes.

ghost use Rattle.std.specs.Prelude.{◌≡◌, Contains, IfSome, IsTrue, Some, slice_get};
ghost use Rattle.wac_component.specs.Content.{named, world_content};
ghost use Rattle.wac_component.specs.declared.items.ItemKind.TheVariants.{Instance};
ghost use Rattle.wac_wit_syntax.specs.declared.tree.Rename.{Rename as RenameOf};
ghost use Rattle.wac_wit_syntax.specs.declared.tree.TopItem.TheVariants.{World as OfWorld};
ghost use Rattle.wac_wit_syntax.specs.declared.tree.WorldItem.TheVariants.{Include as IncludeOf};
ghost use Rattle.wac_wit_validation_types.specs.Exports.{HasItem};
ghost use Rattle.wac_wit_validation_types.specs.Placed.{PlacedWorld};
ghost use Rattle.wac_wit_scopes.specs.WitSources.{WitSources};
ghost use Rattle.wac_wit_validation.specs.WorldChecking.{HasIncluded, HasInterfaces, IsIndexedScope, IsValidatedWorld};
ghost use Rattle.wac_wit_validation.specs.WorldClauses.{CoversIncluded, HasInterfacesOfSide, KeepsAllOf, KeepsIncluded, KeepsInterfaceOf, KeepsInterfacesOf, KeepsItem, LeadsToPlace};

use super::imports::is_same_place;
use super::marks::{ExternMark, ExternMarks, WorldMarks};
use super::validator::{FoundWorld, Validator};
use indexmap::IndexMap;
use wac_component::{ItemKind, Type, World};
use wac_wit_names::FoundPlace;
use wac_wit_scopes::{ScopeItems, leads};
use wac_wit_syntax::{IncludeItem, Path, Rename, TopItem, WorldDecl, WorldItem};
use wac_wit_validation_names::{FoundInterface, ItemPlace};
use wac_wit_validation_types::is_plain;

impl<'v> Validator<'v> {
    // Where the catalog found the world that the path of an `include` leads to.
    fn world_place(&self, path: &Path) -> Option<FoundPlace> {
        self.include_places.get(&path.span.start).copied()
    }

    // Whether a path leads to the world at a place.
    fn leads_to_world(&self, scope: usize, path: &Path, place: &FoundPlace, at: &ItemPlace) -> bool
        ensures { IsTrue result → LeadsToPlace self.now scope path.now at.now }
    {
        let Some(from) = self.scopes.get(scope) else {
            return false;
        };
        match self.world_at(at) {
            Some((to, decl)) => leads(from, path, place.via, to, &decl.name),
            None => false,
        }
    }

    /// The world at a place.
    pub(crate) fn world_at(&self, place: &ItemPlace) -> Option<(&ScopeItems<'v>, &'v WorldDecl)>
        ensures scope { IfSome result (λ p. slice_get self.now.scopes.items place.now.scope ≡ Some p.0.now) }
        ensures item { IfSome result (λ p. slice_get p.0.now.items.now place.now.item ≡ Some (OfWorld p.1.now)) }
    {
        let scope = self.scopes.get(place.scope)?;
        match scope.items.get(place.item)? {
            TopItem::World(decl) => Some((scope, decl)),
            _ => None,
        }
    }

    /// Marks the interfaces that a world has of those that it includes.
    pub(crate) fn mark_included(
        &self,
        scope: usize,
        entry: &World,
        marks: &mut WorldMarks,
        items: &[WorldItem],
    ) -> bool
        ensures marks { IsTrue result → KeepsIncluded self.now scope (world_content entry.now) items.now marks.old marks.new }
        ensures covers { IsTrue result → (of : WitSources) (w : PlacedWorld) → IsIndexedScope self.now scope of w.scope → w.decl.items.items ≡ items.now → HasIncluded of w (world_content entry.now) }
    {
        for item in items {
            if !self.mark_item_included(scope, entry, marks, item) {
                return false;
            }
        }
        true
    }

    fn mark_item_included(
        &self,
        scope: usize,
        entry: &World,
        marks: &mut WorldMarks,
        item: &WorldItem,
    ) -> bool
        ensures marks { IsTrue result → KeepsItem self.now scope (world_content entry.now) item.now marks.old marks.new }
        ensures covers { IsTrue result → CoversIncluded self.now scope (world_content entry.now) item.now }
    {
        match item {
            WorldItem::Include(it) => self.mark_include(scope, entry, marks, it),
            WorldItem::Use(_) | WorldItem::Type(_) => true,
            WorldItem::Import(_) | WorldItem::Export(_) => true,
        }
    }

    // Marks the interfaces that a world has of one that it includes.
    fn mark_include(
        &self,
        scope: usize,
        entry: &World,
        marks: &mut WorldMarks,
        item: &IncludeItem,
    ) -> bool
        ensures marks { IsTrue result → KeepsItem self.now scope (world_content entry.now) (IncludeOf item.now) marks.old marks.new }
        ensures covers { IsTrue result → CoversIncluded self.now scope (world_content entry.now) (IncludeOf item.now) }
    {
        if !self.is_there(&item.gates) {
            return true;
        }
        match self.included(scope, &item.path) {
            Some(world) => self.mark_all_of(entry, marks, world),
            None => false,
        }
    }

    // The world that a path leads to, which was found to be as it is written.
    pub(crate) fn included(&self, scope: usize, path: &Path) -> Option<&FoundWorld<'v>>
        ensures { IfSome result (λ f. Contains self.now.worlds.items f.now × LeadsToPlace self.now scope path.now f.now.place) }
    {
        let place = self.world_place(path)?;
        let found = self.worlds.get(*self.world_nodes.get(&place.node)?)?;
        self.leads_to_world(scope, path, &place, &found.place)
            .then_some(found)
    }

    // Marks the interfaces that another world imports and exports.
    fn mark_all_of(&self, entry: &World, marks: &mut WorldMarks, world: &FoundWorld<'_>) -> bool
        ensures marks { IsTrue result → KeepsAllOf self.now world.now (world_content entry.now) marks.old marks.new }
        ensures covers { IsTrue result → (of : WitSources) (valid : IsValidatedWorld of self.now world.now) → HasInterfaces of valid.written (world_content entry.now) }
    {
        if !self.types.contains(Type::World(world.id)) {
            return false;
        }
        let of = &self.types[world.id];
        let found = &world.marks;
        self.mark_interfaces_of(
            &entry.imports,
            &mut marks.imports,
            &of.imports,
            &found.imports,
        ) && self.mark_interfaces_of(
            &entry.exports,
            &mut marks.exports,
            &of.exports,
            &found.exports,
        )
    }

    // Marks the interfaces among the imports, or the exports, of another world.
    fn mark_interfaces_of(
        &self,
        externs: &IndexMap<String, ItemKind>,
        marks: &mut ExternMarks,
        others: &IndexMap<String, ItemKind>,
        found: &ExternMarks,
    ) -> bool
        ensures marks { IsTrue result → KeepsInterfacesOf self.now (named (λ k. k) externs.now.entries) (named (λ k. k) others.now.entries) found.now marks.old marks.new }
        ensures covers { IsTrue result → HasInterfacesOfSide self.now (named (λ k. k) externs.now.entries) (named (λ k. k) others.now.entries) found.now }
    {
        for index in 0..others.len() {
            let Some((name, _)) = others.get_index(index) else {
                return false;
            };
            let is = match found.found_at(index) {
                Some(interface) => self.mark_interface_of(externs, marks, name, &interface),
                None => is_plain(name),
            };
            if !is {
                return false;
            }
        }
        true
    }

    // Marks the interface of a name, which may have an entry of its own here.
    fn mark_interface_of(
        &self,
        externs: &IndexMap<String, ItemKind>,
        marks: &mut ExternMarks,
        name: &str,
        other: &FoundInterface,
    ) -> bool
        ensures marks { IsTrue result → KeepsInterfaceOf self.now (named (λ k. k) externs.now.entries) name.now other.now marks.old marks.new }
        ensures covers { IsTrue result → HasItem (named (λ k. k) externs.now.entries) name.now }
    {
        let Some((place, _, item)) = externs.get_full(name) else {
            return false;
        };
        match self.same_interface(item, other) {
            Some(own) => {
                marks.mark(place, ExternMark::Found(own));
                true
            }
            None => false,
        }
    }

    // The interface of an item, if it is written where another one is.
    fn same_interface(&self, item: &ItemKind, other: &FoundInterface) -> Option<FoundInterface>
        ensures { IfSome result (λ f. (item.now ≡ Instance f.id) × (f.place ≡ other.now.place) × Contains self.now.found.items f) }
    {
        let ItemKind::Instance(id) = item else {
            return None;
        };
        let found = self.found_as(*id)?;
        is_same_place(&found.place, &other.place).then_some(*found)
    }
}

/// Whether two items are one.
pub(crate) fn is_same_item(left: &ItemKind, right: &ItemKind) -> bool
    ensures { IsTrue result → left.now ≡ right.now }
{
    *left == *right
}

/// Whether there are names.
pub(crate) fn has_any(renames: &[Rename]) -> bool
    ensures some { IsTrue result → (r : RenameOf) × Contains renames.now r }
    ensures none { (r : RenameOf) → Contains renames.now r → IsTrue result }
{
    !renames.is_empty()
}
