//! Takes in the worlds of packages.

ghost use Rattle.std.specs.Prelude.{◌≡◌, Contains, IfOk, IfSome, IsTrue, OnOk, string_bytes};
ghost use Rattle.std.specs.Option.{option_map};
ghost use Rattle.wac_component.specs.Content.{world_content};
ghost use Rattle.wac_wit_validation.specs.Checking.{MarksAt};
ghost use Rattle.wac_wit_validation_types.specs.Placed.{PlacedWorld};
ghost use Rattle.wac_wit_validation.specs.Validated.{HasFoundWorld, IsWorldOf, KeepsFound};
ghost use Rattle.wac_wit_scopes.specs.WitSources.{WitSources};
ghost use Rattle.wac_wit_validation.specs.WorldChecking.{IsEntryOf, IsTextAt, IsValidatedWorld, KnowsWorlds, OffersItem, RepresentsItem, StaysAs, text_content};
ghost use Rattle.wac_wit_validation.specs.WorldClauses.{AreOwnTypes, CoversLayer, CoversOwn, CoversType, HasExportMarks, HasImportsFor, HasNeedsOf, HasWorldMarks, KeepsAllNeeds, KeepsLayer};
ghost use Rattle.wac_wit_validation.specs.WorldClauses.{KeepsLayers, KeepsOwn, KeepsType};
ghost use Rattle.wac_wit_validation_names.specs.declared.layers.Layer.{Layer as LayerOf};

use super::externs::WorldSide;
use super::includes::is_same_item;
use super::marks::{ExternMark, ExternMarks, WorldMarks};
use super::validator::{FoundWorld, Validator, WorldText};
use indexmap::IndexMap;
use std::alloc::AllocError;
use wac_component::{ExternKind, InterfaceId, ItemKind, Type, World, WorldId};
use wac_wit_syntax::WorldItem;
use wac_wit_validation_names::{ItemPlace, Layer, layers_give_once, own_types};
use wac_wit_validation_types::{
    ExportMarks, NamedTypes, is_identifier_of, is_package_text, is_version_text, is_word,
};

impl<'v> Validator<'v> {
    /// Takes in a world, if its entry is as it is written, and if it gives each name of an import,
    /// and each of an export, once, with the worlds that come into it: the one at an index of the
    /// catalog. The interfaces that it uses and the worlds that it includes have to be taken in
    /// before.
    pub fn add_world(&mut self, node: usize, id: WorldId) -> Result<bool, AllocError>
        ensures types { self.new.types.now ≡ self.old.types.now }
        ensures knows { (of : WitSources) → KnowsWorlds of self.old → KnowsWorlds of self.new }
        ensures keeps { KeepsFound self.old self.new }
        ensures took { IfOk result (λ is. IsTrue is → HasFoundWorld self.new id) }
    {
        self.note_includes(node)?;
        self.add_noted(node, id)
    }

    // The same, where it was looked up what the world includes.
    fn add_noted(&mut self, node: usize, id: WorldId) -> Result<bool, AllocError>
        ensures types { self.new.types.now ≡ self.old.types.now }
        ensures knows { (of : WitSources) → KnowsWorlds of self.old → KnowsWorlds of self.new }
        ensures keeps { KeepsFound self.old self.new }
        ensures took { IfOk result (λ is. IsTrue is → HasFoundWorld self.new id) }
    {
        let Some(place) = self.place_of(node) else {
            return Ok(false);
        };
        let Some(text) = self.text_of(&place, id) else {
            return Ok(false);
        };
        let Some(layers) = self.layers_of(&text)? else {
            return Ok(false);
        };
        if !layers_give_once(self.alloc, &self.features, &layers)? {
            return Ok(false);
        }
        let Some(marks) = self.world_marks(&text, &layers)? else {
            return Ok(false);
        };
        if !self.tells_world(text.entry, &layers)? {
            return Ok(false);
        }
        let found = FoundWorld {
            place,
            id,
            marks,
            layers,
        };
        self.push_world(node, found)?;
        Ok(true)
    }

    // A world that is there, with its entry.
    fn text_of(&self, place: &ItemPlace, id: WorldId) -> Option<WorldText<'v>>
        ensures text { IfSome result (λ t. (of : WitSources) → KnowsWorlds of self.now → (w : PlacedWorld) × IsTextAt self.now t of w) }
        ensures place { IfSome result (λ t. t.place ≡ place.now) }
        ensures entry { IfSome result (λ t. IsEntryOf self.now.types.now id (text_content t)) }
    {
        let (_, decl) = self.world_at(place)?;
        if !self.is_there(&decl.gates) || !self.types.contains(Type::World(id)) {
            return None;
        }
        Some(WorldText {
            place: *place,
            decl,
            entry: &self.types[id],
        })
    }

    fn push_world(&mut self, node: usize, found: FoundWorld<'v>) -> Result<(), AllocError>
        ensures types { self.new.types.now ≡ self.old.types.now }
        ensures knows { (of : WitSources) → KnowsWorlds of self.old → IsValidatedWorld of self.old found.entry → KnowsWorlds of self.new }
        ensures keeps { KeepsFound self.old self.new }
        ensures took { OnOk result (HasFoundWorld self.new found.entry.id) }
    {
        self.world_nodes.insert(node, self.worlds.len())?;
        self.world_ids.insert(found.id, self.worlds.len())?;
        self.worlds.push(found)?;
        Ok(())
    }

    // What was found of a world's imports and exports, if its entry is as it is written.
    fn world_marks(
        &mut self,
        text: &WorldText<'v>,
        layers: &[Layer<'v>],
    ) -> Result<Option<WorldMarks>, AllocError>
        ensures stays { StaysAs self.old self.new }
        ensures sides { IfOk result (λ o. IfSome o (HasWorldMarks self.new text.now layers.now)) }
    {
        self.exported = IndexMap::new(self.alloc);
        self.add_exported(text.entry)?;
        self.marks_of(text, layers)
    }

    fn marks_of(
        &self,
        text: &WorldText<'v>,
        layers: &[Layer<'v>],
    ) -> Result<Option<WorldMarks>, AllocError>
        ensures { IfOk result (λ o. IfSome o (HasWorldMarks self.now text.now layers.now)) }
    {
        let Some(mut marks) = self.exports_marked(text, layers)? else {
            return Ok(None);
        };
        let is = self.are_imports(text, &mut marks)?;
        Ok(is.then_some(marks))
    }

    // What was found of a world's exports, if they are as they are written, and of the imports
    // that have names of their own or that come in.
    fn exports_marked(
        &self,
        text: &WorldText<'v>,
        layers: &[Layer<'v>],
    ) -> Result<Option<WorldMarks>, AllocError>
        ensures { IfOk result (λ o. IfSome o (HasExportMarks self.now text.now layers.now)) }
    {
        let own = own_types(self.alloc, text.entry, layers)?;
        let mut marks = WorldMarks {
            imports: ExternMarks::new(self.alloc, text.entry.imports.len())?,
            exports: ExternMarks::new(self.alloc, text.entry.exports.len())?,
        };
        if !self.mark_included(text.place.scope, text.entry, &mut marks, &text.decl.items) {
            return Ok(None);
        }
        if !self.mark_paths(
            text.place.scope,
            ExternKind::Export,
            &text.entry.exports,
            &mut marks.exports,
            &text.decl.items,
        )? {
            return Ok(None);
        }
        if !self.are_layers(text.entry, layers, &own, &mut marks)? {
            return Ok(None);
        }
        Ok(marks.exports.are_all().then_some(marks))
    }

    // Takes in the interfaces that have entries of the world's own among its exports.
    fn add_exported(&mut self, entry: &World) -> Result<(), AllocError>
        ensures { StaysAs self.old self.new }
    {
        for index in 0..entry.exports.len() {
            if let Some((name, item)) = entry.exports.get_index(index) {
                self.add_if_new(name, item)?;
            }
        }
        Ok(())
    }

    fn add_if_new(&mut self, name: &str, item: &ItemKind) -> Result<(), AllocError>
        ensures { StaysAs self.old self.new }
    {
        let Some((node, id)) = self.new_interface(name, item) else {
            return Ok(());
        };
        match self.take_in(node, id, ExternKind::Export)? {
            Some(position) => {
                self.exported.insert(node, position)?;
                Ok(())
            }
            None => Ok(()),
        }
    }

    // An export that is an interface of a package, and isn't taken in.
    fn new_interface(&self, name: &str, item: &ItemKind) -> Option<(usize, InterfaceId)> {
        let ItemKind::Instance(id) = item else {
            return None;
        };
        if self.by_id.get(id).is_some() {
            return None;
        }
        Some((*self.identifiers.get(name)?, *id))
    }

    // Whether the worlds that come in have what they say among imports and exports.
    fn are_layers(
        &self,
        entry: &World,
        layers: &[Layer<'v>],
        own: &[IndexMap<String, ItemKind>],
        marks: &mut WorldMarks,
    ) -> Result<bool, AllocError>
        ensures marks { IfOk result (λ is. IsTrue is → KeepsLayers self.now (world_content entry.now) layers.now marks.old marks.new) }
        ensures covers { IfOk result (λ is. IsTrue is → (l : LayerOf) → Contains layers.now l → CoversLayer self.now (world_content entry.now) l) }
    {
        for (index, layer) in layers.iter().enumerate() {
            let Some(own) = own.get(index) else {
                return Ok(false);
            };
            if !self.is_layer(entry, layer, own, marks)? {
                return Ok(false);
            }
        }
        Ok(true)
    }

    fn is_layer<'l>(
        &self,
        entry: &'l World,
        layer: &'l Layer<'v>,
        own: &'l IndexMap<String, ItemKind>,
        marks: &mut WorldMarks,
    ) -> Result<bool, AllocError>
    where
        'v: 'l,
        ensures marks { IfOk result (λ is. IsTrue is → KeepsLayer self.now (world_content entry.now) layer.now marks.old marks.new) }
        ensures covers { IfOk result (λ is. IsTrue is → CoversLayer self.now (world_content entry.now) layer.now) }
    {
        let names = NamedTypes {
            types: self.types,
            items: own,
            limit: own.len(),
            new_names: Some(&layer.names),
        };
        if !self.are_own_types(layer, &names)? {
            return Ok(false);
        }
        let side = WorldSide {
            kind: ExternKind::Import,
            externs: &entry.imports,
            names,
        };
        if !mark_own(&side, &mut marks.imports) {
            return Ok(false);
        }
        let scope = layer.place.scope;
        if !self.mark_named(scope, &side, &mut marks.imports, &layer.items)? {
            return Ok(false);
        }
        let side = WorldSide {
            kind: ExternKind::Export,
            externs: &entry.exports,
            names,
        };
        self.mark_named(scope, &side, &mut marks.exports, &layer.items)
    }

    // Whether these are the types of a layer's world.
    fn are_own_types(&self, layer: &Layer<'v>, names: &NamedTypes<'_>) -> Result<bool, AllocError>
        ensures { IfOk result (λ is. IsTrue is → AreOwnTypes self.now layer.now names.now) }
    {
        let mut progress = ExportMarks::new(self.alloc, names)?;
        for item in &layer.items {
            if !self.is_world_item(layer.place.scope, names, &mut progress, item)? {
                return Ok(false);
            }
        }
        Ok(progress.is_done())
    }

    fn is_world_item(
        &self,
        scope: usize,
        names: &NamedTypes<'_>,
        progress: &mut ExportMarks,
        item: &WorldItem,
    ) -> Result<bool, AllocError>
        ensures marks { IfOk result (λ is. IsTrue is → MarksAt self.now scope (λ s. OffersItem s item.now) names.now progress.old progress.new) }
        ensures covers { IfOk result (λ is. IsTrue is → RepresentsItem self.now names.now item.now) }
    {
        match item {
            WorldItem::Use(it) => self.is_use(scope, names, progress, it, ExternKind::Import),
            WorldItem::Type(it) => Ok(self.is_type(names, progress, it)),
            _ => Ok(true),
        }
    }

    // Whether a world's imports are as they are written.
    fn are_imports(&self, text: &WorldText<'v>, marks: &mut WorldMarks) -> Result<bool, AllocError>
        ensures { IfOk result (λ is. IsTrue is → HasImportsFor self.now text.now marks.old marks.new) }
    {
        let is = self.mark_paths(
            text.place.scope,
            ExternKind::Import,
            &text.entry.imports,
            &mut marks.imports,
            &text.decl.items,
        )?;
        if !is || !self.mark_all_needs(text, &mut marks.imports)? {
            return Ok(false);
        }
        self.has_all_needs(text, marks)
    }

    fn mark_all_needs(
        &self,
        text: &WorldText<'v>,
        marks: &mut ExternMarks,
    ) -> Result<bool, AllocError>
        ensures { IfOk result (λ is. IsTrue is → KeepsAllNeeds self.now text.now marks.old marks.new) }
    {
        for item in &text.decl.items {
            if !self.mark_needs(text.place.scope, text.entry, marks, item)? {
                return Ok(false);
            }
        }
        self.mark_used_by_imports(&text.entry.imports, marks)
    }

    fn has_all_needs(&self, text: &WorldText<'v>, marks: &WorldMarks) -> Result<bool, AllocError>
        ensures { IfOk result (λ is. IsTrue is → HasNeedsOf self.now text.now marks.now) }
    {
        for item in &text.decl.items {
            if !self.has_needs(text.place.scope, text.entry, marks, item)? {
                return Ok(false);
            }
        }
        if !marks.imports.are_all() {
            return Ok(false);
        }
        self.is_closed(&text.entry.imports, &marks.imports)
    }

    /// Whether an entry that was taken in is that of the world of a name, in the package of a name
    /// and a version.
    pub fn is_world_of(
        &self,
        package: &str,
        version: &Option<String>,
        name: &str,
        id: WorldId,
    ) -> bool
        ensures { IsTrue result → (of : WitSources) → KnowsWorlds of self.now → IsWorldOf of self.now.types.now «package».now (option_map string_bytes version.now) name.now id }
    {
        let Some(found) = self.found_world(id) else {
            return false;
        };
        let Some((scope, decl)) = self.world_at(&found.place) else {
            return false;
        };
        if !is_word(&decl.name.name, name) || !self.types.contains(Type::World(id)) {
            return false;
        }
        if !is_package_text(scope.package, package) || !is_version_text(scope.package, version) {
            return false;
        }
        is_identifier_of(scope.package, name, &self.types[id].id)
    }

    // A world that was taken in, by its entry.
    fn found_world(&self, id: WorldId) -> Option<&FoundWorld<'v>>
        ensures among { IfSome result (λ f. Contains self.now.worlds.items f.now) }
        ensures id { IfSome result (λ f. f.now.id ≡ id) }
    {
        let found = self.worlds.get(*self.world_ids.get(&id)?)?;
        if found.id == id { Some(found) } else { None }
    }
}

// Marks the types of a layer's world, which are imports.
fn mark_own(side: &WorldSide<'_>, marks: &mut ExternMarks) -> bool
    ensures marks { IsTrue result → KeepsOwn side.now marks.old marks.new }
    ensures covers { IsTrue result → CoversOwn side.now }
{
    for place in 0..side.names.items.len() {
        let Some((name, item)) = side.names.items.get_index(place) else {
            return false;
        };
        if !mark_type(side, marks, name, item) {
            return false;
        }
    }
    true
}

fn mark_type(side: &WorldSide<'_>, marks: &mut ExternMarks, name: &str, item: &ItemKind) -> bool
    ensures marks { IsTrue result → KeepsType side.now name.now item.now marks.old marks.new }
    ensures covers { IsTrue result → CoversType side.now name.now item.now }
{
    let Some(name) = side.names.imported_name(name, item) else {
        return false;
    };
    let Some((index, _, other)) = side.externs.get_full(name) else {
        return false;
    };
    if !is_same_item(item, other) {
        return false;
    }
    marks.mark(index, ExternMark::Written);
    true
}
