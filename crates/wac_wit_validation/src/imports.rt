//! The interfaces that a world imports for what it says: those that are used on the way.

ghost use Rattle.std.specs.Prelude.{◌≡◌, ◌↔◌, ◌∷◌, [], IfOk, IsTrue, Some, slice_get};
ghost use Rattle.wac_component.specs.Content.{named};
ghost use Rattle.wac_wit_validation_types.specs.Denoted.{uses_in};
ghost use Rattle.wac_wit_scopes.specs.WitSources.{WitSources};
ghost use Rattle.wac_wit_validation.specs.declared.marks.ExternMark.TheVariants.{Found as FoundMark};
ghost use Rattle.wac_wit_validation_names.specs.declared.places.FoundInterface.{FoundInterface as FoundOf};
ghost use Rattle.wac_wit_validation.specs.WorldChecking.{IsClosed, KeepsUses, KeepsUsesOf, KnowsWorlds, MarksUses, MarksUsesOf, UsesTypes};
ghost use Rattle.wac_wit_validation.specs.WorldClauses.{KeepsImportMarks, MarksPath};

use super::includes::has_any;
use super::marks::{ExternMark, ExternMarks};
use super::validator::Validator;
use indexmap::IndexMap;
use std::alloc::AllocError;
use wac_component::ItemKind;
use wac_wit_syntax::{InterfaceItem, Path, UseItem};
use wac_wit_validation_names::{FoundInterface, ItemPlace};

impl Validator<'_> {
    /// Whether a `use` is there, and names a type.
    pub(crate) fn uses_types(&self, item: &UseItem) -> bool
        ensures { (of : WitSources) → KnowsWorlds of self.now → IsTrue result ↔ UsesTypes of item.now }
    {
        self.is_there(&item.gates) && has_any(&item.names)
    }

    /// Marks the interface whose types are used, among imports.
    pub(crate) fn mark_use(
        &self,
        scope: usize,
        imports: &IndexMap<String, ItemKind>,
        marks: &mut ExternMarks,
        item: &UseItem,
    ) -> Result<bool, AllocError>
        ensures { IfOk result (λ is. IsTrue is → KeepsUses self.now scope (item.now ∷ []) (named (λ k. k) imports.now.entries) marks.old marks.new) }
    {
        if !self.uses_types(item) {
            return Ok(true);
        }
        match self.led(scope, &item.path, imports)? {
            Some(led) => {
                marks.mark(led.index, ExternMark::Found(led.found));
                Ok(true)
            }
            None => Ok(false),
        }
    }

    /// Marks the interfaces whose types an interface uses.
    pub(crate) fn mark_uses(
        &self,
        scope: usize,
        imports: &IndexMap<String, ItemKind>,
        marks: &mut ExternMarks,
        items: &[InterfaceItem],
    ) -> Result<bool, AllocError>
        ensures { IfOk result (λ is. IsTrue is → KeepsUses self.now scope (uses_in items.now) (named (λ k. k) imports.now.entries) marks.old marks.new) }
    {
        for item in items {
            if let InterfaceItem::Use(it) = item
                && !self.mark_use(scope, imports, marks, it)?
            {
                return Ok(false);
            }
        }
        Ok(true)
    }

    /// Marks the interfaces that imported ones use, from the last import on, since each stands
    /// behind those that it uses.
    pub(crate) fn mark_used_by_imports(
        &self,
        imports: &IndexMap<String, ItemKind>,
        marks: &mut ExternMarks,
    ) -> Result<bool, AllocError>
        ensures { IfOk result (λ is. IsTrue is → KeepsImportMarks self.now (named (λ k. k) imports.now.entries) marks.old marks.new) }
    {
        for index in (0..marks.marks.len()).rev() {
            if let Some(found) = marks.found_at(index)
                && !self.mark_used_by(imports, marks, &found)?
            {
                return Ok(false);
            }
        }
        Ok(true)
    }

    // Marks the interfaces that an interface uses.
    fn mark_used_by(
        &self,
        imports: &IndexMap<String, ItemKind>,
        marks: &mut ExternMarks,
        found: &FoundInterface,
    ) -> Result<bool, AllocError>
        ensures { IfOk result (λ is. IsTrue is → KeepsUsesOf self.now found.now (named (λ k. k) imports.now.entries) marks.old marks.new) }
    {
        match self.interface_at(&found.place) {
            Some((_, decl)) => self.mark_uses(found.place.scope, imports, marks, &decl.items),
            None => Ok(false),
        }
    }

    /// Whether the interface that a path leads to is marked.
    pub(crate) fn is_path_marked(
        &self,
        scope: usize,
        imports: &IndexMap<String, ItemKind>,
        marks: &ExternMarks,
        path: &Path,
    ) -> Result<bool, AllocError>
        ensures { IfOk result (λ is. IsTrue is → MarksPath self.now scope path.now marks.now) }
    {
        let Some(led) = self.led(scope, path, imports)? else {
            return Ok(false);
        };
        match marks.found_at(led.index) {
            Some(found) => Ok(is_same_place(&found.place, &led.found.place)),
            None => Ok(false),
        }
    }

    /// Whether the interface whose types are used is marked.
    pub(crate) fn is_use_marked(
        &self,
        scope: usize,
        imports: &IndexMap<String, ItemKind>,
        marks: &ExternMarks,
        item: &UseItem,
    ) -> Result<bool, AllocError>
        ensures { IfOk result (λ is. IsTrue is → MarksUses self.now scope (item.now ∷ []) marks.now) }
    {
        if !self.uses_types(item) {
            return Ok(true);
        }
        self.is_path_marked(scope, imports, marks, &item.path)
    }

    /// Whether the interfaces whose types an interface uses are marked.
    pub(crate) fn are_uses_marked(
        &self,
        scope: usize,
        imports: &IndexMap<String, ItemKind>,
        marks: &ExternMarks,
        items: &[InterfaceItem],
    ) -> Result<bool, AllocError>
        ensures { IfOk result (λ is. IsTrue is → MarksUses self.now scope (uses_in items.now) marks.now) }
    {
        for item in items {
            if !self.is_item_marked(scope, imports, marks, item)? {
                return Ok(false);
            }
        }
        Ok(true)
    }

    fn is_item_marked(
        &self,
        scope: usize,
        imports: &IndexMap<String, ItemKind>,
        marks: &ExternMarks,
        item: &InterfaceItem,
    ) -> Result<bool, AllocError>
        ensures { IfOk result (λ is. IsTrue is → MarksUses self.now scope (uses_in (item.now ∷ [])) marks.now) }
    {
        match item {
            InterfaceItem::Use(it) => self.is_use_marked(scope, imports, marks, it),
            InterfaceItem::Type(_) | InterfaceItem::Func(_) => Ok(true),
        }
    }

    /// Whether the interfaces that marked ones use are marked too.
    pub(crate) fn is_closed(
        &self,
        imports: &IndexMap<String, ItemKind>,
        marks: &ExternMarks,
    ) -> Result<bool, AllocError>
        ensures { IfOk result (λ is. IsTrue is → (of : WitSources) → KnowsWorlds of self.now → IsClosed of self.now marks.now) }
    {
        for index in 0..marks.marks.len() {
            if !self.is_closed_at(imports, marks, index)? {
                return Ok(false);
            }
        }
        Ok(true)
    }

    fn is_closed_at(
        &self,
        imports: &IndexMap<String, ItemKind>,
        marks: &ExternMarks,
        index: usize,
    ) -> Result<bool, AllocError>
        ensures { IfOk result (λ is. IsTrue is → (f : FoundOf) → slice_get marks.now.marks.items index ≡ Some (FoundMark f) → MarksUsesOf self.now f marks.now) }
    {
        match marks.found_at(index) {
            Some(found) => self.are_uses_of_marked(imports, marks, &found),
            None => Ok(true),
        }
    }

    // Whether the interfaces that an interface uses are marked.
    fn are_uses_of_marked(
        &self,
        imports: &IndexMap<String, ItemKind>,
        marks: &ExternMarks,
        found: &FoundInterface,
    ) -> Result<bool, AllocError>
        ensures { IfOk result (λ is. IsTrue is → MarksUsesOf self.now found.now marks.now) }
    {
        match self.interface_at(&found.place) {
            Some((_, decl)) => {
                self.are_uses_marked(found.place.scope, imports, marks, &decl.items)
            }
            None => Ok(false),
        }
    }
}

// Whether two places are one.
pub(crate) fn is_same_place(left: &ItemPlace, right: &ItemPlace) -> bool
    ensures { IsTrue result → left.now ≡ right.now }
{
    left.scope == right.scope && left.item == right.item
}
