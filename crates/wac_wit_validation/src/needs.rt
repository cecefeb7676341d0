//! What a world imports for its own items.

ghost use Rattle.std.specs.Prelude.{◌∷◌, [], IfOk, IsTrue};
ghost use Rattle.wac_component.specs.Content.{world_content};
ghost use Rattle.wac_wit_syntax.specs.declared.tree.WorldItem.TheVariants.{Export as ExportItem, Import as ImportItem};
ghost use Rattle.wac_wit_validation_types.specs.Denoted.{uses_in};
ghost use Rattle.wac_wit_validation.specs.WorldChecking.{HasNeeds, KeepsNeeds, KeepsUnexported, UsesAreThere};
ghost use Rattle.wac_wit_validation.specs.WorldClauses.{HasPathNeeds, KeepsPathNeeds};

use super::marks::{ExternMark, ExternMarks, WorldMarks};
use super::validator::Validator;
use std::alloc::AllocError;
use wac_component::World;
use wac_wit_syntax::{Extern, ExternItem, InterfaceItem, Path, UseItem, WorldItem};

impl Validator<'_> {
    /// Marks the interfaces that an item of a world needs as imports.
    pub(crate) fn mark_needs(
        &self,
        scope: usize,
        entry: &World,
        marks: &mut ExternMarks,
        item: &WorldItem,
    ) -> Result<bool, AllocError>
        ensures { IfOk result (λ is. IsTrue is → KeepsNeeds self.now scope (world_content entry.now) item.now marks.old marks.new) }
    {
        match item {
            WorldItem::Use(it) => self.mark_use(scope, &entry.imports, marks, it),
            WorldItem::Import(it) => self.mark_needs_of_import(scope, entry, marks, it),
            WorldItem::Export(it) => self.mark_needs_of_export(scope, entry, marks, it),
            WorldItem::Type(_) | WorldItem::Include(_) => Ok(true),
        }
    }

    // Those that an interface uses that is written in the world. What an interface of a package
    // uses is marked later.
    fn mark_needs_of_import(
        &self,
        scope: usize,
        entry: &World,
        marks: &mut ExternMarks,
        item: &ExternItem,
    ) -> Result<bool, AllocError>
        ensures { IfOk result (λ is. IsTrue is → KeepsNeeds self.now scope (world_content entry.now) (ImportItem item.now) marks.old marks.new) }
    {
        match &item.what {
            Extern::Inline(_, items) if self.is_there(&item.gates) => {
                self.mark_uses(scope, &entry.imports, marks, items)
            }
            _ => Ok(true),
        }
    }

    fn mark_needs_of_export(
        &self,
        scope: usize,
        entry: &World,
        marks: &mut ExternMarks,
        item: &ExternItem,
    ) -> Result<bool, AllocError>
        ensures { IfOk result (λ is. IsTrue is → KeepsNeeds self.now scope (world_content entry.now) (ExportItem item.now) marks.old marks.new) }
    {
        if !self.is_there(&item.gates) {
            return Ok(true);
        }
        match &item.what {
            Extern::Path(path) => self.mark_needs_of_path(scope, entry, marks, path),
            Extern::Inline(_, items) => self.mark_unexported(scope, entry, marks, items),
            _ => Ok(true),
        }
    }

    // Those that an exported interface of a package uses.
    fn mark_needs_of_path(
        &self,
        scope: usize,
        entry: &World,
        marks: &mut ExternMarks,
        path: &Path,
    ) -> Result<bool, AllocError>
        ensures { IfOk result (λ is. IsTrue is → KeepsPathNeeds self.now scope (world_content entry.now) path.now marks.old marks.new) }
    {
        let Some(led) = self.led(scope, path, &entry.exports)? else {
            return Ok(false);
        };
        match self.interface_at(&led.found.place) {
            Some((_, decl)) => {
                self.mark_unexported(led.found.place.scope, entry, marks, &decl.items)
            }
            None => Ok(false),
        }
    }

    // Marks the interfaces that items use and the world doesn't export.
    fn mark_unexported(
        &self,
        scope: usize,
        entry: &World,
        marks: &mut ExternMarks,
        items: &[InterfaceItem],
    ) -> Result<bool, AllocError>
        ensures { IfOk result (λ is. IsTrue is → KeepsUnexported self.now scope (world_content entry.now) (uses_in items.now) marks.old marks.new) }
    {
        for item in items {
            if let InterfaceItem::Use(it) = item
                && !self.mark_unexported_use(scope, entry, marks, it)?
            {
                return Ok(false);
            }
        }
        Ok(true)
    }

    // What isn't among the imports has to be exported, which is looked at later.
    fn mark_unexported_use(
        &self,
        scope: usize,
        entry: &World,
        marks: &mut ExternMarks,
        item: &UseItem,
    ) -> Result<bool, AllocError>
        ensures { IfOk result (λ is. IsTrue is → KeepsUnexported self.now scope (world_content entry.now) (item.now ∷ []) marks.old marks.new) }
    {
        if !self.uses_types(item) {
            return Ok(true);
        }
        let Some(led) = self.led(scope, &item.path, &entry.imports)? else {
            return Ok(true);
        };
        let Some((name, _)) = entry.imports.get_index(led.index) else {
            return Ok(false);
        };
        if entry.exports.get(name.as_str()).is_none() {
            marks.mark(led.index, ExternMark::Found(led.found));
        }
        Ok(true)
    }

    /// Whether the interfaces that an item of a world needs are imported, or exported where that
    /// is enough.
    pub(crate) fn has_needs(
        &self,
        scope: usize,
        entry: &World,
        marks: &WorldMarks,
        item: &WorldItem,
    ) -> Result<bool, AllocError>
        ensures { IfOk result (λ is. IsTrue is → HasNeeds self.now scope (world_content entry.now) item.now marks.now) }
    {
        match item {
            WorldItem::Use(it) => self.is_use_marked(scope, &entry.imports, &marks.imports, it),
            WorldItem::Import(it) => self.has_needs_of_import(scope, entry, marks, it),
            WorldItem::Export(it) => self.has_needs_of_export(scope, entry, marks, it),
            WorldItem::Type(_) | WorldItem::Include(_) => Ok(true),
        }
    }

    fn has_needs_of_import(
        &self,
        scope: usize,
        entry: &World,
        marks: &WorldMarks,
        item: &ExternItem,
    ) -> Result<bool, AllocError>
        ensures { IfOk result (λ is. IsTrue is → HasNeeds self.now scope (world_content entry.now) (ImportItem item.now) marks.now) }
    {
        if !self.is_there(&item.gates) {
            return Ok(true);
        }
        match &item.what {
            Extern::Path(path) => self.is_path_marked(scope, &entry.imports, &marks.imports, path),
            Extern::Inline(_, items) => {
                self.are_uses_marked(scope, &entry.imports, &marks.imports, items)
            }
            _ => Ok(true),
        }
    }

    fn has_needs_of_export(
        &self,
        scope: usize,
        entry: &World,
        marks: &WorldMarks,
        item: &ExternItem,
    ) -> Result<bool, AllocError>
        ensures { IfOk result (λ is. IsTrue is → HasNeeds self.now scope (world_content entry.now) (ExportItem item.now) marks.now) }
    {
        if !self.is_there(&item.gates) {
            return Ok(true);
        }
        match &item.what {
            Extern::Path(path) => self.has_needs_of_path(scope, entry, marks, path),
            Extern::Inline(_, items) => self.are_there(scope, entry, marks, items),
            _ => Ok(true),
        }
    }

    fn has_needs_of_path(
        &self,
        scope: usize,
        entry: &World,
        marks: &WorldMarks,
        path: &Path,
    ) -> Result<bool, AllocError>
        ensures { IfOk result (λ is. IsTrue is → HasPathNeeds self.now scope (world_content entry.now) path.now marks.now) }
    {
        let Some(led) = self.led(scope, path, &entry.exports)? else {
            return Ok(false);
        };
        match self.interface_at(&led.found.place) {
            Some((_, decl)) => self.are_there(led.found.place.scope, entry, marks, &decl.items),
            None => Ok(false),
        }
    }

    // Whether the interfaces that items use are imported or exported.
    fn are_there(
        &self,
        scope: usize,
        entry: &World,
        marks: &WorldMarks,
        items: &[InterfaceItem],
    ) -> Result<bool, AllocError>
        ensures { IfOk result (λ is. IsTrue is → UsesAreThere self.now scope (world_content entry.now) (uses_in items.now) marks.now) }
    {
        for item in items {
            if !self.is_item_there(scope, entry, marks, item)? {
                return Ok(false);
            }
        }
        Ok(true)
    }

    fn is_item_there(
        &self,
        scope: usize,
        entry: &World,
        marks: &WorldMarks,
        item: &InterfaceItem,
    ) -> Result<bool, AllocError>
        ensures { IfOk result (λ is. IsTrue is → UsesAreThere self.now scope (world_content entry.now) (uses_in (item.now ∷ [])) marks.now) }
    {
        match item {
            InterfaceItem::Use(it) => self.is_used_there(scope, entry, marks, it),
            InterfaceItem::Type(_) | InterfaceItem::Func(_) => Ok(true),
        }
    }

    fn is_used_there(
        &self,
        scope: usize,
        entry: &World,
        marks: &WorldMarks,
        item: &UseItem,
    ) -> Result<bool, AllocError>
        ensures { IfOk result (λ is. IsTrue is → UsesAreThere self.now scope (world_content entry.now) (item.now ∷ []) marks.now) }
    {
        if !self.uses_types(item) {
            return Ok(true);
        }
        if self.is_path_marked(scope, &entry.imports, &marks.imports, &item.path)? {
            return Ok(true);
        }
        match self.led(scope, &item.path, &entry.exports)? {
            Some(led) => Ok(marks.exports.found_at(led.index).is_some()),
            None => Ok(false),
        }
    }
}
