//! What a world says itself that it imports and exports.

ghost use Rattle.std.specs.Borrow.{Bor};
ghost use Rattle.std.specs.Prelude.{◌≡◌, ◌≢◌, ℕ, Contains, IfOk, IfSome, IsNone, IsTrue, List, Some, slice_get};
ghost use Rattle.wac_component.specs.Content.{named};
ghost use Rattle.wac_wit_syntax.specs.declared.tree.Extern.TheVariants.{Func as FuncExtern, Inline as InlineExtern};
ghost use Rattle.wac_wit_syntax.specs.declared.tree.ExternItem.{ExternItem as ExternSyntax};
ghost use Rattle.wac_wit_syntax.specs.declared.tree.Rename.{Rename as RenameOf};
ghost use Rattle.wac_wit_syntax.specs.declared.tree.WorldItem.{WorldItem as ItemOf};
ghost use Rattle.wac_wit_validation_types.specs.Exports.{HasItem};
ghost use Rattle.wac_wit_validation_types.specs.Denoted.{renamed_by};
ghost use Rattle.wac_wit_validation_types.specs.Reading.{Renames};
ghost use Rattle.wac_wit_scopes.specs.WitSources.{ident_text};
ghost use Rattle.wac_wit_validation.specs.WorldChecking.{IsNamedThere, KeepsPaths, KeepsSide, LeadsToExternAt, side_items};
ghost use Rattle.wac_wit_validation.specs.WorldClauses.{CoversExtern, CoversItem, CoversPath, CoversPathItem, CoversPaths, HasPath, KeepsPath, KeepsSaidPath};
ghost use Rattle.wac_wit_validation_types.specs.Worlds.{SaysExtern, extern_item};
ghost use Rattle.wac_wit_validation.specs.declared.validator.Validator.{Validator as ValidatorOf};

use super::marks::{ExternMark, ExternMarks};
use super::validator::Validator;
use indexmap::IndexMap;
use std::alloc::AllocError;
use wac_component::{ExternKind, ItemKind, Type};
use wac_wit_names::FoundPlace;
use wac_wit_scopes::leads;
use wac_wit_syntax::{Extern, ExternItem, Ident, InterfaceItem, Path, Signature, WorldItem};
use wac_wit_validation_names::FoundInterface;
use wac_wit_validation_types::{NamedTypes, is_identifier_text};

/// An interface that a path leads to, among imports or exports.
#[derive(Clone, Copy)]
pub(crate) struct LedExtern {
    /// The index of the import or the export.
    pub(crate) index: usize,
    /// The interface.
    pub(crate) found: FoundInterface,
}

/// The imports or the exports of a world's entry, and what the names of types stand for there.
#[derive(Clone, Copy)]
pub(crate) struct WorldSide<'e> {
    pub(crate) kind: ExternKind,
    pub(crate) externs: &'e IndexMap<String, ItemKind>,
    pub(crate) names: NamedTypes<'e>,
}

impl<'v> Validator<'v> {
    /// The interface that a path leads to, if it is among imports or exports.
    pub(crate) fn led(
        &self,
        scope: usize,
        path: &Path,
        externs: &IndexMap<String, ItemKind>,
    ) -> Result<Option<LedExtern>, AllocError>
        ensures { IfOk result (λ o. IfSome o (λ l. LeadsToExternAt self.now scope path.now (named (λ k. k) externs.now.entries) l)) }
    {
        match self.catalog.find_place(scope, path)? {
            Some(place) => Ok(self.led_by(scope, path, &place, externs)),
            None => Ok(None),
        }
    }

    // The interface at a place, if the path leads to it, and it is among imports or exports.
    fn led_by(
        &self,
        scope: usize,
        path: &Path,
        place: &FoundPlace,
        externs: &IndexMap<String, ItemKind>,
    ) -> Option<LedExtern>
        ensures { IfSome result (λ l. LeadsToExternAt self.now scope path.now (named (λ k. k) externs.now.entries) l) }
    {
        let node = self.catalog.nodes.get(place.node)?;
        let (index, name, item) = externs.get_full(node.id.as_str())?;
        let ItemKind::Instance(id) = item else {
            return None;
        };
        let found = self.found_as(*id)?;
        let from = self.scopes.get(scope)?;
        let (to, decl) = self.interface_at(&found.place)?;
        if !leads(from, path, place.via, to, &decl.name) {
            return None;
        }
        if !is_identifier_text(to.package, &decl.name.name, name) {
            return None;
        }
        Some(LedExtern {
            index,
            found: *found,
        })
    }

    /// Marks what items say that is imported or exported under a name of its own, if it is there as
    /// it is written.
    pub(crate) fn mark_named(
        &self,
        scope: usize,
        side: &WorldSide<'_>,
        marks: &mut ExternMarks,
        items: &[&WorldItem],
    ) -> Result<bool, AllocError>
        ensures marks { IfOk result (λ is. IsTrue is → KeepsSide self.now scope side.now (λ of x. (b : Bor ItemOf) → Contains items.now b → Contains x.decl.items.items b.now) marks.old marks.new) }
        ensures covers { IfOk result (λ is. IsTrue is → (b : Bor ItemOf) → Contains items.now b → CoversItem self.now side.now b.now) }
    {
        for item in items {
            if !self.mark_item(scope, side, marks, item)? {
                return Ok(false);
            }
        }
        Ok(true)
    }

    fn mark_item(
        &self,
        scope: usize,
        side: &WorldSide<'_>,
        marks: &mut ExternMarks,
        item: &WorldItem,
    ) -> Result<bool, AllocError>
        ensures marks { IfOk result (λ is. IsTrue is → KeepsSide self.now scope side.now (λ of x. Contains x.decl.items.items item.now) marks.old marks.new) }
        ensures covers { IfOk result (λ is. IsTrue is → CoversItem self.now side.now item.now) }
    {
        match said(side.kind, item) {
            Some(it) => self.is_said(scope, side, marks, it),
            None => Ok(true),
        }
    }

    fn is_said(
        &self,
        scope: usize,
        side: &WorldSide<'_>,
        marks: &mut ExternMarks,
        item: &ExternItem,
    ) -> Result<bool, AllocError>
        ensures marks { IfOk result (λ is. IsTrue is → KeepsSide self.now scope side.now (λ of x. Contains x.decl.items.items (extern_item side.now.kind item.now)) marks.old marks.new) }
        ensures covers { IfOk result (λ is. IsTrue is → CoversExtern self.now side.now item.now) }
    {
        if !self.is_there(&item.gates) {
            return Ok(true);
        }
        self.mark_extern(scope, side, marks, &item.what)
    }

    fn mark_extern(
        &self,
        scope: usize,
        side: &WorldSide<'_>,
        marks: &mut ExternMarks,
        what: &Extern,
    ) -> Result<bool, AllocError>
        ensures marks { IfOk result (λ is. IsTrue is → KeepsSide self.now scope side.now (λ of x. SaysExtern of x side.now.kind what.now) marks.old marks.new) }
        ensures covers { IfOk result (λ is. IsTrue is → (rss : List (List RenameOf)) → Renames side.now.names rss → IsNamedThere rss (side_items side.now) what.now) }
    {
        match what {
            Extern::Path(_) => Ok(true),
            Extern::Func(name, signature) => Ok(mark_func(side, marks, name, signature)),
            Extern::Inline(name, items) => self.mark_inline(scope, side, marks, name, items),
            Extern::Named(_, _) => Ok(false),
        }
    }

    fn mark_inline(
        &self,
        scope: usize,
        side: &WorldSide<'_>,
        marks: &mut ExternMarks,
        name: &Ident,
        items: &Vec<InterfaceItem>,
    ) -> Result<bool, AllocError>
        ensures marks { IfOk result (λ is. IsTrue is → KeepsSide self.now scope side.now (λ of x. SaysExtern of x side.now.kind (InlineExtern name.now items.now)) marks.old marks.new) }
        ensures covers { IfOk result (λ is. IsTrue is → (rss : List (List RenameOf)) → Renames side.now.names rss → HasItem (side_items side.now) (renamed_by rss (ident_text name.now))) }
    {
        let Some((index, item)) = side.named(name) else {
            return Ok(false);
        };
        marks.mark(index, ExternMark::Written);
        let ItemKind::Instance(id) = item else {
            return Ok(false);
        };
        if !self.types.contains(Type::Interface(*id)) {
            return Ok(false);
        }
        self.is_interface(scope, items, &self.types[*id], side.kind)
    }

    /// Marks the interfaces of packages that a world says that it imports or exports, if they are
    /// there.
    pub(crate) fn mark_paths(
        &self,
        scope: usize,
        kind: ExternKind,
        externs: &IndexMap<String, ItemKind>,
        marks: &mut ExternMarks,
        items: &[WorldItem],
    ) -> Result<bool, AllocError>
        ensures marks { IfOk result (λ is. IsTrue is → KeepsPaths self.now scope kind (named (λ k. k) externs.now.entries) (λ of w. w.decl.items.items ≡ items.now) marks.old marks.new) }
        ensures covers { IfOk result (λ is. IsTrue is → CoversPaths self.now scope kind (named (λ k. k) externs.now.entries) items.now) }
    {
        for item in items {
            if !self.mark_path_item(scope, kind, externs, marks, item)? {
                return Ok(false);
            }
        }
        Ok(true)
    }

    fn mark_path_item(
        &self,
        scope: usize,
        kind: ExternKind,
        externs: &IndexMap<String, ItemKind>,
        marks: &mut ExternMarks,
        item: &WorldItem,
    ) -> Result<bool, AllocError>
        ensures marks { IfOk result (λ is. IsTrue is → KeepsPaths self.now scope kind (named (λ k. k) externs.now.entries) (λ of w. Contains w.decl.items.items item.now) marks.old marks.new) }
        ensures covers { IfOk result (λ is. IsTrue is → CoversPathItem self.now scope kind (named (λ k. k) externs.now.entries) item.now) }
    {
        match said(kind, item) {
            Some(it) => self.mark_said_path(scope, externs, marks, it),
            None => Ok(true),
        }
    }

    fn mark_said_path(
        &self,
        scope: usize,
        externs: &IndexMap<String, ItemKind>,
        marks: &mut ExternMarks,
        item: &ExternItem,
    ) -> Result<bool, AllocError>
        ensures marks { IfOk result (λ is. IsTrue is → KeepsSaidPath self.now scope (named (λ k. k) externs.now.entries) item.now marks.old marks.new) }
        ensures covers { IfOk result (λ is. IsTrue is → CoversPath self.now scope (named (λ k. k) externs.now.entries) item.now) }
    {
        if !self.is_there(&item.gates) {
            return Ok(true);
        }
        match &item.what {
            Extern::Path(path) => self.mark_path(scope, externs, marks, path),
            Extern::Func(_, _) | Extern::Inline(_, _) | Extern::Named(_, _) => Ok(true),
        }
    }

    fn mark_path(
        &self,
        scope: usize,
        externs: &IndexMap<String, ItemKind>,
        marks: &mut ExternMarks,
        path: &Path,
    ) -> Result<bool, AllocError>
        ensures marks { IfOk result (λ is. IsTrue is → KeepsPath self.now scope (named (λ k. k) externs.now.entries) path.now marks.old marks.new) }
        ensures covers { IfOk result (λ is. IsTrue is → HasPath self.now scope (named (λ k. k) externs.now.entries) path.now) }
    {
        match self.led(scope, path, externs)? {
            Some(led) => {
                marks.mark(led.index, ExternMark::Found(led.found));
                Ok(true)
            }
            None => Ok(false),
        }
    }
}

impl<'e> WorldSide<'e> {
    // What stands under the name that a name becomes, and its place.
    fn named(&self, name: &Ident) -> Option<(usize, &'e ItemKind)>
        ensures { IfSome result (λ p. (rss : List (List RenameOf)) → Renames self.now.names rss → slice_get (side_items self.now) p.0 ≡ Some (renamed_by rss (ident_text name.now), p.1.now)) }
    {
        let name = self.names.new_name(name)?;
        match self.externs.get_full(name.name.as_str()) {
            Some((index, _, item)) => Some((index, item)),
            None => None,
        }
    }
}

fn mark_func(
    side: &WorldSide<'_>,
    marks: &mut ExternMarks,
    name: &Ident,
    signature: &Signature,
) -> bool
    ensures marks { IsTrue result → (v : ValidatorOf) (scope : ℕ) → KeepsSide v scope side.now (λ of x. SaysExtern of x side.now.kind (FuncExtern name.now signature.now)) marks.old marks.new }
    ensures covers { IsTrue result → (rss : List (List RenameOf)) → Renames side.now.names rss → HasItem (side_items side.now) (renamed_by rss (ident_text name.now)) }
{
    let Some((index, item)) = side.named(name) else {
        return false;
    };
    marks.mark(index, ExternMark::Written);
    match item {
        ItemKind::Func(id) => side.names.is_func(signature, id),
        _ => false,
    }
}

// What an item says that a world imports, or exports.
fn said(kind: ExternKind, item: &WorldItem) -> Option<&ExternItem>
    ensures some { IfSome result (λ e. item.now ≡ extern_item kind e.now) }
    ensures none { IsNone result → (e : ExternSyntax) → item.now ≢ extern_item kind e }
{
    match (kind, item) {
        (ExternKind::Import, WorldItem::Import(it)) => Some(it),
        (ExternKind::Export, WorldItem::Export(it)) => Some(it),
        _ => None,
    }
}
