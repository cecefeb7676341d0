//! Interfaces.

ghost use Rattle.std.specs.Prelude.{Contains, IfOk, IsTrue, Some};
ghost use Rattle.wac_component.specs.Content.{interface_content};
ghost use Rattle.wac_wit_syntax.specs.declared.tree.InterfaceItem.TheVariants.{«Type» as TypeOf, Use as UseOf};
ghost use Rattle.wac_wit_syntax.specs.declared.tree.Method.{Method};
ghost use Rattle.wac_wit_syntax.specs.declared.tree.TypeDef.TheVariants.{Resource};
ghost use Rattle.wac_wit_validation.specs.Checking.{AreExportsAt, Knows, MarksAt, MarksIn, RepresentsNames};
ghost use Rattle.wac_wit_validation_types.specs.Exports.{HasAllMethods, HasItem, HasMethodItem, HasMethods, HasRootName, MarksDefined, MarksExports, Offers, OffersMethod, OffersMethods, named_items};
ghost use Rattle.wac_wit_validation_types.specs.Denoted.{Setting};
ghost use Rattle.wac_wit_validation_types.specs.Reading.{Renames};
ghost use Rattle.wac_wit_scopes.specs.WitSources.{IsEnabled, WitSources, ident_text};

use super::validator::Validator;
use std::alloc::AllocError;
use wac_component::{ExternKind, Interface, ResourceId, Type};
use wac_wit_syntax::{FuncItem, Ident, InterfaceItem, Method, TypeDef, TypeItem, UseItem};
use wac_wit_validation_types::{
    ExportMarks, NamedTypes, are_used, is_next_func, is_next_method, is_typedef,
};

impl<'v> Validator<'v> {
    /// Whether an interface exports what is written: with those that it uses among imports, or among
    /// the exports of the world that is looked at.
    pub(crate) fn is_interface(
        &self,
        scope: usize,
        items: &[InterfaceItem],
        entry: &Interface,
        kind: ExternKind,
    ) -> Result<bool, AllocError>
        ensures { IfOk result (λ is. IsTrue is → AreExportsAt self.now scope items.now (interface_content entry.now).exports) }
    {
        let names = self.names_of(entry);
        let mut progress = ExportMarks::new(self.alloc, &names)?;
        for item in items {
            if !self.is_item(scope, &names, &mut progress, item, kind)? {
                return Ok(false);
            }
        }
        Ok(progress.is_done())
    }

    fn is_item(
        &self,
        scope: usize,
        names: &NamedTypes<'_>,
        progress: &mut ExportMarks,
        item: &InterfaceItem,
        kind: ExternKind,
    ) -> Result<bool, AllocError>
        ensures marks { IfOk result (λ is. IsTrue is → MarksAt self.now scope (λ s. Offers s item.now) names.now progress.old progress.new) }
        ensures covers { IfOk result (λ is. IsTrue is → RepresentsNames self.now names.now item.now) }
    {
        match item {
            InterfaceItem::Use(it) => self.is_use(scope, names, progress, it, kind),
            InterfaceItem::Type(it) => Ok(self.is_type(names, progress, it)),
            InterfaceItem::Func(it) => Ok(self.is_func(names, progress, it)),
        }
    }

    /// Whether types are those that are used.
    pub(crate) fn is_use(
        &self,
        scope: usize,
        names: &NamedTypes<'_>,
        progress: &mut ExportMarks,
        item: &UseItem,
        kind: ExternKind,
    ) -> Result<bool, AllocError>
        ensures marks { IfOk result (λ is. IsTrue is → MarksAt self.now scope (λ s. Contains s.uses item.now) names.now progress.old progress.new) }
        ensures covers { IfOk result (λ is. IsTrue is → RepresentsNames self.now names.now (UseOf item.now)) }
    {
        if !self.is_there(&item.gates) || item.names.is_empty() {
            return Ok(true);
        }
        match self.names_at(scope, &item.path, kind)? {
            Some(from) => Ok(are_used(names, progress, &from, &item.names)),
            None => Ok(false),
        }
    }

    /// Whether a type is as it is defined, and its functions too.
    pub(crate) fn is_type(
        &self,
        names: &NamedTypes<'_>,
        progress: &mut ExportMarks,
        item: &TypeItem,
    ) -> bool
        ensures marks { IsTrue result → (s : Setting) → Knows s.sources self.now → Renames names.now s.renames → Contains s.types item.now → MarksExports s names.now progress.old progress.new }
        ensures covers { IsTrue result → RepresentsNames self.now names.now (TypeOf item.now) }
    {
        if !self.is_there(&item.gates) {
            return true;
        }
        match is_typedef(names, progress, item) {
            Some(of) => self.are_methods(names, progress, item, of),
            None => false,
        }
    }

    // Whether the next functions are those of a resource, if it is one.
    fn are_methods(
        &self,
        names: &NamedTypes<'_>,
        progress: &mut ExportMarks,
        item: &TypeItem,
        of: &Type,
    ) -> bool
        ensures marks { IsTrue result → (s : Setting) → Knows s.sources self.now → MarksDefined s names.now item.now progress.old progress.new }
        ensures covers { IsTrue result → (s : Setting) → Knows s.sources self.now → Renames names.now s.renames → HasAllMethods s (named_items names.now) item.now }
    {
        match (&item.def, of) {
            (TypeDef::Resource(methods), Type::Resource(id)) => match names.new_name(&item.name) {
                Some(name) => {
                    names.is_own_resource(name, id)
                        && self.are_resource_methods(names, progress, name, methods, id)
                }
                None => false,
            },
            (TypeDef::Resource(_), _) => false,
            _ => true,
        }
    }

    fn are_resource_methods(
        &self,
        names: &NamedTypes<'_>,
        progress: &mut ExportMarks,
        name: &Ident,
        methods: &[Method],
        id: &ResourceId,
    ) -> bool
        ensures marks { let n = ident_text name.now in IsTrue result → HasRootName names.now id.now n → MarksIn self.now (λ s. OffersMethods s n methods.now) names.now progress.old progress.new }
        ensures covers { IsTrue result → (of : WitSources) → Knows of self.now → HasMethods of (named_items names.now) (ident_text name.now) methods.now }
    {
        for method in methods {
            if !self.is_method(names, progress, name, id, method) {
                return false;
            }
        }
        true
    }

    // Whether the next function is the one that is written of a resource, if it is there.
    fn is_method(
        &self,
        names: &NamedTypes<'_>,
        progress: &mut ExportMarks,
        name: &Ident,
        id: &ResourceId,
        method: &Method,
    ) -> bool
        ensures marks { let n = ident_text name.now in IsTrue result → HasRootName names.now id.now n → MarksIn self.now (λ s. OffersMethod s n method.now) names.now progress.old progress.new }
        ensures covers { IsTrue result → (of : WitSources) → Knows of self.now → HasMethodItem of (named_items names.now) (ident_text name.now) method.now }
    {
        !self.is_there(&method.gates) || is_next_method(names, progress, name, id, method)
    }

    // Whether the next function is the one that is written.
    fn is_func(&self, names: &NamedTypes<'_>, progress: &mut ExportMarks, item: &FuncItem) -> bool
        ensures marks { IsTrue result → (s : Setting) → Knows s.sources self.now → Contains s.funcs item.now → MarksExports s names.now progress.old progress.new }
        ensures covers { IsTrue result → (of : WitSources) → Knows of self.now → IsEnabled of item.now.gates → HasItem (named_items names.now) (ident_text item.now.name) }
    {
        !self.is_there(&item.gates) || is_next_func(names, progress, item)
    }
}
