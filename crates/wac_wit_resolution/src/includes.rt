//! Worlds that are included in others.

use super::builder::Builder;
use super::renaming::Renaming;
use super::worlds::Draft;
use indexmap::IndexSet;
use std::alloc::{AllocError, Global};
use wac_component::ItemKind;
use wac_wit_elaboration::{
    Exported, ImportSort, MadeWorld, NamedType, What, WorldExterns, WorldImport,
};
use wac_wit_names::{Fault, Reason};
use wac_wit_syntax::{IncludeItem, Span};

impl<'b> Builder<'b> {
    /// Takes in all that another world imports and exports.
    pub(crate) fn add_include(
        &mut self,
        draft: &mut Draft,
        item: &IncludeItem,
    ) -> Result<(), Fault> {
        if !self.is_there(&item.gates) {
            return Ok(());
        }
        let world = self.included_world(item)?;
        if !world.is_whole {
            self.is_whole = false;
        }
        self.check_renames(item, world)?;
        let mut renaming = Renaming::new(self.alloc, item)?;
        self.rename_types(&mut renaming, world)?;
        self.include_imports(draft, &mut renaming, world, item.path.name.span)?;
        self.include_exports(draft, &mut renaming, world, item.path.name.span)
    }

    fn include_imports(
        &mut self,
        draft: &mut Draft,
        renaming: &mut Renaming,
        world: &MadeWorld,
        span: Span,
    ) -> Result<(), Fault> {
        for member in &world.sides.imports {
            let done = match member.sort {
                ImportSort::Interface(node) => self.import_interface(draft, node, span),
                _ => self.include_import(draft, renaming, world, member, span),
            };
            self.go_on(done)?;
        }
        Ok(())
    }

    fn include_exports(
        &mut self,
        draft: &mut Draft,
        renaming: &mut Renaming,
        world: &MadeWorld,
        span: Span,
    ) -> Result<(), Fault> {
        for exported in &world.sides.exports {
            let done = self.include_export(draft, renaming, exported, span);
            self.go_on(done)?;
        }
        Ok(())
    }

    fn included_world(&self, item: &IncludeItem) -> Result<&'b MadeWorld, Fault> {
        let node = self.site.catalog.find_world(self.site.scope, &item.path)?;
        match self.site.known.world(node.index) {
            Some(world) => Ok(world),
            // it was refused
            None => Err(Fault::Known),
        }
    }

    // Refuses new names for what the world doesn't have under a name of its own.
    fn check_renames(&self, item: &IncludeItem, world: &MadeWorld) -> Result<(), Fault> {
        if item.renames.is_empty() {
            return Ok(());
        }
        let names = plain_names(self.alloc, &world.sides)?;
        for rename in &item.renames {
            let name = rename.name.name.as_str();
            if !names.contains(&name) {
                if !world.is_whole {
                    // what was refused may be that
                    return Err(Fault::Known);
                }
                return Err(
                    self.refuse_name(
                        item.path.name.span,
                        "the world has no import or export `",
                        name,
                        "` under a name of its own",
                    )
                    .because(Reason::UnknownRename),
                );
            }
        }
        Ok(())
    }

    fn include_import(
        &mut self,
        draft: &mut Draft,
        renaming: &mut Renaming,
        world: &MadeWorld,
        member: &WorldImport,
        span: Span,
    ) -> Result<(), Fault> {
        let name = renaming.name(&member.name, &member.sort)?;
        if !matches!(member.sort, ImportSort::Method) {
            self.take_included(&name, span)?;
        }
        let item = self.included_item(renaming, world, member, &name)?;
        self.add_plain(draft, &name, item, member.sort)
    }

    // What an import of an included world becomes under a name.
    fn included_item(
        &mut self,
        renaming: &mut Renaming,
        world: &MadeWorld,
        member: &WorldImport,
        name: &str,
    ) -> Result<ItemKind, Fault> {
        match member.item {
            ItemKind::Type(_) => match world.names.types.get(member.name.as_str()) {
                Some(named) => self.include_type(renaming, named, name),
                None => Err(Fault::Missing),
            },
            ItemKind::Func(id) => Ok(ItemKind::Func(self.renamed_func(renaming, id)?)),
            item => Ok(item),
        }
    }

    // Takes a name that an included world gives, which has to be free.
    fn take_included(&mut self, name: &str, span: Span) -> Result<(), Fault> {
        let Some(first) = self.taken.span_of(name)? else {
            return self.take_name(name, span);
        };
        if !self.is_first_told(span) {
            return Err(Fault::Known);
        }
        let message = self.comes_twice(name, first);
        Err(Fault::at(self.site.node.file, span, message).because(Reason::IncludedTwice))
    }

    fn comes_twice(&self, name: &str, first: Span) -> Result<String, AllocError> {
        let place = self.site.catalog.place(self.site.node.file, first)?;
        format!(in self.alloc;
            "the included world has `{name}`, which comes from {place} too: `with` renames it"
        )
    }

    // Takes in a type of an included world.
    fn include_type(
        &mut self,
        renaming: &Renaming,
        named: &NamedType,
        name: &str,
    ) -> Result<ItemKind, Fault> {
        let meaning = renaming.meaning(&named.meaning);
        let mut named = named.with_meaning(&meaning)?;
        if named.owner.is_none() {
            named.root = String::from_str(self.alloc, name)?;
        }
        let item = named.meaning.item();
        self.put_type(name, named)?;
        Ok(item)
    }

    fn include_export(
        &mut self,
        draft: &mut Draft,
        renaming: &mut Renaming,
        exported: &Exported,
        span: Span,
    ) -> Result<(), Fault> {
        let what = match exported.what {
            What::Interface(node) => return self.export_interface(draft, node, span),
            What::Func(id) => What::Func(self.renamed_func(renaming, id)?),
            other => other,
        };
        let name = renaming.name(&exported.name, &ImportSort::Func)?;
        if draft.export_names.span_of(&name)?.is_some() && !self.is_first_told(span) {
            return Err(Fault::Known);
        }
        self.push_export(draft, &name, what, span)
    }
}

// The names of a world's imports and exports that have names of their own.
fn plain_names(alloc: Global, sides: &WorldExterns) -> Result<IndexSet<&str>, AllocError> {
    let mut names = IndexSet::new(alloc);
    for member in &sides.imports {
        if !matches!(member.sort, ImportSort::Interface(_)) {
            names.insert(member.name.as_str())?;
        }
    }
    for exported in &sides.exports {
        if !matches!(exported.what, What::Interface(_)) {
            names.insert(exported.name.as_str())?;
        }
    }
    Ok(names)
}
