//! Worlds.

use super::adding::add_world;
use super::builder::Builder;
use super::interfaces::make_interface;
use indexmap::IndexMap;
use std::alloc::{AllocError, Global};
use std::mem::replace;
use wac_component::{ItemKind, Types, World, WorldId};
use wac_wit_elaboration::{Exported, ImportSort, MadeWorld, Site, WorldExterns, WorldImport};
use wac_wit_names::{Fault, Reason, Refusals, Taken};
use wac_wit_syntax::{
    Extern, ExternItem, Ident, InterfaceItem, Path, Signature, Span, TypeDef, TypeItem, WorldDecl,
    WorldItem,
};

/// What a world imports and exports so far.
pub(crate) struct Draft {
    pub(crate) imports: Vec<WorldImport>,
    /// The interfaces of packages among the imports.
    pub(crate) imported: IndexMap<usize, Span>,
    pub(crate) exports: Vec<Exported>,
    /// The interfaces of packages among the exports.
    pub(crate) exported: IndexMap<usize, Span>,
    /// The names of the other exports.
    pub(crate) export_names: Taken,
}

impl Drop for Draft {
    fn drop(self) {
        let Draft {
            imports: _,
            imported: _,
            exports: _,
            exported: _,
            export_names: _,
        } = self;
    }
}

impl Draft {
    fn new(alloc: Global) -> Draft {
        Draft {
            imports: Vec::new(alloc),
            imported: IndexMap::new(alloc),
            exports: Vec::new(alloc),
            exported: IndexMap::new(alloc),
            export_names: Taken::new(alloc),
        }
    }

    // The imports and the exports.
    fn into_externs(self) -> (Vec<WorldImport>, Vec<Exported>) {
        let Draft {
            imports,
            imported: _,
            exports,
            exported: _,
            export_names: _,
        } = self;
        (imports, exports)
    }
}

impl<'b> Builder<'b> {
    /// What a world imports and exports.
    fn sides(&mut self, items: &[WorldItem]) -> Result<WorldExterns, Fault> {
        let mut draft = Draft::new(self.alloc);
        self.fill(&mut draft, items)?;
        let (imports, exports) = draft.into_externs();
        self.site.elaborated(imports, exports, self.is_whole)
    }

    // Takes in what is written, and then what is included.
    fn fill(&mut self, draft: &mut Draft, items: &[WorldItem]) -> Result<(), Fault> {
        self.add_world_types(draft, items)?;
        self.add_externs(draft, items)?;
        self.add_includes(draft, items)
    }

    // Takes in the types of a world, which are imports: used ones, and then those that it defines.
    fn add_world_types(&mut self, draft: &mut Draft, items: &[WorldItem]) -> Result<(), Fault> {
        let mut defs = Vec::new(self.alloc);
        for item in items {
            match item {
                WorldItem::Use(it) => self.add_noted_use(it)?,
                WorldItem::Type(it) => defs.push(it)?,
                _ => {}
            }
        }
        self.add_typedefs(&defs)?;
        for (name, named) in &self.names.types {
            let sort = match named.from {
                Some(node) => ImportSort::UsedType(node),
                None => ImportSort::Type,
            };
            self.add_plain(draft, name, named.meaning.item(), sort)?;
        }
        Ok(())
    }

    // Takes in the imports and exports that a world says itself.
    fn add_externs(&mut self, draft: &mut Draft, items: &[WorldItem]) -> Result<(), Fault> {
        for (index, item) in items.iter().enumerate() {
            let done = match item {
                WorldItem::Type(it) => self.add_world_methods(draft, it),
                WorldItem::Import(it) => self.add_import(draft, it),
                WorldItem::Export(it) => self.add_export(draft, it, index),
                WorldItem::Use(_) | WorldItem::Include(_) => Ok(()),
            };
            self.go_on(done)?;
        }
        Ok(())
    }

    // Takes in the worlds that a world includes.
    fn add_includes(&mut self, draft: &mut Draft, items: &[WorldItem]) -> Result<(), Fault> {
        for item in items {
            if let WorldItem::Include(it) = item {
                let done = self.add_include(draft, it);
                self.go_on(done)?;
            }
        }
        Ok(())
    }

    // Takes in the functions of a resource of the world.
    fn add_world_methods(&mut self, draft: &mut Draft, item: &TypeItem) -> Result<(), Fault> {
        let TypeDef::Resource(methods) = &item.def else {
            return Ok(());
        };
        if !self.is_there(&item.gates) {
            return Ok(());
        }
        self.items = IndexMap::new(self.alloc);
        self.add_methods(&item.name, methods)?;
        for (name, of) in &self.items {
            self.add_plain(draft, name, *of, ImportSort::Method)?;
        }
        Ok(())
    }

    /// Puts an import that uses no interface last.
    pub(crate) fn add_plain(
        &self,
        draft: &mut Draft,
        name: &str,
        item: ItemKind,
        sort: ImportSort,
    ) -> Result<(), Fault> {
        let name = String::from_str(self.alloc, name)?;
        draft
            .imports
            .push(WorldImport::plain(self.alloc, name, item, sort))?;
        Ok(())
    }

    fn add_import(&mut self, draft: &mut Draft, item: &ExternItem) -> Result<(), Fault> {
        if !self.is_there(&item.gates) {
            return Ok(());
        }
        match &item.what {
            Extern::Path(path) => self.import_path(draft, path),
            Extern::Func(name, signature) => self.import_func(draft, name, signature),
            Extern::Inline(name, items) => self.import_inline(draft, name, items),
            Extern::Named(_, path) => Err(self.refuse_named(path)),
        }
    }

    fn import_path(&self, draft: &mut Draft, path: &Path) -> Result<(), Fault> {
        let node = self.site.catalog.find_interface(self.site.scope, path)?;
        self.check_once(&draft.imported, node.index, path, "imports")?;
        self.import_interface(draft, node.index, path.name.span)
    }

    fn import_func(
        &mut self,
        draft: &mut Draft,
        name: &Ident,
        signature: &Signature,
    ) -> Result<(), Fault> {
        self.take_name(&name.name, name.span)?;
        let id = self.free_func(name, signature)?;
        self.add_plain(draft, &name.name, ItemKind::Func(id), ImportSort::Func)
    }

    fn import_inline(
        &mut self,
        draft: &mut Draft,
        name: &Ident,
        items: &[InterfaceItem],
    ) -> Result<(), Fault> {
        self.take_name(&name.name, name.span)?;
        let site = self.site;
        let (id, needs) = make_interface(
            &site,
            self.types,
            self.refusals,
            None,
            items,
        )?.into_parts();
        draft.imports.push(WorldImport {
            name: name.name.clone()?,
            item: ItemKind::Instance(id),
            sort: ImportSort::Inline,
            needs,
        })?;
        Ok(())
    }

    /// Refuses an interface of a package under a name of its own.
    pub(crate) fn refuse_named(&self, path: &Path) -> Fault {
        self.refuse(
            path.span,
            "an interface of a package has no other name than its own: that isn't supported yet",
        )
        .because(Reason::RenamedInterface)
    }

    /// Refuses an interface of a package that a world says twice.
    pub(crate) fn check_once(
        &self,
        there: &IndexMap<usize, Span>,
        node: usize,
        path: &Path,
        verb: &str,
    ) -> Result<(), Fault> {
        let Some(first) = there.get(&node) else {
            return Ok(());
        };
        let message = self.said_twice(verb, &path.name.name, *first);
        Err(Fault::at(self.site.node.file, path.name.span, message).because(Reason::SaidTwice))
    }

    fn said_twice(&self, verb: &str, name: &str, first: Span) -> Result<String, AllocError> {
        let place = self.site.catalog.place(self.site.node.file, first)?;
        format!(in self.alloc; "the world {verb} `{name}` twice: it stands at {place} too")
    }

    /// Imports an interface of a package, if it isn't imported yet.
    pub(crate) fn import_interface(
        &self,
        draft: &mut Draft,
        node: usize,
        span: Span,
    ) -> Result<(), Fault> {
        if draft.imported.get(&node).is_none() {
            draft.imported.insert(node, span)?;
            draft.imports.push(self.site.interface_member(node)?)?;
        }
        Ok(())
    }

    // Puts the entry of the world that was made into the collection.
    fn put_world(&mut self, sides: &WorldExterns) -> Result<WorldId, Fault> {
        let imports = items_of(self.alloc, &sides.imports)?;
        let exports = self.made_exports(&sides.imports, &sides.exports)?;
        let world = World {
            id: Some(self.site.node.id.clone()?),
            uses: replace(&mut self.uses, IndexMap::new(self.alloc)),
            imports,
            exports,
        };
        add_world(self.types, world)
    }
}

/// Makes a world.
pub(crate) fn make_world(
    site: &Site<'_>,
    types: &mut Types,
    refusals: &mut Refusals,
    decl: &WorldDecl,
) -> Result<MadeWorld, Fault> {
    let mut builder = Builder::new(*site, types, refusals);
    let sides = builder.sides(&decl.items)?;
    let id = builder.put_world(&sides)?;
    Ok(MadeWorld {
        id,
        sides,
        is_whole: builder.is_whole && builder.names.broken.is_empty(),
        names: builder.names,
        defined: builder.defined,
    })
}

// The items of imports, by their names.
fn items_of(
    alloc: Global,
    members: &[WorldImport],
) -> Result<IndexMap<String, ItemKind>, AllocError> {
    let mut items = IndexMap::new(alloc);
    for member in members {
        items.insert(member.name.clone()?, member.item)?;
    }
    Ok(items)
}
