//! What a world exports.

use super::builder::Builder;
use super::interfaces::make_interface;
use super::worlds::Draft;
use indexmap::{IndexMap, IndexSet};
use std::alloc::AllocError;
use wac_component::{InterfaceId, ItemKind};
use wac_wit_elaboration::{
    Exported, ImportSort, KnownEntries, MadeInterface, Site, What, WorldImport,
};
use wac_wit_names::{Decl, Fault, Node};
use wac_wit_syntax::{Extern, ExternItem, InterfaceItem, Path, Span, WorldItem};

impl<'b> Builder<'b> {
    /// Takes in an export, which is an item of the world.
    pub(crate) fn add_export(
        &mut self,
        draft: &mut Draft,
        item: &ExternItem,
        index: usize,
    ) -> Result<(), Fault> {
        if !self.is_there(&item.gates) {
            return Ok(());
        }
        match &item.what {
            Extern::Path(path) => self.export_path(draft, path),
            Extern::Func(name, signature) => {
                let id = self.free_func(name, signature)?;
                self.push_export(draft, &name.name, What::Func(id), name.span)
            }
            Extern::Inline(name, _) => {
                let what = What::Inline(self.site.node.index, index);
                self.push_export(draft, &name.name, what, name.span)
            }
            Extern::Named(_, path) => Err(self.refuse_named(path)),
        }
    }

    fn export_path(&self, draft: &mut Draft, path: &Path) -> Result<(), Fault> {
        let node = self.site.catalog.find_interface(self.site.scope, path)?;
        self.check_once(&draft.exported, node.index, path, "exports")?;
        self.export_interface(draft, node.index, path.name.span)
    }

    /// Exports an interface of a package, if it isn't exported yet.
    pub(crate) fn export_interface(
        &self,
        draft: &mut Draft,
        node: usize,
        span: Span,
    ) -> Result<(), Fault> {
        if draft.exported.get(&node).is_some() {
            return Ok(());
        }
        let what = What::Interface(node);
        let needs = self.needs_of(&what)?;
        draft.exported.insert(node, span)?;
        let id = &self.site.catalog.node(node)?.id;
        self.put_export(draft, id, what, needs, span)
    }

    fn put_export(
        &self,
        draft: &mut Draft,
        name: &str,
        what: What,
        needs: Vec<usize>,
        span: Span,
    ) -> Result<(), Fault> {
        draft.exports.push(Exported {
            name: String::from_str(self.alloc, name)?,
            what,
            needs,
            span,
        })?;
        Ok(())
    }

    /// Puts an export under a name of its own last, which has to be free.
    pub(crate) fn push_export(
        &self,
        draft: &mut Draft,
        name: &str,
        what: What,
        span: Span,
    ) -> Result<(), Fault> {
        draft
            .export_names
            .take(self.site.catalog, self.site.node.file, name, span)?;
        let needs = self.needs_of(&what)?;
        self.put_export(draft, name, what, needs, span)
    }

    // The interfaces that an export uses.
    fn needs_of(&self, what: &What) -> Result<Vec<usize>, Fault> {
        match what {
            What::Func(_) => Ok(Vec::new(self.alloc)),
            What::Interface(node) => match self.site.known.interface(*node) {
                Some(of) => Ok(of.needs.clone()?),
                // it was refused
                None => Err(Fault::Known),
            },
            What::Inline(node, item) => self.inline_needs(*node, self.inline_items(*node, *item)?),
        }
    }

    // The interfaces that an interface uses that is written in a world.
    fn inline_needs(&self, node: usize, items: &[InterfaceItem]) -> Result<Vec<usize>, Fault> {
        let of = self.site.catalog.node(node)?;
        let scope = self.site.catalog.scope(of.scope)?;
        let mut needs = Vec::new(self.alloc);
        for item in items {
            if let InterfaceItem::Use(it) = item
                && !it.names.is_empty()
                && self.is_there(&it.gates)
            {
                let used = self.site.catalog.find_interface(scope, &it.path)?;
                needs.push(used.index)?;
            }
        }
        Ok(needs)
    }

    // The items of an interface that is written in a world.
    fn inline_items(&self, node: usize, item: usize) -> Result<&'b [InterfaceItem], Fault> {
        let Decl::World(world) = self.site.catalog.node(node)?.decl else {
            return Err(Fault::Missing);
        };
        let Some(WorldItem::Export(of)) = world.items.get(item) else {
            return Err(Fault::Missing);
        };
        match &of.what {
            Extern::Inline(_, items) => Ok(items),
            _ => Err(Fault::Missing),
        }
    }

    /// The items of exports, by their names.
    ///
    /// An interface that the world imports too, or that uses such a one, is an entry of its own,
    /// with resources of its own; else it is the entry that all worlds share.
    pub(crate) fn made_exports(
        &mut self,
        imports: &[WorldImport],
        exports: &[Exported],
    ) -> Result<IndexMap<String, ItemKind>, Fault> {
        let imported = imported_in(self, imports)?;
        let mut own: IndexMap<usize, MadeInterface> = IndexMap::new(self.alloc);
        let mut items = IndexMap::new(self.alloc);
        for it in exports {
            let item = self.exported_item(&imported, &mut own, &it.what)?;
            items.insert(it.name.clone()?, item)?;
        }
        Ok(items)
    }

    fn exported_item(
        &mut self,
        imported: &IndexSet<usize>,
        own: &mut IndexMap<usize, MadeInterface>,
        what: &What,
    ) -> Result<ItemKind, Fault> {
        match what {
            What::Func(id) => Ok(ItemKind::Func(*id)),
            What::Interface(node) => {
                let id = self.exported_interface(imported, own, *node)?;
                Ok(ItemKind::Instance(id))
            }
            What::Inline(node, item) => {
                let id = self.exported_inline(own, *node, *item)?;
                Ok(ItemKind::Instance(id))
            }
        }
    }

    // The entry of an interface of a package that is exported.
    fn exported_interface(
        &mut self,
        imported: &IndexSet<usize>,
        own: &mut IndexMap<usize, MadeInterface>,
        node: usize,
    ) -> Result<InterfaceId, Fault> {
        let shared = self.shared_interface(node)?;
        if !imported.contains(&node) && !uses_any(own, &shared.needs) {
            return Ok(shared.id);
        }
        let made = self.own_interface(own, node)?;
        let id = made.id;
        own.insert(node, made)?;
        Ok(id)
    }

    // The entry of an interface of a package that all worlds share.
    fn shared_interface(&self, node: usize) -> Result<&'b MadeInterface, Fault> {
        match self.site.known.interface(node) {
            Some(shared) => Ok(shared),
            // it was refused
            None => Err(Fault::Known),
        }
    }

    // An entry of the world's own for an interface of a package.
    fn own_interface(
        &mut self,
        own: &IndexMap<usize, MadeInterface>,
        node: usize,
    ) -> Result<MadeInterface, Fault> {
        let site = self.site_with(own, self.site.catalog.node(node)?)?;
        let Decl::Interface(decl) = site.node.decl else {
            return Err(Fault::Missing);
        };
        let id = Some(site.node.id.clone()?);
        make_interface(&site, self.types, self.refusals, id, &decl.items)
    }

    // The entry of an interface that is written in a world.
    fn exported_inline(
        &mut self,
        own: &IndexMap<usize, MadeInterface>,
        node: usize,
        item: usize,
    ) -> Result<InterfaceId, Fault> {
        let items = self.inline_items(node, item)?;
        let site = self.site_with(own, self.site.catalog.node(node)?)?;
        Ok(make_interface(&site, self.types, self.refusals, None, items)?.id)
    }

    // What an interface is made from, with entries of the world's own in the place of others.
    fn site_with<'k>(
        &self,
        own: &'k IndexMap<usize, MadeInterface>,
        node: &'k Node<'k>,
    ) -> Result<Site<'k>, Fault>
    where
        'b: 'k,
    {
        Ok(Site {
            alloc: self.alloc,
            catalog: self.site.catalog,
            known: KnownEntries {
                made: self.site.known.made,
                exported: Some(own),
            },
            node,
            scope: self.site.catalog.scope(node.scope)?,
        })
    }
}

// Whether one of these interfaces is an entry of the world's own.
fn uses_any(own: &IndexMap<usize, MadeInterface>, needs: &[usize]) -> bool {
    for need in needs {
        if own.get(need).is_some() {
            return true;
        }
    }
    false
}

// The interfaces of packages among imports.
fn imported_in(
    builder: &Builder<'_>,
    imports: &[WorldImport],
) -> Result<IndexSet<usize>, AllocError> {
    let mut imported = IndexSet::new(builder.alloc);
    for member in imports {
        if let ImportSort::Interface(node) = member.sort {
            imported.insert(node)?;
        }
    }
    Ok(imported)
}
