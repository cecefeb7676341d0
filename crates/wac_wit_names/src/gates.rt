//! Checks the attributes of items against the versions of their packages.

use super::catalog::{Catalog, Decl, Node};
use super::error::Fault;
use super::features::check_since;
use super::refusals::Refusals;
use std::alloc::Global;
use wac_wit_syntax::{
    Extern, ExternItem, Gates, InterfaceItem, Span, TypeDef, TypeItem, WorldItem,
};

// Whose attributes are checked.
#[derive(Clone, Copy)]
struct Place<'p> {
    alloc: Global,
    file: usize,
    version: Option<&'p str>,
}

impl Catalog<'_> {
    /// Refuses the items that are said to be younger than their packages.
    pub(crate) fn check_gates(&self, refusals: &mut Refusals) -> Result<(), Fault> {
        for node in &self.nodes {
            self.check_node_gates(node, refusals)?;
        }
        Ok(())
    }

    fn check_node_gates(&self, node: &Node<'_>, refusals: &mut Refusals) -> Result<(), Fault> {
        let place = Place {
            alloc: self.alloc,
            file: node.file,
            version: self.package(node.package)?.version,
        };
        match node.decl {
            Decl::Interface(it) => {
                place.check_gate(&it.gates, it.name.span, refusals)?;
                place.check_interface(&it.items, refusals)
            }
            Decl::World(it) => {
                place.check_gate(&it.gates, it.name.span, refusals)?;
                place.check_world(&it.items, refusals)
            }
        }
    }
}

impl Place<'_> {
    fn check_gate(&self, gates: &Gates, span: Span, refusals: &mut Refusals) -> Result<(), Fault> {
        let Some(since) = &gates.since else {
            return Ok(());
        };
        let done = check_since(self.alloc, self.file, self.version, since, span);
        refusals.go_on(done)?;
        Ok(())
    }

    fn check_interface(
        &self,
        items: &[InterfaceItem],
        refusals: &mut Refusals,
    ) -> Result<(), Fault> {
        for item in items {
            self.check_item(item, refusals)?;
        }
        Ok(())
    }

    fn check_item(&self, item: &InterfaceItem, refusals: &mut Refusals) -> Result<(), Fault> {
        match item {
            InterfaceItem::Use(it) => self.check_gate(&it.gates, it.path.span, refusals),
            InterfaceItem::Type(it) => self.check_type(it, refusals),
            InterfaceItem::Func(it) => self.check_gate(&it.gates, it.name.span, refusals),
        }
    }

    fn check_type(&self, item: &TypeItem, refusals: &mut Refusals) -> Result<(), Fault> {
        self.check_gate(&item.gates, item.name.span, refusals)?;
        if let TypeDef::Resource(methods) = &item.def {
            for method in methods {
                self.check_gate(&method.gates, method.name.span, refusals)?;
            }
        }
        Ok(())
    }

    fn check_world(&self, items: &[WorldItem], refusals: &mut Refusals) -> Result<(), Fault> {
        for item in items {
            self.check_world_item(item, refusals)?;
        }
        Ok(())
    }

    fn check_world_item(&self, item: &WorldItem, refusals: &mut Refusals) -> Result<(), Fault> {
        match item {
            WorldItem::Use(it) => self.check_gate(&it.gates, it.path.span, refusals),
            WorldItem::Include(it) => self.check_gate(&it.gates, it.path.span, refusals),
            WorldItem::Type(it) => self.check_type(it, refusals),
            WorldItem::Import(it) | WorldItem::Export(it) => { self.check_extern(it, refusals) }
        }
    }

    fn check_extern(&self, item: &ExternItem, refusals: &mut Refusals) -> Result<(), Fault> {
        self.check_gate(&item.gates, span_of(&item.what), refusals)?;
        match &item.what {
            Extern::Inline(_, items) => self.check_interface(items, refusals),
            _ => Ok(()),
        }
    }
}

// Where an import or an export stands.
fn span_of(what: &Extern) -> Span {
    match what {
        Extern::Path(path) | Extern::Named(_, path) => path.span,
        Extern::Func(name, _) | Extern::Inline(name, _) => name.span,
    }
}
