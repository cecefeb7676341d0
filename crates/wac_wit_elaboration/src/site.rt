//! What an interface or a world is made from.

use super::made::{ImportSort, KnownEntries, WorldImport};
use std::alloc::Global;
use wac_component::ItemKind;
use wac_wit_names::{Catalog, Fault, Node, Scope};

/// What an interface or a world is made from.
#[derive(Clone, Copy)]
pub struct Site<'b> {
    /// Where memory comes from.
    pub alloc: Global,
    /// What all files have.
    pub catalog: &'b Catalog<'b>,
    /// What was made before.
    pub known: KnownEntries<'b>,
    /// The interface or the world, or that which an interface without identifier stands in.
    pub node: &'b Node<'b>,
    /// The names of its file.
    pub scope: &'b Scope<'b>,
}

impl Site<'_> {
    /// An interface of a package as an import. `Known` comes where it was refused.
    pub fn interface_member(&self, node: usize) -> Result<WorldImport, Fault> {
        let Some(of) = self.known.interface(node) else {
            return Err(Fault::Known);
        };
        let name = self.catalog.node(node)?.id.clone()?;
        let item = ItemKind::Instance(of.id);
        Ok(WorldImport::plain(self.alloc, name, item, ImportSort::Interface(node)))
    }
}
