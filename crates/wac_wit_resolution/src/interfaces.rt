//! Interfaces.

use super::adding::add_interface;
use super::builder::Builder;
use indexmap::IndexMap;
use std::mem::replace;
use wac_component::{Interface, InterfaceId, Types};
use wac_wit_elaboration::{MadeInterface, Site};
use wac_wit_names::{Fault, Refusals};
use wac_wit_syntax::{InterfaceItem, TypeDef, TypeItem};

impl Builder<'_> {
    /// Takes in the items of an interface: used types, types, functions of resources in the order
    /// of these, and other functions.
    pub(crate) fn add_items(&mut self, items: &[InterfaceItem]) -> Result<(), Fault> {
        let defs = self.add_uses(items)?;
        self.add_typedefs(&defs)?;
        self.add_all_methods(&defs)?;
        self.add_funcs(items)
    }

    // Takes in the types that are used, and gives those that are defined.
    fn add_uses<'i>(&mut self, items: &'i [InterfaceItem]) -> Result<Vec<&'i TypeItem>, Fault> {
        let mut defs = Vec::new(self.alloc);
        for item in items {
            match item {
                InterfaceItem::Use(it) => self.add_noted_use(it)?,
                InterfaceItem::Type(it) => defs.push(it)?,
                InterfaceItem::Func(_) => {}
            }
        }
        Ok(defs)
    }

    // Takes in the functions of resources.
    fn add_all_methods(&mut self, defs: &[&TypeItem]) -> Result<(), Fault> {
        for def in defs {
            if let TypeDef::Resource(methods) = &def.def
                && self.is_there(&def.gates)
            {
                self.add_methods(&def.name, methods)?;
            }
        }
        Ok(())
    }

    // Takes in functions that are no resource's.
    fn add_funcs(&mut self, items: &[InterfaceItem]) -> Result<(), Fault> {
        for item in items {
            if let InterfaceItem::Func(it) = item
                && self.is_there(&it.gates)
            {
                let done = self.add_func(&it.name, &it.signature);
                self.refusals.go_on(done)?;
            }
        }
        Ok(())
    }

    // Puts the entry of the interface that was made into the collection.
    fn put_interface(&mut self, id: Option<String>) -> Result<InterfaceId, Fault> {
        let uses = replace(&mut self.uses, IndexMap::new(self.alloc));
        let exports = replace(&mut self.items, IndexMap::new(self.alloc));
        add_interface(self.types, Interface { id, uses, exports })
    }

    // Takes in the items of an interface, and puts its entry into the collection.
    fn put_items(
        &mut self,
        id: Option<String>,
        items: &[InterfaceItem],
    ) -> Result<InterfaceId, Fault> {
        self.add_items(items)?;
        self.put_interface(id)
    }

    // The interface whose entry was put into the collection.
    fn made(self, id: Result<InterfaceId, Fault>) -> Result<MadeInterface, Fault> {
        let Builder { names, needs, .. } = self;
        Ok(MadeInterface {
            id: id?,
            names,
            needs,
        })
    }
}

/// Makes an interface. What stands in a world has no identifier, and is made where the world is.
pub(crate) fn make_interface(
    site: &Site<'_>,
    types: &mut Types,
    refusals: &mut Refusals,
    id: Option<String>,
    items: &[InterfaceItem],
) -> Result<MadeInterface, Fault> {
    let mut builder = Builder::new(*site, types, refusals);
    let made = builder.put_items(id, items);
    builder.made(made)
}
