//! Interfaces.

use super::ids::InterfaceId;
use super::items::ItemKind;
use indexmap::IndexMap;
use std::alloc::{AllocError, Global};

/// A type that is used from an interface.
#[derive(Drop, Debug)]
pub struct UsedType {
    /// The interface.
    pub interface: InterfaceId,
    /// The name of the type there, where it differs from the name that it is used under.
    pub name: Option<String>,
}

impl Clone for UsedType {
    ghost use Rattle.std.specs.Prelude.{◌≡◌};
    ghost use Rattle.wac_component.specs.Content.{use_content};

    ghost is_clone = { λ u v. use_content v ≡ use_content u };

    fn clone(&self) -> Result<UsedType, AllocError> {
        Ok(UsedType {
            interface: self.interface,
            name: self.name.clone()?,
        })
    }
}

/// An interface, which is an instance type of the Component Model.
#[derive(Drop, Debug)]
pub struct Interface {
    /// The identifier, if there is one, as `wasi:http/types@0.2.0`.
    pub id: Option<String>,
    /// The types that are used from other interfaces, by the names that they are used under.
    pub uses: IndexMap<String, UsedType>,
    /// The exports in order.
    pub exports: IndexMap<String, ItemKind>,
}

impl Interface {
    ghost use Rattle.std.specs.Prelude.{◌≡◌, [], None};
    ghost use Rattle.wac_component.specs.Content.{interface_content};

    /// An interface with no identifier, which uses and exports nothing.
    pub fn new(alloc: Global) -> Interface
        ensures { interface_content result ≡ record { id = None; uses = []; exports = [] } }
    {
        Interface {
            id: None,
            uses: IndexMap::new(alloc),
            exports: IndexMap::new(alloc),
        }
    }
}

impl Clone for Interface {
    ghost use Rattle.std.specs.Prelude.{◌≡◌};
    ghost use Rattle.wac_component.specs.Content.{interface_content};

    ghost is_clone = { λ i j. interface_content j ≡ interface_content i };

    fn clone(&self) -> Result<Interface, AllocError> {
        Ok(Interface {
            id: self.id.clone()?,
            uses: self.uses.clone()?,
            exports: self.exports.clone()?,
        })
    }
}
