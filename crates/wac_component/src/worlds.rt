//! Worlds.

use super::interfaces::UsedType;
use super::items::ItemKind;
use indexmap::IndexMap;
use std::alloc::{AllocError, Global};
use std::fmt;

/// Whether something is imported or exported.
#[derive(Clone, Copy, PartialEq, Eq, Hash, Debug)]
pub enum ExternKind {
    /// It is imported.
    Import,
    /// It is exported.
    Export,
}

impl fmt::Display for ExternKind {
    ghost use Rattle.std.specs.Prelude.{Some};
    ghost use Rattle.wac_component.specs.Texts.{extern_kind_text};

    ghost output = { λ kind. Some (extern_kind_text kind) };

    fn fmt<W: fmt::Write>(&self, f: &mut fmt::Formatter<W>) -> fmt::Result {
        f.write_str(match self {
            ExternKind::Import => "import",
            ExternKind::Export => "export",
        })
    }
}

/// A world, which is a component type of the Component Model.
#[derive(Drop, Debug)]
pub struct World {
    /// The identifier, if there is one.
    pub id: Option<String>,
    /// The types that are used from interfaces, by the names that they are used under.
    pub uses: IndexMap<String, UsedType>,
    /// The imports in order.
    pub imports: IndexMap<String, ItemKind>,
    /// The exports in order.
    pub exports: IndexMap<String, ItemKind>,
}

impl World {
    ghost use Rattle.std.specs.Prelude.{◌≡◌, [], None};
    ghost use Rattle.wac_component.specs.Content.{world_content};

    /// A world with no identifier, which uses, imports and exports nothing.
    pub fn new(alloc: Global) -> World
        ensures { world_content result ≡ record { id = None; uses = []; imports = []; exports = [] } }
    {
        World {
            id: None,
            uses: IndexMap::new(alloc),
            imports: IndexMap::new(alloc),
            exports: IndexMap::new(alloc),
        }
    }
}

impl Clone for World {
    ghost use Rattle.std.specs.Prelude.{◌≡◌};
    ghost use Rattle.wac_component.specs.Content.{world_content};

    ghost is_clone = { λ w v. world_content v ≡ world_content w };

    fn clone(&self) -> Result<World, AllocError> {
        Ok(World {
            id: self.id.clone()?,
            uses: self.uses.clone()?,
            imports: self.imports.clone()?,
            exports: self.exports.clone()?,
        })
    }
}
