//! What became of interfaces and worlds.

use indexmap::{IndexMap, IndexSet};
use std::alloc::{AllocError, Global};
use wac_component::{
    DefinedTypeId, FuncTypeId, InterfaceId, ItemKind, ResourceId, Type, ValueType, WorldId,
};
use wac_wit_syntax::Span;

/// What the name of a type stands for.
#[derive(Clone, Copy)]
pub enum Meaning {
    /// A value type.
    Value(ValueType),
    /// A resource.
    Resource(ResourceId),
}

impl Meaning {
    /// The type as an item.
    pub fn item(&self) -> ItemKind {
        match self {
            Meaning::Value(ty) => ItemKind::Type(Type::Value(*ty)),
            Meaning::Resource(id) => ItemKind::Type(Type::Resource(*id)),
        }
    }
}

/// A type with a name.
pub struct NamedType {
    /// What it stands for.
    pub meaning: Meaning,
    /// The interface that defines it, if that is another one.
    pub owner: Option<InterfaceId>,
    /// Its name there.
    pub root: String,
    /// The interface that `use` names, if it is used.
    pub from: Option<usize>,
}

impl Drop for NamedType {
    fn drop(self) {
        let NamedType {
            meaning: _,
            owner: _,
            root: _,
            from: _,
        } = self;
    }
}

impl NamedType {
    /// The same once more.
    pub fn copied(&self) -> Result<NamedType, AllocError> {
        self.with_meaning(&self.meaning)
    }

    /// The same name of another type.
    pub fn with_meaning(&self, meaning: &Meaning) -> Result<NamedType, AllocError> {
        Ok(NamedType {
            meaning: *meaning,
            owner: self.owner,
            root: self.root.clone()?,
            from: self.from,
        })
    }
}

/// The names of types in an interface or a world.
pub struct TypeNames {
    /// The types.
    pub types: IndexMap<String, NamedType>,
    /// The names of types that were refused.
    pub broken: IndexSet<String>,
    /// The names of types that are there with features alone that are off.
    pub hidden: IndexSet<String>,
}

impl Drop for TypeNames {
    fn drop(self) {
        let TypeNames {
            types: _,
            broken: _,
            hidden: _,
        } = self;
    }
}

impl TypeNames {
    /// None yet.
    pub fn new(alloc: Global) -> TypeNames {
        TypeNames {
            types: IndexMap::new(alloc),
            broken: IndexSet::new(alloc),
            hidden: IndexSet::new(alloc),
        }
    }
}

/// An interface.
pub struct MadeInterface {
    /// Its entry.
    pub id: InterfaceId,
    /// The types in it.
    pub names: TypeNames,
    /// The interfaces whose types it uses, in order.
    pub needs: Vec<usize>,
}

impl Drop for MadeInterface {
    fn drop(self) {
        let MadeInterface {
            id: _,
            names: _,
            needs: _,
        } = self;
    }
}

impl MadeInterface {
    /// The interface, and those that it uses.
    pub fn into_parts(self) -> (InterfaceId, Vec<usize>) {
        let MadeInterface {
            id,
            names: _,
            needs,
        } = self;
        (id, needs)
    }
}

/// What sort of import it is, in the order in which imports stand.
#[derive(Clone, Copy)]
pub enum ImportSort {
    /// An interface of a package, by its index.
    Interface(usize),
    /// An interface under a name of its own.
    Inline,
    /// A type of an interface, by its index.
    UsedType(usize),
    /// Another type.
    Type,
    /// A function.
    Func,
    /// A function of a resource.
    Method,
}

/// An import of a world.
pub struct WorldImport {
    /// Its name.
    pub name: String,
    /// What is imported.
    pub item: ItemKind,
    /// Its sort.
    pub sort: ImportSort,
    /// The interfaces that an interface under a name of its own uses.
    pub needs: Vec<usize>,
}

impl WorldImport {
    /// An import that uses no interface.
    pub fn plain(alloc: Global, name: String, item: ItemKind, sort: ImportSort) -> WorldImport {
        WorldImport {
            name,
            item,
            sort,
            needs: Vec::new(alloc),
        }
    }
}

impl Drop for WorldImport {
    fn drop(self) {
        let WorldImport {
            name: _,
            item: _,
            sort: _,
            needs: _,
        } = self;
    }
}

/// What is exported.
#[derive(Clone, Copy)]
pub enum What {
    /// A function.
    Func(FuncTypeId),
    /// An interface of a package, by its index.
    Interface(usize),
    /// An interface that is written in a world, by the indices of the world and of its item.
    Inline(usize, usize),
}

/// An export of a world.
pub struct Exported {
    /// Its name.
    pub name: String,
    /// What is exported.
    pub what: What,
    /// The interfaces that it uses.
    pub needs: Vec<usize>,
    /// Where the world that is made says it.
    pub span: Span,
}

impl Drop for Exported {
    fn drop(self) {
        let Exported {
            name: _,
            what: _,
            needs: _,
            span: _,
        } = self;
    }
}

/// What a world imports and exports.
pub struct WorldExterns {
    /// The imports.
    pub imports: Vec<WorldImport>,
    /// The exports.
    pub exports: Vec<Exported>,
}

impl Drop for WorldExterns {
    fn drop(self) {
        let WorldExterns {
            imports: _,
            exports: _,
        } = self;
    }
}

/// A world.
pub struct MadeWorld {
    /// Its entry.
    pub id: WorldId,
    /// What it imports and exports.
    pub sides: WorldExterns,
    /// Whether nothing of it was refused, nor of the worlds that it includes.
    pub is_whole: bool,
    /// The types among the imports.
    pub names: TypeNames,
    /// The defined types that were made for it, in order.
    pub defined: Vec<DefinedTypeId>,
}

impl Drop for MadeWorld {
    fn drop(self) {
        let MadeWorld {
            id: _,
            sides: _,
            is_whole: _,
            names: _,
            defined: _,
        } = self;
    }
}

/// An interface or a world.
pub enum MadeEntry {
    /// Not yet made, or refused.
    Nothing,
    /// An interface.
    Interface(MadeInterface),
    /// A world.
    World(MadeWorld),
}

impl Drop for MadeEntry {
    fn drop(self) {
        match self {
            MadeEntry::Nothing => {}
            MadeEntry::Interface(_) => {}
            MadeEntry::World(_) => {}
        }
    }
}

/// The interfaces and the worlds that were made, as an interface or a world sees them.
#[derive(Clone, Copy)]
pub struct KnownEntries<'m> {
    /// Those that were made, by their indices.
    pub made: &'m [MadeEntry],
    /// What stands in the place of some interfaces: those that a world exports.
    pub exported: Option<&'m IndexMap<usize, MadeInterface>>,
}

impl<'m> KnownEntries<'m> {
    /// The interface at an index.
    pub fn interface(&self, node: usize) -> Option<&'m MadeInterface> {
        if let Some(exported) = self.exported
            && let Some(it) = exported.get(&node)
        {
            return Some(it);
        }
        match self.made.get(node)? {
            MadeEntry::Interface(it) => Some(it),
            _ => None,
        }
    }

    /// The world at an index.
    pub fn world(&self, node: usize) -> Option<&'m MadeWorld> {
        match self.made.get(node)? {
            MadeEntry::World(it) => Some(it),
            _ => None,
        }
    }
}
