//! What stands in an interface or a world, by its names.

use indexmap::IndexMap;
use std::alloc::{AllocError, Global};
use wac_wit_entries::parts_of;
use wac_wit_syntax::{
    Extern, ExternItem, FuncItem, Ident, InterfaceItem, Method, MethodKind, Path, Span, TypeDef,
    TypeItem, WorldItem,
};

/// What a name of an interface stands for, and of a world, but for what it imports and exports.
#[derive(Clone, Copy)]
pub(crate) enum SourceMember<'d> {
    Func(&'d FuncItem),
    Type(&'d TypeItem),
    /// A function of a resource, whose name has the resource's, as `[method]r.f`.
    Method(&'d Method),
}

/// An import or an export of a world that has a name of its own.
#[derive(Clone, Copy)]
pub(crate) struct NamedExtern<'d> {
    pub(crate) item: &'d ExternItem,
    /// The index of the members, where it is an interface that is written in the world.
    pub(crate) members: usize,
}

/// What stands in an interface or a world, by its names.
pub(crate) struct SourceMembers<'d> {
    pub(crate) names: IndexMap<String, SourceMember<'d>>,
    /// The imports and exports of a world that have names of their own; of two the first.
    pub(crate) externs: IndexMap<String, NamedExtern<'d>>,
    /// Where the others stand, by the last names of their identifiers; of two the first.
    pub(crate) paths: IndexMap<String, Span>,
}

impl Drop for SourceMembers<'_> {
    fn drop(self) {
        let SourceMembers {
            names: _,
            externs: _,
            paths: _,
        } = self;
    }
}

impl<'d> SourceMembers<'d> {
    fn new(alloc: Global) -> SourceMembers<'d> {
        SourceMembers {
            names: IndexMap::new(alloc),
            externs: IndexMap::new(alloc),
            paths: IndexMap::new(alloc),
        }
    }

    /// Those of an interface.
    pub(crate) fn of_interface(
        alloc: Global,
        items: &'d [InterfaceItem],
    ) -> Result<SourceMembers<'d>, AllocError> {
        let mut members = SourceMembers::new(alloc);
        for item in items {
            match item {
                InterfaceItem::Func(it) => members.push(&it.name, SourceMember::Func(it))?,
                InterfaceItem::Type(it) => members.push_type(alloc, it)?,
                InterfaceItem::Use(_) => {}
            }
        }
        Ok(members)
    }

    /// Those of a world. The members of interfaces that are written in it have the indices from
    /// `written` on.
    pub(crate) fn of_world(
        alloc: Global,
        items: &'d [WorldItem],
        written: usize,
    ) -> Result<SourceMembers<'d>, AllocError> {
        let mut members = SourceMembers::new(alloc);
        let mut next = written;
        for item in items {
            match item {
                WorldItem::Type(it) => members.push_type(alloc, it)?,
                WorldItem::Import(it) | WorldItem::Export(it) => {
                    members.push_extern(it, next)?;
                    if let Extern::Inline(..) = &it.what {
                        next = next.saturating_add(1);
                    }
                }
                WorldItem::Use(_) | WorldItem::Include(_) => {}
            }
        }
        Ok(members)
    }

    fn push(&mut self, name: &Ident, member: SourceMember<'d>) -> Result<(), AllocError> {
        self.names.insert(name.name.clone()?, member)?;
        Ok(())
    }

    // Puts a type, and the functions of a resource, last.
    fn push_type(&mut self, alloc: Global, item: &'d TypeItem) -> Result<(), AllocError> {
        self.push(&item.name, SourceMember::Type(item))?;
        if let TypeDef::Resource(methods) = &item.def {
            for method in methods {
                let name = full_name(alloc, &item.name.name, method)?;
                self.names.insert(name, SourceMember::Method(method))?;
            }
        }
        Ok(())
    }

    fn push_extern(&mut self, item: &'d ExternItem, members: usize) -> Result<(), AllocError> {
        match &item.what {
            Extern::Path(path) => self.push_path(path),
            Extern::Func(name, _) | Extern::Inline(name, _) | Extern::Named(name, _) => {
                if !self.externs.contains_key(&name.name) {
                    let named = NamedExtern { item, members };
                    self.externs.insert(name.name.clone()?, named)?;
                }
                Ok(())
            }
        }
    }

    fn push_path(&mut self, path: &Path) -> Result<(), AllocError> {
        let last = &path.name.name;
        if !self.paths.contains_key(last) {
            self.paths.insert(last.clone()?, path.span)?;
        }
        Ok(())
    }

    /// The type that is defined under a name.
    pub(crate) fn typedef(&self, name: &str) -> Option<&'d TypeItem> {
        match self.names.get(name)? {
            SourceMember::Type(it) => Some(it),
            _ => None,
        }
    }

    /// Where an import or an export stands, by its name or by the last name of its identifier.
    pub(crate) fn extern_span(&self, name: &str) -> Option<Span> {
        match self.externs.get(name) {
            Some(found) => Some(name_of(found.item)?.span),
            None => self.paths.get(parts_of(name)?.name).copied(),
        }
    }
}

// The name of a resource's function in a collection.
fn full_name(alloc: Global, resource: &str, method: &Method) -> Result<String, AllocError> {
    let name = method.name.name.as_str();
    match method.kind {
        MethodKind::Method => format!(in alloc; "[method]{resource}.{name}"),
        MethodKind::Static => format!(in alloc; "[static]{resource}.{name}"),
        MethodKind::Constructor => format!(in alloc; "[constructor]{resource}"),
    }
}

// The name of an import or an export that has one of its own.
fn name_of(item: &ExternItem) -> Option<&Ident> {
    match &item.what {
        Extern::Path(_) => None,
        Extern::Func(name, _) | Extern::Inline(name, _) | Extern::Named(name, _) => Some(name),
    }
}
