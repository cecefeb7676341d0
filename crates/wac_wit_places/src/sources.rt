//! Where interfaces and worlds stand in the files of packages.

use super::members::SourceMembers;
use indexmap::IndexMap;
use std::alloc::{AllocError, Global};
use wac_wit_entries::EntryError;
use wac_wit_names::SourceFile;
use wac_wit_syntax::{
    Document, Extern, Ident, InterfaceDecl, PackageName, Span, SyntaxError, TopItem, WorldDecl,
    WorldItem, parse,
};

/// A place in a file of packages.
#[derive(Clone, Copy, PartialEq, Eq, Debug)]
pub struct FilePlace {
    /// The index of the file.
    pub file: usize,
    /// The bytes.
    pub span: Span,
}

/// The syntax of files that were read as packages before.
pub fn syntax_of(alloc: Global, files: &[SourceFile]) -> Result<Vec<Document>, EntryError> {
    let mut documents = Vec::new(alloc);
    for file in files {
        match parse(alloc, &file.text) {
            Ok(document) => documents.push(document)?,
            // they were read before
            Err(SyntaxError::Refused(_)) => return Err(EntryError::Missing),
            Err(SyntaxError::Memory) => return Err(EntryError::Memory),
        }
    }
    Ok(documents)
}

/// An interface or a world in its file.
#[derive(Clone, Copy)]
pub(crate) enum SourceDecl<'d> {
    Interface(&'d InterfaceDecl),
    World(&'d WorldDecl),
}

impl<'d> SourceDecl<'d> {
    /// The name.
    pub(crate) fn name(self) -> &'d Ident {
        match self {
            SourceDecl::Interface(it) => &it.name,
            SourceDecl::World(it) => &it.name,
        }
    }
}

/// An interface or a world, and the file that it stands in.
#[derive(Clone, Copy)]
pub(crate) struct SourceSite<'d> {
    pub(crate) file: usize,
    pub(crate) decl: SourceDecl<'d>,
    /// The index of its members.
    pub(crate) members: usize,
}

impl SourceSite<'_> {
    /// Where the name stands.
    pub(crate) fn place(self) -> FilePlace {
        FilePlace {
            file: self.file,
            span: self.decl.name().span,
        }
    }
}

/// The interfaces and the worlds of packages, by their identifiers.
pub struct PackageSources<'d> {
    sites: IndexMap<String, SourceSite<'d>>,
    members: Vec<SourceMembers<'d>>,
}

impl Drop for PackageSources<'_> {
    fn drop(self) {
        let PackageSources {
            sites: _,
            members: _,
        } = self;
    }
}

impl<'d> PackageSources<'d> {
    /// Those of packages whose files have this syntax.
    pub fn new(
        alloc: Global,
        files: &[SourceFile],
        documents: &'d [Document],
    ) -> Result<PackageSources<'d>, AllocError> {
        let mut sources = PackageSources {
            sites: IndexMap::new(alloc),
            members: Vec::new(alloc),
        };
        for (file, document) in documents.iter().enumerate() {
            if let Some(package) = package_of(files, documents, file) {
                sources.push(alloc, file, package, &document.items)?;
            }
            for nested in &document.packages {
                sources.push(alloc, file, &nested.name, &nested.items)?;
            }
        }
        Ok(sources)
    }

    // Puts the interfaces and worlds of one file of a package last.
    fn push(
        &mut self,
        alloc: Global,
        file: usize,
        package: &PackageName,
        items: &'d [TopItem],
    ) -> Result<(), AllocError> {
        for item in items {
            let decl = match item {
                TopItem::Interface(it) => SourceDecl::Interface(it),
                TopItem::World(it) => SourceDecl::World(it),
                TopItem::Use(_) => continue,
            };
            let members = self.members.len();
            match decl {
                SourceDecl::Interface(it) => {
                    self.members
                        .push(SourceMembers::of_interface(alloc, &it.items)?)?;
                }
                SourceDecl::World(it) => self.push_world(alloc, &it.items)?,
            }
            let id = id_of(alloc, package, &decl.name().name)?;
            self.sites.insert(
                id,
                SourceSite {
                    file,
                    decl,
                    members,
                },
            )?;
        }
        Ok(())
    }

    // Puts the members of a world last, and after them those of the interfaces that are written in
    // it, in their order.
    fn push_world(&mut self, alloc: Global, items: &'d [WorldItem]) -> Result<(), AllocError> {
        let written = self.members.len().saturating_add(1);
        self.members
            .push(SourceMembers::of_world(alloc, items, written)?)?;
        for item in items {
            if let WorldItem::Import(it) | WorldItem::Export(it) = item
                && let Extern::Inline(_, items) = &it.what
            {
                self.members
                    .push(SourceMembers::of_interface(alloc, items)?)?;
            }
        }
        Ok(())
    }

    /// The members of an interface or a world, by their index.
    pub(crate) fn members(&self, index: usize) -> Option<&SourceMembers<'d>> {
        self.members.get(index)
    }

    /// The interface or the world of this identifier.
    pub(crate) fn get(&self, id: &str) -> Option<SourceSite<'d>> {
        self.sites.get(id).copied()
    }
}

// The package that a file belongs to, which this file or another of its group names.
fn package_of<'d>(
    files: &[SourceFile],
    documents: &'d [Document],
    file: usize,
) -> Option<&'d PackageName> {
    let group = files.get(file)?.group;
    for (other, document) in documents.iter().enumerate() {
        if let Some(name) = &document.package
            && files.get(other)?.group == group
        {
            return Some(name);
        }
    }
    None
}

// The identifier of an interface or a world.
fn id_of(alloc: Global, package: &PackageName, name: &str) -> Result<String, AllocError> {
    let (namespace, of) = (&package.namespace.name, &package.name.name);
    let mut id = format!(in alloc; "{namespace}:{of}/{name}")?;
    if let Some(version) = &package.version {
        let version = version.text.as_str();
        write!(id, "@{version}")?;
    }
    Ok(id)
}
