//! All packages, with the interfaces and the worlds in them.

use super::error::Fault;
use super::features::{Features, is_there};
use super::reason::Reason;
use super::refusals::Refusals;
use super::sources::SourceFile;
use super::texts::{id_of, joined, key_of, name_of, version_of};
use indexmap::IndexMap;
use std::alloc::{AllocError, Global};
use wac_wit_syntax::{
    Document, Gates, Ident, InterfaceDecl, PackageName, Span, TopItem, TopUse, WorldDecl,
    position_of,
};

/// A package.
pub struct Package<'a> {
    /// The name, as `wasi:http`.
    pub name: String,
    /// The version, if there is one.
    pub version: Option<&'a str>,
    /// The name with the version, as `wasi:http@0.2.0`.
    pub key: String,
    /// The group of its files.
    pub group: usize,
    /// The interfaces and the worlds, by their names.
    pub members: IndexMap<String, usize>,
}

impl Drop for Package<'_> {
    fn drop(self) {
        let Package {
            name: _,
            version: _,
            key: _,
            group: _,
            members: _,
        } = self;
    }
}

/// What a `use` outside of interfaces and worlds gives a name to.
#[derive(Clone, Copy)]
pub struct UsedName<'a> {
    /// The `use`.
    pub used: &'a TopUse,
    /// Its index among the items of its scope.
    pub item: usize,
}

/// The names that the items of one file of a package share.
pub struct Scope<'a> {
    /// The index of the package.
    pub package: usize,
    /// The index of the file.
    pub file: usize,
    /// What `use` outside of interfaces and worlds gives a name to.
    pub uses: IndexMap<String, UsedName<'a>>,
}

impl Drop for Scope<'_> {
    fn drop(self) {
        let Scope {
            package: _,
            file: _,
            uses: _,
        } = self;
    }
}

/// What an interface or a world is.
#[derive(Clone, Copy)]
pub enum Decl<'a> {
    /// An interface.
    Interface(&'a InterfaceDecl),
    /// A world.
    World(&'a WorldDecl),
}

impl<'a> Decl<'a> {
    fn name(&self) -> &'a Ident {
        match self {
            Decl::Interface(it) => &it.name,
            Decl::World(it) => &it.name,
        }
    }

    fn gates(&self) -> &'a Gates {
        match self {
            Decl::Interface(it) => &it.gates,
            Decl::World(it) => &it.gates,
        }
    }
}

/// An interface or a world.
pub struct Node<'a> {
    /// Its own index.
    pub index: usize,
    /// The index of the scope.
    pub scope: usize,
    /// Its index among the items of the scope.
    pub item: usize,
    /// The index of the package.
    pub package: usize,
    /// The index of the file.
    pub file: usize,
    /// The identifier, as `wasi:http/types@0.2.0`.
    pub id: String,
    /// The name in the package.
    pub name: &'a Ident,
    /// What it is.
    pub decl: Decl<'a>,
    /// Whether a feature that is off hides it.
    pub is_hidden: bool,
}

impl Drop for Node<'_> {
    fn drop(self) {
        let Node {
            index: _,
            scope: _,
            item: _,
            package: _,
            file: _,
            id: _,
            name: _,
            decl: _,
            is_hidden: _,
        } = self;
    }
}

/// All packages, with the interfaces and the worlds in them.
pub struct Catalog<'a> {
    pub(crate) alloc: Global,
    files: &'a [SourceFile],
    features: Features<'a>,
    /// The packages, in the order of their files, and behind them those written inside of files.
    pub packages: Vec<Package<'a>>,
    pub(crate) scopes: Vec<Scope<'a>>,
    /// The interfaces and the worlds.
    pub nodes: Vec<Node<'a>>,
    // the packages by their names with their versions
    pub(crate) by_key: IndexMap<String, usize>,
    // the packages by their names, where one package alone has that
    pub(crate) by_name: IndexMap<String, Option<usize>>,
    // the packages of groups of files, or none where what names it is refused
    by_group: IndexMap<usize, Option<usize>>,
}

impl Drop for Catalog<'_> {
    fn drop(self) {
        let Catalog {
            alloc: _,
            files: _,
            features: _,
            packages: _,
            scopes: _,
            nodes: _,
            by_key: _,
            by_name: _,
            by_group: _,
        } = self;
    }
}

impl<'a> Catalog<'a> {
    /// The packages of files that were read.
    pub fn new(
        alloc: Global,
        files: &'a [SourceFile],
        documents: &'a [Document],
        features: Features<'a>,
        refusals: &mut Refusals,
    ) -> Result<Catalog<'a>, Fault> {
        let mut catalog = Catalog::empty(alloc, files, features);
        catalog.add_names(documents, refusals)?;
        catalog.add_documents(documents, refusals)?;
        catalog.check_uses(refusals)?;
        catalog.check_gates(refusals)?;
        Ok(catalog)
    }

    fn empty(alloc: Global, files: &'a [SourceFile], features: Features<'a>) -> Catalog<'a> {
        Catalog {
            alloc,
            files,
            features,
            packages: Vec::new(alloc),
            scopes: Vec::new(alloc),
            nodes: Vec::new(alloc),
            by_key: IndexMap::new(alloc),
            by_name: IndexMap::new(alloc),
            by_group: IndexMap::new(alloc),
        }
    }

    /// The interface or the world at an index.
    pub fn node(&self, index: usize) -> Result<&Node<'a>, Fault> {
        self.nodes.get(index).ok_or(Fault::Missing)
    }

    /// The scope at an index.
    pub fn scope(&self, index: usize) -> Result<&Scope<'a>, Fault> {
        self.scopes.get(index).ok_or(Fault::Missing)
    }

    /// The package at an index.
    pub(crate) fn package(&self, index: usize) -> Result<&Package<'a>, Fault> {
        self.packages.get(index).ok_or(Fault::Missing)
    }

    /// Whether an item is there.
    pub fn is_there(&self, gates: &Gates) -> bool {
        is_there(&self.features, gates)
    }

    /// The name of a file, a line and a column.
    pub fn place(&self, file: usize, span: Span) -> Result<String, AllocError> {
        match self.files.get(file) {
            Some(of) => place_in(self.alloc, of, span),
            None => Ok(String::new(self.alloc)),
        }
    }

    /// Refuses what stands at a place.
    pub fn refuse(&self, file: usize, span: Span, message: &str) -> Fault {
        Fault::at(file, span, String::from_str(self.alloc, message))
    }

    /// The same, where the message has a name in it.
    pub fn refuse_name(
        &self,
        file: usize,
        span: Span,
        before: &str,
        name: &str,
        behind: &str,
    ) -> Fault {
        Fault::at(file, span, joined(self.alloc, before, name, behind))
    }

    // The group of a file.
    fn group_of(&self, file: usize) -> usize {
        match self.files.get(file) {
            Some(file) => file.group,
            None => 0,
        }
    }

    // Takes in the packages that files say that they belong to.
    fn add_names(
        &mut self,
        documents: &'a [Document],
        refusals: &mut Refusals,
    ) -> Result<(), Fault> {
        for (file, document) in documents.iter().enumerate() {
            if let Some(name) = &document.package {
                let done = self.add_name(file, name);
                refusals.go_on(done)?;
            }
        }
        Ok(())
    }

    fn add_name(&mut self, file: usize, name: &'a PackageName) -> Result<(), Fault> {
        let group = self.group_of(file);
        if let Some(Some(index)) = self.by_group.get(&group) {
            return self.check_same(file, *index, name);
        }
        self.by_group.insert(group, None)?;
        let index = self.add_package(file, name)?;
        self.by_group.insert(group, Some(index))?;
        Ok(())
    }

    // Refuses a file that names another package than the other files of its group.
    fn check_same(&self, file: usize, index: usize, name: &PackageName) -> Result<(), Fault> {
        let said = key_of(self.alloc, name)?;
        let package = self.package(index)?;
        if said == package.key {
            return Ok(());
        }
        Err(Fault::at(file, name.span, self.other_package(&said, &package.key)).because(
            Reason::AnotherPackage,
        ))
    }

    fn other_package(&self, said: &str, known: &str) -> Result<String, AllocError> {
        format!(in self.alloc;
            "this file is of the package `{said}`, but another file beside it is of `{known}`"
        )
    }

    // Puts a package last, whose name is new.
    fn add_package(&mut self, file: usize, name: &'a PackageName) -> Result<usize, Fault> {
        self.check_lower_case(file, &name.namespace)?;
        self.check_lower_case(file, &name.name)?;
        let key = key_of(self.alloc, name)?;
        if self.by_key.get(key.as_str()).is_some() {
            return Err(
                self.refuse_name(file, name.span, "the package `", &key, "` is there twice")
                    .because(Reason::PackageTwice),
            );
        }
        let index = self.packages.len();
        self.note_package(index, name, &key)?;
        let group = self.group_of(file);
        self.packages.push(Package {
            name: name_of(self.alloc, name)?,
            version: version_of(name),
            key,
            group,
            members: IndexMap::new(self.alloc),
        })?;
        Ok(index)
    }

    // Notes where a package is found.
    fn note_package(
        &mut self,
        index: usize,
        name: &PackageName,
        key: &str,
    ) -> Result<(), AllocError> {
        self.by_key
            .insert(String::from_str(self.alloc, key)?, index)?;
        let name = name_of(self.alloc, name)?;
        let alone = match self.by_name.get(name.as_str()) {
            Some(_) => None,
            None => Some(index),
        };
        self.by_name.insert(name, alone)?;
        Ok(())
    }

    // Refuses a name that components can't have.
    fn check_lower_case(&self, file: usize, part: &Ident) -> Result<(), Fault> {
        for letter in part.name.chars() {
            if letter.is_ascii_uppercase() {
                return Err(
                    self.refuse(
                        file,
                        part.span,
                        "the name of a package has no upper case letters",
                    )
                    .because(Reason::UpperCase),
                );
            }
        }
        Ok(())
    }

    // Takes in the items of all files.
    fn add_documents(
        &mut self,
        documents: &'a [Document],
        refusals: &mut Refusals,
    ) -> Result<(), Fault> {
        for (file, document) in documents.iter().enumerate() {
            let group = self.group_of(file);
            match self.by_group.get(&group).copied() {
                Some(Some(package)) => self.add_document(file, package, document, refusals)?,
                // the name of the package was refused
                Some(None) => {}
                None => refusals.note(self.refuse_nameless(file))?,
            }
        }
        Ok(())
    }

    // Takes in the items of a file, and the packages in it.
    fn add_document(
        &mut self,
        file: usize,
        package: usize,
        document: &'a Document,
        refusals: &mut Refusals,
    ) -> Result<(), Fault> {
        self.add_items(file, package, &document.items, refusals)?;
        for nested in &document.packages {
            match self.add_package(file, &nested.name) {
                Ok(package) => self.add_items(file, package, &nested.items, refusals)?,
                Err(fault) => refusals.note(fault)?,
            }
        }
        Ok(())
    }

    // Refuses a file of a group in which no file names the package.
    fn refuse_nameless(&self, file: usize) -> Fault {
        self.refuse(
            file,
            Span { start: 0, end: 1 },
            "no file says which package this is: expected `package NS:NAME;` at the beginning",
        )
        .because(Reason::Nameless)
    }

    // Takes in the items of one file of a package.
    fn add_items(
        &mut self,
        file: usize,
        package: usize,
        items: &'a [TopItem],
        refusals: &mut Refusals,
    ) -> Result<(), Fault> {
        let scope = self.scopes.len();
        let uses = IndexMap::new(self.alloc);
        self.scopes.push(Scope {
            package,
            file,
            uses,
        })?;
        for (index, item) in items.iter().enumerate() {
            let done = self.add_item(scope, index, item);
            refusals.go_on(done)?;
        }
        Ok(())
    }

    fn add_item(&mut self, scope: usize, index: usize, item: &'a TopItem) -> Result<(), Fault> {
        match item {
            TopItem::Interface(it) => self.add_node(scope, index, Decl::Interface(it)),
            TopItem::World(it) => self.add_node(scope, index, Decl::World(it)),
            TopItem::Use(it) => {
                let used = UsedName {
                    used: it,
                    item: index,
                };
                self.add_top_use(scope, used)
            }
        }
    }

    // Takes in another name of an interface or a world.
    fn add_top_use(&mut self, scope: usize, used: UsedName<'a>) -> Result<(), Fault> {
        let name = used_name(used.used);
        let Some(of) = self.scopes.get_mut(scope) else {
            return Err(Fault::Missing);
        };
        if of.uses.get(name.name.as_str()).is_none() {
            of.uses.insert(name.name.clone()?, used)?;
            return Ok(());
        }
        let file = of.file;
        Err(
            self.refuse_name(
                file,
                name.span,
                "this file has another name `",
                &name.name,
                "` too",
            )
            .because(Reason::UseTwice),
        )
    }

    // Refuses other names of interfaces and worlds that lead nowhere, or that the package has.
    fn check_uses(&self, refusals: &mut Refusals) -> Result<(), Fault> {
        for scope in &self.scopes {
            for used in scope.uses.values() {
                let done = self.check_use(scope, used.used);
                refusals.go_on(done)?;
            }
        }
        Ok(())
    }

    fn check_use(&self, scope: &Scope<'a>, used: &TopUse) -> Result<(), Fault> {
        self.look_up(scope, &used.path)?;
        let name = used_name(used);
        let is_same = used.path.package.is_none() && used.path.name.name == name.name;
        if is_same {
            return Ok(());
        }
        self.check_free(scope, name)
    }

    fn check_free(&self, scope: &Scope<'a>, name: &Ident) -> Result<(), Fault> {
        let package = self.package(scope.package)?;
        if package.members.get(name.name.as_str()).is_none() {
            return Ok(());
        }
        Err(
            self.refuse_name(
                scope.file,
                name.span,
                "the package has an interface or a world `",
                &name.name,
                "` too",
            )
            .because(Reason::TakenByPackage),
        )
    }

    // Takes in an interface or a world.
    fn add_node(&mut self, scope: usize, item: usize, decl: Decl<'a>) -> Result<(), Fault> {
        let index = self.nodes.len();
        let node = self.new_node(scope, item, decl)?;
        self.add_member(node.package, node.name, index)?;
        self.nodes.push(node)?;
        Ok(())
    }

    fn new_node(&self, scope: usize, item: usize, decl: Decl<'a>) -> Result<Node<'a>, Fault> {
        let of = self.scope(scope)?;
        let package = self.package(of.package)?;
        let name = decl.name();
        self.check_new(of.file, package, name)?;
        Ok(Node {
            index: self.nodes.len(),
            scope,
            item,
            package: of.package,
            file: of.file,
            id: id_of(self.alloc, &package.name, &name.name, package.version)?,
            name,
            decl,
            is_hidden: !self.is_there(decl.gates()),
        })
    }

    fn add_member(&mut self, package: usize, name: &Ident, index: usize) -> Result<(), Fault> {
        match self.packages.get_mut(package) {
            Some(of) => of.members.insert(name.name.clone()?, index)?,
            None => return Err(Fault::Missing),
        };
        Ok(())
    }

    // Refuses a second interface or world of a name.
    fn check_new(&self, file: usize, package: &Package<'a>, name: &Ident) -> Result<(), Fault> {
        match package.members.get(name.name.as_str()) {
            Some(first) => Err(self.refuse_second(file, *first, name)),
            None => Ok(()),
        }
    }

    fn refuse_second(&self, file: usize, first: usize, name: &Ident) -> Fault {
        match self.node(first) {
            Ok(first) => {
                Fault::at(file, name.span, self.second(first, &name.name)).because(
                    Reason::MemberTwice,
                )
            }
            Err(fault) => fault,
        }
    }

    fn second(&self, first: &Node<'a>, name: &str) -> Result<String, AllocError> {
        let place = self.place(first.file, first.name.span)?;
        format!(in self.alloc; "the package has `{name}` twice: it stands at {place} too")
    }
}

fn place_in(alloc: Global, file: &SourceFile, span: Span) -> Result<String, AllocError> {
    let position = position_of(&file.text, span.start);
    let (name, line, column) = (&file.name, position.line, position.column);
    format!(in alloc; "{name}:{line}:{column}")
}

// The name that a `use` outside of interfaces and worlds gives.
fn used_name(used: &TopUse) -> &Ident {
    match &used.alias {
        Some(alias) => alias,
        None => &used.path.name,
    }
}
