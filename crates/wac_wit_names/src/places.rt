//! Where paths lead, by indices.

use super::catalog::{Catalog, Decl, Scope};
use super::names::used_as;
use super::texts::key_of;
use std::alloc::AllocError;
use wac_wit_syntax::{PackageName, Path};

/// Where a path leads.
#[derive(Clone, Copy)]
pub struct FoundPlace {
    /// The index of the interface.
    pub node: usize,
    /// The index, among the items of the scope, of the `use` that gives the name of the path.
    pub via: Option<usize>,
}

impl<'a> Catalog<'a> {
    /// The interface that a path in the scope at an index leads to. It is the one of
    /// [`find_interface`](Catalog::find_interface), and nothing where that refuses the path.
    pub fn find_place(&self, scope: usize, path: &Path) -> Result<Option<FoundPlace>, AllocError> {
        let Some(scope) = self.scopes.get(scope) else {
            return Ok(None);
        };
        let Some(used) = used_as(scope, path) else {
            return self.place_of(scope, path, None);
        };
        self.place_of(scope, &used.used.path, Some(used.item))
    }

    // What a path leads to that no `use` leads on.
    fn place_of(
        &self,
        scope: &Scope<'a>,
        path: &Path,
        via: Option<usize>,
    ) -> Result<Option<FoundPlace>, AllocError> {
        let package = match &path.package {
            Some(name) => self.other_package_index(scope, name)?,
            None => Some(scope.package),
        };
        let Some(package) = package else {
            return Ok(None);
        };
        match self.member(package, &path.name.name) {
            Some(node) if self.is_found(node) => Ok(Some(FoundPlace { node, via })),
            _ => Ok(None),
        }
    }

    // The index of a package that isn't that of the file.
    fn other_package_index(
        &self,
        scope: &Scope<'a>,
        name: &PackageName,
    ) -> Result<Option<usize>, AllocError> {
        let key = key_of(self.alloc, name)?;
        match self.package_index(name, &key) {
            Some(index) if index != scope.package => Ok(Some(index)),
            _ => Ok(None),
        }
    }

    // The index of what has a name in a package.
    fn member(&self, package: usize, name: &str) -> Option<usize> {
        self.packages.get(package)?.members.get(name).copied()
    }

    // Whether an interface stands at an index that no feature hides.
    fn is_found(&self, node: usize) -> bool {
        match self.nodes.get(node) {
            Some(of) => !of.is_hidden && matches!(of.decl, Decl::Interface(_)),
            None => false,
        }
    }
}
