//! Looks up paths.

use super::catalog::{Catalog, Decl, Node, Package, Scope, UsedName};
use super::error::Fault;
use super::nearest::Nearest;
use super::reason::Reason;
use super::texts::{joined, key_of, name_of};
use std::alloc::AllocError;
use wac_wit_syntax::{PackageName, Path, TopUse};

impl<'a> Catalog<'a> {
    /// The interface that a path in a scope leads to.
    pub fn find_interface(&self, scope: &Scope<'a>, path: &Path) -> Result<&Node<'a>, Fault> {
        let node = self.find(scope, path)?;
        match node.decl {
            Decl::Interface(_) => Ok(node),
            Decl::World(_) => Err(
                self.refuse_path(scope, path, "` is a world, not an interface")
                    .because(Reason::NotInterface),
            ),
        }
    }

    /// The world that a path in a scope leads to.
    pub fn find_world(&self, scope: &Scope<'a>, path: &Path) -> Result<&Node<'a>, Fault> {
        let node = self.find(scope, path)?;
        match node.decl {
            Decl::World(_) => Ok(node),
            Decl::Interface(_) => Err(
                self.refuse_path(scope, path, "` is an interface, not a world")
                    .because(Reason::NotWorld),
            ),
        }
    }

    // The interface or the world that a path leads to.
    fn find(&self, scope: &Scope<'a>, path: &Path) -> Result<&Node<'a>, Fault> {
        let node = match used_as(scope, path) {
            Some(used) => self.find_used(scope, path, used.used)?,
            None => self.look_up(scope, path)?,
        };
        if node.is_hidden {
            return Err(
                self.refuse_path(scope, path, "` is there with a feature alone that is off")
                    .because(Reason::HiddenMember),
            );
        }
        Ok(node)
    }

    // What a path leads to that is the name of a `use`. Of another package that names interfaces
    // alone, as the tools have it.
    fn find_used(&self, scope: &Scope<'a>, path: &Path, used: &TopUse) -> Result<&Node<'a>, Fault> {
        // where the `use` leads nowhere, that was refused there
        let node = match self.look_up(scope, &used.path) {
            Ok(node) => node,
            Err(fault) => return Err(known(fault)),
        };
        match node.decl {
            Decl::World(_) if !node.is_hidden && used.path.package.is_some() => {
                Err(
                    self.refuse_path(
                        scope,
                        path,
                        "` is a world of another package, of which a top-level `use` names no worlds",
                    )
                    .because(Reason::ForeignWorld),
                )
            }
            _ => Ok(node),
        }
    }

    // Refuses what a path leads to.
    fn refuse_path(&self, scope: &Scope<'a>, path: &Path, fault: &str) -> Fault {
        self.refuse_name(scope.file, path.name.span, "`", &path.name.name, fault)
    }

    /// Refuses a path that leads nowhere, though nothing may stand on it.
    pub(crate) fn check_path(&self, scope: &Scope<'a>, path: &Path) -> Result<(), Fault> {
        // where a `use` leads nowhere, that is refused there
        if used_as(scope, path).is_none() {
            self.look_up(scope, path)?;
        }
        Ok(())
    }

    /// The interface or the world of a name in its package, though a feature that is off may
    /// hide it.
    pub(crate) fn look_up(&self, scope: &Scope<'a>, path: &Path) -> Result<&Node<'a>, Fault> {
        let package = self.package_of(scope, path)?;
        match package.members.get(path.name.name.as_str()) {
            Some(node) => self.node(*node),
            None => Err(self.refuse_member(scope, package, path)),
        }
    }

    // The package in which a path leads to something.
    fn package_of(&self, scope: &Scope<'a>, path: &Path) -> Result<&Package<'a>, Fault> {
        match &path.package {
            Some(name) => self.named_package(scope, name),
            None => self.package(scope.package),
        }
    }

    // Refuses a name that a package doesn't have.
    fn refuse_member(&self, scope: &Scope<'a>, package: &Package<'a>, path: &Path) -> Fault {
        let message = self.member_message(package, &path.name.name);
        Fault::at(scope.file, path.name.span, message).because(Reason::UnknownMember)
    }

    fn member_message(&self, package: &Package<'a>, name: &str) -> Result<String, AllocError> {
        let mut message = format!(in self.alloc;
            "the package `{}` has no interface or world `{name}`",
            package.key
        )?;
        let mut nearest = Nearest::to(self.alloc, name);
        for other in package.members.keys() {
            nearest.offer(other)?;
        }
        nearest.push_hint(&mut message)?;
        Ok(message)
    }

    // The package of a name, which isn't that of the file.
    fn named_package(&self, scope: &Scope<'a>, name: &PackageName) -> Result<&Package<'a>, Fault> {
        let key = key_of(self.alloc, name)?;
        match self.package_index(name, &key) {
            Some(index) if index == scope.package => Err(
                self.refuse_name(
                    scope.file,
                    name.span,
                    "the package `",
                    &key,
                    "` names itself: the name alone does within it",
                )
                .because(Reason::OwnPackage),
            ),
            Some(index) => self.package(index),
            None => Err(Fault::at(scope.file, name.span, self.package_message(name, &key)).because(
                Reason::UnknownPackage,
            )),
        }
    }

    /// Where a package stands. One that is named without a version is the one without a version, or
    /// else the only one of that name.
    pub(crate) fn package_index(&self, name: &PackageName, key: &str) -> Option<usize> {
        if let Some(index) = self.by_key.get(key) {
            return Some(*index);
        }
        if name.version.is_some() {
            return None;
        }
        *self.by_name.get(key)?
    }

    // What is said of a package that isn't there.
    fn package_message(&self, name: &PackageName, key: &str) -> Result<String, AllocError> {
        let text = name_of(self.alloc, name)?;
        let mut message = joined(self.alloc, "there is no package `", key, "`")?;
        if !self.push_versions(&mut message, &text)? {
            self.push_nearest(&mut message, &text)?;
        }
        Ok(message)
    }

    // Puts the packages of a name last, and says whether there is one.
    fn push_versions(&self, message: &mut String, name: &str) -> Result<bool, AllocError> {
        let mut is_there = false;
        for package in &self.packages {
            if package.name.as_str() == name {
                write!(message, "; there is `{}`", package.key)?;
                is_there = true;
            }
        }
        Ok(is_there)
    }

    // Puts a question for the package of the nearest name last.
    fn push_nearest(&self, message: &mut String, name: &str) -> Result<(), AllocError> {
        let mut nearest = Nearest::to(self.alloc, name);
        for package in &self.packages {
            nearest.offer(&package.name)?;
        }
        nearest.push_hint(message)
    }
}

/// The `use` outside of interfaces and worlds that gives the name of a path.
pub(crate) fn used_as<'a>(scope: &Scope<'a>, path: &Path) -> Option<UsedName<'a>> {
    if path.package.is_some() {
        return None;
    }
    scope.uses.get(path.name.name.as_str()).copied()
}

// A refusal that was noted where it arose.
fn known(fault: Fault) -> Fault {
    match fault {
        Fault::Refused(_) => Fault::Known,
        other => other,
    }
}
