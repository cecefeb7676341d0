//! Names of packages, and which packages they name.

ghost use Rattle.std.specs.Prelude.{◌≡◌, Contains, IsTrue};
ghost use Rattle.wac_wit_refusals_sites.specs.Judging.{Judges};
ghost use Rattle.wac_wit_refusals_sites.specs.Leading.{HasOtherVersion};
ghost use Rattle.wac_wit_scopes.specs.Scopes.{IsKnownScope, scope_syntax};
ghost use Rattle.wac_wit_scopes.specs.WitSources.{HaveOneName, IsNamedPackage, IsOnlyVersion, IsPackageOf, IsScopeOf, ScopeSyntax, WitSources, package_id};
ghost use Rattle.wac_wit_scopes.specs.declared.scopes.ScopeItems.{ScopeItems as Scopes};

use super::judge::Judge;
use wac_wit_scopes::{ScopeItems, have_one_name, is_same_package};
use wac_wit_syntax::PackageName;

impl Judge<'_> {
    /// Whether a name of a package names none that is there.
    pub fn is_unnamed(&self, named: &PackageName) -> bool
        ensures { IsTrue result → (of : WitSources) → Judges of self.now → (w : ScopeSyntax) → IsScopeOf of w → IsNamedPackage of named.now w.package → ⊥ }
    {
        self.is_exact(named) && self.lacks_package(named)
    }

    /// Whether a name can name no other package than the one that has it with its version: it has
    /// a version, or there are several or none.
    pub fn is_exact(&self, named: &PackageName) -> bool
        ensures { IsTrue result → (of : WitSources) → Judges of self.now → (w : ScopeSyntax) → IsScopeOf of w → IsNamedPackage of named.now w.package → package_id named.now ≡ w.package }
    {
        named.version.is_some() || self.is_ambiguous(named)
    }

    // Whether no package is the only one of its name that has this one.
    fn is_ambiguous(&self, named: &PackageName) -> bool
        ensures { IsTrue result → (of : WitSources) → Judges of self.now → (w : ScopeSyntax) → IsScopeOf of w → HaveOneName w.package (package_id named.now) → IsOnlyVersion of w.package → ⊥ }
    {
        for scope in &self.scopes {
            if have_one_name(scope.package, named) {
                return self.has_other(scope.package);
            }
        }
        true
    }

    // Whether there is another version of a package.
    fn has_other(&self, package: &PackageName) -> bool
        ensures { IsTrue result → (of : WitSources) → Judges of self.now → HasOtherVersion of (package_id «package».now) }
    {
        for scope in &self.scopes {
            if have_one_name(scope.package, package) && !is_same_package(scope.package, package) {
                return true;
            }
        }
        false
    }

    // Whether no package has a name with its version.
    fn lacks_package(&self, named: &PackageName) -> bool
        ensures { IsTrue result → (w : Scopes) → Contains self.now.scopes.items w → package_id named.now ≡ package_id w.package.now → ⊥ }
    {
        for scope in &self.scopes {
            if is_same_package(named, scope.package) {
                return false;
            }
        }
        true
    }
}

/// Whether a scope is of the package that a path names.
pub fn is_package_of(
    from: &ScopeItems<'_>,
    package: &Option<PackageName>,
    to: &ScopeItems<'_>,
) -> bool
    ensures { IsTrue result → (of : WitSources) → IsKnownScope of to.now → IsPackageOf of (scope_syntax from.now) «package».now (scope_syntax to.now).package }
{
    match package {
        Some(named) => is_named(named, to),
        None => is_same_package(to.package, from.package),
    }
}

/// Whether a scope is of the package of a name.
pub fn is_named(named: &PackageName, to: &ScopeItems<'_>) -> bool
    ensures { IsTrue result → (of : WitSources) → IsKnownScope of to.now → IsNamedPackage of named.now (scope_syntax to.now).package }
{
    is_same_package(named, to.package)
        || named.version.is_none() && to.is_alone && have_one_name(to.package, named)
}
