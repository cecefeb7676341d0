//! Where paths lead.

ghost use Rattle.std.specs.Prelude.{◌≡◌, ◌↔◌, IsTrue};
ghost use Rattle.wac_wit_scopes.specs.Scopes.{IsKnownScope, IsNamedAs, IsPackageAt, LeadsBy, scope_syntax};
ghost use Rattle.wac_wit_scopes.specs.WitSources.{PathLeadsTo, WitSources, given_name, ident_text};

use super::packages::{have_one_name, is_same_package};
use super::scopes::ScopeItems;
use wac_wit_syntax::{Ident, PackageName, Path, TopItem, TopUse};

/// Whether a path leads to a name, by way of a `use` outside of interfaces and worlds if there is
/// one.
pub fn leads(
    from: &ScopeItems<'_>,
    path: &Path,
    via: Option<usize>,
    to: &ScopeItems<'_>,
    name: &Ident,
) -> bool
    ensures leads { IsTrue result → (of : WitSources) → IsKnownScope of to.now → PathLeadsTo of (scope_syntax from.now) path.now (scope_syntax to.now) (ident_text name.now) }
    ensures exactly { IsTrue result ↔ LeadsBy from.now path.now to.now (ident_text name.now) via }
{
    let Some(item) = via else {
        return leads_directly(from, path, to, name);
    };
    let Some(TopItem::Use(used)) = from.items.get(item) else {
        return false;
    };
    path.package.is_none()
        && used_name(used).name == path.name.name
        && leads_directly(from, &used.path, to, name)
}

/// The name that a `use` outside of interfaces and worlds gives.
pub fn used_name(used: &TopUse) -> &Ident
    ensures { ident_text result.now ≡ given_name used.now.path.name used.now.alias }
{
    match &used.alias {
        Some(alias) => alias,
        None => &used.path.name,
    }
}

fn leads_directly(from: &ScopeItems<'_>, path: &Path, to: &ScopeItems<'_>, name: &Ident) -> bool
    ensures { IsTrue result ↔ ((ident_text path.now.name ≡ ident_text name.now) × IsPackageAt from.now path.now.package to.now) }
{
    path.name.name == name.name && is_package_of(from, &path.package, to)
}

// Whether it is the package that a path names.
fn is_package_of(from: &ScopeItems<'_>, package: &Option<PackageName>, to: &ScopeItems<'_>) -> bool
    ensures { IsTrue result ↔ IsPackageAt from.now «package».now to.now }
{
    match package {
        Some(named) => is_named(named, to),
        None => is_same_package(from.package, to.package),
    }
}

// Whether it is the package of a name, or the only one where that has no version.
fn is_named(named: &PackageName, to: &ScopeItems<'_>) -> bool
    ensures { IsTrue result ↔ IsNamedAs named.now to.now }
{
    is_same_package(named, to.package)
        || named.version.is_none() && to.is_alone && have_one_name(to.package, named)
}
