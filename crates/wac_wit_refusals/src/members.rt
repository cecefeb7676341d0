//! Paths that name no package, or nothing in it.

ghost use Rattle.std.specs.Prelude.{◌≡◌, ◌↔◌, ℕ, Contains, IfOk, IsTrue, Some};
ghost use Rattle.wac_wit_refusals.specs.PathReasons.{IsOwnPackage, IsUnknownMember, IsUnknownPackage, LeadsDirectly};
ghost use Rattle.wac_wit_refusals.specs.PathSteps.{LacksMember, LeadsNowhere};
ghost use Rattle.wac_wit_refusals_sites.specs.Judging.{Judges};
ghost use Rattle.wac_wit_refusals_sites.specs.Leading.{IsKnownPath};
ghost use Rattle.wac_wit_refusals_sites.specs.Paths.{name_of_item};
ghost use Rattle.wac_wit_scopes.specs.Scopes.{scope_syntax};
ghost use Rattle.wac_wit_scopes.specs.WitSources.{HaveOneName, IsPackageOf, IsScopeOf, ScopeSyntax, WitSources, given_name, ident_text, package_id};
ghost use Rattle.wac_wit_scopes.specs.declared.scopes.ScopeItems.{ScopeItems as Scopes};
ghost use Rattle.wac_wit_syntax.specs.declared.tree.TopItem.TheVariants as top;
ghost use Rattle.wac_wit_syntax.specs.declared.tree.TopUse.{TopUse as UseOf};

use std::alloc::AllocError;
use wac_wit_refusals_sites::{Judge, PlacedPath, Sought, is_at, is_named, is_package_of, name_of};
use wac_wit_scopes::{ScopeItems, have_one_name, is_same_package, used_name};
use wac_wit_syntax::{Ident, PackageName, Path, Span, TopItem};

/// Whether a path names a package that isn't there.
pub(crate) fn is_unknown_package(
    judge: &Judge<'_>,
    file: usize,
    span: Span,
) -> Result<bool, AllocError>
    ensures { IfOk result (λ is. IsTrue is → (of : WitSources) → Judges of judge.now → IsUnknownPackage of file span) }
{
    let paths = judge.paths_in(file)?;
    for path in &paths {
        if is_path_unnamed(judge, path, span) {
            return Ok(true);
        }
    }
    Ok(false)
}

fn is_path_unnamed(judge: &Judge<'_>, of: &PlacedPath<'_>, span: Span) -> bool
    ensures { IsTrue result → (sources : WitSources) → Judges sources judge.now → (file : ℕ) → IsKnownPath sources file of.now → IsUnknownPackage sources file span }
{
    match &of.path.package {
        Some(named) => is_at(named.span, span) && judge.is_unnamed(named),
        None => false,
    }
}

/// Whether a path names the package that it stands in.
pub(crate) fn is_own_package(judge: &Judge<'_>, file: usize, span: Span) -> Result<bool, AllocError>
    ensures { IfOk result (λ is. IsTrue is → (of : WitSources) → Judges of judge.now → IsOwnPackage of file span) }
{
    let paths = judge.paths_in(file)?;
    for path in &paths {
        if names_own(path, span) {
            return Ok(true);
        }
    }
    Ok(false)
}

/// Whether a path leads to nothing in a package.
pub(crate) fn is_unknown_member(
    judge: &Judge<'_>,
    file: usize,
    span: Span,
) -> Result<bool, AllocError>
    ensures { IfOk result (λ is. IsTrue is → (of : WitSources) → Judges of judge.now → IsUnknownMember of file span) }
{
    let paths = judge.paths_in(file)?;
    for path in &paths {
        if leads_nowhere(judge, path, span) {
            return Ok(true);
        }
    }
    Ok(false)
}

fn leads_nowhere(judge: &Judge<'_>, of: &PlacedPath<'_>, span: Span) -> bool
    ensures { IsTrue result → (sources : WitSources) → Judges sources judge.now → (file : ℕ) → IsKnownPath sources file of.now → IsUnknownMember sources file span }
{
    if !is_at(of.path.name.span, span) || !leads_directly(of) {
        return false;
    }
    has_package(judge, &of.scope, of.path) && lacks_member(judge, &of.scope, of.path)
}

// Whether the package of a path is there.
fn has_package(judge: &Judge<'_>, from: &ScopeItems<'_>, path: &Path) -> bool
    ensures { IsTrue result → (of : WitSources) → Judges of judge.now → (v : ScopeSyntax) × IsScopeOf of v × IsPackageOf of (scope_syntax from.now) path.now.package v.package }
{
    for scope in &judge.scopes {
        if is_package_of(from, &path.package, scope) {
            return true;
        }
    }
    false
}

// Whether no package that a path may name has something of the path's name.
fn lacks_member(judge: &Judge<'_>, from: &ScopeItems<'_>, path: &Path) -> bool
    ensures { IsTrue result → (of : WitSources) → Judges of judge.now → LeadsNowhere of (scope_syntax from.now) path.now }
{
    match &path.package {
        Some(named) if judge.is_exact(named) => is_lacking(judge, named, &path.name),
        Some(named) => are_lacking(judge, named, &path.name),
        None => is_lacking(judge, from.package, &path.name),
    }
}

// Whether a package has nothing of a name.
fn is_lacking(judge: &Judge<'_>, package: &PackageName, name: &Ident) -> bool
    ensures { IsTrue result → (w : Scopes) → Contains judge.now.scopes.items w → package_id «package».now ≡ package_id w.package.now → LacksMember w.items.now (ident_text name.now) }
{
    for scope in &judge.scopes {
        if is_same_package(package, scope.package) && !lacks(scope.items, name) {
            return false;
        }
    }
    true
}

// The same of all versions of a package.
fn are_lacking(judge: &Judge<'_>, package: &PackageName, name: &Ident) -> bool
    ensures { IsTrue result → (w : Scopes) → Contains judge.now.scopes.items w → HaveOneName (package_id w.package.now) (package_id «package».now) → LacksMember w.items.now (ident_text name.now) }
{
    for scope in &judge.scopes {
        if have_one_name(scope.package, package) && !lacks(scope.items, name) {
            return false;
        }
    }
    true
}

fn names_own(of: &PlacedPath<'_>, span: Span) -> bool
    ensures { IsTrue result → (sources : WitSources) (file : ℕ) → IsKnownPath sources file of.now → IsOwnPackage sources file span }
{
    match &of.path.package {
        Some(named) => is_at(named.span, span) && is_named(named, &of.scope),
        None => false,
    }
}

// Whether a path goes by no `use` outside of interfaces and worlds.
fn leads_directly(of: &PlacedPath<'_>) -> bool
    ensures { IsTrue result → LeadsDirectly (scope_syntax of.now.scope) of.now.seeks of.now.path.now }
{
    match of.seeks {
        Sought::OtherName => true,
        _ => of.path.package.is_some() || is_unused(of.scope.items, &of.path.name),
    }
}

// Whether no `use` outside of interfaces and worlds gives a name.
fn is_unused(items: &[TopItem], name: &Ident) -> bool
    ensures { IsTrue result → (u : UseOf) → Contains items.now (top.Use u) → given_name u.path.name u.alias ≡ ident_text name.now → ⊥ }
{
    for item in items {
        if gives(item, name) {
            return false;
        }
    }
    true
}

// Whether it is a `use` that gives a name.
fn gives(item: &TopItem, name: &Ident) -> bool
    ensures { (u : UseOf) → item.now ≡ top.Use u → given_name u.path.name u.alias ≡ ident_text name.now → IsTrue result }
{
    match item {
        TopItem::Use(used) => used_name(used).name == name.name,
        _ => false,
    }
}

// Whether no interface and no world has a name.
fn lacks(items: &[TopItem], name: &Ident) -> bool
    ensures { IsTrue result → LacksMember items.now (ident_text name.now) }
{
    for item in items {
        if is_member(item, name) {
            return false;
        }
    }
    true
}

fn is_member(item: &TopItem, name: &Ident) -> bool
    ensures { IsTrue result ↔ name_of_item item.now ≡ Some (ident_text name.now) }
{
    match name_of(item) {
        Some(of) => of.name == name.name,
        None => false,
    }
}
