//! Where the items of packages stand.

ghost use Rattle.std.specs.Prelude.{◌≡◌, ◌↔◌, ◌≤◌, ℕ, IfOk, IfSome, IsSome, OnOk, Some, length, nat_eq, slice_get};
ghost use Rattle.indexmap.specs.IndexMap.{get, get_by_text};
ghost use Rattle.wac_wit_names.specs.declared.features.Features.{Features};
ghost use Rattle.wac_wit_scopes.specs.AllScopes.{AreGroupsKnown, HasAllScopes, HasNestedScopes, HasScopes};
ghost use Rattle.wac_wit_scopes.specs.Scopes.{HasScope, IsKnownScope};
ghost use Rattle.wac_wit_scopes.specs.Naming.{AddsScopes, AreScopes, HasNested, IsFileOf, IsScopeIn};
ghost use Rattle.wac_wit_scopes.specs.WitSources.{HaveClearPackages, IsScopeOf, ScopeSyntax, WitSources, scope_in, sources_of};
ghost use Rattle.wac_wit_scopes.specs.declared.scopes.ScopeItems.{ScopeItems as Scopes};

use super::packages::{Versions, groups_of, is_alone, versions_in};
use indexmap::IndexMap;
use std::alloc::{AllocError, Global};
use wac_wit_names::SourceFile;
use wac_wit_syntax::{Document, NestedPackage, PackageName, TopItem};

/// The items of a file, or of a package that is written inside one.
#[derive(Clone, Copy)]
pub struct ScopeItems<'s> {
    /// The package that they are in.
    pub package: &'s PackageName,
    /// These.
    pub items: &'s [TopItem],
    /// The index of the file.
    pub file: usize,
    /// The group of files that the package is in.
    pub group: usize,
    /// Whether no other version of the package is there.
    pub is_alone: bool,
}

// The index and the group of a file.
#[derive(Clone, Copy)]
pub(crate) struct FilePlace {
    pub(crate) file: usize,
    pub(crate) group: usize,
}

/// The items of each file, and behind them those of the packages inside it. Nothing where no file
/// of a group names the package, or two name different ones.
pub fn scopes_of<'s>(
    alloc: Global,
    files: &[SourceFile],
    documents: &'s [Document],
) -> Result<Option<Vec<ScopeItems<'s>>>, AllocError>
    ensures known { IfOk result (λ o. IfSome o (λ ws. (features : Features) (i : ℕ) (w : Scopes) → slice_get ws.items i ≡ Some w → IsKnownScope (sources_of files.now documents.now features) w)) }
    ensures all { IfOk result (λ o. IfSome o (λ ws. (features : Features) (w : ScopeSyntax) → IsScopeOf (sources_of files.now documents.now features) w → HasScope ws.items w)) }
    ensures clear { IfOk result (λ o. (features : Features) → IsSome o ↔ ((length files.now ≡ length documents.now) × HaveClearPackages (sources_of files.now documents.now features))) }
{
    if files.len() != documents.len() {
        return Ok(None);
    }
    let Some(groups) = groups_of(alloc, files, documents)? else {
        return Ok(None);
    };
    let versions = versions_in(alloc, documents)?;
    scopes_in(alloc, files, documents, &groups, &versions)
}

fn scopes_in<'s>(
    alloc: Global,
    files: &[SourceFile],
    documents: &'s [Document],
    groups: &IndexMap<usize, &'s PackageName>,
    versions: &IndexMap<String, Versions<'s>>,
) -> Result<Option<Vec<ScopeItems<'s>>>, AllocError>
    ensures known { IfOk result (λ o. IfSome o (λ ws. (features : Features) → AreScopes (sources_of files.now documents.now features) (get nat_eq groups.now) (get_by_text versions.now) ws.items)) }
    ensures all { IfOk result (λ o. IfSome o (λ ws. HasAllScopes ws.items (get nat_eq groups.now) files.now documents.now)) }
    ensures clear { IfOk result (λ o. length documents.now ≤ length files.now → AreGroupsKnown (get nat_eq groups.now) files.now documents.now → IsSome o) }
{
    let mut scopes = Vec::new(alloc);
    for (index, document) in documents.iter().enumerate() {
        let Some(file) = files.get(index) else {
            return Ok(None);
        };
        let Some(package) = groups.get(&file.group) else {
            return Ok(None);
        };
        let place = FilePlace {
            file: index,
            group: file.group,
        };
        push_document(alloc, &mut scopes, versions, place, package, document)?;
    }
    Ok(Some(scopes))
}

// Puts the items of a file of a package last, and then those of the packages inside it.
fn push_document<'s>(
    alloc: Global,
    scopes: &mut Vec<ScopeItems<'s>>,
    versions: &IndexMap<String, Versions<'s>>,
    place: FilePlace,
    package: &'s PackageName,
    document: &'s Document,
) -> Result<(), AllocError>
    ensures known { OnOk result ((of : WitSources) → IsFileOf of place «package».now document.now → AddsScopes of (get_by_text versions.now) scopes.old.items scopes.new.items) }
    ensures keeps { OnOk result ((w : ScopeSyntax) → HasScope scopes.old.items w → HasScope scopes.new.items w) }
    ensures has { OnOk result (HasScopes scopes.new.items «package».now document.now) }
{
    push_scope(alloc, scopes, versions, place, package, &document.items)?;
    push_nested(alloc, scopes, versions, place, &document.packages)
}

fn push_nested<'s>(
    alloc: Global,
    scopes: &mut Vec<ScopeItems<'s>>,
    versions: &IndexMap<String, Versions<'s>>,
    place: FilePlace,
    packages: &'s [NestedPackage],
) -> Result<(), AllocError>
    ensures known { OnOk result ((of : WitSources) → HasNested of place packages.now → AddsScopes of (get_by_text versions.now) scopes.old.items scopes.new.items) }
    ensures keeps { OnOk result ((w : ScopeSyntax) → HasScope scopes.old.items w → HasScope scopes.new.items w) }
    ensures has { OnOk result (HasNestedScopes scopes.new.items packages.now) }
{
    for nested in packages {
        push_scope(alloc, scopes, versions, place, &nested.name, &nested.items)?;
    }
    Ok(())
}

fn push_scope<'s>(
    alloc: Global,
    scopes: &mut Vec<ScopeItems<'s>>,
    versions: &IndexMap<String, Versions<'s>>,
    place: FilePlace,
    package: &'s PackageName,
    items: &'s [TopItem],
) -> Result<(), AllocError>
    ensures known { OnOk result ((of : WitSources) → IsScopeIn of place «package».now items.now → AddsScopes of (get_by_text versions.now) scopes.old.items scopes.new.items) }
    ensures keeps { OnOk result ((w : ScopeSyntax) → HasScope scopes.old.items w → HasScope scopes.new.items w) }
    ensures has { OnOk result (HasScope scopes.new.items (scope_in «package».now items.now)) }
{
    let is_alone = is_alone(alloc, versions, package)?;
    scopes.push(ScopeItems {
        package,
        items,
        file: place.file,
        group: place.group,
        is_alone,
    })?;
    Ok(())
}
