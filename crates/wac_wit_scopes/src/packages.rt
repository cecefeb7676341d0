//! Names of packages: which one a group of files has, and how many versions there are.

ghost use Rattle.std.specs.Prelude.{◌≡◌, ◌↔◌, ℕ, Contains, IfOk, IfSome, IsSome, IsTrue, OnOk, Some, length, nat_eq, string_bytes, true};
ghost use Rattle.indexmap.specs.IndexMap.{get, get_by_text};
ghost use Rattle.wac_wit_names.specs.declared.features.Features.{Features};
ghost use Rattle.wac_wit_syntax.specs.declared.tree.Document.{Document as Documents};
ghost use Rattle.wac_wit_syntax.specs.declared.tree.NestedPackage.{NestedPackage as Nested};
ghost use Rattle.wac_wit_syntax.specs.declared.tree.PackageName.{PackageName as Named};
ghost use Rattle.wac_wit_scopes.specs.AllScopes.{HasGroup, HasGroupOf, HasGroups};
ghost use Rattle.wac_wit_scopes.specs.Naming.{AreGroups, HasFile, IsKnownName, IsOnlyKnown, KnowsNamesOf, common_name};
ghost use Rattle.wac_wit_scopes.specs.WitSources.{HaveOneName, NameOnePackage, NamesGroup, WitSources, package_id, sources_of, version_text};

use indexmap::IndexMap;
use std::alloc::{AllocError, Global};
use wac_wit_names::SourceFile;
use wac_wit_syntax::{Document, NestedPackage, PackageName};

/// The versions of the packages of one name.
#[derive(Clone, Copy)]
pub(crate) struct Versions<'s> {
    /// The first package of the name.
    pub(crate) first: &'s PackageName,
    /// Whether all others have its version.
    pub(crate) is_one: bool,
}

/// The packages of groups of files. Nothing where two files of a group name different ones.
pub(crate) fn groups_of<'s>(
    alloc: Global,
    files: &[SourceFile],
    documents: &'s [Document],
) -> Result<Option<IndexMap<usize, &'s PackageName>>, AllocError>
    ensures named { IfOk result (λ o. IfSome o (λ m. (features : Features) → AreGroups (sources_of files.now documents.now features) (get nat_eq m))) }
    ensures all { IfOk result (λ o. IfSome o (λ m. HasGroups (get nat_eq m) files.now documents.now)) }
    ensures clear { IfOk result (λ o. (features : Features) → length files.now ≡ length documents.now → IsSome o ↔ NameOnePackage (sources_of files.now documents.now features)) }
{
    let mut groups = IndexMap::new(alloc);
    for (index, document) in documents.iter().enumerate() {
        let Some(file) = files.get(index) else {
            return Ok(None);
        };
        if !add_file(&mut groups, file.group, document)? {
            return Ok(None);
        }
    }
    Ok(Some(groups))
}

// Takes in the package that a file names, if it does, and says whether its group has no other.
fn add_file<'s>(
    groups: &mut IndexMap<usize, &'s PackageName>,
    group: usize,
    document: &'s Document,
) -> Result<bool, AllocError>
    ensures named { OnOk result ((of : WitSources) → HasFile of group document.now → AreGroups of (get nat_eq groups.old) → AreGroups of (get nat_eq groups.new)) }
    ensures keeps { OnOk result ((g : ℕ) (n : Named) → HasGroup (get nat_eq groups.old) g n → HasGroup (get nat_eq groups.new) g n) }
    ensures has { IfOk result (λ is. IsTrue is → HasGroupOf (get nat_eq groups.new) group document.now) }
    ensures clear { IfOk result (λ is. (of : WitSources) → HasFile of group document.now → AreGroups of (get nat_eq groups.old) → NameOnePackage of → IsTrue is) }
{
    match &document.package {
        Some(package) => add_group(groups, group, package),
        None => Ok(true),
    }
}

// Takes in the package of a group, and says whether the group has no other.
fn add_group<'s>(
    groups: &mut IndexMap<usize, &'s PackageName>,
    group: usize,
    package: &'s PackageName,
) -> Result<bool, AllocError>
    ensures named { OnOk result ((of : WitSources) → NamesGroup of group «package».now → AreGroups of (get nat_eq groups.old) → AreGroups of (get nat_eq groups.new)) }
    ensures keeps { OnOk result ((g : ℕ) (n : Named) → HasGroup (get nat_eq groups.old) g n → HasGroup (get nat_eq groups.new) g n) }
    ensures has { IfOk result (λ is. IsTrue is → HasGroup (get nat_eq groups.new) group «package».now) }
    ensures clear { IfOk result (λ is. (of : WitSources) → NamesGroup of group «package».now → AreGroups of (get nat_eq groups.old) → NameOnePackage of → IsTrue is) }
{
    if let Some(known) = groups.get(&group) {
        return Ok(is_same_package(known, package));
    }
    groups.insert(group, package)?;
    Ok(true)
}

/// The versions of all packages in files, by their names.
pub(crate) fn versions_in<'s>(
    alloc: Global,
    documents: &'s [Document],
) -> Result<IndexMap<String, Versions<'s>>, AllocError>
    ensures { IfOk result (λ m. (d : Documents) → Contains documents.now d → KnowsNamesOf (get_by_text m) d) }
{
    let mut versions = IndexMap::new(alloc);
    for document in documents {
        add_document(alloc, &mut versions, document)?;
    }
    Ok(versions)
}

fn add_document<'s>(
    alloc: Global,
    versions: &mut IndexMap<String, Versions<'s>>,
    document: &'s Document,
) -> Result<(), AllocError>
    ensures keeps { OnOk result ((n : Named) → IsKnownName (get_by_text versions.old) n → IsKnownName (get_by_text versions.new) n) }
    ensures knows { OnOk result (KnowsNamesOf (get_by_text versions.new) document.now) }
{
    add_own(alloc, versions, document)?;
    add_nested(alloc, versions, &document.packages)
}

fn add_own<'s>(
    alloc: Global,
    versions: &mut IndexMap<String, Versions<'s>>,
    document: &'s Document,
) -> Result<(), AllocError>
    ensures keeps { OnOk result ((n : Named) → IsKnownName (get_by_text versions.old) n → IsKnownName (get_by_text versions.new) n) }
    ensures knows { OnOk result ((n : Named) → document.now.package ≡ Some n → IsKnownName (get_by_text versions.new) n) }
{
    match &document.package {
        Some(package) => add_package(alloc, versions, package),
        None => Ok(()),
    }
}

fn add_nested<'s>(
    alloc: Global,
    versions: &mut IndexMap<String, Versions<'s>>,
    packages: &'s [NestedPackage],
) -> Result<(), AllocError>
    ensures keeps { OnOk result ((n : Named) → IsKnownName (get_by_text versions.old) n → IsKnownName (get_by_text versions.new) n) }
    ensures knows { OnOk result ((p : Nested) → Contains packages.now p → IsKnownName (get_by_text versions.new) p.name) }
{
    for nested in packages {
        add_package(alloc, versions, &nested.name)?;
    }
    Ok(())
}

fn add_package<'s>(
    alloc: Global,
    versions: &mut IndexMap<String, Versions<'s>>,
    package: &'s PackageName,
) -> Result<(), AllocError>
    ensures keeps { OnOk result ((n : Named) → IsKnownName (get_by_text versions.old) n → IsKnownName (get_by_text versions.new) n) }
    ensures knows { OnOk result (IsKnownName (get_by_text versions.new) «package».now) }
{
    let name = name_of(alloc, package)?;
    let with = with_version(versions.get(name.as_str()), package);
    versions.insert(name, with)?;
    Ok(())
}

// The versions of a name with that of another package of the name.
fn with_version<'s>(known: Option<&Versions<'s>>, package: &'s PackageName) -> Versions<'s>
    ensures keeps { IfSome known.entry (λ v. (result.first.now ≡ v.now.first.now) × (result.is_one ≡ true → v.now.is_one ≡ true)) }
    ensures has { result.is_one ≡ true → version_text result.first.now.version ≡ version_text «package».now.version }
{
    match known {
        Some(of) => Versions {
            first: of.first,
            is_one: of.is_one && is_same_version(of.first, package),
        },
        None => Versions {
            first: package,
            is_one: true,
        },
    }
}

/// Whether all packages of a name are this one.
pub(crate) fn is_alone(
    alloc: Global,
    versions: &IndexMap<String, Versions<'_>>,
    package: &PackageName,
) -> Result<bool, AllocError>
    ensures { IfOk result (λ is. IsTrue is → IsOnlyKnown (get_by_text versions.now) «package».now) }
{
    let name = name_of(alloc, package)?;
    match versions.get(name.as_str()) {
        Some(of) => Ok(of.is_one && is_same_version(of.first, package)),
        None => Ok(false),
    }
}

// The name of a package without its version, as `wasi:http`.
fn name_of(alloc: Global, package: &PackageName) -> Result<String, AllocError>
    ensures { IfOk result (λ t. string_bytes t ≡ common_name (package_id «package».now)) }
{
    let mut text = String::from_str(alloc, &package.namespace.name)?;
    text.push_str(":")?;
    text.push_str(&package.name.name)?;
    Ok(text)
}

/// Whether the two are one package.
pub fn is_same_package(left: &PackageName, right: &PackageName) -> bool
    ensures { IsTrue result ↔ (package_id left.now ≡ package_id right.now) }
{
    have_one_name(left, right) && is_same_version(left, right)
}

fn is_same_version(left: &PackageName, right: &PackageName) -> bool
    ensures { IsTrue result ↔ (version_text left.now.version ≡ version_text right.now.version) }
{
    match (&left.version, &right.version) {
        (Some(left), Some(right)) => left.text == right.text,
        (None, None) => true,
        _ => false,
    }
}

/// Whether the two are one package, but for its version.
pub fn have_one_name(left: &PackageName, right: &PackageName) -> bool
    ensures { IsTrue result ↔ HaveOneName (package_id left.now) (package_id right.now) }
{
    left.namespace.name == right.namespace.name && left.name.name == right.name.name
}
