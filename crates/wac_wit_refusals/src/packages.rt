//! What files say of packages.

ghost use Rattle.std.specs.Prelude.{◌≡◌, IfSome, IsTrue, Some};
ghost use Rattle.wac_wit_refusals.specs.Packages.{HasUpperCase, HasUpperCaseIn, IsAnotherPackage, IsGroupNameless, IsNamedElsewhere, IsNameless, IsPackageTwice, IsUpperCase, NamesAnother};
ghost use Rattle.wac_wit_refusals.specs.Trees.{IsFileTree, IsPlacedName, package_place, wit_sources};
ghost use Rattle.wac_wit_scopes.specs.WitSources.{WitSources, package_id, version_text};

use wac_wit_refusals_sites::is_at;
use wac_wit_scopes::{SourceTrees, is_same_package};
use wac_wit_syntax::{Document, Ident, PackageName, Span};

/// A file that is read.
#[derive(Clone, Copy)]
pub(crate) struct FileTree<'t> {
    pub(crate) index: usize,
    pub(crate) group: usize,
    pub(crate) document: &'t Document,
}

/// The name of a package, and where it stands.
#[derive(Clone, Copy)]
pub(crate) struct NamedPackage<'n> {
    pub(crate) name: &'n PackageName,
    pub(crate) file: usize,
    pub(crate) group: usize,
    /// The index of the package among those in the file, if it is written there.
    pub(crate) nested: Option<usize>,
}

// The file at an index.
fn file_at<'s>(sources: &SourceTrees<'s>, index: usize) -> Option<FileTree<'s>>
    ensures { IfSome result (λ f. (f.index ≡ index) × IsFileTree (wit_sources sources.now) f) }
{
    let file = sources.files.get(index)?;
    let document = sources.documents.get(index)?;
    Some(FileTree {
        index,
        group: file.group,
        document,
    })
}

/// Whether a file names another package than a file beside it.
pub(crate) fn is_another_package(sources: &SourceTrees<'_>, file: usize, span: Span) -> bool
    ensures { IsTrue result → IsAnotherPackage (wit_sources sources.now) file span }
{
    let Some(here) = file_at(sources, file) else {
        return false;
    };
    let Some(name) = &here.document.package else {
        return false;
    };
    if !is_at(name.span, span) {
        return false;
    }
    for index in 0..sources.documents.len() {
        if let Some(other) = file_at(sources, index) {
            if other.group == here.group && names_another(other.document, name) {
                return true;
            }
        }
    }
    false
}

// Whether a file names another package than this one.
fn names_another(document: &Document, name: &PackageName) -> bool
    ensures { IsTrue result → NamesAnother document.now name.now }
{
    match &document.package {
        Some(other) => are_different(other, name),
        None => false,
    }
}

fn are_different(left: &PackageName, right: &PackageName) -> bool
    ensures { IsTrue result → package_id left.now ≡ package_id right.now → ⊥ }
{
    left.namespace.name != right.namespace.name
        || left.name.name != right.name.name
        || are_versions_different(left, right)
}

fn are_versions_different(left: &PackageName, right: &PackageName) -> bool
    ensures { IsTrue result → version_text left.now.version ≡ version_text right.now.version → ⊥ }
{
    match (&left.version, &right.version) {
        (Some(left), Some(right)) => left.text != right.text,
        (None, None) => false,
        _ => true,
    }
}

/// Whether the name of a package has an upper case letter, in the part that stands at this place.
pub(crate) fn is_upper_case(sources: &SourceTrees<'_>, file: usize, span: Span) -> bool
    ensures { IsTrue result → IsUpperCase (wit_sources sources.now) file span }
{
    let Some(here) = file_at(sources, file) else {
        return false;
    };
    if let Some(name) = &here.document.package {
        if has_upper_case(name, span) {
            return true;
        }
    }
    for nested in &here.document.packages {
        if has_upper_case(&nested.name, span) {
            return true;
        }
    }
    false
}

fn has_upper_case(name: &PackageName, span: Span) -> bool
    ensures { IsTrue result → HasUpperCase name.now span }
{
    if is_upper_case_at(&name.namespace, span) {
        return true;
    }
    is_upper_case_at(&name.name, span)
}

fn is_upper_case_at(part: &Ident, span: Span) -> bool
    ensures stands { IsTrue result → part.now.span ≡ span }
    ensures has { IsTrue result → HasUpperCaseIn part.now }
{
    is_at(part.span, span)
        && part
            .name
            .as_bytes()
            .iter()
            .any(|byte| byte.is_ascii_uppercase())
}

/// Whether the package whose name stands at this place is there twice.
pub(crate) fn is_package_twice(sources: &SourceTrees<'_>, file: usize, span: Span) -> bool
    ensures { IsTrue result → IsPackageTwice (wit_sources sources.now) file span }
{
    let Some(name) = name_at(sources, file, span) else {
        return false;
    };
    for index in 0..sources.documents.len() {
        if let Some(other) = file_at(sources, index) {
            if is_named_in(&name, &other) {
                return true;
            }
        }
    }
    false
}

// The name of a package that stands at a place.
fn name_at<'s>(sources: &SourceTrees<'s>, file: usize, span: Span) -> Option<NamedPackage<'s>>
    ensures { IfSome result (λ n. (n.file ≡ file) × (n.name.now.span ≡ span) × IsPlacedName (wit_sources sources.now) n) }
{
    let here = file_at(sources, file)?;
    if let Some(name) = &here.document.package {
        if is_at(name.span, span) {
            return Some(NamedPackage {
                name,
                file,
                group: here.group,
                nested: None,
            });
        }
    }
    for (index, nested) in here.document.packages.iter().enumerate() {
        if is_at(nested.name.span, span) {
            return Some(NamedPackage {
                name: &nested.name,
                file,
                group: here.group,
                nested: Some(index),
            });
        }
    }
    None
}

// Whether a file has the same package elsewhere.
fn is_named_in(name: &NamedPackage<'_>, other: &FileTree<'_>) -> bool
    ensures { IsTrue result → (of : WitSources) → IsPlacedName of name.now → IsFileTree of other.now → IsNamedElsewhere of (package_place name.now) (package_id name.now.name.now) }
{
    if is_named_by(name, other) {
        return true;
    }
    is_named_inside(name, other)
}

// Whether a file names the same package, but not together with what names it.
fn is_named_by(name: &NamedPackage<'_>, other: &FileTree<'_>) -> bool
    ensures { IsTrue result → (of : WitSources) → IsPlacedName of name.now → IsFileTree of other.now → IsNamedElsewhere of (package_place name.now) (package_id name.now.name.now) }
{
    match &other.document.package {
        Some(own) => is_apart(name, other) && is_same_package(own, name.name),
        None => false,
    }
}

// Whether it isn't a file beside this one that has the name.
fn is_apart(name: &NamedPackage<'_>, other: &FileTree<'_>) -> bool
    ensures { IsTrue result → name.now.nested ≡ None → name.now.group ≡ other.now.group → ⊥ }
{
    match name.nested {
        Some(_) => true,
        None => name.group != other.group,
    }
}

// Whether the same package is written elsewhere, inside of a file.
fn is_named_inside(name: &NamedPackage<'_>, other: &FileTree<'_>) -> bool
    ensures { IsTrue result → (of : WitSources) → IsPlacedName of name.now → IsFileTree of other.now → IsNamedElsewhere of (package_place name.now) (package_id name.now.name.now) }
{
    for (index, nested) in other.document.packages.iter().enumerate() {
        if is_elsewhere(name, other.index, index) && is_same_package(&nested.name, name.name) {
            return true;
        }
    }
    false
}

// Whether a name doesn't stand at the head of a package inside of a file.
fn is_elsewhere(name: &NamedPackage<'_>, file: usize, index: usize) -> bool
    ensures { IsTrue result → record { file = file; nested = Some index } ≡ package_place name.now → ⊥ }
{
    match name.nested {
        Some(nested) => name.file != file || nested != index,
        None => true,
    }
}

/// Whether no file beside it names the package that a file is of.
pub(crate) fn is_nameless(sources: &SourceTrees<'_>, file: usize, span: Span) -> bool
    ensures { IsTrue result → IsNameless (wit_sources sources.now) file span }
{
    let Some(here) = file_at(sources, file) else {
        return false;
    };
    let beginning = Span { start: 0, end: 1 };
    is_at(span, beginning) && is_group_nameless(sources, here.group)
}

fn is_group_nameless(sources: &SourceTrees<'_>, group: usize) -> bool
    ensures { IsTrue result → IsGroupNameless (wit_sources sources.now) group }
{
    for index in 0..sources.documents.len() {
        let Some(other) = file_at(sources, index) else {
            return false;
        };
        if other.group == group && other.document.package.is_some() {
            return false;
        }
    }
    true
}
