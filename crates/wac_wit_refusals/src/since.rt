//! Since when items are there.

ghost use Rattle.std.specs.Prelude.{◌≡◌, ◌⊎◌, Contains, IfSome, IsTrue};
ghost use Rattle.wac_wit_refusals.specs.Attributes.{IsAbovePackage, IsUnversioned, IsUnversionedIn, IsVersionAbove, IsYounger, IsYoungerIn, SaysSince, SinceIn, SinceInWorld, SinceInside, SinceOfExtern, SinceOfItem, SinceOfTop, SinceOfType, SinceOfWorldItem, extern_span};
ghost use Rattle.wac_wit_refusals_sites.specs.Judging.{Judges};
ghost use Rattle.wac_wit_scopes.specs.Scopes.{scope_syntax};
ghost use Rattle.wac_wit_scopes.specs.WitSources.{WitSources, package_id};
ghost use Rattle.wac_wit_syntax.specs.declared.tree.Method.{Method as MethodOf};

use semver::Version;
use std::alloc::Global;
use std::cmp::Ordering;
use wac_wit_refusals_sites::{Judge, is_at};
use wac_wit_scopes::ScopeItems;
use wac_wit_syntax::{
    Extern, ExternItem, Gate, Gates, InterfaceDecl, InterfaceItem, Method, PackageName, Span,
    TopItem, TypeDef, TypeItem, WorldDecl, WorldItem,
};

/// Whether what stands at a place is there since a version, and the package has none.
pub(crate) fn is_unversioned(judge: &Judge<'_>, file: usize, span: Span) -> bool
    ensures { IsTrue result → (of : WitSources) → Judges of judge.now → IsUnversioned of file span }
{
    for scope in &judge.scopes {
        if scope.file == file && is_unversioned_in(scope, span) {
            return true;
        }
    }
    false
}

/// Whether what stands at a place is there since a version above that of its package.
pub(crate) fn is_younger(judge: &Judge<'_>, file: usize, span: Span) -> bool
    ensures { IsTrue result → (of : WitSources) → Judges of judge.now → IsYounger of file span }
{
    for scope in &judge.scopes {
        if scope.file == file && is_younger_in(judge.alloc, scope, span) {
            return true;
        }
    }
    false
}

fn is_unversioned_in(scope: &ScopeItems<'_>, span: Span) -> bool
    ensures { IsTrue result → IsUnversionedIn (scope_syntax scope.now) span }
{
    match since_in(scope.items, span) {
        Some(_) => scope.package.version.is_none(),
        None => false,
    }
}

fn is_younger_in(alloc: Global, scope: &ScopeItems<'_>, span: Span) -> bool
    ensures { IsTrue result → IsYoungerIn (scope_syntax scope.now) span }
{
    match since_in(scope.items, span) {
        Some(since) => is_above_package(alloc, since, scope.package),
        None => false,
    }
}

// Whether a version is above that of a package.
fn is_above_package(alloc: Global, since: &Gate, package: &PackageName) -> bool
    ensures { IsTrue result → IsAbovePackage since.now (package_id «package».now) }
{
    match &package.version {
        Some(version) => is_above(alloc, &since.text, &version.text),
        None => false,
    }
}

// Whether both are versions, and the first is above the second.
fn is_above(alloc: Global, left: &str, right: &str) -> bool
    ensures { IsTrue result → IsVersionAbove left.now right.now }
{
    match (Version::parse(alloc, left), Version::parse(alloc, right)) {
        (Ok(left), Ok(right)) => left.cmp_precedence(&right) == Ordering::Greater,
        _ => false,
    }
}

// What `@since` says at a place.
fn since_in(items: &[TopItem], span: Span) -> Option<&Gate>
    ensures { IfSome result (λ since. SinceIn items.now since.now span) }
{
    for item in items {
        if let Some(since) = since_of_top(item, span) {
            return Some(since);
        }
    }
    None
}

fn since_of_top(item: &TopItem, span: Span) -> Option<&Gate>
    ensures { IfSome result (λ since. SinceOfTop item.now since.now span) }
{
    match item {
        TopItem::Use(_) => None,
        TopItem::Interface(it) => since_of_interface(it, span),
        TopItem::World(it) => since_of_world(it, span),
    }
}

fn since_of_interface(decl: &InterfaceDecl, span: Span) -> Option<&Gate>
    ensures { IfSome result (λ since. SaysSince decl.now.gates decl.now.name.span since.now span ⊎ SinceInside decl.now.items.items since.now span) }
{
    match since_at(&decl.gates, decl.name.span, span) {
        Some(since) => Some(since),
        None => since_inside(&decl.items, span),
    }
}

fn since_of_world(decl: &WorldDecl, span: Span) -> Option<&Gate>
    ensures { IfSome result (λ since. SaysSince decl.now.gates decl.now.name.span since.now span ⊎ SinceInWorld decl.now.items.items since.now span) }
{
    match since_at(&decl.gates, decl.name.span, span) {
        Some(since) => Some(since),
        None => since_in_world(&decl.items, span),
    }
}

fn since_inside(items: &[InterfaceItem], span: Span) -> Option<&Gate>
    ensures { IfSome result (λ since. SinceInside items.now since.now span) }
{
    for item in items {
        if let Some(since) = since_of_item(item, span) {
            return Some(since);
        }
    }
    None
}

fn since_of_item(item: &InterfaceItem, span: Span) -> Option<&Gate>
    ensures { IfSome result (λ since. SinceOfItem item.now since.now span) }
{
    match item {
        InterfaceItem::Use(it) => since_at(&it.gates, it.path.span, span),
        InterfaceItem::Type(it) => since_of_type(it, span),
        InterfaceItem::Func(it) => since_at(&it.gates, it.name.span, span),
    }
}

fn since_of_type(item: &TypeItem, span: Span) -> Option<&Gate>
    ensures { IfSome result (λ since. SinceOfType item.now since.now span) }
{
    if let Some(since) = since_at(&item.gates, item.name.span, span) {
        return Some(since);
    }
    match &item.def {
        TypeDef::Resource(methods) => since_of_method(methods, span),
        _ => None,
    }
}

fn since_of_method(methods: &[Method], span: Span) -> Option<&Gate>
    ensures { IfSome result (λ since. (m : MethodOf) × Contains methods.now m × SaysSince m.gates m.name.span since.now span) }
{
    for method in methods {
        if let Some(since) = since_at(&method.gates, method.name.span, span) {
            return Some(since);
        }
    }
    None
}

fn since_in_world(items: &[WorldItem], span: Span) -> Option<&Gate>
    ensures { IfSome result (λ since. SinceInWorld items.now since.now span) }
{
    for item in items {
        if let Some(since) = since_of_world_item(item, span) {
            return Some(since);
        }
    }
    None
}

fn since_of_world_item(item: &WorldItem, span: Span) -> Option<&Gate>
    ensures { IfSome result (λ since. SinceOfWorldItem item.now since.now span) }
{
    match item {
        WorldItem::Use(it) => since_at(&it.gates, it.path.span, span),
        WorldItem::Type(it) => since_of_type(it, span),
        WorldItem::Include(it) => since_at(&it.gates, it.path.span, span),
        WorldItem::Import(it) => since_of_extern(it, span),
        WorldItem::Export(it) => since_of_extern(it, span),
    }
}

fn since_of_extern(item: &ExternItem, span: Span) -> Option<&Gate>
    ensures { IfSome result (λ since. SinceOfExtern item.now since.now span) }
{
    if let Some(since) = since_at(&item.gates, package_place(&item.what), span) {
        return Some(since);
    }
    match &item.what {
        Extern::Inline(_, items) => since_inside(items, span),
        _ => None,
    }
}

// Where the name or the path of an import or an export stands.
fn package_place(what: &Extern) -> Span
    ensures { result ≡ extern_span what.now }
{
    match what {
        Extern::Path(path) => path.span,
        Extern::Func(name, _) => name.span,
        Extern::Inline(name, _) => name.span,
        Extern::Named(_, path) => path.span,
    }
}

// What attributes say of what stands at this place, if that is the one that is asked for.
fn since_at(gates: &Gates, place: Span, span: Span) -> Option<&Gate>
    ensures { IfSome result (λ since. SaysSince gates.now place since.now span) }
{
    if !is_at(place, span) {
        return None;
    }
    gates.since.as_ref()
}
