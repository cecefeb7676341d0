//! Names that are given twice in files and in packages.

ghost use Rattle.std.specs.Prelude.{◌≡◌, IfSome, IsTrue, Some};
ghost use Rattle.wac_wit_refusals.specs.Members.{GivesName, HasMember, HasMemberBeside, HasMemberElsewhere, HasMemberIn, HasMemberInOther, IsGivenElsewhere, IsGivenTwice, IsMemberTwice, IsTakenByPackage, IsTakenIn, IsTwiceIn, IsUseTwice, NamesMember, UsesOwn, used_ident};
ghost use Rattle.wac_wit_refusals_sites.specs.Judging.{Judges};
ghost use Rattle.wac_wit_refusals_sites.specs.Paths.{ident_of_item};
ghost use Rattle.wac_wit_scopes.specs.Scopes.{scope_syntax};
ghost use Rattle.wac_wit_scopes.specs.WitSources.{WitSources, ident_text, package_id};

use wac_wit_refusals_sites::{Judge, is_at, name_of};
use wac_wit_scopes::{ScopeItems, is_same_package};
use wac_wit_syntax::{Ident, PackageName, Span, TopItem, TopUse};

/// Whether a file gives a name twice by `use`, once at this place.
pub(crate) fn is_use_twice(judge: &Judge<'_>, file: usize, span: Span) -> bool
    ensures { IsTrue result → (of : WitSources) → Judges of judge.now → IsUseTwice of file span }
{
    for scope in &judge.scopes {
        if scope.file == file && is_given_twice(scope.items, span) {
            return true;
        }
    }
    false
}

/// Whether a file gives a name by `use`, at this place, that the package has.
pub(crate) fn is_taken_by_package(judge: &Judge<'_>, file: usize, span: Span) -> bool
    ensures { IsTrue result → (of : WitSources) → Judges of judge.now → IsTakenByPackage of file span }
{
    for scope in &judge.scopes {
        if scope.file == file && is_taken_in(judge, scope, span) {
            return true;
        }
    }
    false
}

fn is_taken_in(judge: &Judge<'_>, scope: &ScopeItems<'_>, span: Span) -> bool
    ensures { IsTrue result → (of : WitSources) → Judges of judge.now → IsTakenIn of (scope_syntax scope.now) span }
{
    for item in scope.items {
        if let TopItem::Use(used) = item {
            if is_taken(judge, scope.package, used, span) {
                return true;
            }
        }
    }
    false
}

// Whether a package has the name that a `use` gives at a place.
fn is_taken(judge: &Judge<'_>, package: &PackageName, used: &TopUse, span: Span) -> bool
    ensures stands { IsTrue result → (used_ident used.now).span ≡ span }
    ensures other { IsTrue result → UsesOwn used.now → ⊥ }
    ensures taken { IsTrue result → (of : WitSources) → Judges of judge.now → HasMember of (package_id «package».now) (ident_text (used_ident used.now)) }
{
    let name = given_by(used);
    is_at(name.span, span) && is_of_other(used, name) && has_member(judge, package, name)
}

// Whether a package has an interface or a world of a name.
fn has_member(judge: &Judge<'_>, package: &PackageName, name: &Ident) -> bool
    ensures { IsTrue result → (of : WitSources) → Judges of judge.now → HasMember of (package_id «package».now) (ident_text name.now) }
{
    for scope in &judge.scopes {
        if is_same_package(scope.package, package) && has_member_in(scope.items, name) {
            return true;
        }
    }
    false
}

/// Whether a package has two interfaces or worlds of a name, one of them at this place.
pub(crate) fn is_member_twice(judge: &Judge<'_>, file: usize, span: Span) -> bool
    ensures { IsTrue result → (of : WitSources) → Judges of judge.now → IsMemberTwice of file span }
{
    for scope in &judge.scopes {
        if scope.file == file && is_twice_in(judge, scope, span) {
            return true;
        }
    }
    false
}

fn is_twice_in(judge: &Judge<'_>, scope: &ScopeItems<'_>, span: Span) -> bool
    ensures { IsTrue result → (of : WitSources) → Judges of judge.now → IsTwiceIn of scope.now.file (scope_syntax scope.now) span }
{
    for (index, item) in scope.items.iter().enumerate() {
        if let Some(name) = member_at(item, span) {
            if is_elsewhere(judge, scope, index, name) {
                return true;
            }
        }
    }
    false
}

// Whether an interface or a world of a name stands elsewhere in the package of a scope.
fn is_elsewhere(judge: &Judge<'_>, scope: &ScopeItems<'_>, index: usize, name: &Ident) -> bool
    ensures { IsTrue result → (of : WitSources) → Judges of judge.now → HasMemberElsewhere of scope.now.file (scope_syntax scope.now) index (ident_text name.now) }
{
    if has_member_beside(scope.items, index, name) {
        return true;
    }
    is_in_other_file(judge, scope, name)
}

fn is_in_other_file(judge: &Judge<'_>, scope: &ScopeItems<'_>, name: &Ident) -> bool
    ensures { IsTrue result → (of : WitSources) → Judges of judge.now → HasMemberInOther of scope.now.file (scope_syntax scope.now).package (ident_text name.now) }
{
    for other in &judge.scopes {
        if other.file != scope.file
            && is_same_package(other.package, scope.package)
            && has_member_in(other.items, name)
        {
            return true;
        }
    }
    false
}

// Whether a name that a `use` gives at a place is given by another one too.
fn is_given_twice(items: &[TopItem], span: Span) -> bool
    ensures { IsTrue result → IsGivenTwice items.now span }
{
    for (index, item) in items.iter().enumerate() {
        if let TopItem::Use(used) = item {
            let name = given_by(used);
            if is_at(name.span, span) && is_given_elsewhere(items, index, name) {
                return true;
            }
        }
    }
    false
}

// Whether a `use` gives a name, but for the one at an index.
fn is_given_elsewhere(items: &[TopItem], but: usize, name: &Ident) -> bool
    ensures { IsTrue result → IsGivenElsewhere items.now but (ident_text name.now) }
{
    for (index, item) in items.iter().enumerate() {
        if index != but && gives(item, name) {
            return true;
        }
    }
    false
}

fn gives(item: &TopItem, name: &Ident) -> bool
    ensures { IsTrue result → GivesName item.now (ident_text name.now) }
{
    match item {
        TopItem::Use(used) => given_by(used).name == name.name,
        TopItem::Interface(_) | TopItem::World(_) => false,
    }
}

// The name that a `use` gives.
fn given_by(used: &TopUse) -> &Ident
    ensures { result.now ≡ used_ident used.now }
{
    match &used.alias {
        Some(alias) => alias,
        None => &used.path.name,
    }
}

// Whether a `use` doesn't give what its package has the name that it has there.
fn is_of_other(used: &TopUse, name: &Ident) -> bool
    ensures { IsTrue result → name.now ≡ used_ident used.now → UsesOwn used.now → ⊥ }
{
    used.path.package.is_some() || used.path.name.name != name.name
}

// Whether an interface or a world of a name is among items.
fn has_member_in(items: &[TopItem], name: &Ident) -> bool
    ensures { IsTrue result → HasMemberIn items.now (ident_text name.now) }
{
    for item in items {
        if is_member(item, name) {
            return true;
        }
    }
    false
}

// Whether an interface or a world of a name is among items, but for the one at an index.
fn has_member_beside(items: &[TopItem], but: usize, name: &Ident) -> bool
    ensures { IsTrue result → HasMemberBeside items.now but (ident_text name.now) }
{
    for (index, item) in items.iter().enumerate() {
        if index != but && is_member(item, name) {
            return true;
        }
    }
    false
}

fn is_member(item: &TopItem, name: &Ident) -> bool
    ensures { IsTrue result → NamesMember item.now (ident_text name.now) }
{
    match name_of(item) {
        Some(of) => of.name == name.name,
        None => false,
    }
}

// The name of an interface or a world that stands at a place.
fn member_at(item: &TopItem, span: Span) -> Option<&Ident>
    ensures { IfSome result (λ n. (ident_of_item item.now ≡ Some n.now) × (n.now.span ≡ span)) }
{
    let name = name_of(item)?;
    if !is_at(name.span, span) {
        return None;
    }
    Some(name)
}
