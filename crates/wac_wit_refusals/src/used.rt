//! Types of other interfaces that aren't there.

ghost use Rattle.std.specs.Prelude.{◌≡◌, ◌↔◌, ℕ, Contains, IfOk, IfSome, IsTrue};
ghost use Rattle.wac_wit_refusals.specs.PathSteps.{IsFoundUsed, IsTypeHidden, IsUsedIf};
ghost use Rattle.wac_wit_refusals.specs.UsedReasons.{GivesTypeName, IsHiddenUsed, IsInsideEnabled, IsUnknownUsed};
ghost use Rattle.wac_wit_refusals_sites.specs.Judging.{IsKnownBody, Judges, body_syntax};
ghost use Rattle.wac_wit_refusals_sites.specs.Sites.{HasUseIn};
ghost use Rattle.wac_wit_scopes.specs.WitSources.{WitSources, ident_text};
ghost use Rattle.wac_wit_syntax.specs.declared.tree.InterfaceItem.{InterfaceItem as InsideOf};
ghost use Rattle.wac_wit_syntax.specs.declared.tree.Rename.{Rename as RenameOf};
ghost use Rattle.wac_wit_syntax.specs.declared.tree.TopItem.TheVariants as top;

use std::alloc::AllocError;
use wac_wit_refusals_sites::{Judge, PlacedBody, gives, is_at, uses_of};
use wac_wit_syntax::{Ident, InterfaceDecl, InterfaceItem, Rename, Span, TopItem, UseItem};

/// A type that is used: the interface, and the name.
#[derive(Clone, Copy)]
pub(crate) struct FoundUsed<'b> {
    pub(crate) from: &'b InterfaceDecl,
    pub(crate) name: &'b Ident,
}

/// Whether an interface has no type of a name that is used.
pub(crate) fn is_unknown_used(
    judge: &Judge<'_>,
    file: usize,
    span: Span,
) -> Result<bool, AllocError>
    ensures { IfOk result (λ is. IsTrue is → (of : WitSources) → Judges of judge.now → IsUnknownUsed of file span) }
{
    match used_at(judge, file, span)? {
        Some(used) => Ok(lacks_type(&used.from.items, used.name)),
        None => Ok(false),
    }
}

/// Whether an interface has a type of a name that is used, which a feature hides.
pub(crate) fn is_hidden_used(judge: &Judge<'_>, file: usize, span: Span) -> Result<bool, AllocError>
    ensures { IfOk result (λ is. IsTrue is → (of : WitSources) → Judges of judge.now → IsHiddenUsed of file span) }
{
    match used_at(judge, file, span)? {
        Some(used) => Ok(is_type_hidden(judge, &used.from.items, used.name)),
        None => Ok(false),
    }
}

fn is_type_hidden(judge: &Judge<'_>, items: &[InterfaceItem], name: &Ident) -> bool
    ensures { IsTrue result → (of : WitSources) → Judges of judge.now → IsTypeHidden of items.now (ident_text name.now) }
{
    has_type(items, name) && lacks_type_there(judge, items, name)
}

fn lacks_type_there(judge: &Judge<'_>, items: &[InterfaceItem], name: &Ident) -> bool
    ensures { IsTrue result → (of : WitSources) → Judges of judge.now → (t : InsideOf) → Contains items.now t → GivesTypeName t (ident_text name.now) → IsInsideEnabled of t → ⊥ }
{
    for item in items {
        if gives_type(item, name) && is_inside_there(judge, item) {
            return false;
        }
    }
    true
}

fn is_inside_there(judge: &Judge<'_>, item: &InterfaceItem) -> bool
    ensures { (of : WitSources) → Judges of judge.now → IsTrue result ↔ IsInsideEnabled of item.now }
{
    match item {
        InterfaceItem::Type(it) => judge.is_there(&it.gates),
        InterfaceItem::Use(it) => judge.is_there(&it.gates),
        InterfaceItem::Func(it) => judge.is_there(&it.gates),
    }
}

// The type whose name stands at a place of a file, where it is used.
fn used_at<'j>(
    judge: &Judge<'j>,
    file: usize,
    span: Span,
) -> Result<Option<FoundUsed<'j>>, AllocError>
    ensures { IfOk result (λ o. IfSome o (λ u. (of : WitSources) → Judges of judge.now → IsFoundUsed of file span u)) }
{
    let bodies = judge.bodies_in(file)?;
    for body in &bodies {
        if let Some(used) = used_in(judge, body, span)? {
            return Ok(Some(used));
        }
    }
    Ok(None)
}

fn used_in<'j>(
    judge: &Judge<'j>,
    body: &PlacedBody<'j>,
    span: Span,
) -> Result<Option<FoundUsed<'j>>, AllocError>
    ensures { IfOk result (λ o. IfSome o (λ u. (of : WitSources) → Judges of judge.now → (file : ℕ) → IsKnownBody of file body.now → IsFoundUsed of file span u)) }
{
    for placed in &uses_of(judge.alloc, &body.body)? {
        if let Some(used) = used_by(judge, body, placed.used, span)? {
            return Ok(Some(used));
        }
    }
    Ok(None)
}

// The type that a `use` names at a place.
fn used_by<'j>(
    judge: &Judge<'j>,
    body: &PlacedBody<'j>,
    item: &'j UseItem,
    span: Span,
) -> Result<Option<FoundUsed<'j>>, AllocError>
    ensures { IfOk result (λ o. IfSome o (IsUsedIf judge.now body.now span (HasUseIn (body_syntax body.now.body) item.now))) }
{
    if !judge.is_there(&item.gates) {
        return Ok(None);
    }
    let Some(name) = name_at(&item.names, span) else {
        return Ok(None);
    };
    match judge.led_to(&body.scope, &item.path)? {
        Some(led) => Ok(found_in(led.item, name)),
        None => Ok(None),
    }
}

// The name that stands at a place.
fn name_at<'b>(names: &'b [Rename], span: Span) -> Option<&'b Ident>
    ensures { IfSome result (λ n. (n.now.span ≡ span) × (r : RenameOf) × Contains names.now r × (r.name ≡ n.now)) }
{
    for rename in names {
        if is_at(rename.name.span, span) {
            return Some(&rename.name);
        }
    }
    None
}

fn found_in<'b>(item: &'b TopItem, name: &'b Ident) -> Option<FoundUsed<'b>>
    ensures { IfSome result (λ u. (item.now ≡ top.Interface u.from.now) × (u.name.now ≡ name.now)) }
{
    match item {
        TopItem::Interface(from) => Some(FoundUsed { from, name }),
        _ => None,
    }
}

// Whether no item gives a type a name.
fn lacks_type(items: &[InterfaceItem], name: &Ident) -> bool
    ensures { IsTrue result → (t : InsideOf) → Contains items.now t → GivesTypeName t (ident_text name.now) → ⊥ }
{
    for item in items {
        if gives_type(item, name) {
            return false;
        }
    }
    true
}

fn has_type(items: &[InterfaceItem], name: &Ident) -> bool
    ensures { IsTrue result → (t : InsideOf) × Contains items.now t × GivesTypeName t (ident_text name.now) }
{
    for item in items {
        if gives_type(item, name) {
            return true;
        }
    }
    false
}

fn gives_type(item: &InterfaceItem, name: &Ident) -> bool
    ensures { IsTrue result ↔ GivesTypeName item.now (ident_text name.now) }
{
    match item {
        InterfaceItem::Type(it) => it.name.name == name.name,
        InterfaceItem::Use(it) => gives(it, name),
        InterfaceItem::Func(_) => false,
    }
}
