//! Constructors that return something else.

ghost use Rattle.std.specs.Prelude.{◌↔◌, IfOk, IsTrue};
ghost use Rattle.wac_wit_refusals_sites.specs.Judging.{Judges, body_syntax};
ghost use Rattle.wac_wit_refusals_types.specs.ConstructorSteps.{HasNamedOk, HasOkThere, ReturnsOther, ReturnsOtherType};
ghost use Rattle.wac_wit_refusals_types.specs.Constructors.{HasNotConstructed, IsConstructedType, IsHandleNamed, IsNotConstructed, IsReturnedPlace, StandsThere};
ghost use Rattle.wac_wit_scopes.specs.WitSources.{WitSources, ident_text};
ghost use Rattle.wac_wit_syntax.specs.declared.tree.Method.{Method as MethodOf};

use std::alloc::AllocError;
use wac_wit_refusals_sites::{Body, Judge, PlacedMethod, is_at};
use wac_wit_syntax::{Ident, Method, MethodKind, Span, TypeExpr};

/// Whether a constructor returns a type that isn't written as its resource.
pub fn is_not_constructed(judge: &Judge<'_>, file: usize, span: Span) -> Result<bool, AllocError>
    ensures { IfOk result (λ is. IsTrue is → (of : WitSources) → Judges of judge.now → IsNotConstructed of file span) }
{
    for placed in &judge.bodies_in(file)? {
        if has_not_constructed(judge, &placed.body, span)? {
            return Ok(true);
        }
    }
    Ok(false)
}

fn has_not_constructed<'j>(
    judge: &Judge<'j>,
    body: &Body<'j>,
    span: Span,
) -> Result<bool, AllocError>
    ensures { IfOk result (λ is. IsTrue is → (of : WitSources) → Judges of judge.now → HasNotConstructed of (body_syntax body.now) span) }
{
    for placed in &judge.methods_of(body)? {
        if returns_other(placed, span) {
            return Ok(true);
        }
    }
    Ok(false)
}

// Whether it is a constructor that returns something else, which stands at a place.
fn returns_other(placed: &PlacedMethod<'_>, span: Span) -> bool
    ensures { IsTrue result → ReturnsOther placed.now span }
{
    match &placed.method.signature.returns {
        Some(ty) if placed.method.kind == MethodKind::Constructor => {
            returns_other_type(placed, ty, span)
        }
        _ => false,
    }
}

fn returns_other_type(placed: &PlacedMethod<'_>, ty: &TypeExpr, span: Span) -> bool
    ensures { IsTrue result → ReturnsOtherType placed.now ty.now span }
{
    is_returned_place(placed.method, ty, span) && !is_constructed(ty, &placed.resource.name)
}

fn is_constructed(ty: &TypeExpr, name: &Ident) -> bool
    ensures { IsTrue result ↔ IsConstructedType ty.now (ident_text name.now) }
{
    match ty {
        TypeExpr::Result(ok, _) => has_named_ok(ok, name),
        _ => is_handle_named(ty, name),
    }
}

fn has_named_ok(ok: &Option<Box<TypeExpr>>, name: &Ident) -> bool
    ensures { IsTrue result ↔ HasNamedOk ok.now (ident_text name.now) }
{
    match ok {
        Some(ty) => is_handle_named(ty, name),
        None => false,
    }
}

// Whether it is an owned handle of what has the name.
fn is_handle_named(ty: &TypeExpr, name: &Ident) -> bool
    ensures { IsTrue result ↔ IsHandleNamed ty.now (ident_text name.now) }
{
    match ty {
        TypeExpr::Name(of) => of.name == name.name,
        TypeExpr::Own(of) => of.name == name.name,
        _ => false,
    }
}

fn is_returned_place(method: &Method, ty: &TypeExpr, span: Span) -> bool
    ensures { IsTrue result → IsReturnedPlace method.now ty.now span }
{
    is_at(method.name.span, span) || stands_there(ty, span) || has_ok_there(ty, span)
}

// Whether it is a result, and what that has stands at a place.
fn has_ok_there(ty: &TypeExpr, span: Span) -> bool
    ensures { (m : MethodOf) → IsTrue result → IsReturnedPlace m ty.now span }
{
    match ty {
        TypeExpr::Result(ok, _) => is_ok_there(ok, span),
        _ => false,
    }
}

fn is_ok_there(ok: &Option<Box<TypeExpr>>, span: Span) -> bool
    ensures { IsTrue result → HasOkThere ok.now span }
{
    match ok {
        Some(ty) => stands_there(ty, span),
        None => false,
    }
}

fn stands_there(ty: &TypeExpr, span: Span) -> bool
    ensures { IsTrue result → StandsThere ty.now span }
{
    match ty {
        TypeExpr::Primitive(_, place) => is_at(*place, span),
        TypeExpr::FixedList(_, _, place) => is_at(*place, span),
        TypeExpr::Tuple(_, place) => is_at(*place, span),
        TypeExpr::Map(_, _, place) => is_at(*place, span),
        TypeExpr::Name(name) => is_at(name.span, span),
        TypeExpr::Own(name) => is_at(name.span, span),
        TypeExpr::Borrow(name) => is_at(name.span, span),
        _ => false,
    }
}
