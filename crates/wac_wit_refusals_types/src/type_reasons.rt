//! Types that are refused for themselves.

ghost use Rattle.std.specs.Prelude.{IfOk, IsTrue};
ghost use Rattle.wac_wit_refusals_sites.specs.Judging.{Judges, body_syntax};
ghost use Rattle.wac_wit_refusals_types.specs.TypeReasons.{HasManyFlags, HasNamedAsResource, HasNothingIn, HasZeroLength, IsEmpty, IsLengthZero, IsManyFlags, IsNamedAsResource, IsZeroLength, NamesResource};
ghost use Rattle.wac_wit_scopes.specs.WitSources.{WitSources};

use std::alloc::AllocError;
use wac_wit_refusals_sites::{Body, Judge, PlacedMethod, is_at};
use wac_wit_syntax::{MethodKind, Span, TypeDef, TypeExpr};

// How many flags a value has at most.
const MAX_FLAGS: usize = 32;

/// Whether it is the name of more than 32 flags.
pub fn is_many_flags(judge: &Judge<'_>, file: usize, span: Span) -> Result<bool, AllocError>
    ensures { IfOk result (λ is. IsTrue is → (of : WitSources) → Judges of judge.now → IsManyFlags of file span) }
{
    match judge.type_at(file, span)? {
        Some(ty) => Ok(has_many_flags(&ty.def)),
        None => Ok(false),
    }
}

/// Whether it is the name of a type that has nothing in its braces.
pub fn is_empty(judge: &Judge<'_>, file: usize, span: Span) -> Result<bool, AllocError>
    ensures { IfOk result (λ is. IsTrue is → (of : WitSources) → Judges of judge.now → IsEmpty of file span) }
{
    match judge.type_at(file, span)? {
        Some(ty) => Ok(has_nothing(&ty.def)),
        None => Ok(false),
    }
}

/// Whether it is a list of length 0.
pub fn is_zero_length(judge: &Judge<'_>, file: usize, span: Span) -> Result<bool, AllocError>
    ensures { IfOk result (λ is. IsTrue is → (of : WitSources) → Judges of judge.now → IsZeroLength of file span) }
{
    for placed in &judge.bodies_in(file)? {
        if has_zero_length(judge, &placed.body, span)? {
            return Ok(true);
        }
    }
    Ok(false)
}

fn has_zero_length<'j>(judge: &Judge<'j>, body: &Body<'j>, span: Span) -> Result<bool, AllocError>
    ensures { IfOk result (λ is. IsTrue is → (of : WitSources) → Judges of judge.now → HasZeroLength of (body_syntax body.now) span) }
{
    for written in &judge.written_in(body)? {
        if is_length_zero(written.ty, span) {
            return Ok(true);
        }
    }
    Ok(false)
}

/// Whether it is the name of a function of a resource that is the resource's.
pub fn is_named_as_resource(judge: &Judge<'_>, file: usize, span: Span) -> Result<bool, AllocError>
    ensures { IfOk result (λ is. IsTrue is → (of : WitSources) → Judges of judge.now → IsNamedAsResource of file span) }
{
    for placed in &judge.bodies_in(file)? {
        if has_named_as_resource(judge, &placed.body, span)? {
            return Ok(true);
        }
    }
    Ok(false)
}

fn has_named_as_resource<'j>(
    judge: &Judge<'j>,
    body: &Body<'j>,
    span: Span,
) -> Result<bool, AllocError>
    ensures { IfOk result (λ is. IsTrue is → (of : WitSources) → Judges of judge.now → HasNamedAsResource of (body_syntax body.now) span) }
{
    for placed in &judge.methods_of(body)? {
        if is_at(placed.method.name.span, span) && names_resource(placed) {
            return Ok(true);
        }
    }
    Ok(false)
}

fn has_many_flags(def: &TypeDef) -> bool
    ensures { IsTrue result → HasManyFlags def.now }
{
    match def {
        TypeDef::Flags(names) => names.len() > MAX_FLAGS,
        _ => false,
    }
}

fn has_nothing(def: &TypeDef) -> bool
    ensures { IsTrue result → HasNothingIn def.now }
{
    match def {
        TypeDef::Record(fields) => fields.is_empty(),
        TypeDef::Variant(cases) => cases.is_empty(),
        TypeDef::Flags(names) => names.is_empty(),
        TypeDef::Enum(names) => names.is_empty(),
        _ => false,
    }
}

fn is_length_zero(ty: &TypeExpr, span: Span) -> bool
    ensures { IsTrue result → IsLengthZero ty.now span }
{
    match ty {
        TypeExpr::FixedList(_, length, place) => *length == 0 && is_at(*place, span),
        _ => false,
    }
}

fn names_resource(placed: &PlacedMethod<'_>) -> bool
    ensures { IsTrue result → NamesResource placed.now.resource.now placed.now.method.now }
{
    placed.method.kind != MethodKind::Constructor
        && placed
            .resource
            .name
            .name
            .eq_ignore_ascii_case(&placed.method.name.name)
}
