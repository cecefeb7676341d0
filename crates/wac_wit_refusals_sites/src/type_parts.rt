//! The types that are written in interfaces and worlds.

ghost use Rattle.std.specs.Prelude.{ℕ, IfOk, IfSome, OnOk};
ghost use Rattle.wac_wit_refusals_sites.specs.Judging.{IsKnownBody, Judges, body_syntax};
ghost use Rattle.wac_wit_refusals_sites.specs.Sites.{BodySyntax};
ghost use Rattle.wac_wit_refusals_sites.specs.TypeLists.{AddsTypeExprs, AreCasesIn, AreElementsIn, AreFieldsIn, AreTypeExprsOf, AreWritten, IsNameAtPlace, IsOptionalIn};
ghost use Rattle.wac_wit_refusals_sites.specs.TypeSites.{HasTyped, IsTypeName, IsWritten, TypedSyntax, a_definition, a_signature};
ghost use Rattle.wac_wit_scopes.specs.WitSources.{WitSources};
ghost use Rattle.wac_wit_syntax.specs.declared.tree.TypeDef.TheVariants.{Alias as AliasOf};

use super::bodies::{Body, PlacedBody};
use super::judge::{Judge, is_at};
use std::alloc::{AllocError, Global};
use wac_wit_syntax::{Case, Field, Ident, Signature, Span, TypeDef, TypeExpr};

/// A type that is written in the definition of a type or in a function, and the name of that.
#[derive(Clone, Copy)]
pub struct WrittenType<'t> {
    /// The name of the definition or the function.
    pub name: &'t Ident,
    /// The type.
    pub ty: &'t TypeExpr,
}

/// The name of a type that is written in an interface or a world.
#[derive(Clone, Copy)]
pub struct PlacedName<'t> {
    /// The interface or the world.
    pub placed: PlacedBody<'t>,
    /// The type that is written by the name.
    pub ty: &'t TypeExpr,
    /// The name.
    pub name: &'t Ident,
}

impl<'j> Judge<'j> {
    /// The name of a type that is written at a place.
    pub fn name_at(&self, file: usize, span: Span) -> Result<Option<PlacedName<'j>>, AllocError>
        ensures { IfOk result (λ o. IfSome o (λ p. (of : WitSources) → Judges of self.now → IsNameAtPlace of file span p)) }
    {
        for placed in &self.bodies_in(file)? {
            if let Some(name) = self.name_in(placed, span)? {
                return Ok(Some(name));
            }
        }
        Ok(None)
    }

    fn name_in(
        &self,
        placed: &PlacedBody<'j>,
        span: Span,
    ) -> Result<Option<PlacedName<'j>>, AllocError>
        ensures { IfOk result (λ o. IfSome o (λ p. (of : WitSources) → Judges of self.now → (file : ℕ) → IsKnownBody of file placed.now → IsNameAtPlace of file span p)) }
    {
        for written in &self.written_in(&placed.body)? {
            if let Some(name) = type_name(written.ty)
                && is_at(name.span, span)
            {
                return Ok(Some(PlacedName {
                    placed: *placed,
                    ty: written.ty,
                    name,
                }));
            }
        }
        Ok(None)
    }

    /// The types that are written there, and all that they are made of.
    pub fn written_in(&self, body: &Body<'j>) -> Result<Vec<WrittenType<'j>>, AllocError>
        ensures { IfOk result (λ es. (of : WitSources) → Judges of self.now → AreTypeExprsOf of (body_syntax body.now) es.items) }
    {
        let mut all = Vec::new(self.alloc);
        self.push_defined(&mut all, body)?;
        self.push_called(&mut all, body)?;
        Ok(all)
    }

    fn push_defined(
        &self,
        all: &mut Vec<WrittenType<'j>>,
        body: &Body<'j>,
    ) -> Result<(), AllocError>
        ensures { OnOk result ((of : WitSources) → Judges of self.now → AddsTypeExprs of (body_syntax body.now) all.old.items all.new.items) }
    {
        for ty in &self.types_there(body)? {
            push_written(all, &ty.name, &types_in_def(self.alloc, &ty.def)?)?;
        }
        Ok(())
    }

    fn push_called(&self, all: &mut Vec<WrittenType<'j>>, body: &Body<'j>) -> Result<(), AllocError>
        ensures { OnOk result ((of : WitSources) → Judges of self.now → AddsTypeExprs of (body_syntax body.now) all.old.items all.new.items) }
    {
        for named in &self.signatures_of(body)? {
            push_written(
                all,
                named.name,
                &types_in_signature(self.alloc, named.signature)?,
            )?;
        }
        Ok(())
    }
}

fn push_written<'t>(
    all: &mut Vec<WrittenType<'t>>,
    name: &'t Ident,
    types: &[&'t TypeExpr],
) -> Result<(), AllocError>
    ensures { OnOk result ((of : WitSources) (b : BodySyntax) (s : TypedSyntax) → HasTyped of b name.now s → AreWritten s types.now → AddsTypeExprs of b all.old.items all.new.items) }
{
    for ty in types {
        all.push(WrittenType { name, ty: *ty })?;
    }
    Ok(())
}

/// The types that are written in a definition, and all that they are made of.
pub fn types_in_def<'t>(alloc: Global, def: &'t TypeDef) -> Result<Vec<&'t TypeExpr>, AllocError>
    ensures { IfOk result (λ es. AreWritten (a_definition def.now) es.items) }
{
    let mut types = Vec::new(alloc);
    match def {
        TypeDef::Alias(ty) => push_type(&mut types, ty)?,
        TypeDef::Record(fields) => push_fields(&mut types, fields)?,
        TypeDef::Variant(cases) => push_cases(&mut types, cases)?,
        _ => {}
    }
    Ok(types)
}

/// The types that are written in a function's parameters and its result, and all that they are made
/// of.
pub(crate) fn types_in_signature<'t>(
    alloc: Global,
    signature: &'t Signature,
) -> Result<Vec<&'t TypeExpr>, AllocError>
    ensures { IfOk result (λ es. AreWritten (a_signature signature.now) es.items) }
{
    let mut types = Vec::new(alloc);
    push_fields(&mut types, &signature.params)?;
    if let Some(ty) = &signature.returns {
        push_type(&mut types, ty)?;
    }
    Ok(types)
}

/// A type, and all that it is made of.
pub fn parts_of<'t>(alloc: Global, ty: &'t TypeExpr) -> Result<Vec<&'t TypeExpr>, AllocError>
    ensures { IfOk result (λ es. AreWritten (a_definition (AliasOf ty.now)) es.items) }
{
    let mut types = Vec::new(alloc);
    push_type(&mut types, ty)?;
    Ok(types)
}

fn push_fields<'t>(types: &mut Vec<&'t TypeExpr>, fields: &'t [Field]) -> Result<(), AllocError>
    ensures { OnOk result ((s : TypedSyntax) → AreFieldsIn s fields.now → AreWritten s types.old.items → AreWritten s types.new.items) }
{
    for field in fields {
        push_type(types, &field.ty)?;
    }
    Ok(())
}

fn push_cases<'t>(types: &mut Vec<&'t TypeExpr>, cases: &'t [Case]) -> Result<(), AllocError>
    ensures { OnOk result ((s : TypedSyntax) → AreCasesIn s cases.now → AreWritten s types.old.items → AreWritten s types.new.items) }
{
    for case in cases {
        if let Some(ty) = &case.ty {
            push_type(types, ty)?;
        }
    }
    Ok(())
}

// Puts a type last, and behind it all that it is made of.
#[cycle(type_parts)]
fn push_type<'t>(types: &mut Vec<&'t TypeExpr>, ty: &'t TypeExpr) -> Result<(), AllocError>
    ensures { OnOk result ((s : TypedSyntax) → IsWritten s ty.now → AreWritten s types.old.items → AreWritten s types.new.items) }
{
    types.push(ty)?;
    match ty {
        TypeExpr::List(of) => push_type(types, of),
        TypeExpr::FixedList(of, _, _) => push_type(types, of),
        TypeExpr::Option(of) => push_type(types, of),
        TypeExpr::Result(ok, err) => {
            push_optional(types, ok)?;
            push_optional(types, err)
        }
        TypeExpr::Tuple(elements, _) => push_elements(types, elements),
        TypeExpr::Map(key, value, _) => {
            push_type(types, key)?;
            push_type(types, value)
        }
        TypeExpr::Future(of) => push_optional(types, of),
        TypeExpr::Stream(of) => push_optional(types, of),
        _ => Ok(()),
    }
}

#[cycle(type_parts)]
fn push_optional<'t>(
    types: &mut Vec<&'t TypeExpr>,
    ty: &'t Option<Box<TypeExpr>>,
) -> Result<(), AllocError>
    ensures { OnOk result ((s : TypedSyntax) → IsOptionalIn s ty.now → AreWritten s types.old.items → AreWritten s types.new.items) }
{
    match ty {
        Some(ty) => push_type(types, ty),
        None => Ok(()),
    }
}

#[cycle(type_parts)]
fn push_elements<'t>(
    types: &mut Vec<&'t TypeExpr>,
    elements: &'t [TypeExpr],
) -> Result<(), AllocError>
    ensures { OnOk result ((s : TypedSyntax) → AreElementsIn s elements.now → AreWritten s types.old.items → AreWritten s types.new.items) }
{
    for element in elements {
        push_type(types, element)?;
    }
    Ok(())
}

/// The name of a type, where it is given by one.
pub fn type_name(ty: &TypeExpr) -> Option<&Ident>
    ensures { IfSome result (λ id. IsTypeName id.now ty.now) }
{
    match ty {
        TypeExpr::Name(name) => Some(name),
        TypeExpr::Own(name) => Some(name),
        TypeExpr::Borrow(name) => Some(name),
        _ => None,
    }
}
