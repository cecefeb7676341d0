//! Handles of types that are no resources.

ghost use Rattle.std.specs.Prelude.{◌≡◌, IfOk, IfSome, IsTrue};
ghost use Rattle.wac_wit_refusals_sites.specs.Judging.{Judges};
ghost use Rattle.wac_wit_refusals_sites.specs.TypeSites.{IsTypeName};
ghost use Rattle.wac_wit_refusals_types.specs.Following.{HasTypeFor, HasUseFor, IsInside, IsNameStep, IsUsedName, NamesValues, UsesAs};
ghost use Rattle.wac_wit_refusals_types.specs.Handles.{IsHandleOf, IsNoTypeName, IsNotResource, IsValueDef};
ghost use Rattle.wac_wit_scopes.specs.Scopes.{IsKnownScope};
ghost use Rattle.wac_wit_scopes.specs.WitSources.{WitSources, ident_text};
ghost use Rattle.wac_wit_syntax.specs.declared.tree.TypeDef.TheVariants.{Alias};
ghost use Rattle.wac_wit_syntax.specs.declared.tree.TypeExpr.TheVariants.{Name};

use super::definitions::type_of_name;
use std::alloc::AllocError;
use wac_wit_refusals_sites::{Body, Judge, LedTo, PlacedBody, local_name, uses_of};
use wac_wit_syntax::{Ident, Span, TopItem, TypeDef, TypeExpr, TypeItem, UseItem};

/// How many names are followed at most: names that lead in a circle are refused elsewhere.
pub(crate) const MAX_STEPS: usize = 100;

/// The name of a type, and what gives names there.
#[derive(Clone, Copy)]
pub(crate) struct FollowedName<'f> {
    pub(crate) placed: PlacedBody<'f>,
    pub(crate) name: &'f Ident,
}

/// What the name of a type stands for.
#[derive(Clone, Copy)]
pub(crate) enum NameStep<'f> {
    /// A type of values.
    Values,
    /// What another name stands for.
    Another(FollowedName<'f>),
    /// A resource, or nothing that is known.
    Nowhere,
}

/// Whether a handle of a type that is no resource has the type's name there.
pub fn is_not_resource(judge: &Judge<'_>, file: usize, span: Span) -> Result<bool, AllocError>
    ensures { IfOk result (λ is. IsTrue is → (of : WitSources) → Judges of judge.now → IsNotResource of file span) }
{
    let Some(found) = judge.name_at(file, span)? else {
        return Ok(false);
    };
    if !is_handle(found.ty, found.name) {
        return Ok(false);
    }
    names_values(
        judge,
        &FollowedName {
            placed: found.placed,
            name: found.name,
        },
    )
}

// Whether a name is that of a type of values.
fn names_values<'j>(judge: &Judge<'j>, first: &FollowedName<'j>) -> Result<bool, AllocError>
    ensures { IfOk result (λ is. IsTrue is → (of : WitSources) → Judges of judge.now → IsKnownScope of first.now.placed.scope → NamesValues of first.now) }
{
    let mut at = *first;
    for _step in 0..MAX_STEPS {
        match name_step(judge, &at)? {
            NameStep::Values => return Ok(true),
            NameStep::Another(next) => at = next,
            NameStep::Nowhere => return Ok(false),
        }
    }
    Ok(false)
}

fn name_step<'j>(judge: &Judge<'j>, at: &FollowedName<'j>) -> Result<NameStep<'j>, AllocError>
    ensures { IfOk result (λ s. (of : WitSources) → Judges of judge.now → IsKnownScope of at.now.placed.scope → IsNameStep of at.now s) }
{
    match followed_name(judge, at)? {
        Some(next) => Ok(NameStep::Another(next)),
        None => defined_name(judge, at),
    }
}

/// What stands for a name that a `use` gives.
pub(crate) fn followed_name<'j>(
    judge: &Judge<'j>,
    at: &FollowedName<'j>,
) -> Result<Option<FollowedName<'j>>, AllocError>
    ensures { IfOk result (λ o. IfSome o (λ n. (of : WitSources) → Judges of judge.now → IsUsedName of at.now n)) }
{
    for placed in &uses_of(judge.alloc, &at.placed.body)? {
        if let Some(next) = followed_by(judge, at, placed.used)? {
            return Ok(Some(next));
        }
    }
    Ok(None)
}

// The same, by one item.
fn followed_by<'j>(
    judge: &Judge<'j>,
    at: &FollowedName<'j>,
    used: &'j UseItem,
) -> Result<Option<FollowedName<'j>>, AllocError>
    ensures { IfOk result (λ o. IfSome o (λ n. (of : WitSources) → Judges of judge.now → HasUseFor at.now used.now → IsUsedName of at.now n)) }
{
    if !judge.is_there(&used.gates) {
        return Ok(None);
    }
    let Some(name) = used_as(used, at.name) else {
        return Ok(None);
    };
    match judge.led_to(&at.placed.scope, &used.path)? {
        Some(led) => Ok(name_inside(judge, &led, name)),
        None => Ok(None),
    }
}

// A name in an interface that is there.
fn name_inside<'j>(judge: &Judge<'j>, led: &LedTo<'j>, name: &'j Ident) -> Option<FollowedName<'j>>
    ensures { IfSome result (λ n. (of : WitSources) → Judges of judge.now → IsInside of led.now name.now n) }
{
    match led.item {
        TopItem::Interface(decl) if judge.is_there(&decl.gates) => {
            Some(FollowedName {
                placed: PlacedBody {
                    scope: led.scope,
                    body: Body::Interface(&decl.items),
                },
                name,
            })
        }
        _ => None,
    }
}

// What stands for a name that a type has there.
fn defined_name<'j>(judge: &Judge<'j>, at: &FollowedName<'j>) -> Result<NameStep<'j>, AllocError>
    ensures { IfOk result (λ s. (of : WitSources) → Judges of judge.now → IsKnownScope of at.now.placed.scope → IsNameStep of at.now s) }
{
    match type_of_name(judge, &at.placed.body, at.name)? {
        Some(ty) => Ok(step_of(at, ty)),
        None => Ok(NameStep::Nowhere),
    }
}

fn step_of<'f>(at: &FollowedName<'f>, ty: &'f TypeItem) -> NameStep<'f>
    ensures { (of : WitSources) → IsKnownScope of at.now.placed.scope → HasTypeFor of at.now ty.now → ident_text ty.now.name ≡ ident_text at.now.name.now → IsNameStep of at.now result }
{
    if is_value_def(&ty.def) {
        return NameStep::Values;
    }
    match second_name(&ty.def) {
        Some(name) => {
            NameStep::Another(FollowedName {
                placed: at.placed,
                name,
            })
        }
        None => NameStep::Nowhere,
    }
}

// Whether it is a type of values, and no other name of a type.
fn is_value_def(def: &TypeDef) -> bool
    ensures { IsTrue result → IsValueDef def.now }
{
    match def {
        TypeDef::Resource(_) => false,
        TypeDef::Alias(ty) => is_unnamed(ty),
        _ => true,
    }
}

fn is_unnamed(ty: &TypeExpr) -> bool
    ensures { IsTrue result → IsNoTypeName ty.now }
{
    match ty {
        TypeExpr::Name(_) => false,
        _ => true,
    }
}

// The name for which a type is another one.
fn second_name(def: &TypeDef) -> Option<&Ident>
    ensures { IfSome result (λ id. def.now ≡ Alias (Name id.now)) }
{
    match def {
        TypeDef::Alias(ty) => plain_type_name(ty),
        _ => None,
    }
}

fn plain_type_name(ty: &TypeExpr) -> Option<&Ident>
    ensures { IfSome result (λ id. ty.now ≡ Name id.now) }
{
    match ty {
        TypeExpr::Name(name) => Some(name),
        _ => None,
    }
}

// Whether a type of this name is a handle.
fn is_handle(ty: &TypeExpr, name: &Ident) -> bool
    ensures { IsTrue result → IsTypeName name.now ty.now → IsHandleOf name.now ty.now }
{
    match ty {
        TypeExpr::Own(_) => true,
        TypeExpr::Borrow(_) => true,
        _ => false,
    }
}

// The name of the type to which a `use` gives a name.
fn used_as<'u>(used: &'u UseItem, name: &Ident) -> Option<&'u Ident>
    ensures { IfSome result (λ id. UsesAs used.now name.now id.now) }
{
    for rename in &used.names {
        if local_name(rename).name == name.name {
            return Some(&rename.name);
        }
    }
    None
}
