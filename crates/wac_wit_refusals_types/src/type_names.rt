//! Names of types that nothing gives, or nothing that is there.

ghost use Rattle.std.specs.Prelude.{◌≡◌, IfOk, IsTrue};
ghost use Rattle.wac_wit_refusals_sites.specs.Judging.{Judges, body_syntax};
ghost use Rattle.wac_wit_refusals_sites.specs.TypeLists.{GivesLocalName};
ghost use Rattle.wac_wit_refusals_types.specs.TypeNames.{HasHiddenType, IsHiddenType, IsNotGiven, IsUnknownType};
ghost use Rattle.wac_wit_refusals_types.specs.TypeSteps.{IsGivenAmong, IsNotThere, NoTypeGives, NoTypeThere, NoUseGives, NoUseThere};
ghost use Rattle.wac_wit_scopes.specs.WitSources.{IsEnabled, WitSources, ident_text};

use indexmap::IndexMap;
use std::alloc::{AllocError, Global};
use wac_wit_refusals_sites::{
    Body, Judge, PlacedType, PlacedUse, gives, is_at, local_name, type_name, types_of, uses_of,
};
use wac_wit_syntax::{Ident, Span, TypeItem, UseItem};

/// Whether it is the name of a type that nothing gives.
pub fn is_unknown_type(judge: &Judge<'_>, file: usize, span: Span) -> Result<bool, AllocError>
    ensures { IfOk result (λ is. IsTrue is → (of : WitSources) → Judges of judge.now → IsUnknownType of file span) }
{
    match judge.name_at(file, span)? {
        Some(found) => is_not_given(judge.alloc, &found.placed.body, found.name),
        None => Ok(false),
    }
}

/// Whether in the item of this name a name of a type is written that only items give which a
/// feature hides.
pub fn is_hidden_type(judge: &Judge<'_>, file: usize, span: Span) -> Result<bool, AllocError>
    ensures { IfOk result (λ is. IsTrue is → (of : WitSources) → Judges of judge.now → IsHiddenType of file span) }
{
    for placed in &judge.bodies_in(file)? {
        if has_hidden_type(judge, &placed.body, span)? {
            return Ok(true);
        }
    }
    Ok(false)
}

fn has_hidden_type<'j>(judge: &Judge<'j>, body: &Body<'j>, span: Span) -> Result<bool, AllocError>
    ensures { IfOk result (λ is. IsTrue is → (of : WitSources) → Judges of judge.now → HasHiddenType of (body_syntax body.now) span) }
{
    let types = types_of(judge.alloc, body)?;
    let uses = uses_of(judge.alloc, body)?;
    let are_there = are_there(judge, &types, &uses)?;
    for written in &judge.written_in(body)? {
        if is_at(written.name.span, span)
            && let Some(name) = type_name(written.ty)
            && is_noted_hidden(&are_there, name)
            && is_not_there(judge, &types, &uses, name)
        {
            return Ok(true);
        }
    }
    Ok(false)
}

// Whether what gives a name is hidden, and something gives it.
fn is_not_there<'j>(
    judge: &Judge<'j>,
    types: &[PlacedType<'j>],
    uses: &[PlacedUse<'j>],
    name: &Ident,
) -> bool
    ensures { IsTrue result → (of : WitSources) → Judges of judge.now → IsNotThere of types.now uses.now (ident_text name.now) }
{
    if !is_given(types, uses, name) {
        return false;
    }
    if !no_type_there(judge, types, name) {
        return false;
    }
    no_use_there(judge, uses, name)
}

// The names of types, and whether what gives them is there, to look up quickly what is worth a
// look.
fn are_there<'j>(
    judge: &Judge<'j>,
    types: &[PlacedType<'j>],
    uses: &[PlacedUse<'j>],
) -> Result<IndexMap<&'j str, bool>, AllocError> {
    let mut are_there = IndexMap::new(judge.alloc);
    for placed in types {
        let is_there = judge.is_there(&placed.ty.gates);
        note_there(&mut are_there, &placed.ty.name, is_there)?;
    }
    for placed in uses {
        let is_there = judge.is_there(&placed.used.gates);
        for rename in &placed.used.names {
            note_there(&mut are_there, local_name(rename), is_there)?;
        }
    }
    Ok(are_there)
}

fn no_type_there<'j>(judge: &Judge<'j>, types: &[PlacedType<'j>], name: &Ident) -> bool
    ensures { IsTrue result → (of : WitSources) → Judges of judge.now → NoTypeThere of types.now (ident_text name.now) }
{
    for placed in types {
        if type_gives(judge, placed.ty, name) {
            return false;
        }
    }
    true
}

// Whether a type that is there has a name.
fn type_gives(judge: &Judge<'_>, ty: &TypeItem, name: &Ident) -> bool
    ensures { (of : WitSources) → Judges of judge.now → ident_text ty.now.name ≡ ident_text name.now → IsEnabled of ty.now.gates → IsTrue result }
{
    if ty.name.name == name.name {
        return judge.is_there(&ty.gates);
    }
    false
}

fn no_use_there<'j>(judge: &Judge<'j>, uses: &[PlacedUse<'j>], name: &Ident) -> bool
    ensures { IsTrue result → (of : WitSources) → Judges of judge.now → NoUseThere of uses.now (ident_text name.now) }
{
    for placed in uses {
        if use_gives(judge, placed.used, name) {
            return false;
        }
    }
    true
}

// Whether a `use` that is there gives a name.
fn use_gives(judge: &Judge<'_>, used: &UseItem, name: &Ident) -> bool
    ensures { (of : WitSources) → Judges of judge.now → GivesLocalName used.now (ident_text name.now) → IsEnabled of used.now.gates → IsTrue result }
{
    if gives(used, name) {
        return judge.is_there(&used.gates);
    }
    false
}

// Whether nothing gives a name to a type.
fn is_not_given(alloc: Global, body: &Body<'_>, name: &Ident) -> Result<bool, AllocError>
    ensures { IfOk result (λ is. IsTrue is → IsNotGiven (body_syntax body.now) (ident_text name.now)) }
{
    if !no_type_gives(&types_of(alloc, body)?, name) {
        return Ok(false);
    }
    Ok(no_use_gives(&uses_of(alloc, body)?, name))
}

fn note_there<'t>(
    are_there: &mut IndexMap<&'t str, bool>,
    name: &'t Ident,
    is_there: bool,
) -> Result<(), AllocError> {
    let text = name.name.as_str();
    if is_there || are_there.get(&text).is_none() {
        are_there.insert(text, is_there)?;
    }
    Ok(())
}

fn is_noted_hidden(are_there: &IndexMap<&str, bool>, name: &Ident) -> bool {
    let text = name.name.as_str();
    match are_there.get(&text) {
        Some(is_there) => !*is_there,
        None => false,
    }
}

// Whether something gives a name.
fn is_given(types: &[PlacedType<'_>], uses: &[PlacedUse<'_>], name: &Ident) -> bool
    ensures { IsTrue result → IsGivenAmong types.now uses.now (ident_text name.now) }
{
    for defined in types {
        if defined.ty.name.name == name.name {
            return true;
        }
    }
    for using in uses {
        if gives(using.used, name) {
            return true;
        }
    }
    false
}

fn no_type_gives(types: &[PlacedType<'_>], name: &Ident) -> bool
    ensures { IsTrue result → NoTypeGives types.now (ident_text name.now) }
{
    for placed in types {
        if placed.ty.name.name == name.name {
            return false;
        }
    }
    true
}

fn no_use_gives(uses: &[PlacedUse<'_>], name: &Ident) -> bool
    ensures { IsTrue result → NoUseGives uses.now (ident_text name.now) }
{
    for placed in uses {
        if gives(placed.used, name) {
            return false;
        }
    }
    true
}
