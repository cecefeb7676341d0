//! What the names of types stand for.

ghost use Rattle.std.specs.Prelude.{IfOk, IfSome};
ghost use Rattle.wac_wit_refusals_sites.specs.Judging.{Judges, body_syntax};
ghost use Rattle.wac_wit_refusals_types.specs.BorrowSteps.{IsDefinitionOf, IsTypeOfName};
ghost use Rattle.wac_wit_scopes.specs.WitSources.{WitSources};

use super::handles::{FollowedName, MAX_STEPS, followed_name};
use std::alloc::AllocError;
use wac_wit_refusals_sites::{Body, Judge, PlacedBody};
use wac_wit_syntax::{Ident, TypeItem};

/// A type that is defined, and where.
#[derive(Clone, Copy)]
pub(crate) struct DefinitionSite<'j> {
    pub(crate) placed: PlacedBody<'j>,
    pub(crate) ty: &'j TypeItem,
}

/// The definition that a name stands for.
pub(crate) fn definition_of<'j>(
    judge: &Judge<'j>,
    start: &FollowedName<'j>,
) -> Result<Option<DefinitionSite<'j>>, AllocError>
    ensures { IfOk result (λ o. IfSome o (λ d. (of : WitSources) → Judges of judge.now → IsDefinitionOf of start.now d)) }
{
    let mut at = *start;
    for _step in 0..MAX_STEPS {
        if let Some(site) = definition_at(judge, &at)? {
            return Ok(Some(site));
        }
        let Some(next) = followed_name(judge, &at)? else {
            return Ok(None);
        };
        at = next;
    }
    Ok(None)
}

// The definition that stands beside a name.
fn definition_at<'j>(
    judge: &Judge<'j>,
    at: &FollowedName<'j>,
) -> Result<Option<DefinitionSite<'j>>, AllocError>
    ensures { IfOk result (λ o. IfSome o (λ d. (of : WitSources) → Judges of judge.now → IsDefinitionOf of at.now d)) }
{
    match type_of_name(judge, &at.placed.body, at.name)? {
        Some(ty) => Ok(Some(DefinitionSite {
            placed: at.placed,
            ty,
        })),
        None => Ok(None),
    }
}

/// The type of a name that is defined there, and that no feature hides.
pub(crate) fn type_of_name<'j>(
    judge: &Judge<'j>,
    body: &Body<'j>,
    name: &Ident,
) -> Result<Option<&'j TypeItem>, AllocError>
    ensures { IfOk result (λ o. IfSome o (λ t. (of : WitSources) → Judges of judge.now → IsTypeOfName of (body_syntax body.now) name.now t.now)) }
{
    for ty in &judge.types_there(body)? {
        if ty.name.name == name.name {
            return Ok(Some(*ty));
        }
    }
    Ok(None)
}
