//! Borrowed handles where they can't stand.

ghost use Rattle.std.specs.Prelude.{IfOk, IsTrue};
ghost use Rattle.wac_wit_refusals_sites.specs.Judging.{Judges};
ghost use Rattle.wac_wit_refusals_types.specs.BorrowSteps.{HasBorrowReturned, ReturnsBorrow};
ghost use Rattle.wac_wit_refusals_types.specs.Borrows.{HasBorrow, IsBorrowReturned, IsBorrowSent};
ghost use Rattle.wac_wit_refusals_types.specs.Following.{body_place};
ghost use Rattle.wac_wit_scopes.specs.WitSources.{WitSources};

use super::carried::has_carrier;
use super::type_sites::{Followed, push_parts};
use super::wanted::{Wanted, leads_to};
use std::alloc::AllocError;
use wac_wit_refusals_sites::{Judge, PlacedBody, is_at};
use wac_wit_syntax::{Signature, Span, TypeExpr};

/// Whether a function returns a borrowed handle.
pub fn is_borrow_returned(judge: &Judge<'_>, file: usize, span: Span) -> Result<bool, AllocError>
    ensures { IfOk result (λ is. IsTrue is → (of : WitSources) → Judges of judge.now → IsBorrowReturned of file span) }
{
    for placed in &judge.bodies_in(file)? {
        if has_borrow_returned(judge, placed, span)? {
            return Ok(true);
        }
    }
    Ok(false)
}

fn has_borrow_returned<'j>(
    judge: &Judge<'j>,
    placed: &PlacedBody<'j>,
    span: Span,
) -> Result<bool, AllocError>
    ensures { IfOk result (λ is. IsTrue is → (of : WitSources) → Judges of judge.now → HasBorrowReturned of placed.now span) }
{
    for named in &judge.signatures_of(&placed.body)? {
        if is_at(named.name.span, span) && returns_borrow(judge, placed, named.signature)? {
            return Ok(true);
        }
    }
    Ok(false)
}

fn returns_borrow<'j>(
    judge: &Judge<'j>,
    placed: &PlacedBody<'j>,
    signature: &'j Signature,
) -> Result<bool, AllocError>
    ensures { IfOk result (λ is. IsTrue is → (of : WitSources) → Judges of judge.now → ReturnsBorrow of placed.now signature.now) }
{
    match &signature.returns {
        Some(ty) => has_borrow(judge, placed, ty),
        None => Ok(false),
    }
}

// Whether a type has a borrowed handle in it.
fn has_borrow<'j>(
    judge: &Judge<'j>,
    placed: &PlacedBody<'j>,
    ty: &'j TypeExpr,
) -> Result<bool, AllocError>
    ensures { IfOk result (λ is. IsTrue is → (of : WitSources) → Judges of judge.now → HasBorrow of (body_place placed.now) ty.now) }
{
    let mut followed = Followed::new(judge.alloc);
    push_parts(judge.alloc, &mut followed, placed, ty)?;
    leads_to(judge, &mut followed, Wanted::Borrow)
}

/// Whether a stream or a future has a borrowed handle.
pub fn is_borrow_sent(judge: &Judge<'_>, file: usize, span: Span) -> Result<bool, AllocError>
    ensures { IfOk result (λ is. IsTrue is → (of : WitSources) → Judges of judge.now → IsBorrowSent of file span) }
{
    for placed in &judge.bodies_in(file)? {
        if has_carrier(judge, placed, span, Wanted::Borrow)? {
            return Ok(true);
        }
    }
    Ok(false)
}
