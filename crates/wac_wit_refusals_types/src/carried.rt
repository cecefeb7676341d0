//! What streams and futures have.

ghost use Rattle.std.specs.Prelude.{IfOk, IfSome, IsTrue, OnOk};
ghost use Rattle.wac_wit_refusals_sites.specs.Judging.{Judges};
ghost use Rattle.wac_wit_refusals_types.specs.BorrowSteps.{AddsCarriedAt, AddsCarriedBy, HasCarrier, IsContent, IsStreamed};
ghost use Rattle.wac_wit_refusals_types.specs.Borrows.{IsSent};
ghost use Rattle.wac_wit_refusals_types.specs.declared.wanted.Wanted.TheVariants as want;
ghost use Rattle.wac_wit_scopes.specs.WitSources.{WitSources};

use super::type_sites::{Followed, push_parts, push_site};
use super::wanted::{Wanted, leads_to};
use std::alloc::{AllocError, Global};
use wac_wit_refusals_sites::{Judge, PlacedBody, is_at};
use wac_wit_syntax::{Span, TypeExpr};

/// Whether what is wanted is in a stream or a future that is written at a place.
pub(crate) fn has_carrier<'j>(
    judge: &Judge<'j>,
    placed: &PlacedBody<'j>,
    span: Span,
    wanted: Wanted,
) -> Result<bool, AllocError>
    ensures { IfOk result (λ is. IsTrue is → (of : WitSources) → Judges of judge.now → HasCarrier of wanted placed.now span) }
{
    let mut followed = Followed::new(judge.alloc);
    push_carried(judge, &mut followed, placed, span, wanted)?;
    leads_to(judge, &mut followed, wanted)
}

// Puts what streams and futures have last that are written at a place.
fn push_carried<'j>(
    judge: &Judge<'j>,
    followed: &mut Followed<'j>,
    placed: &PlacedBody<'j>,
    span: Span,
    wanted: Wanted,
) -> Result<(), AllocError>
    ensures { OnOk result ((of : WitSources) → Judges of judge.now → AddsCarriedAt of wanted placed.now span followed.old.found.items followed.new.found.items) }
{
    for written in &judge.written_in(&placed.body)? {
        if is_at(written.name.span, span) {
            push_carried_by(judge.alloc, followed, placed, written.ty, wanted)?;
        }
    }
    Ok(())
}

fn push_carried_by<'j>(
    alloc: Global,
    followed: &mut Followed<'j>,
    placed: &PlacedBody<'j>,
    ty: &'j TypeExpr,
    wanted: Wanted,
) -> Result<(), AllocError>
    ensures { OnOk result ((of : WitSources) → AddsCarriedBy of wanted placed.now ty.now followed.old.found.items followed.new.found.items) }
{
    match wanted {
        Wanted::Borrow => push_sent_by(alloc, followed, placed, ty),
        Wanted::Char => push_streamed_by(followed, placed, ty),
    }
}

fn push_sent_by<'j>(
    alloc: Global,
    followed: &mut Followed<'j>,
    placed: &PlacedBody<'j>,
    ty: &'j TypeExpr,
) -> Result<(), AllocError>
    ensures { OnOk result ((of : WitSources) → AddsCarriedBy of want.Borrow placed.now ty.now followed.old.found.items followed.new.found.items) }
{
    match sent_by(ty) {
        Some(sent) => push_parts(alloc, followed, placed, sent),
        None => Ok(()),
    }
}

fn push_streamed_by<'j>(
    followed: &mut Followed<'j>,
    placed: &PlacedBody<'j>,
    ty: &'j TypeExpr,
) -> Result<(), AllocError>
    ensures { OnOk result ((of : WitSources) → AddsCarriedBy of want.Char placed.now ty.now followed.old.found.items followed.new.found.items) }
{
    match streamed_by(ty) {
        Some(streamed) => push_site(followed, placed, streamed),
        None => Ok(()),
    }
}

// What a stream or a future has.
fn sent_by(ty: &TypeExpr) -> Option<&TypeExpr>
    ensures { IfSome result (λ t. IsSent ty.now t.now) }
{
    match ty {
        TypeExpr::Stream(of) => content_of(of),
        TypeExpr::Future(of) => content_of(of),
        _ => None,
    }
}

// What a stream has.
fn streamed_by(ty: &TypeExpr) -> Option<&TypeExpr>
    ensures { IfSome result (λ t. IsStreamed ty.now t.now) }
{
    match ty {
        TypeExpr::Stream(of) => content_of(of),
        _ => None,
    }
}

// The type in a box, if there is one.
fn content_of(ty: &Option<Box<TypeExpr>>) -> Option<&TypeExpr>
    ensures { IfSome result (λ t. IsContent ty.now t.now) }
{
    match ty {
        Some(ty) => Some(ty),
        None => None,
    }
}
