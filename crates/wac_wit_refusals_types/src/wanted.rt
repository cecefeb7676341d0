//! Types that lead to a borrowed handle, or to `char`, along names.

ghost use Rattle.std.specs.Prelude.{◌≡◌, IfOk, IsTrue, OnOk};
ghost use Rattle.wac_model.specs.declared.primitive.PrimitiveType.TheVariants as primitive;
ghost use Rattle.wac_wit_refusals_sites.specs.Judging.{Judges};
ghost use Rattle.wac_wit_refusals_types.specs.BorrowSteps.{AddsNamed, AnySite, HasWanted, SiteHas};
ghost use Rattle.wac_wit_refusals_types.specs.Definitions.{BodyPlace};
ghost use Rattle.wac_wit_scopes.specs.WitSources.{WitSources};
ghost use Rattle.wac_wit_syntax.specs.declared.positions.Span.{Span as PlaceOf};
ghost use Rattle.wac_wit_syntax.specs.declared.tree.Ident.{Ident as IdentOf};
ghost use Rattle.wac_wit_syntax.specs.declared.tree.TypeExpr.TheVariants as expr;

use super::type_sites::{
    Followed, MAX_TYPES, TypeSite, definition_named, push_aliased, push_definition,
};
use std::alloc::AllocError;
use wac_model::PrimitiveType;
use wac_wit_refusals_sites::{Judge, MAX_ITEMS, takes};
use wac_wit_syntax::TypeExpr;

/// What types are followed for.
#[derive(Clone, Copy)]
pub(crate) enum Wanted {
    /// A borrowed handle in them.
    Borrow,
    /// That they are `char`, or another name of it.
    Char,
}

/// Whether the types lead to what is wanted.
pub(crate) fn leads_to<'j>(
    judge: &Judge<'j>,
    followed: &mut Followed<'j>,
    wanted: Wanted,
) -> Result<bool, AllocError>
    ensures { IfOk result (λ is. IsTrue is → (of : WitSources) → Judges of judge.now → AnySite (SiteHas of wanted) followed.old.found.items) }
{
    let mut left = MAX_ITEMS;
    for index in 0..MAX_TYPES {
        let Some(next) = followed.found.get(index) else {
            return Ok(false);
        };
        let next = *next;
        if is_wanted(next.ty, wanted) {
            return Ok(true);
        }
        if !takes(&mut left, next.cost()) {
            return Ok(false);
        }
        push_named(judge, followed, &next, wanted)?;
    }
    Ok(false)
}

// Puts what a name stands for last.
fn push_named<'j>(
    judge: &Judge<'j>,
    followed: &mut Followed<'j>,
    from: &TypeSite<'j>,
    wanted: Wanted,
) -> Result<(), AllocError>
    ensures { OnOk result ((of : WitSources) → Judges of judge.now → AddsNamed (SiteHas of wanted) from.now followed.old.found.items followed.new.found.items) }
{
    let Some(site) = definition_named(judge, from)? else {
        return Ok(());
    };
    match wanted {
        Wanted::Borrow => push_definition(judge.alloc, followed, &site),
        Wanted::Char => push_aliased(judge.alloc, followed, &site),
    }
}

fn is_wanted(ty: &TypeExpr, wanted: Wanted) -> bool
    ensures { IsTrue result → (of : WitSources) (p : BodyPlace) → HasWanted of wanted p ty.now }
{
    match wanted {
        Wanted::Borrow => is_borrow(ty),
        Wanted::Char => is_char(ty),
    }
}

fn is_borrow(ty: &TypeExpr) -> bool
    ensures { IsTrue result → (id : IdentOf) × (ty.now ≡ expr.Borrow id) }
{
    match ty {
        TypeExpr::Borrow(_) => true,
        _ => false,
    }
}

fn is_char(ty: &TypeExpr) -> bool
    ensures { IsTrue result → (place : PlaceOf) × (ty.now ≡ expr.Primitive primitive.Char place) }
{
    match ty {
        TypeExpr::Primitive(PrimitiveType::Char, _) => true,
        _ => false,
    }
}
