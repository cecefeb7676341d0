//! Interfaces and worlds that need themselves.

ghost use Rattle.std.specs.Prelude.{◌≡◌, IfOk, IsTrue, Some, slice_get};
ghost use Rattle.wac_wit_refusals_sites.specs.Judging.{Judges};
ghost use Rattle.wac_wit_refusals_sites.specs.Leading.{IsPlacedItem};
ghost use Rattle.wac_wit_refusals_sites.specs.Paths.{ident_of_item};
ghost use Rattle.wac_wit_refusals_worlds.specs.NeededSteps.{NeedsItself};
ghost use Rattle.wac_wit_refusals_worlds.specs.Needs.{IsNeedCycle};
ghost use Rattle.wac_wit_scopes.specs.Scopes.{IsKnownScope};
ghost use Rattle.wac_wit_scopes.specs.WitSources.{WitSources};
ghost use Rattle.wac_wit_syntax.specs.declared.tree.Ident.{Ident as IdentOf};

use super::needs::{Reached, is_among, push_all_needs, push_next};
use std::alloc::AllocError;
use wac_wit_refusals_sites::{Judge, LedTo, MemberPlace, is_at, name_of};
use wac_wit_scopes::ScopeItems;
use wac_wit_syntax::{Span, TopItem};

/// Whether an interface or a world needs itself, along others maybe.
pub fn is_cycle(judge: &Judge<'_>, file: usize, span: Span) -> Result<bool, AllocError>
    ensures { IfOk result (λ is. IsTrue is → (of : WitSources) → Judges of judge.now → IsNeedCycle of file span) }
{
    for (index, scope) in judge.scopes.iter().enumerate() {
        if is_cycle_at(judge, file, index, scope, span)? {
            return Ok(true);
        }
    }
    Ok(false)
}

fn is_cycle_at<'j>(
    judge: &Judge<'j>,
    file: usize,
    index: usize,
    scope: &ScopeItems<'j>,
    span: Span,
) -> Result<bool, AllocError>
    ensures { IfOk result (λ is. IsTrue is → (of : WitSources) → Judges of judge.now → slice_get judge.now.scopes.items index ≡ Some scope.now → IsNeedCycle of file span) }
{
    if scope.file == file {
        is_cycle_in(judge, index, scope, span)
    } else {
        Ok(false)
    }
}

fn is_cycle_in<'j>(
    judge: &Judge<'j>,
    index: usize,
    scope: &ScopeItems<'j>,
    span: Span,
) -> Result<bool, AllocError>
    ensures { IfOk result (λ is. IsTrue is → (of : WitSources) → Judges of judge.now → slice_get judge.now.scopes.items index ≡ Some scope.now → IsNeedCycle of scope.now.file span) }
{
    for (number, item) in scope.items.iter().enumerate() {
        let place = MemberPlace {
            scope: index,
            item: number,
        };
        let start = LedTo {
            scope: *scope,
            item,
            place,
        };
        if is_cycle_of(judge, &start, span)? {
            return Ok(true);
        }
    }
    Ok(false)
}

fn is_cycle_of<'j>(judge: &Judge<'j>, start: &LedTo<'j>, span: Span) -> Result<bool, AllocError>
    ensures { IfOk result (λ b. IsTrue b → (of : WitSources) → Judges of judge.now → IsKnownScope of start.now.scope → IsPlacedItem judge.now start.now → IsNeedCycle of start.now.scope.file span) }
{
    if stands_at(start.item, span) {
        needs_itself(judge, start)
    } else {
        Ok(false)
    }
}

fn needs_itself<'j>(judge: &Judge<'j>, start: &LedTo<'j>) -> Result<bool, AllocError>
    ensures { IfOk result (λ b. IsTrue b → (of : WitSources) → Judges of judge.now → IsPlacedItem judge.now start.now → NeedsItself of start.now) }
{
    let mut reached = Reached::new(judge.alloc);
    push_next(judge, &mut reached, start)?;
    push_all_needs(judge, &mut reached)?;
    is_among(judge.alloc, &reached, start)
}

// Whether it is an interface or a world whose name stands at a place.
fn stands_at(item: &TopItem, span: Span) -> bool
    ensures { IsTrue result → (n : IdentOf) × (ident_of_item item.now ≡ Some n) × (n.span ≡ span) }
{
    match name_of(item) {
        Some(name) => is_at(name.span, span),
        None => false,
    }
}
