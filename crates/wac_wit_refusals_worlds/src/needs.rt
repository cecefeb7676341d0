//! What interfaces and worlds need, by way of others maybe.

ghost use Rattle.std.specs.Prelude.{◌≡◌, [], Contains, IfOk, IsTrue, OnOk};
ghost use Rattle.wac_wit_refusals_sites.specs.Judging.{Judges};
ghost use Rattle.wac_wit_refusals_sites.specs.Leading.{IsPathOf};
ghost use Rattle.wac_wit_refusals_sites.specs.declared.judge.Judge.{Judge as Known};
ghost use Rattle.wac_wit_refusals_sites.specs.declared.led.LedTo.{LedTo as Found};
ghost use Rattle.wac_wit_refusals_worlds.specs.NeededSteps.{AddsNeeded, AddsNext, IsFoundNeed, Needing, NeedsLed};
ghost use Rattle.wac_wit_scopes.specs.Scopes.{scope_syntax};
ghost use Rattle.wac_wit_scopes.specs.WitSources.{WitSources};

use indexmap::IndexSet;
use std::alloc::{AllocError, Global};
use wac_wit_refusals_sites::{Judge, LedTo, MemberPlace, SoughtPath, seeks_member};
use wac_wit_scopes::ScopeItems;
use wac_wit_syntax::Path;

// How many interfaces and worlds are looked at for what needs them.
const MAX_REACHED: usize = 10_000;

/// Interfaces and worlds that are needed, by way of others maybe.
pub(crate) struct Reached<'j> {
    pub(crate) found: Vec<LedTo<'j>>,
    // the places of what was found, in the same order
    seen: IndexSet<String>,
}

impl Drop for Reached<'_> {
    fn drop(self) {
        let Reached { found: _, seen: _ } = self;
    }
}

impl<'j> Reached<'j> {
    /// Nothing yet.
    pub(crate) fn new(alloc: Global) -> Reached<'j>
        ensures { result.found.items ≡ [] }
    {
        Reached {
            found: Vec::new(alloc),
            seen: IndexSet::new(alloc),
        }
    }
}

/// Puts what is needed by what was found last, and what that needs.
pub(crate) fn push_all_needs<'j>(
    judge: &Judge<'j>,
    needed: &mut Reached<'j>,
) -> Result<(), AllocError>
    ensures { OnOk result ((of : WitSources) → Judges of judge.now → (n : Needing) → AddsNeeded of judge.now n needed.old needed.new) }
{
    for index in 0..MAX_REACHED {
        let Some(next) = needed.found.get(index) else {
            return Ok(());
        };
        let next = *next;
        push_next(judge, needed, &next)?;
    }
    Ok(())
}

/// Puts what an interface or a world needs last.
pub(crate) fn push_next<'j>(
    judge: &Judge<'j>,
    needed: &mut Reached<'j>,
    from: &LedTo<'j>,
) -> Result<(), AllocError>
    ensures { OnOk result ((of : WitSources) → Judges of judge.now → (n : Needing) → AddsNext of judge.now n from.now needed.old needed.new) }
{
    let paths = judge.paths_of(from.item)?;
    for path in &paths {
        push_sought(judge, needed, from, path)?;
    }
    Ok(())
}

fn push_sought<'j>(
    judge: &Judge<'j>,
    needed: &mut Reached<'j>,
    from: &LedTo<'j>,
    path: &SoughtPath<'j>,
) -> Result<(), AllocError>
    ensures { OnOk result ((of : WitSources) → Judges of judge.now → (n : Needing) → IsPathOf of from.now.item.now path.now → AddsNext of judge.now n from.now needed.old needed.new) }
{
    if seeks_member(path.seeks) {
        push_led(judge, needed, &from.scope, path.path)
    } else {
        Ok(())
    }
}

/// Puts last where a path leads.
pub(crate) fn push_led<'j>(
    judge: &Judge<'j>,
    needed: &mut Reached<'j>,
    scope: &ScopeItems<'j>,
    path: &Path,
) -> Result<(), AllocError>
    ensures { OnOk result ((of : WitSources) → Judges of judge.now → (n : Needing) → NeedsLed of judge.now n (scope_syntax scope.now) path.now → AddsNeeded of judge.now n needed.old needed.new) }
{
    match judge.led_to(scope, path)? {
        Some(led) => push(judge.alloc, needed, led),
        None => Ok(()),
    }
}

// Puts what was found last, if it wasn't found before.
fn push<'j>(alloc: Global, needed: &mut Reached<'j>, led: LedTo<'j>) -> Result<(), AllocError>
    ensures { OnOk result ((of : WitSources) (j : Known) (n : Needing) → IsFoundNeed of j n led.entry → AddsNeeded of j n needed.old needed.new) }
{
    let key = key_of(alloc, led.place)?;
    if needed.seen.insert(key)? {
        needed.found.push(led)?;
    }
    Ok(())
}

/// Whether something at the place of what was found is reached.
pub(crate) fn is_among(
    alloc: Global,
    reached: &Reached<'_>,
    led: &LedTo<'_>,
) -> Result<bool, AllocError>
    ensures { IfOk result (λ is. IsTrue is → (l : Found) × Contains reached.now.found.items l × (l.place ≡ led.now.place)) }
{
    let key = key_of(alloc, led.place)?;
    let Some(index) = reached.seen.get_index_of(key.as_str()) else {
        return Ok(false);
    };
    match reached.found.get(index) {
        Some(of) => Ok(is_place(of.place, led.place)),
        None => Ok(false),
    }
}

// A text that stands for a place.
fn key_of(alloc: Global, place: MemberPlace) -> Result<String, AllocError> {
    format!(in alloc; "{} {}", place.scope, place.item)
}

// Whether two places are one.
fn is_place(left: MemberPlace, right: MemberPlace) -> bool
    ensures { IsTrue result → left ≡ right }
{
    left.scope == right.scope && left.item == right.item
}
