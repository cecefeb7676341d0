//! Paths that lead to something else than they ask for.

ghost use Rattle.std.specs.Prelude.{◌≡◌, ℕ, IfOk, IsTrue};
ghost use Rattle.wac_wit_refusals.specs.PathReasons.{IsForeignWorld, IsHiddenMember, IsNotInterface, IsNotWorld};
ghost use Rattle.wac_wit_refusals.specs.PathSteps.{GivesForeign};
ghost use Rattle.wac_wit_refusals_sites.specs.Judging.{Judges};
ghost use Rattle.wac_wit_refusals_sites.specs.Leading.{IsKnownPath};
ghost use Rattle.wac_wit_scopes.specs.WitSources.{WitSources, given_name, ident_text};
ghost use Rattle.wac_wit_syntax.specs.declared.tree.InterfaceDecl.{InterfaceDecl as InterfaceOf};
ghost use Rattle.wac_wit_syntax.specs.declared.tree.TopItem.TheVariants as top;
ghost use Rattle.wac_wit_syntax.specs.declared.tree.WorldDecl.{WorldDecl as WorldOf};

use std::alloc::AllocError;
use wac_wit_refusals_sites::{Judge, PlacedPath, Sought, is_at, seeks_member};
use wac_wit_scopes::used_name;
use wac_wit_syntax::{Ident, Span, TopItem, TopUse};

/// Whether a path leads to a world where an interface is asked for.
pub(crate) fn is_not_interface(
    judge: &Judge<'_>,
    file: usize,
    span: Span,
) -> Result<bool, AllocError>
    ensures { IfOk result (λ is. IsTrue is → (of : WitSources) → Judges of judge.now → IsNotInterface of file span) }
{
    let paths = judge.paths_in(file)?;
    for path in &paths {
        if leads_to_world(judge, path, span)? {
            return Ok(true);
        }
    }
    Ok(false)
}

fn leads_to_world<'j>(
    judge: &Judge<'j>,
    of: &PlacedPath<'j>,
    span: Span,
) -> Result<bool, AllocError>
    ensures { IfOk result (λ is. IsTrue is → (sources : WitSources) → Judges sources judge.now → (file : ℕ) → IsKnownPath sources file of.now → IsNotInterface sources file span) }
{
    if !seeks_interface(of.seeks) || !is_at(of.path.name.span, span) {
        return Ok(false);
    }
    match judge.led_to(&of.scope, of.path)? {
        Some(led) => Ok(is_world(led.item)),
        None => Ok(false),
    }
}

/// Whether a path leads to an interface where a world is asked for.
pub(crate) fn is_not_world(judge: &Judge<'_>, file: usize, span: Span) -> Result<bool, AllocError>
    ensures { IfOk result (λ is. IsTrue is → (of : WitSources) → Judges of judge.now → IsNotWorld of file span) }
{
    let paths = judge.paths_in(file)?;
    for path in &paths {
        if leads_to_interface(judge, path, span)? {
            return Ok(true);
        }
    }
    Ok(false)
}

fn leads_to_interface<'j>(
    judge: &Judge<'j>,
    of: &PlacedPath<'j>,
    span: Span,
) -> Result<bool, AllocError>
    ensures { IfOk result (λ is. IsTrue is → (sources : WitSources) → Judges sources judge.now → (file : ℕ) → IsKnownPath sources file of.now → IsNotWorld sources file span) }
{
    if !seeks_world(of.seeks) || !is_at(of.path.name.span, span) {
        return Ok(false);
    }
    match judge.led_to(&of.scope, of.path)? {
        Some(led) => Ok(is_interface(led.item)),
        None => Ok(false),
    }
}

/// Whether a path leads to what a feature hides.
pub(crate) fn is_hidden_member(
    judge: &Judge<'_>,
    file: usize,
    span: Span,
) -> Result<bool, AllocError>
    ensures { IfOk result (λ is. IsTrue is → (of : WitSources) → Judges of judge.now → IsHiddenMember of file span) }
{
    let paths = judge.paths_in(file)?;
    for path in &paths {
        if leads_to_hidden(judge, path, span)? {
            return Ok(true);
        }
    }
    Ok(false)
}

fn leads_to_hidden<'j>(
    judge: &Judge<'j>,
    of: &PlacedPath<'j>,
    span: Span,
) -> Result<bool, AllocError>
    ensures { IfOk result (λ is. IsTrue is → (sources : WitSources) → Judges sources judge.now → (file : ℕ) → IsKnownPath sources file of.now → IsHiddenMember sources file span) }
{
    if !seeks_member(of.seeks) || !is_at(of.path.name.span, span) {
        return Ok(false);
    }
    match judge.led_to(&of.scope, of.path)? {
        Some(led) => Ok(!judge.is_item_there(led.item)),
        None => Ok(false),
    }
}

/// Whether a path asks for a world of another package that a `use` outside of interfaces and
/// worlds names.
pub(crate) fn is_foreign_world(
    judge: &Judge<'_>,
    file: usize,
    span: Span,
) -> Result<bool, AllocError>
    ensures { IfOk result (λ is. IsTrue is → (of : WitSources) → Judges of judge.now → IsForeignWorld of file span) }
{
    let paths = judge.paths_in(file)?;
    for path in &paths {
        if leads_abroad(judge, path, span)? {
            return Ok(true);
        }
    }
    Ok(false)
}

fn leads_abroad<'j>(judge: &Judge<'j>, of: &PlacedPath<'j>, span: Span) -> Result<bool, AllocError>
    ensures { IfOk result (λ is. IsTrue is → (sources : WitSources) → Judges sources judge.now → (file : ℕ) → IsKnownPath sources file of.now → IsForeignWorld sources file span) }
{
    if !seeks_member(of.seeks) || !is_at(of.path.name.span, span) || of.path.package.is_some() {
        return Ok(false);
    }
    for item in of.scope.items {
        if is_abroad(judge, of, item)? {
            return Ok(true);
        }
    }
    Ok(false)
}

// Whether an item is a `use` that gives a path its name, and leads to a world of another package.
fn is_abroad<'j>(judge: &Judge<'j>, of: &PlacedPath<'j>, item: &TopItem) -> Result<bool, AllocError>
    ensures { IfOk result (λ is. IsTrue is → (sources : WitSources) → Judges sources judge.now → GivesForeign sources of.now item.now) }
{
    let TopItem::Use(used) = item else {
        return Ok(false);
    };
    if used.path.package.is_none() || !is_giving(used, &of.path.name) {
        return Ok(false);
    }
    match judge.led_to(&of.scope, &used.path)? {
        Some(led) => Ok(is_world(led.item)),
        None => Ok(false),
    }
}

fn is_giving(used: &TopUse, name: &Ident) -> bool
    ensures { IsTrue result → given_name used.now.path.name used.now.alias ≡ ident_text name.now }
{
    used_name(used).name == name.name
}

fn seeks_interface(seeks: Sought) -> bool
    ensures { IsTrue result → seeks ≡ Sought.Interface }
{
    matches!(seeks, Sought::Interface)
}

fn seeks_world(seeks: Sought) -> bool
    ensures { IsTrue result → seeks ≡ Sought.World }
{
    matches!(seeks, Sought::World)
}

fn is_world(item: &TopItem) -> bool
    ensures { IsTrue result → (d : WorldOf) × (item.now ≡ top.World d) }
{
    matches!(item, TopItem::World(_))
}

fn is_interface(item: &TopItem) -> bool
    ensures { IsTrue result → (d : InterfaceOf) × (item.now ≡ top.Interface d) }
{
    matches!(item, TopItem::Interface(_))
}
