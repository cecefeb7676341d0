//! Interfaces that the exports of a world need as exports and as imports.

ghost use Rattle.std.specs.Prelude.{◌≡◌, ℕ, Contains, IfOk, IsTrue};
ghost use Rattle.wac_wit_refusals_sites.specs.Judging.{IsKnownBody, Judges};
ghost use Rattle.wac_wit_refusals_sites.specs.declared.led.LedTo.{LedTo as Found};
ghost use Rattle.wac_wit_refusals_worlds.specs.NeededSteps.{AreExports, GivesNeededTwice, HasNeededTwice, IsOnBothSides, NeedsSomeTwice};
ghost use Rattle.wac_wit_refusals_worlds.specs.NeededTwice.{GivesExportsAt, IsNeededTwice, ident_of_extern};
ghost use Rattle.wac_wit_scopes.specs.WitSources.{WitSources};

use super::exports::{PlacedExport, WorldExports, exports_given, exports_of, is_exported};
use super::needed::{needed_as_imports, needed_by};
use super::needs::{Reached, is_among};
use super::worlds::PlacedWorld;
use std::alloc::AllocError;
use wac_wit_refusals_sites::{Body, Judge, LedTo, PlacedBody, is_at};
use wac_wit_syntax::{Extern, Ident, Span, WorldItem};

/// Whether an export whose name stands at this place is or needs an interface that is exported,
/// and that an export needs as an import.
pub fn is_needed_twice(judge: &Judge<'_>, file: usize, span: Span) -> Result<bool, AllocError>
    ensures { IfOk result (λ is. IsTrue is → (of : WitSources) → Judges of judge.now → IsNeededTwice of file span) }
{
    for placed in &judge.bodies_in(file)? {
        if has_needed_twice(judge, placed, span)? {
            return Ok(true);
        }
    }
    Ok(false)
}

fn has_needed_twice<'j>(
    judge: &Judge<'j>,
    placed: &PlacedBody<'j>,
    span: Span,
) -> Result<bool, AllocError>
    ensures { IfOk result (λ is. IsTrue is → (of : WitSources) → Judges of judge.now → (file : ℕ) → IsKnownBody of file placed.now → IsNeededTwice of file span) }
{
    match placed.body {
        Body::Interface(_) => Ok(false),
        Body::World(items) => has_needed_twice_in(
            judge,
            &PlacedWorld {
                scope: placed.scope,
                items,
            },
            span,
        ),
    }
}

fn has_needed_twice_in<'j>(
    judge: &Judge<'j>,
    world: &PlacedWorld<'j>,
    span: Span,
) -> Result<bool, AllocError>
    ensures { IfOk result (λ is. IsTrue is → (of : WitSources) → Judges of judge.now → HasNeededTwice of world.now span) }
{
    for item in world.items {
        if gives_exports_at(item, span) && gives_needed_twice(judge, world, item)? {
            return Ok(true);
        }
    }
    Ok(false)
}

// Whether an item of a world gives it an export that needs something on both sides.
fn gives_needed_twice<'j>(
    judge: &Judge<'j>,
    world: &PlacedWorld<'j>,
    item: &'j WorldItem,
) -> Result<bool, AllocError>
    ensures { IfOk result (λ is. IsTrue is → (of : WitSources) → Judges of judge.now → GivesNeededTwice of world.now item.now) }
{
    let given = exports_given(judge, &world.scope, item)?;
    match &exports_of(judge, world)? {
        Some(exports) => needs_some_twice(judge, exports, &given),
        None => Ok(false),
    }
}

fn needs_some_twice<'j>(
    judge: &Judge<'j>,
    exports: &WorldExports<'j>,
    given: &[PlacedExport<'j>],
) -> Result<bool, AllocError>
    ensures { IfOk result (λ is. IsTrue is → (of : WitSources) → Judges of judge.now → AreExports of exports.now → NeedsSomeTwice of exports.now given.now) }
{
    let imported = needed_as_imports(judge, exports)?;
    let needed = needed_by(judge, given)?;
    are_on_both_sides(judge, exports, &imported, &needed.found)
}

// Whether one of what was found is exported, and needed as an import.
fn are_on_both_sides<'j>(
    judge: &Judge<'j>,
    exports: &WorldExports<'j>,
    imported: &Reached<'j>,
    found: &[LedTo<'j>],
) -> Result<bool, AllocError>
    ensures { IfOk result (λ is. IsTrue is → (of : WitSources) → Judges of judge.now → (l : Found) × Contains found.now l × IsOnBothSides of judge.now exports.now imported.now l) }
{
    for led in found {
        if is_on_both_sides(judge, exports, imported, led)? {
            return Ok(true);
        }
    }
    Ok(false)
}

fn is_on_both_sides<'j>(
    judge: &Judge<'j>,
    exports: &WorldExports<'j>,
    imported: &Reached<'j>,
    led: &LedTo<'j>,
) -> Result<bool, AllocError>
    ensures { IfOk result (λ is. IsTrue is → (of : WitSources) → Judges of judge.now → IsOnBothSides of judge.now exports.now imported.now led.now) }
{
    if is_among(judge.alloc, imported, led)? {
        is_exported(judge, exports, led)
    } else {
        Ok(false)
    }
}

// Whether the name of an export, or the last one of an `include`'s path, stands at a place.
fn gives_exports_at(item: &WorldItem, span: Span) -> bool
    ensures { IsTrue result → GivesExportsAt item.now span }
{
    match item {
        WorldItem::Export(it) => is_at(ident_of(&it.what).span, span),
        WorldItem::Include(it) => is_at(it.path.name.span, span),
        _ => false,
    }
}

// The name of an import or an export, or the last one of its path.
fn ident_of(what: &Extern) -> &Ident
    ensures { result.now ≡ ident_of_extern what.now }
{
    match what {
        Extern::Path(path) => &path.name,
        Extern::Func(name, _) => name,
        Extern::Inline(name, _) => name,
        Extern::Named(name, _) => name,
    }
}
