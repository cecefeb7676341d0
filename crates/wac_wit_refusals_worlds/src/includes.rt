//! New names for what an included world doesn't have.

ghost use Rattle.std.specs.Prelude.{ℕ, IfOk, IsTrue};
ghost use Rattle.wac_wit_refusals_sites.specs.Judging.{IsKnownBody, Judges};
ghost use Rattle.wac_wit_refusals_worlds.specs.IncludeSteps.{HasUnknownRename, LacksSome, RenamesUnknownAt};
ghost use Rattle.wac_wit_refusals_worlds.specs.Includes.{IsUnknownRename, RenamesUnknown};
ghost use Rattle.wac_wit_scopes.specs.Scopes.{scope_syntax};
ghost use Rattle.wac_wit_scopes.specs.WitSources.{WitSources};

use super::sought_names::{SoughtName, lacks_name};
use super::worlds::{PlacedWorld, world_led_to};
use std::alloc::AllocError;
use wac_wit_refusals_sites::{Body, Judge, MAX_ITEMS, PlacedBody, is_at};
use wac_wit_scopes::ScopeItems;
use wac_wit_syntax::{IncludeItem, Rename, Span, WorldItem};

/// Whether an `include` gives a new name to what the included world doesn't have.
pub fn is_unknown_rename(judge: &Judge<'_>, file: usize, span: Span) -> Result<bool, AllocError>
    ensures { IfOk result (λ is. IsTrue is → (of : WitSources) → Judges of judge.now → IsUnknownRename of file span) }
{
    for placed in &judge.bodies_in(file)? {
        if has_unknown_rename(judge, placed, span)? {
            return Ok(true);
        }
    }
    Ok(false)
}

fn has_unknown_rename<'j>(
    judge: &Judge<'j>,
    placed: &PlacedBody<'j>,
    span: Span,
) -> Result<bool, AllocError>
    ensures { IfOk result (λ is. IsTrue is → (of : WitSources) → Judges of judge.now → (file : ℕ) → IsKnownBody of file placed.now → IsUnknownRename of file span) }
{
    match placed.body {
        Body::Interface(_) => Ok(false),
        Body::World(items) => has_unknown_rename_in(judge, &placed.scope, items, span),
    }
}

fn has_unknown_rename_in<'j>(
    judge: &Judge<'j>,
    scope: &ScopeItems<'j>,
    items: &'j [WorldItem],
    span: Span,
) -> Result<bool, AllocError>
    ensures { IfOk result (λ is. IsTrue is → (of : WitSources) → Judges of judge.now → HasUnknownRename of (scope_syntax scope.now) items.now span) }
{
    for item in items {
        if renames_unknown_at(judge, scope, item, span)? {
            return Ok(true);
        }
    }
    Ok(false)
}

fn renames_unknown_at<'j>(
    judge: &Judge<'j>,
    scope: &ScopeItems<'j>,
    item: &'j WorldItem,
    span: Span,
) -> Result<bool, AllocError>
    ensures { IfOk result (λ is. IsTrue is → (of : WitSources) → Judges of judge.now → RenamesUnknownAt of (scope_syntax scope.now) item.now span) }
{
    match item {
        WorldItem::Include(it) if is_at(it.path.name.span, span) && judge.is_there(&it.gates) => {
            renames_unknown(judge, scope, it)
        }
        _ => Ok(false),
    }
}

fn renames_unknown<'j>(
    judge: &Judge<'j>,
    scope: &ScopeItems<'j>,
    item: &'j IncludeItem,
) -> Result<bool, AllocError>
    ensures { IfOk result (λ is. IsTrue is → (of : WitSources) → Judges of judge.now → RenamesUnknown of (scope_syntax scope.now) item.now) }
{
    match world_led_to(judge, scope, &item.path)? {
        Some(world) => lacks_some(judge, &world, &item.renames),
        None => Ok(false),
    }
}

// Whether a world lacks one of the names.
fn lacks_some<'j>(
    judge: &Judge<'j>,
    world: &PlacedWorld<'j>,
    renames: &'j [Rename],
) -> Result<bool, AllocError>
    ensures { IfOk result (λ is. IsTrue is → (of : WitSources) → Judges of judge.now → LacksSome of world.now renames.now) }
{
    let mut left = MAX_ITEMS;
    for rename in renames {
        let sought = SoughtName {
            world: *world,
            name: &rename.name,
        };
        if lacks_name(judge, &sought, &mut left)? {
            return Ok(true);
        }
    }
    Ok(false)
}
