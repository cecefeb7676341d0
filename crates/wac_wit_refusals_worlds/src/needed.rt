//! What exports need.

ghost use Rattle.std.specs.Prelude.{IfOk, OnOk};
ghost use Rattle.wac_wit_refusals_sites.specs.Judging.{Judges};
ghost use Rattle.wac_wit_refusals_worlds.specs.NeededSteps.{AddsImports, AddsNeeded, AreExports, AreImports, AreNeeded, IsFoundNeed, Needing, NeedsExports, NeedsUse, NeedsUses, NeedsWhat, one_of, some_of};
ghost use Rattle.wac_wit_scopes.specs.Scopes.{scope_syntax};
ghost use Rattle.wac_wit_scopes.specs.WitSources.{WitSources};

use super::exports::{PlacedExport, WorldExports, export_there, is_not_exported};
use super::needs::{Reached, push_all_needs, push_led, push_next};
use super::worlds::PlacedWorld;
use std::alloc::AllocError;
use wac_wit_refusals_sites::{Judge, LedTo};
use wac_wit_scopes::ScopeItems;
use wac_wit_syntax::{Extern, ExternItem, InterfaceItem};

/// The interfaces that exports are, and all that these need.
pub(crate) fn needed_by<'j>(
    judge: &Judge<'j>,
    exports: &[PlacedExport<'j>],
) -> Result<Reached<'j>, AllocError>
    ensures { IfOk result (λ r. (of : WitSources) → Judges of judge.now → AreNeeded of judge.now (one_of exports.now) r.found.items) }
{
    let mut needed = Reached::new(judge.alloc);
    for export in exports {
        push_export(judge, &mut needed, &export.scope, export.item)?;
    }
    push_all_needs(judge, &mut needed)?;
    Ok(needed)
}

/// All that the exports of a world need by way of what isn't exported.
pub(crate) fn needed_as_imports<'j>(
    judge: &Judge<'j>,
    exports: &WorldExports<'j>,
) -> Result<Reached<'j>, AllocError>
    ensures { IfOk result (λ r. (of : WitSources) → Judges of judge.now → AreExports of exports.now → AreImports of judge.now exports.now r) }
{
    let needed = needed_by_some(judge, exports)?;
    let mut imported = Reached::new(judge.alloc);
    push_needs_of_imports(judge, &mut imported, exports, &needed.found)?;
    push_all_needs(judge, &mut imported)?;
    Ok(imported)
}

// The interfaces that the exports of a world are, and all that these need.
fn needed_by_some<'j>(
    judge: &Judge<'j>,
    exports: &WorldExports<'j>,
) -> Result<Reached<'j>, AllocError>
    ensures { IfOk result (λ r. (of : WitSources) → Judges of judge.now → AreExports of exports.now → AreNeeded of judge.now (some_of exports.now) r.found.items) }
{
    let mut needed = Reached::new(judge.alloc);
    for world in &exports.worlds {
        push_exports(judge, &mut needed, world)?;
    }
    push_all_needs(judge, &mut needed)?;
    Ok(needed)
}

fn push_exports<'j>(
    judge: &Judge<'j>,
    needed: &mut Reached<'j>,
    world: &PlacedWorld<'j>,
) -> Result<(), AllocError>
    ensures { OnOk result ((of : WitSources) → Judges of judge.now → (n : Needing) → NeedsExports of judge.now n world.now → AddsNeeded of judge.now n needed.old needed.new) }
{
    for item in world.items {
        if let Some(export) = export_there(judge, item) {
            push_export(judge, needed, &world.scope, export)?;
        }
    }
    Ok(())
}

// Puts the interface that an export is last, or those that it uses.
fn push_export<'j>(
    judge: &Judge<'j>,
    needed: &mut Reached<'j>,
    scope: &ScopeItems<'j>,
    export: &ExternItem,
) -> Result<(), AllocError>
    ensures { OnOk result ((of : WitSources) → Judges of judge.now → (n : Needing) → NeedsWhat of judge.now n (scope_syntax scope.now) export.now → AddsNeeded of judge.now n needed.old needed.new) }
{
    match &export.what {
        Extern::Path(path) => push_led(judge, needed, scope, path),
        Extern::Inline(_, items) => push_all_used(judge, needed, scope, items),
        _ => Ok(()),
    }
}

fn push_all_used<'j>(
    judge: &Judge<'j>,
    needed: &mut Reached<'j>,
    scope: &ScopeItems<'j>,
    items: &[InterfaceItem],
) -> Result<(), AllocError>
    ensures { OnOk result ((of : WitSources) → Judges of judge.now → (n : Needing) → NeedsUses of judge.now n (scope_syntax scope.now) items.now → AddsNeeded of judge.now n needed.old needed.new) }
{
    for item in items {
        push_used(judge, needed, scope, item)?;
    }
    Ok(())
}

fn push_used<'j>(
    judge: &Judge<'j>,
    needed: &mut Reached<'j>,
    scope: &ScopeItems<'j>,
    item: &InterfaceItem,
) -> Result<(), AllocError>
    ensures { OnOk result ((of : WitSources) → Judges of judge.now → (n : Needing) → NeedsUse of judge.now n (scope_syntax scope.now) item.now → AddsNeeded of judge.now n needed.old needed.new) }
{
    match item {
        InterfaceItem::Use(it) if judge.is_there(&it.gates) => {
            push_led(judge, needed, scope, &it.path)
        }
        _ => Ok(()),
    }
}

// Puts what interfaces need last that aren't exported.
fn push_needs_of_imports<'j>(
    judge: &Judge<'j>,
    imported: &mut Reached<'j>,
    exports: &WorldExports<'j>,
    found: &[LedTo<'j>],
) -> Result<(), AllocError>
    ensures { OnOk result ((of : WitSources) → Judges of judge.now → AreNeeded of judge.now (some_of exports.now) found.now → AddsImports of judge.now exports.now imported.old imported.new) }
{
    for led in found {
        push_needs_of_import(judge, imported, exports, led)?;
    }
    Ok(())
}

fn push_needs_of_import<'j>(
    judge: &Judge<'j>,
    imported: &mut Reached<'j>,
    exports: &WorldExports<'j>,
    led: &LedTo<'j>,
) -> Result<(), AllocError>
    ensures { OnOk result ((of : WitSources) → Judges of judge.now → IsFoundNeed of judge.now (some_of exports.now) led.now → AddsImports of judge.now exports.now imported.old imported.new) }
{
    if is_not_exported(judge, exports, led)? {
        push_next(judge, imported, led)
    } else {
        Ok(())
    }
}
