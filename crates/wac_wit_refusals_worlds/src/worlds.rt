//! Worlds that paths lead to, and that others include.

ghost use Rattle.std.specs.Prelude.{◌≡◌, IfOk, IfSome, IsTrue, None, OnOk};
ghost use Rattle.wac_wit_refusals_sites.specs.Judging.{Judges};
ghost use Rattle.wac_wit_refusals_worlds.specs.BroughtSteps.{AddsIncludedBy, AreIncludedWorlds, IsIncludedBy};
ghost use Rattle.wac_wit_refusals_worlds.specs.IncludeSteps.{IsIncludeThere, IsNoInclude, LeadsToPlacedWorld};
ghost use Rattle.wac_wit_refusals_worlds.specs.NeededSteps.{AreAllWithin, PutsWorlds};
ghost use Rattle.wac_wit_scopes.specs.Scopes.{scope_syntax};
ghost use Rattle.wac_wit_scopes.specs.WitSources.{WitSources};

use std::alloc::AllocError;
use wac_wit_refusals_sites::{Judge, MAX_ITEMS, takes};
use wac_wit_scopes::ScopeItems;
use wac_wit_syntax::{IncludeItem, Path, TopItem, WorldItem};

/// How many worlds are looked at that include one another.
pub(crate) const MAX_DEPTH: usize = 100;

/// How many worlds are looked at, each as often as it is included.
pub(crate) const MAX_WORLDS: usize = 10_000;

/// The items of a world, and what that stands in.
#[derive(Clone, Copy)]
pub(crate) struct PlacedWorld<'j> {
    pub(crate) scope: ScopeItems<'j>,
    pub(crate) items: &'j [WorldItem],
}

/// A world that another includes.
#[derive(Clone, Copy)]
pub(crate) struct IncludedWorld<'j> {
    /// The index of the `include`.
    pub(crate) index: usize,
    /// This.
    pub(crate) item: &'j IncludeItem,
    /// The world.
    pub(crate) world: PlacedWorld<'j>,
}

/// The world that a path leads to.
pub(crate) fn world_led_to<'j>(
    judge: &Judge<'j>,
    from: &ScopeItems<'j>,
    path: &Path,
) -> Result<Option<PlacedWorld<'j>>, AllocError>
    ensures { IfOk result (λ o. IfSome o (λ p. (of : WitSources) → Judges of judge.now → LeadsToPlacedWorld of (scope_syntax from.now) path.now p)) }
{
    let Some(led) = judge.led_to(from, path)? else {
        return Ok(None);
    };
    match led.item {
        TopItem::World(decl) => Ok(Some(PlacedWorld {
            scope: led.scope,
            items: &decl.items,
        })),
        _ => Ok(None),
    }
}

/// The world, and the worlds that come with what it includes. Nothing is answered where a path
/// leads nowhere, or there are very many.
pub(crate) fn worlds_within<'j>(
    judge: &Judge<'j>,
    world: &PlacedWorld<'j>,
) -> Result<Option<Vec<PlacedWorld<'j>>>, AllocError>
    ensures { IfOk result (λ o. IfSome o (λ ps. (of : WitSources) → Judges of judge.now → AreAllWithin of world.now ps.items)) }
{
    let mut worlds = Vec::new(judge.alloc);
    let mut left = MAX_ITEMS;
    if push_within(judge, &mut worlds, world, MAX_DEPTH, &mut left)? {
        Ok(Some(worlds))
    } else {
        Ok(None)
    }
}

// Puts a world last, and the worlds that come with what it includes, and says whether these are
// all: they are no deeper in one another than this.
fn push_within<'j>(
    judge: &Judge<'j>,
    worlds: &mut Vec<PlacedWorld<'j>>,
    world: &PlacedWorld<'j>,
    depth: usize,
    left: &mut usize,
) -> Result<bool, AllocError>
    ensures { IfOk result (λ is. IsTrue is → (of : WitSources) → Judges of judge.now → PutsWorlds of world.now worlds.old.items worlds.new.items) }
{
    if depth == 0 || worlds.len() >= MAX_WORLDS || !takes(left, world.items.len()) {
        return Ok(false);
    }
    worlds.push(*world)?;
    for item in world.items {
        if let Some(include) = include_there(judge, item) {
            let Some(inner) = world_led_to(judge, &world.scope, &include.path)? else {
                return Ok(false);
            };
            if !push_within(judge, worlds, &inner, depth - 1, left)? {
                return Ok(false);
            }
        }
    }
    Ok(true)
}

/// The `include` that an item is, if it is there.
pub(crate) fn include_there<'i>(judge: &Judge<'_>, item: &'i WorldItem) -> Option<&'i IncludeItem>
    ensures some { IfSome result (λ i. (of : WitSources) → Judges of judge.now → IsIncludeThere of item.now i.now) }
    ensures none { result ≡ None → (of : WitSources) → Judges of judge.now → IsNoInclude of item.now }
{
    let WorldItem::Include(it) = item else {
        return None;
    };
    if judge.is_there(&it.gates) {
        Some(it)
    } else {
        None
    }
}

/// The worlds that a world includes, by paths that lead somewhere.
pub(crate) fn worlds_included<'j>(
    judge: &Judge<'j>,
    scope: &ScopeItems<'j>,
    items: &'j [WorldItem],
) -> Result<Vec<IncludedWorld<'j>>, AllocError>
    ensures { IfOk result (λ vs. (of : WitSources) → Judges of judge.now → AreIncludedWorlds of (scope_syntax scope.now) items.now vs.items) }
{
    let mut worlds = Vec::new(judge.alloc);
    for (index, item) in items.iter().enumerate() {
        push_included(judge, &mut worlds, scope, index, item)?;
    }
    Ok(worlds)
}

fn push_included<'j>(
    judge: &Judge<'j>,
    worlds: &mut Vec<IncludedWorld<'j>>,
    scope: &ScopeItems<'j>,
    index: usize,
    item: &'j WorldItem,
) -> Result<(), AllocError>
    ensures { OnOk result ((of : WitSources) → Judges of judge.now → AddsIncludedBy of (scope_syntax scope.now) index item.now worlds.old.items worlds.new.items) }
{
    if let Some(world) = world_included(judge, scope, index, item)? {
        worlds.push(world)?;
    }
    Ok(())
}

// The world that an item includes, if it is an `include` that is there.
fn world_included<'j>(
    judge: &Judge<'j>,
    scope: &ScopeItems<'j>,
    index: usize,
    item: &'j WorldItem,
) -> Result<Option<IncludedWorld<'j>>, AllocError>
    ensures { IfOk result (λ o. IfSome o (λ v. (of : WitSources) → Judges of judge.now → IsIncludedBy of (scope_syntax scope.now) index item.now v)) }
{
    let Some(it) = include_there(judge, item) else {
        return Ok(None);
    };
    match world_led_to(judge, scope, &it.path)? {
        Some(world) => Ok(Some(IncludedWorld {
            index,
            item: it,
            world,
        })),
        None => Ok(None),
    }
}
