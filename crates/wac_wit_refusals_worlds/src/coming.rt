//! Names that come into a world, by its own items and by what it includes.

ghost use Rattle.std.specs.Prelude.{IfOk, OnOk};
ghost use Rattle.wac_wit_refusals_sites.specs.Judging.{Judges};
ghost use Rattle.wac_wit_refusals_types.specs.TypeSteps.{AreTaken};
ghost use Rattle.wac_wit_refusals_worlds.specs.Brought.{IsRenamedTo, TakesSideName};
ghost use Rattle.wac_wit_refusals_worlds.specs.BroughtSteps.{AddsBrought, AreComing};
ghost use Rattle.wac_wit_scopes.specs.Scopes.{scope_syntax};
ghost use Rattle.wac_wit_scopes.specs.WitSources.{ScopeSyntax, WitSources};

use super::worlds::{IncludedWorld, MAX_DEPTH, worlds_included};
use std::alloc::AllocError;
use wac_wit_refusals_sites::{Body, Judge, MAX_ITEMS, local_name, takes};
use wac_wit_refusals_types::{TakenName, export_names, item_names};
use wac_wit_scopes::ScopeItems;
use wac_wit_syntax::{Ident, Rename, WorldItem};

/// A name that comes into a world.
#[derive(Clone, Copy)]
pub(crate) struct ComingName<'c> {
    /// The index of the item that gives it.
    pub(crate) index: usize,
    /// The name where it comes from.
    pub(crate) source: &'c Ident,
    /// The name in the world.
    pub(crate) name: &'c Ident,
}

/// The names of exports, or else of types and imports, that come into a world. Some may lack
/// where there are very many.
pub(crate) fn names_coming<'j>(
    judge: &Judge<'j>,
    scope: &ScopeItems<'j>,
    items: &'j [WorldItem],
    exports: bool,
) -> Result<Vec<ComingName<'j>>, AllocError>
    ensures { IfOk result (λ cs. (of : WitSources) → Judges of judge.now → AreComing of exports (scope_syntax scope.now) items.now cs.items) }
{
    let mut left = MAX_ITEMS;
    names_within(judge, scope, items, exports, MAX_DEPTH, &mut left)
}

// The names that come in from worlds that are no deeper in others than this.
fn names_within<'j>(
    judge: &Judge<'j>,
    scope: &ScopeItems<'j>,
    items: &'j [WorldItem],
    exports: bool,
    depth: usize,
    left: &mut usize,
) -> Result<Vec<ComingName<'j>>, AllocError>
    ensures { IfOk result (λ cs. (of : WitSources) → Judges of judge.now → AreComing of exports (scope_syntax scope.now) items.now cs.items) }
{
    let mut names = own_names(judge, items, exports)?;
    if depth == 0 || !takes(left, items.len()) || !takes(left, names.len()) {
        return Ok(names);
    }
    for included in &worlds_included(judge, scope, items)? {
        let world = included.world;
        let inside = names_within(judge, &world.scope, world.items, exports, depth - 1, left)?;
        push_renamed(&mut names, included, &inside, left)?;
    }
    Ok(names)
}

// The names that a world's own items give.
fn own_names<'j>(
    judge: &Judge<'j>,
    items: &'j [WorldItem],
    exports: bool,
) -> Result<Vec<ComingName<'j>>, AllocError>
    ensures { IfOk result (λ cs. (of : WitSources) → Judges of judge.now → (w : ScopeSyntax) → AreComing of exports w items.now cs.items) }
{
    let mut names = Vec::new(judge.alloc);
    for taken in &side_names(judge, items, exports)? {
        names.push(ComingName {
            index: taken.item,
            source: taken.name,
            name: taken.name,
        })?;
    }
    Ok(names)
}

fn side_names<'j>(
    judge: &Judge<'j>,
    items: &'j [WorldItem],
    exports: bool,
) -> Result<Vec<TakenName<'j>>, AllocError>
    ensures { IfOk result (λ ns. (of : WitSources) → Judges of judge.now → AreTaken (TakesSideName of exports items.now) ns.items) }
{
    let body = Body::World(items);
    if exports {
        export_names(judge, &body)
    } else {
        item_names(judge, &body)
    }
}

// Puts the names of an included world last, under the names that they get.
fn push_renamed<'c>(
    names: &mut Vec<ComingName<'c>>,
    included: &IncludedWorld<'c>,
    inside: &[ComingName<'c>],
    left: &mut usize,
) -> Result<(), AllocError>
    ensures { OnOk result ((of : WitSources) → AddsBrought of included.now inside.now names.old.items names.new.items) }
{
    let each = included.item.renames.len().saturating_add(1);
    if !takes(left, inside.len().saturating_mul(each)) {
        return Ok(());
    }
    for coming in inside {
        names.push(ComingName {
            index: included.index,
            source: coming.name,
            name: new_name(&included.item.renames, coming.name),
        })?;
    }
    Ok(())
}

// What a name becomes.
fn new_name<'c>(renames: &'c [Rename], name: &'c Ident) -> &'c Ident
    ensures { IsRenamedTo renames.now name.now result.now }
{
    for rename in renames {
        if rename.name.name == name.name {
            return local_name(rename);
        }
    }
    name
}
