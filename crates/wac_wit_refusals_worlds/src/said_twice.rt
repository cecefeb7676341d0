//! Interfaces that a world imports or exports twice.

ghost use Rattle.std.specs.Prelude.{◌≡◌, IfOk, IfSome, IsTrue};
ghost use Rattle.wac_wit_refusals_sites.specs.Judging.{Judges};
ghost use Rattle.wac_wit_refusals_sites.specs.Leading.{IsPlacedItem};
ghost use Rattle.wac_wit_refusals_sites.specs.declared.judge.Judge.{Judge as Known};
ghost use Rattle.wac_wit_refusals_worlds.specs.SaidFound.{IsFoundElsewhere, SaysFound};
ghost use Rattle.wac_wit_refusals_worlds.specs.SaidTwice.{HasPathThere, IsSaidAgain, IsSaidTwice, IsSaidTwiceBy, IsSaidTwiceIn, SaysPath};
ghost use Rattle.wac_wit_scopes.specs.Scopes.{scope_syntax};
ghost use Rattle.wac_wit_scopes.specs.WitSources.{WitSources};

use std::alloc::AllocError;
use wac_wit_refusals_sites::{Judge, LedTo, is_at};
use wac_wit_scopes::ScopeItems;
use wac_wit_syntax::{Extern, ExternItem, Path, Span, TopItem, WorldItem};

// What is imported or exported by its path.
#[derive(Clone, Copy)]
pub(crate) struct SaidPath<'p> {
    pub(crate) is_export: bool,
    pub(crate) path: &'p Path,
}

/// Whether a world imports or exports an interface twice, once by a path whose last name stands
/// at this place.
pub fn is_said_twice(judge: &Judge<'_>, file: usize, span: Span) -> Result<bool, AllocError>
    ensures { IfOk result (λ is. IsTrue is → (of : WitSources) → Judges of judge.now → IsSaidTwice of file span) }
{
    for scope in &judge.scopes {
        if scope.file == file && is_said_twice_in(judge, scope, span)? {
            return Ok(true);
        }
    }
    Ok(false)
}

fn is_said_twice_in<'j>(
    judge: &Judge<'j>,
    scope: &ScopeItems<'j>,
    span: Span,
) -> Result<bool, AllocError>
    ensures { IfOk result (λ is. IsTrue is → (of : WitSources) → Judges of judge.now → IsSaidTwiceIn of (scope_syntax scope.now) span) }
{
    for item in scope.items {
        if let TopItem::World(decl) = item {
            if judge.is_there(&decl.gates) && is_said_twice_by(judge, scope, &decl.items, span)? {
                return Ok(true);
            }
        }
    }
    Ok(false)
}

fn is_said_twice_by<'j>(
    judge: &Judge<'j>,
    scope: &ScopeItems<'j>,
    items: &[WorldItem],
    span: Span,
) -> Result<bool, AllocError>
    ensures { IfOk result (λ is. IsTrue is → (of : WitSources) → Judges of judge.now → IsSaidTwiceBy of (scope_syntax scope.now) items.now span) }
{
    for (index, item) in items.iter().enumerate() {
        if let Some(said) = said_by(judge, item) {
            if is_at(said.path.name.span, span)
                && is_said_again(judge, scope, items, index, &said)?
            {
                return Ok(true);
            }
        }
    }
    Ok(false)
}

// Whether an item but for the one at an index says the same interface.
fn is_said_again<'j>(
    judge: &Judge<'j>,
    scope: &ScopeItems<'j>,
    items: &[WorldItem],
    index: usize,
    said: &SaidPath<'_>,
) -> Result<bool, AllocError>
    ensures { IfOk result (λ is. IsTrue is → (of : WitSources) → Judges of judge.now → IsSaidAgain of (scope_syntax scope.now) items.now index said.now.is_export said.now.path.now) }
{
    let Some(to) = judge.led_to(scope, said.path)? else {
        return Ok(false);
    };
    match to.item {
        TopItem::Interface(_) => {
            is_said_elsewhere(judge, scope, items, index, said.is_export, &to)
        }
        TopItem::Use(_) | TopItem::World(_) => Ok(false),
    }
}

// Whether an item but for the one at an index says what was found.
fn is_said_elsewhere<'j>(
    judge: &Judge<'j>,
    scope: &ScopeItems<'j>,
    items: &[WorldItem],
    but: usize,
    is_export: bool,
    to: &LedTo<'j>,
) -> Result<bool, AllocError>
    ensures { IfOk result (λ is. IsTrue is → (of : WitSources) → Judges of judge.now → IsPlacedItem judge.now to.now → IsFoundElsewhere of scope.now items.now but is_export to.now) }
{
    for (index, item) in items.iter().enumerate() {
        if index != but && says(judge, scope, item, is_export, to)? {
            return Ok(true);
        }
    }
    Ok(false)
}

/// Whether an item says what was found.
pub(crate) fn says<'j>(
    judge: &Judge<'j>,
    scope: &ScopeItems<'j>,
    item: &WorldItem,
    is_export: bool,
    to: &LedTo<'j>,
) -> Result<bool, AllocError>
    ensures { IfOk result (λ is. IsTrue is → (of : WitSources) → Judges of judge.now → IsPlacedItem judge.now to.now → SaysFound of scope.now item.now is_export to.now) }
{
    let Some(said) = said_by(judge, item) else {
        return Ok(false);
    };
    if said.is_export != is_export {
        return Ok(false);
    }
    match judge.led_to(scope, said.path)? {
        Some(led) => Ok(are_one(&led, to)),
        None => Ok(false),
    }
}

// What an item imports or exports by its path.
fn said_by<'p>(judge: &Judge<'_>, item: &'p WorldItem) -> Option<SaidPath<'p>>
    ensures { IfSome result (λ said. (of : WitSources) → Judges of judge.now → SaysPath of item.now said.is_export said.path.now) }
{
    match item {
        WorldItem::Import(it) => Some(SaidPath {
            is_export: false,
            path: path_of(judge, it)?,
        }),
        WorldItem::Export(it) => Some(SaidPath {
            is_export: true,
            path: path_of(judge, it)?,
        }),
        _ => None,
    }
}

fn path_of<'p>(judge: &Judge<'_>, item: &'p ExternItem) -> Option<&'p Path>
    ensures { IfSome result (λ path. (of : WitSources) → Judges of judge.now → HasPathThere of item.now path.now) }
{
    match &item.what {
        Extern::Path(path) if judge.is_there(&item.gates) => Some(path),
        _ => None,
    }
}

// Whether both stand at one place.
fn are_one(left: &LedTo<'_>, right: &LedTo<'_>) -> bool
    ensures scope { IsTrue result → (j : Known) → IsPlacedItem j left.now → IsPlacedItem j right.now → left.now.scope ≡ right.now.scope }
    ensures item { IsTrue result → (j : Known) → IsPlacedItem j left.now → IsPlacedItem j right.now → left.now.item.now ≡ right.now.item.now }
{
    left.place.scope == right.place.scope && left.place.item == right.place.item
}
