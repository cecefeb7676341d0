//! Names that an `include` brings twice.

ghost use Rattle.std.specs.Prelude.{◌≡◌, ℕ, Contains, IfOk, IsTrue};
ghost use Rattle.wac_wit_refusals_sites.specs.Judging.{IsKnownBody, Judges};
ghost use Rattle.wac_wit_refusals_worlds.specs.Brought.{BringsTwice, IsComingTwice};
ghost use Rattle.wac_wit_refusals_worlds.specs.BroughtSteps.{AreTwins, AreTwinsBy, HasTwins, IsIncludeAt};
ghost use Rattle.wac_wit_scopes.specs.Scopes.{scope_syntax};
ghost use Rattle.wac_wit_scopes.specs.WitSources.{WitSources, ident_text};

use super::coming::{ComingName, names_coming};
use indexmap::IndexMap;
use std::alloc::{AllocError, Global};
use wac_wit_refusals_sites::{Body, Judge, PlacedBody, is_at};
use wac_wit_scopes::ScopeItems;
use wac_wit_syntax::{Span, WorldItem};

/// The indices of names, by these in lower case: the first of each.
struct FirstNames {
    alloc: Global,
    indices: IndexMap<String, usize>,
}

impl Drop for FirstNames {
    fn drop(self) {
        let FirstNames {
            alloc: _,
            indices: _,
        } = self;
    }
}

/// Whether an `include`, the last name of whose path stands at this place, brings an export, or
/// else an import, of a name that comes twice.
pub fn is_coming_twice(
    judge: &Judge<'_>,
    file: usize,
    span: Span,
    exports: bool,
) -> Result<bool, AllocError>
    ensures { IfOk result (λ is. IsTrue is → (of : WitSources) → Judges of judge.now → IsComingTwice of file span exports) }
{
    for placed in &judge.bodies_in(file)? {
        if comes_twice(judge, placed, span, exports)? {
            return Ok(true);
        }
    }
    Ok(false)
}

fn comes_twice<'j>(
    judge: &Judge<'j>,
    placed: &PlacedBody<'j>,
    span: Span,
    exports: bool,
) -> Result<bool, AllocError>
    ensures { IfOk result (λ is. IsTrue is → (of : WitSources) → Judges of judge.now → (file : ℕ) → IsKnownBody of file placed.now → IsComingTwice of file span exports) }
{
    match placed.body {
        Body::Interface(_) => Ok(false),
        Body::World(items) => brings_twice(judge, &placed.scope, items, span, exports),
    }
}

fn brings_twice<'j>(
    judge: &Judge<'j>,
    scope: &ScopeItems<'j>,
    items: &'j [WorldItem],
    span: Span,
    exports: bool,
) -> Result<bool, AllocError>
    ensures { IfOk result (λ is. IsTrue is → (of : WitSources) → Judges of judge.now → BringsTwice of exports (scope_syntax scope.now) items.now span) }
{
    for (index, item) in items.iter().enumerate() {
        if is_include_at(item, span) {
            let names = names_coming(judge, scope, items, exports)?;
            if has_twins(judge.alloc, &names, index)? {
                return Ok(true);
            }
        }
    }
    Ok(false)
}

fn is_include_at(item: &WorldItem, span: Span) -> bool
    ensures { IsTrue result → IsIncludeAt item.now span }
{
    match item {
        WorldItem::Include(it) => is_at(it.path.name.span, span),
        _ => false,
    }
}

// Whether a name that comes by the item at an index comes by another item too, or from another name.
fn has_twins(alloc: Global, names: &[ComingName<'_>], index: usize) -> Result<bool, AllocError>
    ensures { IfOk result (λ is. IsTrue is → HasTwins names.now index) }
{
    let mut firsts = FirstNames::new(alloc);
    for (number, name) in names.iter().enumerate() {
        let first = firsts.first_of(&name.name.name, number)?;
        if is_twin_of(names, first, name, index) {
            return Ok(true);
        }
    }
    Ok(false)
}

impl FirstNames {
    fn new(alloc: Global) -> FirstNames {
        FirstNames {
            alloc,
            indices: IndexMap::new(alloc),
        }
    }

    // The index of the first of a name, which is this one where there was none before.
    fn first_of(&mut self, name: &str, index: usize) -> Result<usize, AllocError> {
        let key = lower_case(self.alloc, name)?;
        if let Some(first) = self.indices.get(key.as_str()) {
            return Ok(*first);
        }
        self.indices.insert(key, index)?;
        Ok(index)
    }
}

fn lower_case(alloc: Global, name: &str) -> Result<String, AllocError> {
    let mut text = String::new(alloc);
    for letter in name.chars() {
        text.push(letter.to_ascii_lowercase())?;
    }
    Ok(text)
}

// Whether a name and the one at a number are twins, one of which comes by the item at an index.
fn is_twin_of(names: &[ComingName<'_>], number: usize, name: &ComingName<'_>, index: usize) -> bool
    ensures { IsTrue result → Contains names.now name.now → HasTwins names.now index }
{
    match names.get(number) {
        Some(first) => are_twins_by(index, first, name) || are_twins_by(index, name, first),
        None => false,
    }
}

fn are_twins_by(index: usize, name: &ComingName<'_>, other: &ComingName<'_>) -> bool
    ensures { IsTrue result → AreTwinsBy index name.now other.now }
{
    name.index == index && are_twins(name, other)
}

fn are_twins(name: &ComingName<'_>, other: &ComingName<'_>) -> bool
    ensures { IsTrue result → AreTwins name.now other.now }
{
    come_apart(name, other) && name.name.name.eq_ignore_ascii_case(&other.name.name)
}

fn come_apart(name: &ComingName<'_>, other: &ComingName<'_>) -> bool
    ensures { IsTrue result → name.now.index ≡ other.now.index → ident_text name.now.source.now ≡ ident_text other.now.source.now → ⊥ }
{
    name.index != other.index || name.source.name != other.source.name
}
