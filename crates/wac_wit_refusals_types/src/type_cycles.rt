//! Types that lead to themselves.

ghost use Rattle.std.specs.Prelude.{◌≡◌, Contains, IfOk, IfSome, IsTrue, OnOk};
ghost use Rattle.wac_model.specs.Text.{Text};
ghost use Rattle.wac_wit_refusals_sites.specs.Judging.{Judges};
ghost use Rattle.wac_wit_refusals_sites.specs.Sites.{BodySyntax};
ghost use Rattle.wac_wit_refusals_sites.specs.TypeLists.{AreThere};
ghost use Rattle.wac_wit_refusals_types.specs.TypeCycles.{IsTypeCycle};
ghost use Rattle.wac_wit_refusals_types.specs.TypeSteps.{AreNamesLedTo, HasNameAtPlace, LeadsBackIn, LeadsToNamesIn};
ghost use Rattle.wac_wit_scopes.specs.WitSources.{WitSources, ident_text};

use indexmap::IndexMap;
use std::alloc::{AllocError, Global};
use wac_wit_refusals_sites::{Judge, is_at, type_name, types_in_def};
use wac_wit_syntax::{Ident, Span, TypeDef, TypeItem};

// What is known while it is looked where a name leads.
struct Walk<'w> {
    // The index of the type of each name.
    indices: IndexMap<&'w str, usize>,
    // Which types were looked at.
    is_seen: Vec<bool>,
}

impl Drop for Walk<'_> {
    fn drop(self) {
        let Walk {
            indices: _,
            is_seen: _,
        } = self;
    }
}

/// Whether a type's definition has a name there that leads to the type.
pub fn is_type_cycle(judge: &Judge<'_>, file: usize, span: Span) -> Result<bool, AllocError>
    ensures { IfOk result (λ is. IsTrue is → (of : WitSources) → Judges of judge.now → IsTypeCycle of file span) }
{
    match judge.name_at(file, span)? {
        Some(found) => {
            let types = judge.types_there(&found.placed.body)?;
            leads_back(judge.alloc, &types, found.name, span)
        }
        None => Ok(false),
    }
}

// Whether a name leads to a type in whose definition it stands.
fn leads_back(
    alloc: Global,
    types: &[&TypeItem],
    name: &Ident,
    span: Span,
) -> Result<bool, AllocError>
    ensures { IfOk result (λ is. IsTrue is → (of : WitSources) (b : BodySyntax) → AreThere of b types.now → LeadsBackIn of b (ident_text name.now) span) }
{
    let mut walk = Walk::new(alloc, types)?;
    let mut open = Vec::new(alloc);
    open.push(name)?;
    for _turn in 0..u64::MAX {
        let Some(next) = open.pop() else {
            break;
        };
        let Some(ty) = walk.type_of(types, next) else {
            continue;
        };
        if has_name_at(alloc, &ty.def, name, span)? {
            return Ok(true);
        }
        push_names(alloc, &mut open, &ty.def)?;
    }
    Ok(false)
}

impl<'w> Walk<'w> {
    fn new(alloc: Global, types: &[&'w TypeItem]) -> Result<Walk<'w>, AllocError> {
        Ok(Walk {
            indices: indices_of(alloc, types)?,
            is_seen: vec![in alloc; false; types.len()]?,
        })
    }

    // The type of a name, if it wasn't looked at before.
    fn type_of<'t>(&mut self, types: &[&'t TypeItem], name: &Ident) -> Option<&'t TypeItem>
        ensures among { IfSome result (λ t. Contains types.now t) }
        ensures named { IfSome result (λ t. ident_text t.now.name ≡ ident_text name.now) }
    {
        let text = name.name.as_str();
        let index = *self.indices.get(&text)?;
        let is_seen = self.is_seen.get_mut(index)?;
        if *is_seen {
            return None;
        }
        *is_seen = true;
        let ty = *types.get(index)?;
        if ty.name.name != name.name {
            return None;
        }
        Some(ty)
    }
}

// The index of each type, by its name: the first where a name is there twice.
fn indices_of<'t>(
    alloc: Global,
    types: &[&'t TypeItem],
) -> Result<IndexMap<&'t str, usize>, AllocError> {
    let mut indices = IndexMap::new(alloc);
    for (index, ty) in types.iter().enumerate() {
        let text = ty.name.name.as_str();
        if indices.get(&text).is_none() {
            indices.insert(text, index)?;
        }
    }
    Ok(indices)
}

// Whether a definition has a name in it that stands at a place.
fn has_name_at(alloc: Global, def: &TypeDef, name: &Ident, span: Span) -> Result<bool, AllocError>
    ensures { IfOk result (λ is. IsTrue is → HasNameAtPlace def.now (ident_text name.now) span) }
{
    for ty in &types_in_def(alloc, def)? {
        if let Some(other) = type_name(ty)
            && is_at(other.span, span)
            && other.name == name.name
        {
            return Ok(true);
        }
    }
    Ok(false)
}

fn push_names<'t>(
    alloc: Global,
    open: &mut Vec<&'t Ident>,
    def: &'t TypeDef,
) -> Result<(), AllocError>
    ensures { OnOk result ((of : WitSources) (b : BodySyntax) (n : Text) → LeadsToNamesIn of b n def.now → AreNamesLedTo of b n open.old.items → AreNamesLedTo of b n open.new.items) }
{
    for ty in &types_in_def(alloc, def)? {
        if let Some(name) = type_name(ty) {
            open.push(name)?;
        }
    }
    Ok(())
}
