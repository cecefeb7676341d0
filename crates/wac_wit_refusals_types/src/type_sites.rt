//! Types that are followed from name to name.

ghost use Rattle.std.specs.Prelude.{◌≡◌, [], IfOk, IfSome, OnOk};
ghost use Rattle.wac_wit_refusals_sites.specs.Judging.{Judges};
ghost use Rattle.wac_wit_refusals_sites.specs.TypeSites.{IsWritten, a_definition};
ghost use Rattle.wac_wit_refusals_types.specs.BorrowSteps.{AreSitesPut, IsAliased, IsAmongTypes, IsNameOf, as_alias};
ghost use Rattle.wac_wit_scopes.specs.WitSources.{WitSources};
ghost use Rattle.wac_wit_syntax.specs.declared.tree.TypeExpr.{TypeExpr as ExprOf};

use super::definitions::{DefinitionSite, definition_of};
use super::handles::FollowedName;
use indexmap::IndexSet;
use std::alloc::{AllocError, Global};
use wac_wit_refusals_sites::{Judge, PlacedBody, parts_of, types_in_def};
use wac_wit_syntax::{TypeDef, TypeExpr};

/// How many types are looked at.
pub(crate) const MAX_TYPES: usize = 10_000;

/// A type, and where it is written.
#[derive(Clone, Copy)]
pub(crate) struct TypeSite<'j> {
    pub(crate) placed: PlacedBody<'j>,
    pub(crate) ty: &'j TypeExpr,
}

/// Types that are looked at, and what they lead to.
pub(crate) struct Followed<'j> {
    pub(crate) found: Vec<TypeSite<'j>>,
    // the places of the definitions that were looked into
    seen: IndexSet<String>,
}

impl Drop for Followed<'_> {
    fn drop(self) {
        let Followed { found: _, seen: _ } = self;
    }
}

impl<'j> Followed<'j> {
    /// No types.
    pub(crate) fn new(alloc: Global) -> Followed<'j>
        ensures { result.found.items ≡ [] }
    {
        Followed {
            found: Vec::new(alloc),
            seen: IndexSet::new(alloc),
        }
    }
}

impl TypeSite<'_> {
    /// How many items are looked at for what the type is the name of.
    pub(crate) fn cost(&self) -> usize {
        match self.ty {
            TypeExpr::Name(_) => self.placed.body.len(),
            _ => 0,
        }
    }
}

/// The definition that a type is the name of.
pub(crate) fn definition_named<'j>(
    judge: &Judge<'j>,
    from: &TypeSite<'j>,
) -> Result<Option<DefinitionSite<'j>>, AllocError>
    ensures { IfOk result (λ o. IfSome o (λ d. (of : WitSources) → Judges of judge.now → IsNameOf of from.now d)) }
{
    match from.ty {
        TypeExpr::Name(name) => {
            definition_of(
                judge,
                &FollowedName {
                    placed: from.placed,
                    name,
                },
            )
        }
        _ => Ok(None),
    }
}

/// Puts the types last that are written in a definition, if it wasn't looked into before.
pub(crate) fn push_definition<'j>(
    alloc: Global,
    followed: &mut Followed<'j>,
    site: &DefinitionSite<'j>,
) -> Result<(), AllocError>
    ensures { OnOk result (AreSitesPut followed.old.found.items site.now.placed (IsWritten (a_definition site.now.ty.now.def)) followed.new.found.items) }
{
    let key = key_of(alloc, site)?;
    if followed.seen.insert(key)? {
        let types = types_in_def(alloc, &site.ty.def)?;
        push_types(followed, &site.placed, &types)?;
    }
    Ok(())
}

/// Puts the type last that a definition gives another name, if it wasn't looked into before.
pub(crate) fn push_aliased<'j>(
    alloc: Global,
    followed: &mut Followed<'j>,
    site: &DefinitionSite<'j>,
) -> Result<(), AllocError>
    ensures { OnOk result (AreSitesPut followed.old.found.items site.now.placed (IsAliased site.now) followed.new.found.items) }
{
    match &site.ty.def {
        TypeDef::Alias(ty) => push_new(alloc, followed, site, ty),
        _ => Ok(()),
    }
}

fn push_new<'j>(
    alloc: Global,
    followed: &mut Followed<'j>,
    site: &DefinitionSite<'j>,
    ty: &'j TypeExpr,
) -> Result<(), AllocError>
    ensures { OnOk result (AreSitesPut followed.old.found.items site.now.placed (λ (e : ExprOf). ty.now ≡ e) followed.new.found.items) }
{
    let key = key_of(alloc, site)?;
    if followed.seen.insert(key)? {
        push_site(followed, &site.placed, ty)?;
    }
    Ok(())
}

/// Puts a type last, and behind it all that it is made of.
pub(crate) fn push_parts<'j>(
    alloc: Global,
    followed: &mut Followed<'j>,
    placed: &PlacedBody<'j>,
    ty: &'j TypeExpr,
) -> Result<(), AllocError>
    ensures { OnOk result (AreSitesPut followed.old.found.items placed.now (IsWritten (as_alias ty.now)) followed.new.found.items) }
{
    let parts = parts_of(alloc, ty)?;
    push_types(followed, placed, &parts)
}

fn push_types<'j>(
    followed: &mut Followed<'j>,
    placed: &PlacedBody<'j>,
    types: &[&'j TypeExpr],
) -> Result<(), AllocError>
    ensures { OnOk result (AreSitesPut followed.old.found.items placed.now (IsAmongTypes types.now) followed.new.found.items) }
{
    for ty in types {
        push_site(followed, placed, *ty)?;
    }
    Ok(())
}

/// Puts a type last.
pub(crate) fn push_site<'j>(
    followed: &mut Followed<'j>,
    placed: &PlacedBody<'j>,
    ty: &'j TypeExpr,
) -> Result<(), AllocError>
    ensures { OnOk result (AreSitesPut followed.old.found.items placed.now (λ (e : ExprOf). ty.now ≡ e) followed.new.found.items) }
{
    followed.found.push(TypeSite {
        placed: *placed,
        ty,
    })?;
    Ok(())
}

fn key_of(alloc: Global, site: &DefinitionSite<'_>) -> Result<String, AllocError> {
    format!(in alloc; "{} {}", site.placed.scope.file, site.ty.name.span.start)
}
