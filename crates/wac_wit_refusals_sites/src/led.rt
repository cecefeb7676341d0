//! Where paths lead.

ghost use Rattle.std.specs.Option.{option_copied};
ghost use Rattle.std.specs.Prelude.{◌≡◌, ◌↔◌, IfOk, IfSome, IsTrue, Some};
ghost use Rattle.wac_wit_refusals_sites.specs.Judging.{Judges};
ghost use Rattle.wac_wit_refusals_sites.specs.Leading.{IsLedTo};
ghost use Rattle.wac_wit_refusals_sites.specs.Paths.{IsItemEnabled, ident_of_item};
ghost use Rattle.wac_wit_scopes.specs.WitSources.{WitSources};

use super::hints::MemberPlace;
use super::judge::Judge;
use std::alloc::AllocError;
use wac_wit_scopes::{ScopeItems, leads};
use wac_wit_syntax::{Ident, Path, TopItem};

/// An interface or a world, whether a feature hides it or not.
#[derive(Clone, Copy)]
pub struct LedTo<'j> {
    /// The scope that it stands in.
    pub scope: ScopeItems<'j>,
    /// This.
    pub item: &'j TopItem,
    /// Where it stands.
    pub place: MemberPlace,
}

impl<'j> Judge<'j> {
    /// The interface or the world that a path in a scope leads to.
    pub fn led_to(
        &self,
        from: &ScopeItems<'j>,
        path: &Path,
    ) -> Result<Option<LedTo<'j>>, AllocError>
        ensures { IfOk result (λ o. IfSome o (λ l. (of : WitSources) → Judges of self.now → IsLedTo of self.now from.now path.now l)) }
    {
        let via = self.top_use_of(from, path)?;
        match self.member_of(from, path, via)? {
            Some(place) => Ok(self.led_by(from, path, via, place)),
            None => Ok(None),
        }
    }

    // The index of the `use` outside of interfaces and worlds that a path may go by.
    fn top_use_of(&self, from: &ScopeItems<'j>, path: &Path) -> Result<Option<usize>, AllocError> {
        match &path.package {
            Some(_) => Ok(None),
            None => self.hints.top_use(from, &path.name),
        }
    }

    // Where the interface or the world may stand.
    fn member_of(
        &self,
        from: &ScopeItems<'j>,
        path: &Path,
        via: Option<usize>,
    ) -> Result<Option<MemberPlace>, AllocError> {
        let path = path_by(from, path, via);
        match &path.package {
            Some(named) => self.hints.member(named, &path.name),
            None => self.hints.member(from.package, &path.name),
        }
    }

    // What stands at a place, if a path leads there.
    fn led_by(
        &self,
        from: &ScopeItems<'j>,
        path: &Path,
        via: Option<usize>,
        place: MemberPlace,
    ) -> Option<LedTo<'j>>
        ensures { IfSome result (λ l. (of : WitSources) → Judges of self.now → IsLedTo of self.now from.now path.now l) }
    {
        let scope = self.scopes.get(place.scope)?;
        let item = scope.items.get(place.item)?;
        let name = name_of(item)?;
        if !leads(from, path, via, scope, name) {
            return None;
        }
        Some(LedTo {
            scope: *scope,
            item,
            place,
        })
    }

    /// Whether no feature that is off hides an item.
    pub fn is_item_there(&self, item: &TopItem) -> bool
        ensures { (of : WitSources) → Judges of self.now → IsTrue result ↔ IsItemEnabled of item.now }
    {
        match item {
            TopItem::Use(_) => true,
            TopItem::Interface(decl) => self.is_there(&decl.gates),
            TopItem::World(decl) => self.is_there(&decl.gates),
        }
    }
}

/// The name of an interface or a world.
pub fn name_of(item: &TopItem) -> Option<&Ident>
    ensures { option_copied result ≡ ident_of_item item.now }
{
    match item {
        TopItem::Use(_) => None,
        TopItem::Interface(decl) => Some(&decl.name),
        TopItem::World(decl) => Some(&decl.name),
    }
}

// The path itself, or that of the `use` that it goes by.
fn path_by<'p>(from: &'p ScopeItems<'_>, path: &'p Path, via: Option<usize>) -> &'p Path {
    let Some(index) = via else {
        return path;
    };
    match from.items.get(index) {
        Some(TopItem::Use(used)) => &used.path,
        _ => path,
    }
}
