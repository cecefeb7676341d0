//! Whether nothing is left out of what is said that packages have.

ghost use Rattle.std.specs.Prelude.{Contains, IfOk, IfSome, IsTrue};
ghost use Rattle.wac_wit_syntax.specs.declared.tree.TopItem.{TopItem as ItemOf};
ghost use Rattle.wac_wit_scopes.specs.Scopes.{IsKnownScope, scope_syntax};
ghost use Rattle.wac_wit_validation.specs.Checking.{Knows};
ghost use Rattle.wac_wit_validation.specs.Listing.{AreAllListed, IsItemListed, IsListingOf, IsOfText, IsScopeListed};
ghost use Rattle.wac_wit_scopes.specs.WitSources.{IsScopeOf, ScopeSyntax as ScopeOf, WitSources};
ghost use Rattle.wac_wit_validation.specs.WorldChecking.{KnowsWorlds};
ghost use Rattle.wac_wit_validation.specs.declared.listing.PackageListing.{PackageListing as ListingOf};

use super::validator::Validator;
use indexmap::IndexMap;
use std::alloc::AllocError;
use wac_component::{InterfaceId, WorldId};
use wac_wit_scopes::ScopeItems;
use wac_wit_syntax::TopItem;
use wac_wit_validation_types::{is_package_text, is_version_text};

/// What is said that a package has.
#[derive(Clone, Copy)]
pub struct PackageListing<'l> {
    /// The package's name, as `wasi:http`.
    pub package: &'l str,
    /// Its version, if it has one.
    pub version: &'l Option<String>,
    /// The group of its files.
    pub group: usize,
    /// Its interfaces, by their names.
    pub interfaces: &'l IndexMap<String, InterfaceId>,
    /// Its worlds, by their names.
    pub worlds: &'l IndexMap<String, WorldId>,
}

impl Validator<'_> {
    /// Whether each interface and each world that is there is listed under its name, in its
    /// package, and with the group of its files, and nothing is said of packages that no file has.
    /// The packages stand in the catalog's order.
    pub fn lists_all(&self, listed: &[PackageListing<'_>]) -> Result<bool, AllocError>
        ensures { IfOk result (λ is. IsTrue is → (of : WitSources) → KnowsWorlds of self.now → AreAllListed of listed.now) }
    {
        if !self.are_scopes_listed(listed) {
            return Ok(false);
        }
        self.are_of_texts(listed)
    }

    fn are_scopes_listed(&self, listed: &[PackageListing<'_>]) -> bool
        ensures { IsTrue result → (of : WitSources) → Knows of self.now → (w : ScopeOf) → IsScopeOf of w → IsScopeListed of listed.now w }
    {
        for (index, scope) in self.scopes.iter().enumerate() {
            if !self.is_scope_listed(index, scope, listed) {
                return false;
            }
        }
        true
    }

    // Whether each of what is said is said of the package of a scope.
    fn are_of_texts(&self, listed: &[PackageListing<'_>]) -> Result<bool, AllocError>
        ensures { IfOk result (λ is. IsTrue is → (of : WitSources) → Knows of self.now → (l : ListingOf) → Contains listed.now l → IsOfText of l) }
    {
        let places = self.places_of(listed.len())?;
        for (index, of) in listed.iter().enumerate() {
            if !self.is_of_text(places.get(index), of) {
                return Ok(false);
            }
        }
        Ok(true)
    }

    // For each package of the catalog the index of a scope, if it has one.
    fn places_of(&self, count: usize) -> Result<Vec<usize>, AllocError> {
        let mut places = vec![in self.alloc; self.scopes.len(); count]?;
        for index in 0..self.scopes.len() {
            if let Ok(scope) = self.catalog.scope(index)
                && let Some(place) = places.get_mut(scope.package)
            {
                *place = index;
            }
        }
        Ok(places)
    }

    // Whether it is said of the package of the scope at an index.
    fn is_of_text(&self, index: Option<&usize>, of: &PackageListing<'_>) -> bool
        ensures { IsTrue result → (s : WitSources) → Knows s self.now → IsOfText s of.now }
    {
        let Some(index) = index else {
            return false;
        };
        match self.scopes.get(*index) {
            Some(scope) => is_listing_of(scope, of),
            None => false,
        }
    }

    fn is_scope_listed(
        &self,
        index: usize,
        scope: &ScopeItems<'_>,
        listed: &[PackageListing<'_>],
    ) -> bool
        ensures { IsTrue result → (of : WitSources) → Knows of self.now → IsKnownScope of scope.now → IsScopeListed of listed.now (scope_syntax scope.now) }
    {
        match self.listed_of(index, scope, listed) {
            Some(of) => self.are_items_listed(scope.items, of),
            None => false,
        }
    }

    // What is said of the package of items.
    fn listed_of<'l, 'p>(
        &self,
        index: usize,
        scope: &ScopeItems<'_>,
        listed: &'l [PackageListing<'p>],
    ) -> Option<&'l PackageListing<'p>>
        ensures among { IfSome result (λ l. Contains listed.now l.now) }
        ensures is { IfSome result (λ l. (of : WitSources) → IsKnownScope of scope.now → IsListingOf of l.now (scope_syntax scope.now).package) }
    {
        let Ok(place) = self.catalog.scope(index) else {
            return None;
        };
        let of = listed.get(place.package)?;
        if !is_listing_of(scope, of) {
            return None;
        }
        Some(of)
    }

    fn are_items_listed(&self, items: &[TopItem], listed: &PackageListing<'_>) -> bool
        ensures { IsTrue result → (of : WitSources) → Knows of self.now → (t : ItemOf) → Contains items.now t → IsItemListed of listed.now t }
    {
        for item in items {
            if !self.is_item_listed(item, listed) {
                return false;
            }
        }
        true
    }

    fn is_item_listed(&self, item: &TopItem, listed: &PackageListing<'_>) -> bool
        ensures { IsTrue result → (of : WitSources) → Knows of self.now → IsItemListed of listed.now item.now }
    {
        match item {
            TopItem::Interface(decl) => {
                !self.is_there(&decl.gates)
                    || listed.interfaces.get(decl.name.name.as_str()).is_some()
            }
            TopItem::World(decl) => {
                !self.is_there(&decl.gates) || listed.worlds.get(decl.name.name.as_str()).is_some()
            }
            TopItem::Use(_) => true,
        }
    }
}

// Whether it is said of the package of a scope, and of the group of its files.
fn is_listing_of(scope: &ScopeItems<'_>, of: &PackageListing<'_>) -> bool
    ensures { IsTrue result → (s : WitSources) → IsKnownScope s scope.now → IsListingOf s of.now (scope_syntax scope.now).package }
{
    if of.group != scope.group || !is_package_text(scope.package, of.package) {
        return false;
    }
    is_version_text(scope.package, of.version)
}
