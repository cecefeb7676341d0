//! Takes in the interfaces of packages.

ghost use Rattle.std.specs.Prelude.{◌≡◌, Contains, IfOk, IfSome, IsTrue, Some, slice_get, string_bytes};
ghost use Rattle.std.specs.Option.{option_map};
ghost use Rattle.wac_wit_syntax.specs.declared.tree.TopItem.TheVariants.{Interface};
ghost use Rattle.wac_wit_validation.specs.Checking.{IsValidated, Knows};
ghost use Rattle.wac_wit_validation_types.specs.OneMeaning.{ExportsStandForOne, HaveOneMeaning};
ghost use Rattle.wac_wit_validation_types.specs.Placed.{IsUnambiguous};
ghost use Rattle.wac_wit_validation.specs.WorldChecking.{KnowsWorlds, StaysAs};
ghost use Rattle.wac_wit_scopes.specs.WitSources.{WitSources, sources_of};
ghost use Rattle.wac_wit_validation.specs.Validated.{HasFoundInterface, IsInterfaceOf, KeepsFound};

use super::validator::Validator;
use indexmap::IndexMap;
use std::alloc::{AllocError, Global};
use wac_component::{ExternKind, InterfaceId, Type, Types};
use wac_wit_names::Catalog;
use wac_wit_scopes::{ScopeItems, SourceTrees, scopes_of};
use wac_wit_syntax::{InterfaceDecl, TopItem};
use wac_wit_validation_names::{FoundInterface, ItemPlace, all_give_once, give_names_once};
use wac_wit_validation_types::{is_identifier_of, is_package_text, is_version_text, is_word};

impl<'v> Validator<'v> {
    /// Begins with no interface. `None` is answered where no file of a package names it, or two
    /// name different ones, where a path could lead to two interfaces or worlds, and where an
    /// interface gives a name twice.
    pub fn new(
        alloc: Global,
        types: &'v Types,
        catalog: &'v Catalog<'v>,
        sources: &SourceTrees<'v>,
    ) -> Result<Option<Validator<'v>>, AllocError>
        ensures types { IfOk result (λ o. IfSome o (λ v. v.types.now ≡ types.now)) }
        ensures unambiguous { IfOk result (λ o. IfSome o (λ v. IsUnambiguous (sources_of sources.now.files.now sources.now.documents.now sources.now.features))) }
        ensures one_meaning { IfOk result (λ o. IfSome o (λ v. HaveOneMeaning (sources_of sources.now.files.now sources.now.documents.now sources.now.features))) }
        ensures one_tree { IfOk result (λ o. IfSome o (λ v. ExportsStandForOne (sources_of sources.now.files.now sources.now.documents.now sources.now.features))) }
        ensures knows { IfOk result (λ o. IfSome o (KnowsWorlds (sources_of sources.now.files.now sources.now.documents.now sources.now.features))) }
    {
        let Some(scopes) = scopes_of(alloc, sources.files, sources.documents)? else {
            return Ok(None);
        };
        if !give_names_once(alloc, &scopes)? {
            return Ok(None);
        }
        if !all_give_once(alloc, &sources.features, &scopes)? {
            return Ok(None);
        }
        Ok(Some(Validator {
            alloc,
            types,
            catalog,
            features: sources.features,
            scopes,
            found: Vec::new(alloc),
            positions: IndexMap::new(alloc),
            by_id: IndexMap::new(alloc),
            identifiers: identifiers_of(alloc, catalog)?,
            exported: IndexMap::new(alloc),
            include_places: IndexMap::new(alloc),
            worlds: Vec::new(alloc),
            world_nodes: IndexMap::new(alloc),
            world_ids: IndexMap::new(alloc),
        }))
    }

    /// Takes in an interface, if its entry is as it is written: the one at an index of the catalog.
    /// Those that it uses have to be taken in before.
    pub fn add_interface(&mut self, node: usize, id: InterfaceId) -> Result<bool, AllocError>
        ensures types { self.new.types.now ≡ self.old.types.now }
        ensures knows { (of : WitSources) → KnowsWorlds of self.old → KnowsWorlds of self.new }
        ensures keeps { KeepsFound self.old self.new }
        ensures took { IfOk result (λ is. IsTrue is → HasFoundInterface self.new id) }
    {
        match self.take_in(node, id, ExternKind::Import)? {
            Some(position) => {
                self.positions.insert(node, position)?;
                Ok(true)
            }
            None => Ok(false),
        }
    }

    // Takes in an interface, if its entry is as it is written, and says where it stands.
    pub(crate) fn take_in(
        &mut self,
        node: usize,
        id: InterfaceId,
        kind: ExternKind,
    ) -> Result<Option<usize>, AllocError>
        ensures stays { StaysAs self.old self.new }
        ensures took { IfOk result (λ o. IfSome o (λ i. HasFoundInterface self.new id)) }
    {
        let Some(place) = self.place_of(node) else {
            return Ok(None);
        };
        let found = FoundInterface { place, id };
        if !self.is_found(&found, kind)? {
            return Ok(None);
        }
        let position = self.found.len();
        self.by_id.insert(id, position)?;
        self.found.push(found)?;
        Ok(Some(position))
    }

    // Where the catalog has an interface or a world.
    pub(crate) fn place_of(&self, node: usize) -> Option<ItemPlace> {
        let of = self.catalog.nodes.get(node)?;
        Some(ItemPlace {
            scope: of.scope,
            item: of.item,
        })
    }

    // The interface at a place.
    pub(crate) fn interface_at(
        &self,
        place: &ItemPlace,
    ) -> Option<(&ScopeItems<'v>, &'v InterfaceDecl)>
        ensures scope { IfSome result (λ p. slice_get self.now.scopes.items place.now.scope ≡ Some p.0.now) }
        ensures item { IfSome result (λ p. slice_get p.0.now.items.now place.now.item ≡ Some (Interface p.1.now)) }
    {
        let scope = self.scopes.get(place.scope)?;
        match scope.items.get(place.item)? {
            TopItem::Interface(decl) => Some((scope, decl)),
            _ => None,
        }
    }

    // Whether an interface is there, and its entry is as it is written.
    fn is_found(&self, found: &FoundInterface, kind: ExternKind) -> Result<bool, AllocError>
        ensures { IfOk result (λ is. IsTrue is → (of : WitSources) → Knows of self.now → IsValidated of self.now found.now) }
    {
        let Some((scope, decl)) = self.interface_at(&found.place) else {
            return Ok(false);
        };
        if !self.is_there(&decl.gates) || !self.types.contains(Type::Interface(found.id)) {
            return Ok(false);
        }
        let entry = &self.types[found.id];
        if !is_identifier_of(scope.package, &decl.name.name, &entry.id) {
            return Ok(false);
        }
        if !self.is_interface(found.place.scope, &decl.items, entry, kind)? {
            return Ok(false);
        }
        self.tells_origins(found.place.scope, &decl.items, entry, kind)
    }

    /// Whether an entry that was taken in is that of the interface of a name, in the package of a
    /// name and a version.
    pub fn is_interface_of(
        &self,
        package: &str,
        version: &Option<String>,
        name: &str,
        id: InterfaceId,
    ) -> bool
        ensures { IsTrue result → (of : WitSources) → KnowsWorlds of self.now → IsInterfaceOf of self.now.types.now «package».now (option_map string_bytes version.now) name.now id }
    {
        let Some(found) = self.found_as(id) else {
            return false;
        };
        let Some((scope, decl)) = self.interface_at(&found.place) else {
            return false;
        };
        if !is_word(&decl.name.name, name) {
            return false;
        }
        is_package_text(scope.package, package) && is_version_text(scope.package, version)
    }

    // An interface that was taken in, by its entry.
    pub(crate) fn found_as(&self, id: InterfaceId) -> Option<&FoundInterface>
        ensures among { IfSome result (λ f. Contains self.now.found.items f.now) }
        ensures id { IfSome result (λ f. f.now.id ≡ id) }
    {
        let found = self.found.get(*self.by_id.get(&id)?)?;
        if found.id == id { Some(found) } else { None }
    }
}

// The interfaces of a catalog, by their identifiers.
fn identifiers_of<'v>(
    alloc: Global,
    catalog: &'v Catalog<'v>,
) -> Result<IndexMap<&'v str, usize>, AllocError> {
    let mut identifiers = IndexMap::new(alloc);
    for (index, node) in catalog.nodes.iter().enumerate() {
        identifiers.insert(node.id.as_str(), index)?;
    }
    Ok(identifiers)
}
