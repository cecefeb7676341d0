//! The worlds that come into another one, with the names that what they say gets there.

ghost use Rattle.std.specs.Prelude.{◌≡◌, [], Contains, IfOk, IfSome, IsTrue, None, Some};
ghost use Rattle.wac_wit_syntax.specs.declared.tree.IncludeItem.{IncludeItem as Included};
ghost use Rattle.wac_wit_syntax.specs.declared.tree.WorldItem.TheVariants.{Include as IncludeOf};
ghost use Rattle.wac_wit_validation_types.specs.Placed.{PlacedWorld};
ghost use Rattle.wac_wit_scopes.specs.WitSources.{IsEnabled, WitSources};
ghost use Rattle.wac_wit_validation.specs.WorldChecking.{AddsLayersIn, AreLayersOf, AreNamingItems, CoversInside, GivesNames, HasOwnName, IsLayerOf, IsTextAt, KnowsWorlds};
ghost use Rattle.wac_wit_validation_names.specs.declared.layers.Layer.{Layer as LayerOf};

use super::validator::{Validator, WorldText};
use std::alloc::AllocError;
use wac_wit_syntax::{Extern, ExternItem, IncludeItem, WorldItem};
use wac_wit_validation_names::{Layer, push_renamed, themselves};
use wac_wit_validation_types::NewNames;

impl<'v> Validator<'v> {
    /// A world, and those that come into it and give names; none where what it includes wasn't
    /// looked at before.
    pub(crate) fn layers_of(
        &self,
        text: &WorldText<'v>,
    ) -> Result<Option<Vec<Layer<'v>>>, AllocError>
        ensures { IfOk result (λ o. IfSome o (λ ls. (of : WitSources) (w : PlacedWorld) → IsTextAt self.now text.now of w → AreLayersOf of self.now w ls.items)) }
    {
        let mut layers = Vec::new(self.alloc);
        layers.push(self.own_layer(text)?)?;
        for item in &text.decl.items {
            if !self.push_inside(&mut layers, text.place.scope, item)? {
                return Ok(None);
            }
        }
        Ok(Some(layers))
    }

    fn own_layer(&self, text: &WorldText<'v>) -> Result<Layer<'v>, AllocError>
        ensures { IfOk result (λ l. (of : WitSources) (w : PlacedWorld) → IsTextAt self.now text.now of w → IsLayerOf of self.now l [] w) }
    {
        let items = self.naming_items(&text.decl.items)?;
        let names = themselves(self.alloc, &items)?;
        Ok(Layer {
            place: text.place,
            items,
            names,
        })
    }

    fn naming_items(&self, items: &'v [WorldItem]) -> Result<Vec<&'v WorldItem>, AllocError>
        ensures { IfOk result (λ bs. (of : WitSources) → KnowsWorlds of self.now → AreNamingItems of items.now bs.items) }
    {
        let mut naming = Vec::new(self.alloc);
        for item in items {
            if self.gives_names(item) {
                naming.push(item)?;
            }
        }
        Ok(naming)
    }

    // Whether an item is there, and gives something a name of its own.
    fn gives_names(&self, item: &WorldItem) -> bool
        ensures { (of : WitSources) → KnowsWorlds of self.now → GivesNames of item.now → IsTrue result }
    {
        match item {
            WorldItem::Use(it) => self.uses_types(it),
            WorldItem::Type(it) => self.is_there(&it.gates),
            WorldItem::Import(it) => self.gives_name(it),
            WorldItem::Export(it) => self.gives_name(it),
            WorldItem::Include(_) => false,
        }
    }

    fn gives_name(&self, item: &ExternItem) -> bool
        ensures { (of : WitSources) → KnowsWorlds of self.now → IsEnabled of item.now.gates → HasOwnName item.now.what → IsTrue result }
    {
        match &item.what {
            Extern::Path(_) => false,
            _ => self.is_there(&item.gates),
        }
    }

    // Adds the worlds that come in by an item.
    fn push_inside(
        &self,
        layers: &mut Vec<Layer<'v>>,
        scope: usize,
        item: &'v WorldItem,
    ) -> Result<bool, AllocError>
        ensures grows { IfOk result (λ is. IsTrue is → (l : LayerOf) → Contains layers.old.items l → Contains layers.new.items l) }
        ensures each { IfOk result (λ is. IsTrue is → AddsLayersIn self.now scope item.now layers.old.items layers.new.items) }
        ensures all { IfOk result (λ is. IsTrue is → (i : Included) → item.now ≡ IncludeOf i → CoversInside self.now scope i layers.new.items) }
    {
        match item {
            WorldItem::Include(it) => self.push_included(layers, scope, it),
            WorldItem::Use(_) | WorldItem::Type(_) => Ok(true),
            WorldItem::Import(_) | WorldItem::Export(_) => Ok(true),
        }
    }

    // The same where it includes a world.
    fn push_included(
        &self,
        layers: &mut Vec<Layer<'v>>,
        scope: usize,
        item: &'v IncludeItem,
    ) -> Result<bool, AllocError>
        ensures grows { IfOk result (λ is. IsTrue is → (l : LayerOf) → Contains layers.old.items l → Contains layers.new.items l) }
        ensures each { IfOk result (λ is. IsTrue is → AddsLayersIn self.now scope (IncludeOf item.now) layers.old.items layers.new.items) }
        ensures all { IfOk result (λ is. IsTrue is → CoversInside self.now scope item.now layers.new.items) }
    {
        if !self.is_there(&item.gates) {
            return Ok(true);
        }
        let Some(world) = self.included(scope, &item.path) else {
            return Ok(false);
        };
        let by = NewNames::of_include(self.alloc, &item.renames)?;
        push_renamed(self.alloc, layers, &world.layers, &by)?;
        Ok(true)
    }
}
