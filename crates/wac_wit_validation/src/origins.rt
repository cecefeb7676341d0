//! Where the types of an interface or a world come from, as its entry says.

ghost use Rattle.std.specs.Borrow.{Bor};
ghost use Rattle.std.specs.Prelude.{Contains, IfOk, IsTrue, None, Some};
ghost use Rattle.wac_component.specs.Content.{interface_content, named, use_content, world_content};
ghost use Rattle.wac_wit_syntax.specs.declared.tree.InterfaceItem.{InterfaceItem as ItemOf};
ghost use Rattle.wac_wit_syntax.specs.declared.tree.InterfaceItem.TheVariants.{Use as UseOf};
ghost use Rattle.wac_wit_syntax.specs.declared.tree.WorldItem.{WorldItem as WorldItemOf};
ghost use Rattle.wac_wit_validation.specs.Checking.{Knows};
ghost use Rattle.wac_wit_validation.specs.OriginClauses.{TellsItemAt, TellsLayer, TellsOriginsAt, TellsWorld, TellsWorldItemAt};
ghost use Rattle.wac_wit_validation_names.specs.Noted.{TellsTypeAs};
ghost use Rattle.wac_wit_scopes.specs.WitSources.{IsEnabled, WitSources};
ghost use Rattle.wac_wit_validation_names.specs.declared.layers.Layer.{Layer as LayerOf};

use super::validator::Validator;
use indexmap::IndexMap;
use std::alloc::AllocError;
use wac_component::{ExternKind, Interface, Type, UsedType, World};
use wac_wit_syntax::{InterfaceItem, TypeItem, UseItem, WorldItem};
use wac_wit_validation_names::{
    Layer, NotedUses, have_owners, have_roots, tells_names, tells_type,
};

impl<'v> Validator<'v> {
    /// Whether an entry says of its types what is written of where they come from: from interfaces
    /// among imports, or among the exports of the world that is looked at.
    pub(crate) fn tells_origins(
        &self,
        scope: usize,
        items: &[InterfaceItem],
        entry: &Interface,
        kind: ExternKind,
    ) -> Result<bool, AllocError>
        ensures { IfOk result (λ is. IsTrue is → TellsOriginsAt self.now scope items.now (interface_content entry.now)) }
    {
        let noted = NotedUses {
            uses: &entry.uses,
            new_names: None,
        };
        if !self.tells_items(scope, items, &noted, kind)? {
            return Ok(false);
        }
        if !have_roots(self.types, &entry.uses, &entry.exports) {
            return Ok(false);
        }
        Ok(have_owners(self.types, &entry.uses, &entry.exports))
    }

    /// The same of a world, by the worlds that come into it.
    pub(crate) fn tells_world(
        &self,
        entry: &World,
        layers: &[Layer<'v>],
    ) -> Result<bool, AllocError>
        ensures { IfOk result (λ is. IsTrue is → TellsWorld self.now layers.now (world_content entry.now)) }
    {
        if !self.tells_layers(&entry.uses, layers)? {
            return Ok(false);
        }
        if !have_roots(self.types, &entry.uses, &entry.imports) {
            return Ok(false);
        }
        Ok(have_owners(self.types, &entry.uses, &entry.imports))
    }

    // Whether it is said of what worlds give where it comes from.
    fn tells_layers(
        &self,
        uses: &IndexMap<String, UsedType>,
        layers: &[Layer<'v>],
    ) -> Result<bool, AllocError>
        ensures { IfOk result (λ is. IsTrue is → (l : LayerOf) → Contains layers.now l → TellsLayer self.now (named use_content uses.now.entries) l) }
    {
        for layer in layers {
            if !self.tells_layer(uses, layer)? {
                return Ok(false);
            }
        }
        Ok(true)
    }

    fn tells_layer<'l>(
        &self,
        uses: &'l IndexMap<String, UsedType>,
        layer: &'l Layer<'v>,
    ) -> Result<bool, AllocError>
    where
        'v: 'l,
        ensures { IfOk result (λ is. IsTrue is → TellsLayer self.now (named use_content uses.now.entries) layer.now) }
    {
        let noted = NotedUses {
            uses,
            new_names: Some(&layer.names),
        };
        self.tells_world_items(layer.place.scope, &layer.items, &noted)
    }

    fn tells_world_items(
        &self,
        scope: usize,
        items: &[&WorldItem],
        noted: &NotedUses<'_>,
    ) -> Result<bool, AllocError>
        ensures { IfOk result (λ is. IsTrue is → (x : Bor WorldItemOf) → Contains items.now x → TellsWorldItemAt self.now scope noted.now x.now) }
    {
        for item in items {
            if !self.tells_world_item(scope, noted, item)? {
                return Ok(false);
            }
        }
        Ok(true)
    }

    fn tells_world_item(
        &self,
        scope: usize,
        noted: &NotedUses<'_>,
        item: &WorldItem,
    ) -> Result<bool, AllocError>
        ensures { IfOk result (λ is. IsTrue is → TellsWorldItemAt self.now scope noted.now item.now) }
    {
        match item {
            WorldItem::Use(it) => self.tells_use(scope, noted, it, ExternKind::Import),
            WorldItem::Type(it) => Ok(self.tells_typedef(noted, it)),
            _ => Ok(true),
        }
    }

    // Whether it is said of what items give where it comes from.
    fn tells_items(
        &self,
        scope: usize,
        items: &[InterfaceItem],
        noted: &NotedUses<'_>,
        kind: ExternKind,
    ) -> Result<bool, AllocError>
        ensures { IfOk result (λ is. IsTrue is → (x : ItemOf) → Contains items.now x → TellsItemAt self.now scope noted.now x) }
    {
        for item in items {
            if !self.tells_item(scope, noted, item, kind)? {
                return Ok(false);
            }
        }
        Ok(true)
    }

    fn tells_item(
        &self,
        scope: usize,
        noted: &NotedUses<'_>,
        item: &InterfaceItem,
        kind: ExternKind,
    ) -> Result<bool, AllocError>
        ensures { IfOk result (λ is. IsTrue is → TellsItemAt self.now scope noted.now item.now) }
    {
        match item {
            InterfaceItem::Use(it) => self.tells_use(scope, noted, it, kind),
            InterfaceItem::Type(it) => Ok(self.tells_typedef(noted, it)),
            InterfaceItem::Func(_) => Ok(true),
        }
    }

    // Whether it is said of a type that is defined where it comes from, if it is there.
    fn tells_typedef(&self, noted: &NotedUses<'_>, item: &TypeItem) -> bool
        ensures { IsTrue result → (of : WitSources) → Knows of self.now → IsEnabled of item.now.gates → TellsTypeAs noted.now item.now }
    {
        !self.is_there(&item.gates) || tells_type(noted, item)
    }

    // Whether it is said of types that are used where they come from.
    fn tells_use(
        &self,
        scope: usize,
        noted: &NotedUses<'_>,
        item: &UseItem,
        kind: ExternKind,
    ) -> Result<bool, AllocError>
        ensures { IfOk result (λ is. IsTrue is → TellsItemAt self.now scope noted.now (UseOf item.now)) }
    {
        if !self.is_there(&item.gates) || item.names.is_empty() {
            return Ok(true);
        }
        match self.found_at(scope, &item.path, kind)? {
            Some(from) => Ok(tells_names(self.types, noted, &from, &item.names)),
            None => Ok(false),
        }
    }
}
