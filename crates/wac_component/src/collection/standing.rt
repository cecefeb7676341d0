//! Whether what an item or a content names stands in a collection.

ghost use Rattle.std.specs.Prelude.{◌↔◌, IsTrue};
ghost use Rattle.wac_component.specs.Content.{defined_content, resource_content, func_content, interface_content, world_content};
ghost use Rattle.wac_component.specs.Key.{AllStand, item_keys, defined_keys, resource_keys, func_keys, interface_keys, world_keys};
ghost use Rattle.wac_component.specs.Parts.{places, all_places, place_keys, places_keys};

use super::Types;
use crate::parts::{AllParts, NONE, Parts};
use crate::{DefinedType, FuncType, Interface, ItemKind, Resource, World};

impl Types {
    /// Whether the ids in an item stand in the collection, as each call asks
    /// that takes an item beside it.
    pub fn contains_item(&self, item: ItemKind) -> bool
        ensures { IsTrue result ↔ AllStand self.now (item_keys item) }
    {
        self.contains(item.ty())
    }

    /// Whether what a defined type names stands in the collection, as `add_defined_type` and
    /// `replace_defined_type` ask.
    pub fn can_add_defined_type(&self, ty: &DefinedType) -> bool
        ensures { IsTrue result ↔ AllStand self.now (defined_keys (defined_content ty.now)) }
    {
        self.holds(&(ty.parts(), NONE, NONE))
    }

    /// Whether what a resource is another name of stands in the collection, as `add_resource` and
    /// `replace_resource` ask.
    pub fn can_add_resource(&self, resource: &Resource) -> bool
        ensures { IsTrue result ↔ AllStand self.now (resource_keys (resource_content resource.now)) }
    {
        self.holds(&(resource.parts(), NONE, NONE))
    }

    /// Whether what a function type names stands in the collection, as `add_func_type` and
    /// `replace_func_type` ask.
    pub fn can_add_func_type(&self, func: &FuncType) -> bool
        ensures { IsTrue result ↔ AllStand self.now (func_keys (func_content func.now)) }
    {
        self.holds(&func.parts())
    }

    /// Whether what an interface uses and exports stands in the collection, as `add_interface` and
    /// `replace_interface` ask.
    pub fn can_add_interface(&self, interface: &Interface) -> bool
        ensures { IsTrue result ↔ AllStand self.now (interface_keys (interface_content interface.now)) }
    {
        self.holds(&interface.parts())
    }

    /// Whether what a world uses, imports and exports stands in the collection, as `add_world` and
    /// `replace_world` ask.
    pub fn can_add_world(&self, world: &World) -> bool
        ensures { IsTrue result ↔ AllStand self.now (world_keys (world_content world.now)) }
    {
        self.holds(&world.parts())
    }

    // Whether what three lists name stands in the collection.
    fn holds(&self, all: &AllParts<'_>) -> bool
        ensures { IsTrue result ↔ AllStand self.now (places_keys (all_places all.now)) }
    {
        parts_stand(self, &all.0) && parts_stand(self, &all.1) && parts_stand(self, &all.2)
    }
}

// Whether what is listed stands in a collection.
fn parts_stand(types: &Types, parts: &Parts<'_>) -> bool
    ensures { IsTrue result ↔ AllStand types.now (places_keys (places parts.now)) }
{
    for i in 0..parts.len() {
        if !place_stands(types, parts.get(i)) {
            return false;
        }
    }
    true
}

// Whether what an item names stands in a collection, if there is an item.
fn place_stands(types: &Types, place: Option<ItemKind>) -> bool
    ensures { IsTrue result ↔ AllStand types.now (place_keys place) }
{
    match place {
        Some(item) => types.contains_item(item),
        None => true,
    }
}
