//! The ids of entries, by their indices.

ghost use Rattle.std.specs.Prelude.{◌≡◌, IfSome, IfNone};
ghost use Rattle.wac_component.specs.Key.{Stands, defined_key, resource_key, func_key, interface_key, world_key, module_key};

use super::Types;
use crate::{DefinedTypeId, FuncTypeId, InterfaceId, ModuleTypeId, ResourceId, WorldId};

impl Types {
    /// The id of the defined type at an index, from 0; `None` exactly where there is none.
    pub fn defined_type_at(&self, index: usize) -> Option<DefinedTypeId>
        ensures id { IfSome result (λ id. id ≡ record { number = self.now.number; index = index }) }
        ensures standing { IfSome result (λ id. Stands self.now (defined_key id)) }
        ensures none { IfNone result (¬ Stands self.now (defined_key (record { number = self.now.number; index = index }))) }
    {
        if index >= self.defined.len() {
            return None;
        }
        Some(DefinedTypeId::at(self.number, index))
    }

    /// The id of the resource at an index, from 0; `None` exactly where there is none.
    pub fn resource_at(&self, index: usize) -> Option<ResourceId>
        ensures id { IfSome result (λ id. id ≡ record { number = self.now.number; index = index }) }
        ensures standing { IfSome result (λ id. Stands self.now (resource_key id)) }
        ensures none { IfNone result (¬ Stands self.now (resource_key (record { number = self.now.number; index = index }))) }
    {
        if index >= self.resources.len() {
            return None;
        }
        Some(ResourceId::at(self.number, index))
    }

    /// The id of the function type at an index, from 0; `None` exactly where there is none.
    pub fn func_type_at(&self, index: usize) -> Option<FuncTypeId>
        ensures id { IfSome result (λ id. id ≡ record { number = self.now.number; index = index }) }
        ensures standing { IfSome result (λ id. Stands self.now (func_key id)) }
        ensures none { IfNone result (¬ Stands self.now (func_key (record { number = self.now.number; index = index }))) }
    {
        if index >= self.funcs.len() {
            return None;
        }
        Some(FuncTypeId::at(self.number, index))
    }

    /// The id of the interface at an index, from 0; `None` exactly where there is none.
    pub fn interface_at(&self, index: usize) -> Option<InterfaceId>
        ensures id { IfSome result (λ id. id ≡ record { number = self.now.number; index = index }) }
        ensures standing { IfSome result (λ id. Stands self.now (interface_key id)) }
        ensures none { IfNone result (¬ Stands self.now (interface_key (record { number = self.now.number; index = index }))) }
    {
        if index >= self.interfaces.len() {
            return None;
        }
        Some(InterfaceId::at(self.number, index))
    }

    /// The id of the world at an index, from 0; `None` exactly where there is none.
    pub fn world_at(&self, index: usize) -> Option<WorldId>
        ensures id { IfSome result (λ id. id ≡ record { number = self.now.number; index = index }) }
        ensures standing { IfSome result (λ id. Stands self.now (world_key id)) }
        ensures none { IfNone result (¬ Stands self.now (world_key (record { number = self.now.number; index = index }))) }
    {
        if index >= self.worlds.len() {
            return None;
        }
        Some(WorldId::at(self.number, index))
    }

    /// The id of the core module type at an index, from 0; `None` exactly where there is none.
    pub fn module_type_at(&self, index: usize) -> Option<ModuleTypeId>
        ensures id { IfSome result (λ id. id ≡ record { number = self.now.number; index = index }) }
        ensures standing { IfSome result (λ id. Stands self.now (module_key id)) }
        ensures none { IfNone result (¬ Stands self.now (module_key (record { number = self.now.number; index = index }))) }
    {
        if index >= self.modules.len() {
            return None;
        }
        Some(ModuleTypeId::at(self.number, index))
    }
}
