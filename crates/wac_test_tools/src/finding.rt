//! The ids of entries by their index.

ghost use Rattle.std.specs.Prelude.{IfOk};
ghost use Rattle.wac_types.specs.Key.{Stands, defined_key, func_key, interface_key, module_key, resource_key, world_key};

use wac_types::{DefinedTypeId, FuncTypeId, InterfaceId, ModuleTypeId, ResourceId, Types, WorldId};

/// Why an entry wasn't found: its list is shorter.
#[derive(Clone, Copy, Debug)]
pub struct Missing;

/// The defined type at an index.
pub fn defined(types: &Types, index: usize) -> Result<DefinedTypeId, Missing>
    ensures { IfOk result (λ id. Stands types.now (defined_key id)) }
{
    match types.defined_type_at(index) {
        Some(id) => Ok(id),
        None => Err(Missing),
    }
}

/// The resource at an index.
pub fn resource(types: &Types, index: usize) -> Result<ResourceId, Missing>
    ensures { IfOk result (λ id. Stands types.now (resource_key id)) }
{
    match types.resource_at(index) {
        Some(id) => Ok(id),
        None => Err(Missing),
    }
}

/// The function at an index.
pub fn function(types: &Types, index: usize) -> Result<FuncTypeId, Missing>
    ensures { IfOk result (λ id. Stands types.now (func_key id)) }
{
    match types.func_type_at(index) {
        Some(id) => Ok(id),
        None => Err(Missing),
    }
}

/// The interface at an index.
pub fn interface(types: &Types, index: usize) -> Result<InterfaceId, Missing>
    ensures { IfOk result (λ id. Stands types.now (interface_key id)) }
{
    match types.interface_at(index) {
        Some(id) => Ok(id),
        None => Err(Missing),
    }
}

/// The world at an index.
pub fn world(types: &Types, index: usize) -> Result<WorldId, Missing>
    ensures { IfOk result (λ id. Stands types.now (world_key id)) }
{
    match types.world_at(index) {
        Some(id) => Ok(id),
        None => Err(Missing),
    }
}

/// The core module at an index.
pub fn module(types: &Types, index: usize) -> Result<ModuleTypeId, Missing>
    ensures { IfOk result (λ id. Stands types.now (module_key id)) }
{
    match types.module_type_at(index) {
        Some(id) => Ok(id),
        None => Err(Missing),
    }
}
