//! Adds entries to a collection. Each names only what was added before.

use wac_component::{
    DefinedType, DefinedTypeId, FuncType, FuncTypeId, Interface, InterfaceId, Resource, ResourceId,
    Types, World, WorldId,
};
use wac_wit_names::Fault;

/// Adds a defined type.
pub(crate) fn add_defined(types: &mut Types, ty: DefinedType) -> Result<DefinedTypeId, Fault> {
    if !types.can_add_defined_type(&ty) {
        return Err(unfit(ty));
    }
    Ok(types.add_defined_type(ty)?)
}

/// Adds a resource.
pub(crate) fn add_resource(types: &mut Types, of: Resource) -> Result<ResourceId, Fault> {
    if !types.can_add_resource(&of) {
        return Err(unfit(of));
    }
    Ok(types.add_resource(of)?)
}

/// Adds a function.
pub(crate) fn add_func(types: &mut Types, func: FuncType) -> Result<FuncTypeId, Fault> {
    if !types.can_add_func_type(&func) {
        return Err(unfit(func));
    }
    Ok(types.add_func_type(func)?)
}

/// Adds an interface.
pub(crate) fn add_interface(types: &mut Types, of: Interface) -> Result<InterfaceId, Fault> {
    if !types.can_add_interface(&of) {
        return Err(unfit(of));
    }
    Ok(types.add_interface(of)?)
}

/// Adds a world.
pub(crate) fn add_world(types: &mut Types, of: World) -> Result<WorldId, Fault> {
    if !types.can_add_world(&of) {
        return Err(unfit(of));
    }
    Ok(types.add_world(of)?)
}

// Lets a content go that can't be added. It is generic, since a content of a known type is dropped
// field by field, which takes long to prove.
fn unfit<T: Drop>(_content: T) -> Fault {
    Fault::Missing
}
