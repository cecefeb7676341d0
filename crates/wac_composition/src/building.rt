//! Entries of a collection, each put in once all that it names is there.

ghost use Rattle.std.specs.Prelude.{◌≡◌};

use super::failure::CompositionFailure;
use indexmap::IndexMap;
use std::alloc::Global;
use wac_types::{
    FuncType, Interface, InterfaceId, ItemKind, Resource, ResourceAlias, ResourceId, Types,
    UsedType, ValueType,
};

/// Adds a function of one parameter.
pub(crate) fn add_func(
    alloc: Global,
    types: &mut Types,
    param: (&str, ValueType),
    result_type: Option<ValueType>,
) -> Result<ItemKind, CompositionFailure>
    ensures { types.new.number ≡ types.old.number }
{
    let (name, ty) = param;
    let mut params = IndexMap::new(alloc);
    params.insert(String::from_str(alloc, name)?, ty)?;
    let func = FuncType {
        params,
        result: result_type,
        is_async: false,
    };
    if !types.can_add_func_type(&func) {
        return Err(CompositionFailure::Missing);
    }
    Ok(ItemKind::Func(types.add_func_type(func)?))
}

/// Adds a resource, or another name of one.
pub(crate) fn add_resource(
    alloc: Global,
    types: &mut Types,
    name: &str,
    alias: Option<ResourceAlias>,
) -> Result<ResourceId, CompositionFailure>
    ensures { types.new.number ≡ types.old.number }
{
    let name = String::from_str(alloc, name)?;
    let resource = Resource { name, alias };
    if !types.can_add_resource(&resource) {
        return Err(CompositionFailure::Missing);
    }
    Ok(types.add_resource(resource)?)
}

/// Adds an interface with an identifier, which uses these types of others, under their names there.
pub(crate) fn add_interface(
    alloc: Global,
    types: &mut Types,
    id: &str,
    uses: &[(&str, InterfaceId)],
    exports: &[(&str, ItemKind)],
) -> Result<InterfaceId, CompositionFailure>
    ensures { types.new.number ≡ types.old.number }
{
    let mut interface = Interface::new(alloc);
    interface.id = Some(String::from_str(alloc, id)?);
    for (name, id) in uses {
        let used = UsedType {
            interface: *id,
            name: None,
        };
        interface.uses.insert(String::from_str(alloc, name)?, used)?;
    }
    for (name, item) in exports {
        interface
            .exports
            .insert(String::from_str(alloc, name)?, *item)?;
    }
    if !types.can_add_interface(&interface) {
        return Err(CompositionFailure::Missing);
    }
    Ok(types.add_interface(interface)?)
}
