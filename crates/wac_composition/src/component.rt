//! Components, each with its world in a collection.

ghost use Rattle.std.specs.Prelude.{◌≡◌, IfOk};
ghost use Rattle.wac_types.specs.Key.{Stands, interface_key, world_key};

use super::failure::CompositionFailure;
use indexmap::IndexMap;
use std::alloc::Global;
use wac_types::{Interface, InterfaceId, ItemKind, Types, World, WorldId};

/// A component: its name, and its world in a collection of its own.
#[derive(Drop)]
pub(crate) struct Component {
    pub(crate) name: &'static str,
    pub(crate) types: Types,
    world: WorldId,
    ghost stands: { Stands types (world_key world) },
}

impl Component {
    /// A component that imports and exports interfaces of a collection, under their identifiers.
    pub(crate) fn new(
        alloc: Global,
        name: &'static str,
        mut types: Types,
        imports: &[&str],
        exports: &[&str],
    ) -> Result<Component, CompositionFailure>
        ensures { IfOk result (λ c. c.types.number ≡ types.number) }
    {
        let world = add_world(alloc, &mut types, imports, exports)?;
        Ok(Component { name, types, world })
    }

    /// What it imports, by names.
    pub(crate) fn imports(&self) -> &IndexMap<String, ItemKind> {
        &self.types[self.world].imports
    }

    /// What it exports, by names.
    pub(crate) fn exports(&self) -> &IndexMap<String, ItemKind> {
        &self.types[self.world].exports
    }
}

/// Adds a world that imports and exports interfaces of the collection, under their identifiers.
pub(crate) fn add_world(
    alloc: Global,
    types: &mut Types,
    imports: &[&str],
    exports: &[&str],
) -> Result<WorldId, CompositionFailure>
    ensures stands { IfOk result (λ id. Stands types.new (world_key id)) }
    ensures number { types.new.number ≡ types.old.number }
{
    let world = World {
        id: None,
        uses: IndexMap::new(alloc),
        imports: instances(alloc, types, imports)?,
        exports: instances(alloc, types, exports)?,
    };
    if !types.can_add_world(&world) {
        return Err(CompositionFailure::Missing);
    }
    Ok(types.add_world(world)?)
}

fn instances(
    alloc: Global,
    types: &Types,
    names: &[&str],
) -> Result<IndexMap<String, ItemKind>, CompositionFailure> {
    let mut map = IndexMap::new(alloc);
    for name in names {
        let id = interface_named(types, name)?;
        map.insert(String::from_str(alloc, name)?, ItemKind::Instance(id))?;
    }
    Ok(map)
}

/// The interface with this identifier.
pub(crate) fn interface_named(types: &Types, name: &str) -> Result<InterfaceId, CompositionFailure>
    ensures { IfOk result (λ id. Stands types.now (interface_key id)) }
{
    for index in 0..types.interfaces().len() {
        let Some(id) = types.interface_at(index) else {
            return Err(CompositionFailure::Missing);
        };
        if is_named(&types[id], name) {
            return Ok(id);
        }
    }
    Err(CompositionFailure::Missing)
}

fn is_named(interface: &Interface, name: &str) -> bool {
    match &interface.id {
        Some(identifier) => identifier.as_str() == name,
        None => false,
    }
}
