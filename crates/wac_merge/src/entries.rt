//! What is read of interfaces and worlds, and the entries that are made of two.

ghost use Rattle.std.specs.Prelude.{◌≡◌, IfOk, OnErr, None};
ghost use Rattle.wac_component.specs.Content.{named, use_content};
ghost use Rattle.wac_component.specs.Growth.{Extends};
ghost use Rattle.wac_component.specs.Key.{Stands, AllStand, interface_key, world_key};
ghost use Rattle.wac_merge.specs.Built.{uses_of_both};
ghost use Rattle.wac_merge.specs.Items.{extern_keys, extern_list};
ghost use Rattle.wac_merge.specs.Memo.{IsSame};
ghost use Rattle.wac_merge.specs.Reads.{imports_at, exports_at, met_at, joined_at, IsInterfaceOfBoth, IsWorldOfBoth};
ghost use Rattle.wac_merge.specs.Told.{IsInterfaceMade, IsWorldMade};

use crate::memo::{Asked, Bound, BoundId, BoundMemo, BoundPair};
use indexmap::IndexMap;
use std::alloc::AllocError;
use wac_component::{Interface, InterfaceId, ItemKind, Types, UsedType, World, WorldId};
use wac_core_merge::add_new;

/// What an interface exports.
pub(crate) fn exports_of(types: &Types, id: InterfaceId) -> &IndexMap<String, ItemKind>
    requires { Stands types.now (interface_key id) }
    ensures { extern_list result.now ≡ exports_at types.now (interface_key id) }
{
    &types[id].exports
}

// What a world imports.
fn world_imports_of(types: &Types, id: WorldId) -> &IndexMap<String, ItemKind>
    requires { Stands types.now (world_key id) }
    ensures { extern_list result.now ≡ imports_at types.now (world_key id) }
{
    &types[id].imports
}

// What a world exports.
fn world_exports_of(types: &Types, id: WorldId) -> &IndexMap<String, ItemKind>
    requires { Stands types.now (world_key id) }
    ensures { extern_list result.now ≡ exports_at types.now (world_key id) }
{
    &types[id].exports
}

/// The side of a world that is met: for a meet what it exports, for a join what it imports.
pub(crate) fn met_side(types: &Types, bound: Bound, id: WorldId) -> &IndexMap<String, ItemKind>
    requires { Stands types.now (world_key id) }
    ensures { extern_list result.now ≡ met_at bound types.now (world_key id) }
{
    match bound {
        Bound::Meet => world_exports_of(types, id),
        Bound::Join => world_imports_of(types, id),
    }
}

/// The side of a world that is joined, which is the other one.
pub(crate) fn joined_side(types: &Types, bound: Bound, id: WorldId) -> &IndexMap<String, ItemKind>
    requires { Stands types.now (world_key id) }
    ensures { extern_list result.now ≡ joined_at bound types.now (world_key id) }
{
    match bound {
        Bound::Meet => world_imports_of(types, id),
        Bound::Join => world_exports_of(types, id),
    }
}

/// What a world imports and exports.
pub(crate) struct WorldSides {
    pub(crate) imports: IndexMap<String, ItemKind>,
    pub(crate) exports: IndexMap<String, ItemKind>,
}

// By hand, as of `Types`.
impl Drop for WorldSides {
    fn drop(self) {
        let WorldSides {
            imports: _,
            exports: _,
        } = self;
    }
}

impl WorldSides {
    // The world of these sides that has no identifier and uses these.
    fn with_uses(self, uses: IndexMap<String, UsedType>) -> World
        ensures { result ≡ record { id = None; uses = uses; imports = self.imports; exports = self.exports } }
    {
        let WorldSides { imports, exports } = self;
        World {
            id: None,
            uses,
            imports,
            exports,
        }
    }
}

// What the first uses, and then what the second uses under other names.
fn uses_of_both(
    first: &IndexMap<String, UsedType>,
    second: &IndexMap<String, UsedType>,
) -> Result<IndexMap<String, UsedType>, AllocError>
    ensures { IfOk result (λ m. named use_content m.entries ≡ uses_of_both (named use_content first.now.entries) (named use_content second.now.entries)) }
{
    let mut uses = first.clone()?;
    add_new(&mut uses, second.clone()?)?;
    Ok(uses)
}

// Puts an interface last that has these exports and uses what both do.
fn add_interface_of(
    types: &mut Types,
    first: InterfaceId,
    second: InterfaceId,
    exports: IndexMap<String, ItemKind>,
) -> Result<InterfaceId, AllocError>
    requires first { Stands types.old (interface_key first) }
    requires second { Stands types.old (interface_key second) }
    requires exports { AllStand types.old (extern_keys (extern_list exports)) }
    ensures made { IfOk result (λ p. IsInterfaceOfBoth types.old types.new first second (extern_list exports) p) }
    ensures grows { Extends types.old types.new }
    ensures err { OnErr result (types.new ≡ types.old) }
{
    let uses = uses_of_both(&types[first].uses, &types[second].uses)?;
    types.add_interface(Interface {
        id: None,
        uses,
        exports,
    })
}

// Puts a world last that has these sides and uses what both do.
fn add_world_of(
    types: &mut Types,
    first: WorldId,
    second: WorldId,
    sides: WorldSides,
) -> Result<WorldId, AllocError>
    requires first { Stands types.old (world_key first) }
    requires second { Stands types.old (world_key second) }
    requires imports { AllStand types.old (extern_keys (extern_list sides.imports)) }
    requires exports { AllStand types.old (extern_keys (extern_list sides.exports)) }
    ensures made { IfOk result (λ p. IsWorldOfBoth types.old types.new first second (extern_list sides.imports) (extern_list sides.exports) p) }
    ensures grows { Extends types.old types.new }
    ensures err { OnErr result (types.new ≡ types.old) }
{
    let uses = uses_of_both(&types[first].uses, &types[second].uses)?;
    types.add_world(sides.with_uses(uses))
}

// The interface that was made for the two; else a new one, put last and noted, that has these
// exports and uses what both do. None was made before, as what is noted isn't made
// again: to look it up costs less than to prove it.
pub(crate) fn interface_of(
    types: &mut Types,
    memo: &mut BoundMemo,
    bound: Bound,
    first: InterfaceId,
    second: InterfaceId,
    exports: IndexMap<String, ItemKind>,
) -> Result<BoundId, AllocError>
    requires first { Stands types.old (interface_key first) }
    requires second { Stands types.old (interface_key second) }
    requires exports { AllStand types.old (extern_keys (extern_list exports)) }
    ensures made { IfOk result (IsInterfaceMade types.old memo.old types.new memo.new bound first second (extern_list exports)) }
    ensures grows { Extends types.old types.new }
    ensures err { OnErr result (types.new ≡ types.old) }
    ensures err_memo { OnErr result (IsSame memo.old memo.new) }
{
    let pair = BoundPair::Interfaces(first, second);
    if let Some(made) = memo.made_for(&Asked { bound, pair }) {
        return Ok(made);
    }
    memo.reserve()?;
    let made = BoundId::Interface(add_interface_of(types, first, second, exports)?);
    memo.put(bound, pair, made)?;
    Ok(made)
}

// The same of worlds.
pub(crate) fn world_of(
    types: &mut Types,
    memo: &mut BoundMemo,
    bound: Bound,
    first: WorldId,
    second: WorldId,
    sides: WorldSides,
) -> Result<BoundId, AllocError>
    requires first { Stands types.old (world_key first) }
    requires second { Stands types.old (world_key second) }
    requires imports { AllStand types.old (extern_keys (extern_list sides.imports)) }
    requires exports { AllStand types.old (extern_keys (extern_list sides.exports)) }
    ensures made { IfOk result (IsWorldMade types.old memo.old types.new memo.new bound first second sides) }
    ensures grows { Extends types.old types.new }
    ensures err { OnErr result (types.new ≡ types.old) }
    ensures err_memo { OnErr result (IsSame memo.old memo.new) }
{
    let pair = BoundPair::Worlds(first, second);
    if let Some(made) = memo.made_for(&Asked { bound, pair }) {
        return Ok(made);
    }
    memo.reserve()?;
    let made = BoundId::World(add_world_of(types, first, second, sides)?);
    memo.put(bound, pair, made)?;
    Ok(made)
}
