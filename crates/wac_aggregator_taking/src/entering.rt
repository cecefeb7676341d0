//! Interfaces and worlds all of whose parts were taken in.

ghost use Rattle.std.specs.Prelude.{◌≡◌, [], ◌∷◌, None, Some, MatchResult, string_bytes};
ghost use Rattle.std.specs.Option.{option_and_then, option_map};
ghost use Rattle.wac_component.specs.Content.{named, use_content};
ghost use Rattle.wac_component.specs.Entries.{identifier_at};
ghost use Rattle.wac_component.specs.Key.{Stands, interface_key, world_key};
ghost use Rattle.wac_names.specs.Class.{class_of};
ghost use Rattle.wac_aggregator_promises.specs.Entries.{ReachesByUses};
ghost use Rattle.wac_aggregator_taking.specs.Members.{AnswersMembers};
ghost use Rattle.wac_aggregator_taking.specs.Refused.{MayRefuse};
ghost use Rattle.wac_aggregator_taking.specs.Takes.{TakesEntryAs, MayTake, MayPut, MayPutWorld, shared_in};

use super::growing::merge_shared;
use super::state::Merging;
use indexmap::IndexMap;
use wac_aggregator_copies::copy_externs;
use wac_aggregator_errors::AggregateError;
use wac_component::laws::names_in_an_interface_are_distinct;
use wac_component::{Interface, InterfaceId, ItemKind, Types, UsedType, World, WorldId};
use wac_names::NameClass;

// Puts an interface of which all parts were taken in: as an entry of its own, or into the shared
// one of its identifier's class.
pub(crate) fn put_interface(
    state: &mut Merging,
    types: &Types,
    id: InterfaceId,
    class: Option<NameClass>,
    shared: &Option<InterfaceId>,
    interface: Interface,
) -> Result<InterfaceId, AggregateError>
    requires state { MayTake types.now state.old }
    requires shared { shared.now ≡ option_and_then (shared_in state.old.shared.entries) class }
    requires named { option_map string_bytes interface.id ≡ identifier_at types.now (interface_key id) }
    requires class { class ≡ option_map class_of (identifier_at types.now (interface_key id)) }
    requires taken { MayPut types.now state.old id (named use_content interface.uses.entries) (named (λ k. k) interface.exports.entries) }
    ensures taken { MatchResult result (λ r. TakesEntryAs types.now state.old state.new (interface_key id) (interface_key r)) (MayRefuse types.now state.old (interface_key id ∷ [])) }
    ensures members { AnswersMembers result types.now state.old state.new (ReachesByUses types.now id) }
{
    let Some(class) = class else {
        let Interface {
            id: _,
            uses,
            exports,
        } = interface;
        return put_plain(state, types, id, uses, exports);
    };
    match *shared {
        Some(own) => {
            let Interface {
                id: _,
                uses,
                exports,
            } = interface;
            merge_shared(state, types, id, own, uses, &exports)
        }
        None => put_shared(state, types, id, class, interface),
    }
}

// Adds an interface without identifier.
pub(crate) fn put_plain(
    state: &mut Merging,
    types: &Types,
    id: InterfaceId,
    uses: IndexMap<String, UsedType>,
    exports: IndexMap<String, ItemKind>,
) -> Result<InterfaceId, AggregateError>
    requires state { MayTake types.now state.old }
    requires plain { identifier_at types.now (interface_key id) ≡ None }
    requires taken { MayPut types.now state.old id (named use_content uses.entries) (named (λ k. k) exports.entries) }
    ensures { MatchResult result (λ r. TakesEntryAs types.now state.old state.new (interface_key id) (interface_key r)) (MayRefuse types.now state.old (interface_key id ∷ [])) }
{
    let own = state.types.add_interface(Interface {
        id: None,
        uses,
        exports,
    })?;
    state.taken.put_interface(id, own)?;
    Ok(own)
}

// Adds an interface with an identifier, on whose class no entry
// stands, which is shared from now on.
pub(crate) fn put_shared(
    state: &mut Merging,
    types: &Types,
    id: InterfaceId,
    class: NameClass,
    interface: Interface,
) -> Result<InterfaceId, AggregateError>
    requires state { MayTake types.now state.old }
    requires named { option_map string_bytes interface.id ≡ identifier_at types.now (interface_key id) }
    requires of { Some class ≡ option_map class_of (identifier_at types.now (interface_key id)) }
    requires new { shared_in state.old.shared.entries class ≡ None }
    requires taken { MayPut types.now state.old id (named use_content interface.uses.entries) (named (λ k. k) interface.exports.entries) }
    ensures taken { MatchResult result (λ r. TakesEntryAs types.now state.old state.new (interface_key id) (interface_key r)) (MayRefuse types.now state.old (interface_key id ∷ [])) }
    ensures members { AnswersMembers result types.now state.old state.new (ReachesByUses types.now id) }
{
    // A name stands once in a map, so that what stands under it is what a look-up finds.
    names_in_an_interface_are_distinct(&interface);
    let own = state.types.add_interface(interface)?;
    state.shared.insert(class, own)?;
    state.taken.put_interface(id, own)?;
    Ok(own)
}

// Adds a world whose uses and exports were taken in, with copies of what it imports.
pub(crate) fn put_world(
    state: &mut Merging,
    types: &Types,
    id: WorldId,
    uses: IndexMap<String, UsedType>,
    exports: IndexMap<String, ItemKind>,
) -> Result<WorldId, AggregateError>
    requires stands { Stands types.now (world_key id) }
    requires state { MayTake types.now state.old }
    requires taken { MayPutWorld types.now state.old id (named use_content uses.entries) (named (λ k. k) exports.entries) }
    ensures { MatchResult result (λ r. TakesEntryAs types.now state.old state.new (world_key id) (world_key r)) (MayRefuse types.now state.old (world_key id ∷ [])) }
{
    types.sound();
    let world = &types[id];
    let identifier = world.id.clone()?;
    let imports = copy_externs(&mut state.types, &mut state.copies, types, &world.imports)?;
    let own = state.types.add_world(World {
        id: identifier,
        uses,
        imports,
        exports,
    })?;
    state.taken.put_world(id, own)?;
    Ok(own)
}
