//! Shared entries that grow.

ghost use Rattle.std.specs.Prelude.{◌≡◌, [], ◌∷◌, Some, IfErr, IfOk, MatchResult, OnOk, string_bytes};
ghost use Rattle.wac_model.specs.Text.{Text};
ghost use Rattle.wac_component.specs.Content.{named, use_content};
ghost use Rattle.wac_component.specs.Entries.{identifier_at};
ghost use Rattle.wac_component.specs.Key.{Stands, AllStand, item_keys, interface_key, named_keys, use_keys};
ghost use Rattle.wac_aggregator_promises.specs.Entries.{ReachesByUses};
ghost use Rattle.wac_merge.specs.Items.{AreUnhidden, extern_keys, extern_list};
ghost use Rattle.wac_merge.specs.Reads.{exports_at};
ghost use Rattle.wac_names.specs.Class.{class_of};
ghost use Rattle.wac_aggregator_taking.specs.Growing.{AreMetInto, IsOwnMeet, IsMetThere, AreAllPut, with_put, IsGrownBy};
ghost use Rattle.wac_aggregator_taking.specs.Members.{AnswersMembers};
ghost use Rattle.wac_aggregator_taking.specs.Refused.{IsCycleOf, AreRefusedOwn, MayRefuse, IsMergeRefusal, IsRefusedThere};
ghost use Rattle.wac_aggregator_taking.specs.Takes.{TakesEntryAs, MayTake, MayPut, shared_in};

use super::identity::identifier;
use super::meeting::meet_own;
use super::state::Merging;
use indexmap::IndexMap;
use std::alloc::{AllocError, Global};
use wac_aggregator_errors::{AggregateError, MergeFrame, mismatch};
use wac_aggregator_uses::{check_uses, check_uses_of};
use wac_component::laws::names_in_an_interface_are_distinct;
use wac_component::{
    InterfaceId, ItemKind, Type, Types, UsedType, contents_ids, lead_to, put_back, take_out,
};
use wac_core_merge::add_new;
use wac_merge::{extern_named, put_extern};
use wac_mismatch::SubtypeCheck;
use wac_names::are_semver_compatible;

// Where exports are met, for what is told of those that have no meet: the direction, and the
// identifier of the interface, unless it is on the track of the item that was handed in.
#[derive(Drop)]
struct Place {
    check: SubtypeCheck,
    interface: Option<String>,
}

// The place of the exports of an interface with this identifier.
fn place_of(state: &Merging, types: &Types, name: &String) -> Result<Place, AllocError> {
    let check = state.check;
    if is_handed_in(state, types, name)? {
        return Ok(Place {
            check,
            interface: None,
        });
    }
    let interface = name.clone()?;
    Ok(Place {
        check,
        interface: Some(interface),
    })
}

// Whether the interface that was handed in has an identifier on the track of this one.
fn is_handed_in(state: &Merging, types: &Types, name: &String) -> Result<bool, AllocError> {
    let Some(handed_in) = &state.handed_in else {
        return Ok(false);
    };
    let id = handed_in.interface();
    if !types.contains(Type::Interface(id)) {
        return Ok(false);
    }
    let Some(identifier) = &types[id].id else {
        return Ok(false);
    };
    are_semver_compatible(state.alloc(), identifier.as_str(), name.as_str())
}

// Merges an interface of which all parts were taken in into the shared entry on its track, which
// doesn't serve it and grows.
pub(crate) fn merge_shared(
    state: &mut Merging,
    types: &Types,
    id: InterfaceId,
    own: InterfaceId,
    uses: IndexMap<String, UsedType>,
    exports: &IndexMap<String, ItemKind>,
) -> Result<InterfaceId, AggregateError>
    requires state { MayTake types.now state.old }
    requires shared { (name : Text) × (identifier_at types.now (interface_key id) ≡ Some name) × (shared_in state.old.shared.entries (class_of name) ≡ Some own) }
    requires taken { MayPut types.now state.old id (named use_content uses.entries) (named (λ k. k) exports.now.entries) }
    ensures taken { MatchResult result (λ r. TakesEntryAs types.now state.old state.new (interface_key id) (interface_key r)) (MayRefuse types.now state.old (interface_key id ∷ [])) }
    ensures members { AnswersMembers result types.now state.old state.new (ReachesByUses types.now id) }
{
    let name = identifier(types, id)?;
    grow(state, types, id, own, name, uses, exports)
}

// Puts what the shared entry lacks into it, and meets what it exports otherwise. It is neither
// cloned nor gone through: what that takes goes with what is put.
fn grow(
    state: &mut Merging,
    types: &Types,
    id: InterfaceId,
    own: InterfaceId,
    name: String,
    uses: IndexMap<String, UsedType>,
    exports: &IndexMap<String, ItemKind>,
) -> Result<InterfaceId, AggregateError>
    requires state { MayTake types.now state.old }
    requires identified { identifier_at types.now (interface_key id) ≡ Some (string_bytes name) }
    requires shared { shared_in state.old.shared.entries (class_of (string_bytes name)) ≡ Some own }
    requires taken { MayPut types.now state.old id (named use_content uses.entries) (named (λ k. k) exports.now.entries) }
    ensures taken { MatchResult result (λ r. TakesEntryAs types.now state.old state.new (interface_key id) (interface_key r)) (MayRefuse types.now state.old (interface_key id ∷ [])) }
    ensures members { AnswersMembers result types.now state.old state.new (ReachesByUses types.now id) }
{
    let alloc = state.alloc();
    let entry = &state.types[own];
    // A name stands once in a map, so that what stands under it is what a look-up finds.
    names_in_an_interface_are_distinct(entry);
    check_uses(alloc, &state.types, &entry.uses, &uses)?;
    let place = place_of(state, types, &name)?;
    let met = met_exports(alloc, &place, &mut state.types, own, exports)?;
    put_grown(&mut state.types, own, uses, &met, name)?;
    state.taken.put_interface(id, own)?;
    Ok(own)
}

// What is exported, each met with what the entry of an interface has under its name.
fn met_exports(
    alloc: Global,
    place: &Place,
    types: &mut Types,
    own: InterfaceId,
    exports: &IndexMap<String, ItemKind>,
) -> Result<IndexMap<String, ItemKind>, AggregateError>
    requires own { Stands types.old (interface_key own) }
    requires new { AllStand types.old (extern_keys (extern_list exports.now)) }
    ensures met { MatchResult result (λ m. AreMetInto types.old types.new own (extern_list exports.now) (extern_list m)) (AreRefusedOwn types.old own (extern_list exports.now)) }
    ensures found { AreUnhidden (extern_list exports.now) }
    ensures put { IfOk result (λ m. AreAllPut (exports_at types.old (interface_key own)) (extern_list m)) }
{
    types.sound();
    let mut met = IndexMap::new(alloc);
    for (name, kind) in exports {
        let item = met_export(alloc, place, types, own, name, *kind)?;
        put_extern(&mut met, name, item)?;
    }
    Ok(met)
}

// The same of one export, whatever else was put under other names.
fn met_export(
    alloc: Global,
    place: &Place,
    types: &mut Types,
    own: InterfaceId,
    name: &String,
    kind: ItemKind,
) -> Result<ItemKind, AggregateError>
    requires own { Stands types.old (interface_key own) }
    requires new { AllStand types.old (item_keys kind) }
    ensures { MatchResult result (IsMetThere types.old types.new own (string_bytes name.now) kind) (IsRefusedThere types.old own (string_bytes name.now) kind) }
{
    let Some(existing) = extern_named(&types[own].exports, name) else {
        return Ok(kind);
    };
    meet_items(alloc, place, types, name, existing, kind)
}

// Puts uses of new names last in the entry of an interface, and exports in the place of those of
// their names, or last.
fn put_grown(
    types: &mut Types,
    own: InterfaceId,
    uses: IndexMap<String, UsedType>,
    exports: &IndexMap<String, ItemKind>,
    interface: String,
) -> Result<(), AggregateError>
    requires own { Stands types.old (interface_key own) }
    requires uses { AllStand types.old (named_keys use_keys (named use_content uses.entries)) }
    requires exports { AllStand types.old (extern_keys (extern_list exports.now)) }
    ensures grown { OnOk result (IsGrownBy types.old own (named use_content uses.entries) (extern_list exports.now) types.new) }
    ensures cycle { IfErr result (IsCycleOf types.old (named use_content uses.entries) (extern_list exports.now) own (string_bytes interface)) }
{
    types.sound();
    let ids = contents_ids(*uses.allocator(), &uses, exports)?;
    if lead_to(types, &ids, own)? {
        return Err(AggregateError::Cycle { interface });
    }
    let mut entry = take_out(types, own);
    add_new(&mut entry.uses, uses)?;
    put_externs(&mut entry.exports, exports)?;
    // A name stands once in the maps that were added to.
    names_in_an_interface_are_distinct(&entry);
    put_back(types, own, entry);
    Ok(())
}

// Puts items under their names.
fn put_externs(
    externs: &mut IndexMap<String, ItemKind>,
    more: &IndexMap<String, ItemKind>,
) -> Result<(), AllocError>
    ensures { OnOk result (extern_list externs.new ≡ with_put (extern_list externs.old) (extern_list more.now)) }
{
    for (name, kind) in more {
        put_extern(externs, name, *kind)?;
    }
    Ok(())
}

// The meet of an export of an interface with another under its name. Two interfaces or two worlds
// may not disagree in what they use.
fn meet_items(
    alloc: Global,
    place: &Place,
    types: &mut Types,
    name: &String,
    existing: ItemKind,
    kind: ItemKind,
) -> Result<ItemKind, AggregateError>
    requires existing { AllStand types.old (item_keys existing) }
    requires new { AllStand types.old (item_keys kind) }
    ensures { MatchResult result (IsOwnMeet types.old types.new existing kind) (IsMergeRefusal types.old existing kind) }
{
    check_uses_of(alloc, types, existing, kind)?;
    match meet_own(alloc, types, existing, kind)? {
        Some(met) => Ok(met),
        None => {
            let frames = frames_to(alloc, place, name)?;
            Err(mismatch(alloc, types, place.check, frames, existing, kind)?)
        }
    }
}

// The frames to an export.
fn frames_to(alloc: Global, place: &Place, export: &String) -> Result<Vec<MergeFrame>, AllocError> {
    let mut frames = Vec::new(alloc);
    if let Some(interface) = &place.interface {
        frames.push(MergeFrame::Interface(interface.clone()?))?;
    }
    frames.push(MergeFrame::Export(export.clone()?))?;
    Ok(frames)
}
