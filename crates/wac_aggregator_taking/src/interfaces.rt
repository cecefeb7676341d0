//! Interfaces: taken in once what they use and export was.

ghost use Rattle.std.specs.Prelude.{◌≡◌, ◌<◌, [], ◌∷◌, None, Some, IsTrue, IfErr, IfOk, OnOk, MatchResult, length, slice_get};
ghost use Rattle.std.specs.Option.{option_map};
ghost use Rattle.wac_component.specs.Content.{named, types_of, use_content};
ghost use Rattle.wac_aggregator_memo.specs.EntryOrder.{HasOwn};
ghost use Rattle.wac_component.specs.Key.{Each, Stands, AllStand, item_keys, named_keys, use_keys, interface_key};
ghost use Rattle.wac_aggregator_memo.specs.Memo.{memo_of};
ghost use Rattle.wac_aggregator_promises.specs.Entries.{ReachesByUses};
ghost use Rattle.wac_aggregator_taking.specs.Members.{AnswersMembers};
ghost use Rattle.wac_aggregator_taking.specs.Refused.{AnswersBelow, AreRefusedUses, MayRefuse, IsUnidentified, SaysOfUse};
ghost use Rattle.wac_aggregator_taking.specs.Steps.{IsReachedFrom, AreItemsNoted, AreNext, IsUseNoted, AreUsesNoted, AreContentsNoted};
ghost use Rattle.wac_aggregator_taking.specs.Takes.{TakesBelow, MayTake, IsNear, near_keys, Takes};
ghost use Rattle.wac_aggregator_taking.specs.declared.state.Merging.{Merging};

use super::entering::put_interface;
use super::identity::class_of_identifier;
use super::near::{near_interface, nearest_of, nth_extern};
use super::ready::{has_externs, take_ready};
use super::serving::{serving_entry, shared_entry};
use super::state::Merging;
use super::steps::{
    TakeStep, alike_step, exports_step, push_before, push_item, push_step, uses_step,
};
use indexmap::IndexMap;
use std::alloc::AllocError;
use wac_aggregator_errors::AggregateError;
use wac_aggregator_memo::Memo;
use wac_component::{InterfaceId, ItemKind, Types, UsedType};

// Takes in what an interface uses at an index, and goes on to the next; then to its exports, with
// the nearest interface near to it.
pub(crate) fn take_uses(
    state: &mut Merging,
    types: &Types,
    steps: &mut Vec<TakeStep>,
    id: InterfaceId,
    near: &Option<InterfaceId>,
    next: usize,
) -> Result<(), AggregateError>
    requires source { Stands types.now (interface_key id) }
    requires state { MayTake types.now state.old }
    requires near { IsNear state.old near.now }
    ensures taken { AnswersBelow (near_keys near.now) types.now state.old state.new (interface_key id) result }
    ensures members { AnswersMembers result types.now state.old state.new (IsReachedFrom types.now (interface_key id)) }
    ensures steps { OnOk result (AreNext types.now state.new (interface_key id) near.now steps.old.items steps.new.items) }
{
    if state.taken.interface(id).is_some() {
        return Ok(());
    }
    types.sound();
    let interface = &types[id];
    if next < interface.uses.len() {
        let used = used_at(types, &interface.uses, next)?;
        let again = uses_step(id, near, next.saturating_add(1));
        push_before(steps, again, TakeStep::Uses(used, 0))?;
        return Ok(());
    }
    let nearest = nearest_of(state, interface, *near)?;
    if nearest.is_none() {
        return take_new_exports(state, types, steps, id, &None, 0);
    }
    push_step(steps, alike_step(id, &nearest))?;
    Ok(())
}

// The interface that the type at an index is used from, which has an identifier.
pub(crate) fn used_at(
    types: &Types,
    uses: &IndexMap<String, UsedType>,
    index: usize,
) -> Result<InterfaceId, AggregateError>
    requires source { AllStand types.now (named_keys use_keys (named use_content uses.now.entries)) }
    requires at { index < length uses.now.entries }
    ensures used { IfOk result (λ i. option_map (λ u. u.interface) (slice_get (types_of uses.now.entries) index) ≡ Some i) }
    ensures refused { IfErr result (λ e. (a : Merging) → AreRefusedUses types.now a (named use_content uses.now.entries) e) }
    ensures unidentified { IfErr result IsUnidentified }
{
    let interface = interface_at(uses, index);
    if types[interface].id.is_none() {
        return Err(no_identifier(uses, index)?);
    }
    Ok(interface)
}

// The interface that the type at an index is used from.
fn interface_at(uses: &IndexMap<String, UsedType>, index: usize) -> InterfaceId
    requires { index < length uses.now.entries }
    ensures { option_map (λ u. u.interface) (slice_get (types_of uses.now.entries) index) ≡ Some result }
{
    let (_, used) = uses.get_index(index).unwrap();
    used.interface
}

// The refusal of the use at an index, of an interface without identifier.
fn no_identifier(
    uses: &IndexMap<String, UsedType>,
    index: usize,
) -> Result<AggregateError, AllocError>
    requires { index < length uses.now.entries }
    ensures { IfOk result (SaysOfUse (named use_content uses.now.entries) index) }
{
    let (name, _) = uses.get_index(index).unwrap();
    let used = name.clone()?;
    Ok(AggregateError::NoIdentifier { used })
}

// Takes in what an interface exports at an index, and goes on to the next; then the interface.
pub(crate) fn take_exports(
    state: &mut Merging,
    types: &Types,
    steps: &mut Vec<TakeStep>,
    id: InterfaceId,
    near: &Option<InterfaceId>,
    next: usize,
) -> Result<(), AggregateError>
    requires source { Stands types.now (interface_key id) }
    requires state { MayTake types.now state.old }
    requires near { IsNear state.old near.now }
    ensures taken { AnswersBelow (near_keys near.now) types.now state.old state.new (interface_key id) result }
    ensures members { AnswersMembers result types.now state.old state.new (IsReachedFrom types.now (interface_key id)) }
    ensures steps { OnOk result (AreNext types.now state.new (interface_key id) near.now steps.old.items steps.new.items) }
{
    if state.taken.interface(id).is_some() {
        return Ok(());
    }
    take_new_exports(state, types, steps, id, near, next)
}

// The same of an interface that wasn't taken in.
fn take_new_exports(
    state: &mut Merging,
    types: &Types,
    steps: &mut Vec<TakeStep>,
    id: InterfaceId,
    near: &Option<InterfaceId>,
    next: usize,
) -> Result<(), AggregateError>
    requires source { Stands types.now (interface_key id) }
    requires state { MayTake types.now state.old }
    requires near { IsNear state.old near.now }
    requires new { memo_of state.old.taken (interface_key id) ≡ None }
    ensures taken { AnswersBelow (near_keys near.now) types.now state.old state.new (interface_key id) result }
    ensures members { AnswersMembers result types.now state.old state.new (IsReachedFrom types.now (interface_key id)) }
    ensures steps { OnOk result (AreNext types.now state.new (interface_key id) near.now steps.old.items steps.new.items) }
{
    types.sound();
    let interface = &types[id];
    let at = take_ready(state, types, &interface.exports, next)?;
    if at < interface.exports.len() {
        let below = near_interface(&state.types, *near, &interface.exports, at);
        push_step(steps, exports_step(id, near, at.saturating_add(1)))?;
        push_item(steps, &nth_extern(&interface.exports, at), &below)?;
        return Ok(());
    }
    if !has_contents(
        &state.taken,
        types,
        &interface.uses,
        &interface.exports,
        next,
    ) {
        push_step(steps, uses_step(id, near, 0))?;
        return Ok(());
    }
    make_interface(state, types, id)
}

// Whether all that an interface or a world uses and exports was taken in, where what it exports from
// an index on was.
pub(crate) fn has_contents(
    taken: &Memo,
    types: &Types,
    uses: &IndexMap<String, UsedType>,
    exports: &IndexMap<String, ItemKind>,
    next: usize,
) -> bool
    requires source { AllStand types.now (named_keys use_keys (named use_content uses.now.entries)) }
    requires noted { AreItemsNoted (memo_of taken.now) (types_of exports.now.entries) next (length exports.now.entries) }
    ensures uses { IsTrue result → AreUsesNoted types.now (memo_of taken.now) (named use_content uses.now.entries) }
    ensures exports { IsTrue result → Each (HasOwn (memo_of taken.now)) (named_keys item_keys (named (λ k. k) exports.now.entries)) }
{
    if next == 0 {
        return has_uses(taken, types, uses);
    }
    has_externs(taken, exports) && has_uses(taken, types, uses)
}

// Whether each used interface has an identifier, and was taken in.
fn has_uses(taken: &Memo, types: &Types, uses: &IndexMap<String, UsedType>) -> bool
    requires { AllStand types.now (named_keys use_keys (named use_content uses.now.entries)) }
    ensures { IsTrue result → AreUsesNoted types.now (memo_of taken.now) (named use_content uses.now.entries) }
{
    for i in 0..uses.len() {
        if !has_use(taken, types, uses, i) {
            return false;
        }
    }
    true
}

// Whether that at an index is so.
fn has_use(taken: &Memo, types: &Types, uses: &IndexMap<String, UsedType>, index: usize) -> bool
    requires source { AllStand types.now (named_keys use_keys (named use_content uses.now.entries)) }
    requires at { index < length uses.now.entries }
    ensures { IsTrue result → IsUseNoted types.now (memo_of taken.now) (named use_content uses.now.entries) index }
{
    let interface = interface_at(uses, index);
    if types[interface].id.is_none() {
        return false;
    }
    taken.interface(interface).is_some()
}

// Takes in an interface, once all that it uses and exports was: a shared entry stands for it that
// serves it, or else one that is made of it or grows by it.
fn make_interface(state: &mut Merging, types: &Types, id: InterfaceId) -> Result<(), AggregateError>
    requires source { Stands types.now (interface_key id) }
    requires state { MayTake types.now state.old }
    requires new { memo_of state.old.taken (interface_key id) ≡ None }
    requires has { AreContentsNoted types.now (memo_of state.old.taken) (interface_key id) }
    ensures taken { MatchResult result (λ u. TakesBelow [] types.now state.old state.new (interface_key id)) (MayRefuse types.now state.old (interface_key id ∷ [])) }
    ensures members { AnswersMembers result types.now state.old state.new (ReachesByUses types.now id) }
{
    types.sound();
    let class = class_of_identifier(state, &types[id].id)?;
    let shared = shared_entry(state, &class);
    if let Some(own) = serving_entry(state, &shared, types, id) {
        state.taken.put_interface(id, own)?;
        return Ok(());
    }
    let interface = state.taken.renamed_interface(&types[id])?;
    match put_interface(state, types, id, class, &shared, interface) {
        Ok(_) => Ok(()),
        Err(refusal) => Err(refusal),
    }
}
