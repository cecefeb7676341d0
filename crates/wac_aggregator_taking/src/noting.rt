//! Types that an interface exports like the near one, which are taken for that one's.

ghost use Rattle.std.specs.Prelude.{[], ◌∷◌, Some, IfErr, IfOk, IfSome, OnOk};
ghost use Rattle.wac_component.specs.Key.{Each, Stands, AllStand, item_keys, optional_keys, defined_key, resource_key, interface_key};
ghost use Rattle.wac_aggregator_taking.specs.Members.{AnswersMembers};
ghost use Rattle.wac_aggregator_taking.specs.Refused.{AnswersBelow, AnswersKeys, IsUnidentified};
ghost use Rattle.wac_aggregator_taking.specs.Steps.{IsReachedFrom, ArePut, AreNext, owed_keys};
ghost use Rattle.wac_aggregator_taking.specs.Takes.{MayTake, IsNear, IsOwnEntry, AreWithin, OnlyGrows, near_keys};

use super::near::{near_export, nth_extern};
use super::owners::{import_owners, push_owners};
use super::state::Merging;
use super::steps::{TakeStep, push_step};
use std::alloc::AllocError;
use wac_aggregator_alike::{alike_resources, alike_values};
use wac_aggregator_errors::AggregateError;
use wac_component::{DefinedTypeId, InterfaceId, ItemKind, ResourceId, Type, Types, ValueType};

// Takes the type that an interface exports at an index for the near one's, if they are alike, once
// the owners of its resources were taken in, and goes on to the next.
pub(crate) fn take_alike(
    state: &mut Merging,
    types: &Types,
    steps: &mut Vec<TakeStep>,
    id: InterfaceId,
    near: InterfaceId,
    next: usize,
) -> Result<(), AggregateError>
    requires source { Stands types.now (interface_key id) }
    requires state { MayTake types.now state.old }
    requires near { IsNear state.old (Some near) }
    ensures taken { AnswersBelow (near_keys (Some near)) types.now state.old state.new (interface_key id) result }
    ensures members { AnswersMembers result types.now state.old state.new (IsReachedFrom types.now (interface_key id)) }
    ensures steps { OnOk result (AreNext types.now state.new (interface_key id) (Some near) steps.old.items steps.new.items) }
{
    types.sound();
    let exports = &types[id].exports;
    if next >= exports.len() {
        push_step(steps, TakeStep::ExportsBy(id, near, 0))?;
        return Ok(());
    }
    let own = near_export(&state.types, Some(near), exports, next);
    match note_alike(state, types, nth_extern(exports, next), own) {
        Ok(owed) => {
            push_alike(steps, id, near, next, owed)?;
            Ok(())
        }
        Err(refusal) => Err(refusal),
    }
}

// Goes on to the next export, or to the owners of these resources and this export again.
fn push_alike(
    steps: &mut Vec<TakeStep>,
    id: InterfaceId,
    near: InterfaceId,
    next: usize,
    owed: Option<Vec<ResourceId>>,
) -> Result<(), AllocError>
    ensures { OnOk result (ArePut (interface_key id ∷ owed_keys owed) (Some near) steps.old.items steps.new.items) }
{
    match owed {
        None => push_step(steps, TakeStep::AlikeBy(id, near, next.saturating_add(1))),
        Some(resources) => {
            push_step(steps, TakeStep::AlikeBy(id, near, next))?;
            push_owners(steps, &resources)
        }
    }
}

// Takes a type for an own item, if they are alike, once the owners of its resources were taken in:
// those are owed till then.
fn note_alike(
    state: &mut Merging,
    types: &Types,
    kind: ItemKind,
    own: Option<ItemKind>,
) -> Result<Option<Vec<ResourceId>>, AggregateError>
    requires source { AllStand types.now (item_keys kind) }
    requires state { MayTake types.now state.old }
    requires own { IfSome own (λ k. Each (IsOwnEntry state.old) (item_keys k)) }
    ensures taken { AnswersKeys (optional_keys item_keys own) types.now state.old state.new (item_keys kind) result }
    ensures grows { OnOk result (OnlyGrows types.now state.old state.new) }
    ensures unidentified { IfErr result IsUnidentified }
    ensures owed { IfOk result (λ o. AreWithin types.now (owed_keys o) (item_keys kind)) }
{
    match (&kind, &own) {
        (ItemKind::Type(Type::Resource(id)), Some(ItemKind::Type(Type::Resource(own)))) => {
            note_resource(state, types, *id, *own)
        }
        (
            ItemKind::Type(Type::Value(ValueType::Defined(id))),
            Some(ItemKind::Type(Type::Value(ValueType::Defined(own)))),
        ) => note_defined(state, types, *id, *own),
        _ => Ok(None),
    }
}

// The same of a resource.
fn note_resource(
    state: &mut Merging,
    types: &Types,
    id: ResourceId,
    own: ResourceId,
) -> Result<Option<Vec<ResourceId>>, AggregateError>
    requires source { Stands types.now (resource_key id) }
    requires state { MayTake types.now state.old }
    requires own { IsOwnEntry state.old (resource_key own) }
    ensures taken { AnswersBelow (resource_key own ∷ []) types.now state.old state.new (resource_key id) result }
    ensures grows { OnOk result (OnlyGrows types.now state.old state.new) }
    ensures unidentified { IfErr result IsUnidentified }
    ensures owed { IfOk result (λ o. AreWithin types.now (owed_keys o) (resource_key id ∷ [])) }
{
    if state.taken.resource(id).is_some() {
        return Ok(None);
    }
    types.sound();
    let Some(owned) = alike_resources(state.alloc(), &state.types, own, types, id)? else {
        return Ok(None);
    };
    let all = match import_owners(state, types, &owned) {
        Ok(all) => all,
        Err(refusal) => return Err(refusal),
    };
    if !all {
        return Ok(Some(owned));
    }
    state.taken.put_resource(id, own)?;
    Ok(None)
}

// The same of a defined type.
fn note_defined(
    state: &mut Merging,
    types: &Types,
    id: DefinedTypeId,
    own: DefinedTypeId,
) -> Result<Option<Vec<ResourceId>>, AggregateError>
    requires source { Stands types.now (defined_key id) }
    requires state { MayTake types.now state.old }
    requires own { IsOwnEntry state.old (defined_key own) }
    ensures taken { AnswersBelow (defined_key own ∷ []) types.now state.old state.new (defined_key id) result }
    ensures grows { OnOk result (OnlyGrows types.now state.old state.new) }
    ensures unidentified { IfErr result IsUnidentified }
    ensures owed { IfOk result (λ o. AreWithin types.now (owed_keys o) (defined_key id ∷ [])) }
{
    if state.taken.defined(id).is_some() {
        return Ok(None);
    }
    types.sound();
    let Some(owned) = alike_values(state.alloc(), &state.types, own, types, id)? else {
        return Ok(None);
    };
    let all = match import_owners(state, types, &owned) {
        Ok(all) => all,
        Err(refusal) => return Err(refusal),
    };
    if !all {
        return Ok(Some(owned));
    }
    state.taken.put_defined(id, own)?;
    Ok(None)
}
