//! The owners of resources.

ghost use Rattle.std.specs.Prelude.{◌≡◌, ◌<◌, [], ◌∷◌, None, Some, IfOk, IfErr, OnOk, MatchResult, length, map, slice_get};
ghost use Rattle.std.specs.Option.{option_map};
ghost use Rattle.wac_component.specs.Content.{alias_content};
ghost use Rattle.wac_component.specs.Key.{AllStand, Stands, interface_key, resource_key};
ghost use Rattle.wac_component.specs.Reach.{IsAmong};
ghost use Rattle.wac_aggregator_narrowing.specs.State.{IsStateKept};
ghost use Rattle.wac_aggregator_taking.specs.Members.{AnswersMembers};
ghost use Rattle.wac_aggregator_taking.specs.Refused.{MayRefuse, IsUnidentified};
ghost use Rattle.wac_aggregator_taking.specs.Steps.{IsResourceTold, IsReachedFrom, ArePut, AreNext, ImportsOnly};
ghost use Rattle.wac_aggregator_taking.specs.Takes.{TakesOwners, TakesBelow, ImportsOwnOwner, shared_keys, state_of, MayTake, Takes, alias_at};

use super::state::Merging;
use super::steps::{TakeStep, push_before, push_step};
use std::alloc::AllocError;
use wac_aggregator_alike::owner_of;
use wac_aggregator_errors::AggregateError;
use wac_component::{InterfaceId, ItemKind, ResourceAlias, ResourceId, Types};
use wac_names::NameClass;

// What a resource is another name of, if it is.
pub(crate) fn alias_of(types: &Types, id: ResourceId) -> Option<ResourceAlias>
    requires { Stands types.now (resource_key id) }
    ensures { option_map alias_content result ≡ alias_at types.now id }
{
    types[id].alias
}

// The resource at an index of a list.
pub(crate) fn resource_at(resources: &Vec<ResourceId>, index: usize) -> ResourceId
    requires { index < length resources.now.items }
    ensures { slice_get resources.now.items index ≡ Some result }
{
    resources[index]
}

// Imports a shared entry under its identifier, unless there is an import on the track of that.
pub(crate) fn import_owner(state: &mut Merging, own: InterfaceId) -> Result<(), AllocError>
    requires state { IsStateKept (state_of state.old) }
    requires shared { IsAmong (interface_key own) (shared_keys state.old.shared.entries) }
    ensures imported { IfOk result (λ u. ImportsOwnOwner state.old state.new own) }
    ensures others { ImportsOnly state.old state.new }
{
    let Some(name) = state.types[own].id.clone()? else {
        return Ok(());
    };
    let class = NameClass::of(state.alloc(), name.as_str())?;
    if state.imports.kind_of(&class).is_some() {
        return Ok(());
    }
    state.imports.put(class, name, ItemKind::Instance(own))?;
    Ok(())
}

// Imports the owner of a resource, if it has one, once that was taken in. The answer is an owner
// that is yet to be taken in.
pub(crate) fn import_owner_of(
    state: &mut Merging,
    types: &Types,
    id: ResourceId,
) -> Result<Option<InterfaceId>, AggregateError>
    requires source { Stands types.now (resource_key id) }
    requires state { MayTake types.now state.old }
    ensures taken { MatchResult result (λ r. Takes types.now state.old state.new 0 (resource_key id ∷ []) (IsResourceTold types.now id r)) (MayRefuse types.now state.old (resource_key id ∷ [])) }
    ensures unidentified { IfErr result IsUnidentified }
    ensures others { ImportsOnly state.old state.new }
{
    let Some(owner) = owner_of(types, id) else {
        return Ok(None);
    };
    if types[owner].id.is_none() {
        let resource = types[id].name.clone()?;
        return Err(AggregateError::OwnerWithoutIdentifier { resource });
    }
    let Some(own) = state.taken.interface(owner) else {
        return Ok(Some(owner));
    };
    import_owner(state, own)?;
    Ok(None)
}

// Imports the owners of resources, as long as they were taken in; says whether all were.
pub(crate) fn import_owners(
    state: &mut Merging,
    types: &Types,
    resources: &Vec<ResourceId>,
) -> Result<bool, AggregateError>
    requires source { AllStand types.now (map resource_key resources.now.items) }
    requires state { MayTake types.now state.old }
    ensures taken { MatchResult result (λ all. TakesOwners types.now state.old state.new resources.now.items all) (MayRefuse types.now state.old (map resource_key resources.now.items)) }
    ensures unidentified { IfErr result IsUnidentified }
    ensures others { ImportsOnly state.old state.new }
{
    for i in 0..resources.len() {
        let id = resource_at(resources, i);
        let told = match import_owner_of(state, types, id) {
            Ok(told) => told,
            Err(refusal) => return Err(refusal),
        };
        if told.is_some() {
            return Ok(false);
        }
    }
    Ok(true)
}

// Takes in the owner of a resource, if it has one, and imports it.
pub(crate) fn take_owner(
    state: &mut Merging,
    types: &Types,
    steps: &mut Vec<TakeStep>,
    id: ResourceId,
) -> Result<(), AggregateError>
    requires source { Stands types.now (resource_key id) }
    requires state { MayTake types.now state.old }
    ensures taken { MatchResult result (λ u. TakesBelow [] types.now state.old state.new (resource_key id)) (MayRefuse types.now state.old (resource_key id ∷ [])) }
    ensures members { AnswersMembers result types.now state.old state.new (IsReachedFrom types.now (resource_key id)) }
    ensures steps { OnOk result (AreNext types.now state.new (resource_key id) None steps.old.items steps.new.items) }
{
    let told = match import_owner_of(state, types, id) {
        Ok(told) => told,
        Err(refusal) => return Err(refusal),
    };
    let Some(owner) = told else {
        return Ok(());
    };
    push_before(steps, TakeStep::Owner(id), TakeStep::Uses(owner, 0))?;
    Ok(())
}

// Puts the steps that take in the owners of resources last, so that the first comes next.
pub(crate) fn push_owners(
    steps: &mut Vec<TakeStep>,
    resources: &Vec<ResourceId>,
) -> Result<(), AllocError>
    ensures { OnOk result (ArePut (map resource_key resources.now.items) None steps.old.items steps.new.items) }
{
    for i in 0..resources.len() {
        let id = resource_at(resources, resources.len() - 1 - i);
        push_step(steps, TakeStep::Owner(id))?;
    }
    Ok(())
}
