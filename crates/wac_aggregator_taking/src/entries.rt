//! Types and core modules: taken in once what they name was.

ghost use Rattle.std.specs.Prelude.{◌≡◌, [], ◌∷◌, None, IsTrue, IfOk, OnOk, MatchResult};
ghost use Rattle.wac_component.specs.Entries.{owner_at};
ghost use Rattle.wac_aggregator_memo.specs.EntryOrder.{HasOwn};
ghost use Rattle.wac_component.specs.Key.{Each, Stands, next, defined_key, resource_key, func_key, module_key};
ghost use Rattle.wac_aggregator_memo.specs.Memo.{memo_of};
ghost use Rattle.wac_component.specs.Naming.{key_of};
ghost use Rattle.wac_aggregator_taking.specs.Members.{AnswersMembers};
ghost use Rattle.wac_aggregator_taking.specs.Refused.{MayRefuse};
ghost use Rattle.wac_aggregator_taking.specs.Steps.{step_key, step_near, IsReachedFrom, ArePut, AreNext, IsOwnerTold, LacksSource};
ghost use Rattle.wac_aggregator_taking.specs.Takes.{TakesBelow, MayTake, Takes, state_of, IsOwnerImported, alias_at};

use super::owners::{alias_of, import_owner_of};
use super::ready::is_func_ready;
use super::state::Merging;
use super::steps::{TakeStep, has_all, push_before, push_ids, push_step};
use std::alloc::{AllocError, Global};
use wac_aggregator_errors::AggregateError;
use wac_aggregator_memo::Memo;
use wac_component::valid::add_valid_module_type;
use wac_component::{DefinedTypeId, EntryId, FuncTypeId, ModuleTypeId, ResourceId, Types};

// Whether all that an entry names was taken in; if not, puts the step of the entry last again,
// and those of what it names behind it.
fn has_parts(
    taken: &Memo,
    types: &Types,
    steps: &mut Vec<TakeStep>,
    id: EntryId,
    again: TakeStep,
) -> Result<bool, AllocError>
    requires source { Stands types.now (key_of id) }
    requires again { (step_key again ≡ key_of id) × (step_near again ≡ None) }
    ensures has { IfOk result (λ has. IsTrue has → Each (HasOwn (memo_of taken.now)) (next types.now (key_of id))) }
    ensures steps { OnOk result (ArePut (key_of id ∷ next types.now (key_of id)) None steps.old.items steps.new.items) }
{
    let ids = types.ids_in(taken.alloc(), id)?;
    if has_all(taken, &ids) {
        return Ok(true);
    }
    push_step(steps, again)?;
    push_ids(steps, &ids, &None)?;
    Ok(false)
}

// Puts the step of an entry last again, and behind it those of what it names.
fn put_parts(
    alloc: Global,
    types: &Types,
    steps: &mut Vec<TakeStep>,
    id: EntryId,
    again: TakeStep,
) -> Result<(), AllocError>
    requires source { Stands types.now (key_of id) }
    requires again { (step_key again ≡ key_of id) × (step_near again ≡ None) }
    ensures { OnOk result (ArePut (key_of id ∷ next types.now (key_of id)) None steps.old.items steps.new.items) }
{
    let ids = types.ids_in(alloc, id)?;
    push_step(steps, again)?;
    push_ids(steps, &ids, &None)
}

// Takes in a defined type, unless it was taken in.
pub(crate) fn take_defined(
    state: &mut Merging,
    types: &Types,
    steps: &mut Vec<TakeStep>,
    id: DefinedTypeId,
) -> Result<(), AggregateError>
    requires source { Stands types.now (defined_key id) }
    requires state { MayTake types.now state.old }
    ensures taken { MatchResult result (λ u. TakesBelow [] types.now state.old state.new (defined_key id)) (MayRefuse types.now state.old (defined_key id ∷ [])) }
    ensures members { AnswersMembers result types.now state.old state.new (IsReachedFrom types.now (defined_key id)) }
    ensures steps { OnOk result (AreNext types.now state.new (defined_key id) None steps.old.items steps.new.items) }
{
    if state.taken.defined(id).is_some() {
        return Ok(());
    }
    types.sound();
    let again = TakeStep::Defined(id);
    if !has_parts(&state.taken, types, steps, EntryId::Defined(id), again)? {
        return Ok(());
    }
    make_defined(state, types, id)
}

// The same, once its parts were taken in.
fn make_defined(state: &mut Merging, types: &Types, id: DefinedTypeId) -> Result<(), AggregateError>
    requires source { Stands types.now (defined_key id) }
    requires state { MayTake types.now state.old }
    requires parts { Each (HasOwn (memo_of state.old.taken)) (next types.now (defined_key id)) }
    requires new { memo_of state.old.taken (defined_key id) ≡ None }
    ensures { MatchResult result (λ u. TakesBelow [] types.now state.old state.new (defined_key id)) (MayRefuse types.now state.old (defined_key id ∷ [])) }
{
    types.sound();
    let renamed = state.taken.renamed_defined(&types[id])?;
    let own = state.types.add_defined_type(renamed)?;
    state.taken.put_defined(id, own)?;
    Ok(())
}

// Takes in a function type, unless it was taken in.
pub(crate) fn take_func(
    state: &mut Merging,
    types: &Types,
    steps: &mut Vec<TakeStep>,
    id: FuncTypeId,
) -> Result<(), AggregateError>
    requires source { Stands types.now (func_key id) }
    requires state { MayTake types.now state.old }
    ensures taken { MatchResult result (λ u. TakesBelow [] types.now state.old state.new (func_key id)) (MayRefuse types.now state.old (func_key id ∷ [])) }
    ensures members { AnswersMembers result types.now state.old state.new (IsReachedFrom types.now (func_key id)) }
    ensures steps { OnOk result (AreNext types.now state.new (func_key id) None steps.old.items steps.new.items) }
{
    if is_func_ready(state, types, id)? {
        return Ok(());
    }
    put_parts(
        state.alloc(),
        types,
        steps,
        EntryId::Func(id),
        TakeStep::Func(id),
    )?;
    Ok(())
}

// Takes in a function type whose parts were taken in, and which was not.
pub(crate) fn make_func(
    state: &mut Merging,
    types: &Types,
    id: FuncTypeId,
) -> Result<(), AllocError>
    requires source { Stands types.now (func_key id) }
    requires state { MayTake types.now state.old }
    requires parts { Each (HasOwn (memo_of state.old.taken)) (next types.now (func_key id)) }
    requires new { memo_of state.old.taken (func_key id) ≡ None }
    ensures taken { OnOk result (TakesBelow [] types.now state.old state.new (func_key id)) }
    ensures noted { OnOk result (HasOwn (memo_of state.new.taken) (func_key id)) }
{
    types.sound();
    let renamed = state.taken.renamed_func(&types[id])?;
    let own = state.types.add_func_type(renamed)?;
    state.taken.put_func(id, own)?;
    Ok(())
}

// Takes in a resource, unless it was taken in.
pub(crate) fn take_resource(
    state: &mut Merging,
    types: &Types,
    steps: &mut Vec<TakeStep>,
    id: ResourceId,
) -> Result<(), AggregateError>
    requires source { Stands types.now (resource_key id) }
    requires state { MayTake types.now state.old }
    ensures taken { MatchResult result (λ u. TakesBelow [] types.now state.old state.new (resource_key id)) (MayRefuse types.now state.old (resource_key id ∷ [])) }
    ensures members { AnswersMembers result types.now state.old state.new (IsReachedFrom types.now (resource_key id)) }
    ensures steps { OnOk result (AreNext types.now state.new (resource_key id) None steps.old.items steps.new.items) }
{
    if state.taken.resource(id).is_some() {
        return Ok(());
    }
    let told = match import_owner_of(state, types, id) {
        Ok(told) => told,
        Err(refusal) => return Err(refusal),
    };
    let Some(owner) = told else {
        return take_source(state, types, steps, id);
    };
    push_before(steps, TakeStep::Resource(id), TakeStep::Uses(owner, 0))?;
    Ok(())
}

// The same, once its owner, if it has one, was taken in and imported.
fn take_source(
    state: &mut Merging,
    types: &Types,
    steps: &mut Vec<TakeStep>,
    id: ResourceId,
) -> Result<(), AggregateError>
    requires source { Stands types.now (resource_key id) }
    requires state { MayTake types.now state.old }
    requires owner { IsOwnerTold types.now (owner_at types.now id) None (state_of state.old) }
    requires new { memo_of state.old.taken (resource_key id) ≡ None }
    ensures taken { MatchResult result (λ u. TakesBelow [] types.now state.old state.new (resource_key id)) (MayRefuse types.now state.old (resource_key id ∷ [])) }
    ensures members { AnswersMembers result types.now state.old state.new (IsReachedFrom types.now (resource_key id)) }
    ensures steps { OnOk result (AreNext types.now state.new (resource_key id) None steps.old.items steps.new.items) }
{
    types.sound();
    match lacking_source(&state.taken, types, id) {
        Some(source) => {
            push_before(steps, TakeStep::Resource(id), TakeStep::Resource(source))?;
            Ok(())
        }
        None => make_resource(state, types, id),
    }
}

// What a resource is another name of, if it is and that was not taken in.
fn lacking_source(taken: &Memo, types: &Types, id: ResourceId) -> Option<ResourceId>
    requires { Stands types.now (resource_key id) }
    ensures { LacksSource (memo_of taken.now) (alias_at types.now id) result }
{
    let Some(alias) = alias_of(types, id) else {
        return None;
    };
    if taken.resource(alias.source).is_some() {
        return None;
    }
    Some(alias.source)
}

// The same, once what it is another name of was taken in, and the owner of that is imported.
fn make_resource(state: &mut Merging, types: &Types, id: ResourceId) -> Result<(), AggregateError>
    requires source { Stands types.now (resource_key id) }
    requires state { MayTake types.now state.old }
    requires parts { Each (HasOwn (memo_of state.old.taken)) (next types.now (resource_key id)) }
    requires owner { IsOwnerImported types.now (state_of state.old) (owner_at types.now id) }
    requires new { memo_of state.old.taken (resource_key id) ≡ None }
    ensures { MatchResult result (λ u. TakesBelow [] types.now state.old state.new (resource_key id)) (MayRefuse types.now state.old (resource_key id ∷ [])) }
{
    types.sound();
    let renamed = state.taken.renamed_resource(&types[id])?;
    let own = state.types.add_resource(renamed)?;
    state.taken.put_resource(id, own)?;
    Ok(())
}

// Takes in a core module type, unless it was taken in.
pub(crate) fn take_module(
    state: &mut Merging,
    types: &Types,
    id: ModuleTypeId,
) -> Result<(), AggregateError>
    requires source { Stands types.now (module_key id) }
    requires state { MayTake types.now state.old }
    ensures taken { MatchResult result (λ u. TakesBelow [] types.now state.old state.new (module_key id)) (MayRefuse types.now state.old (module_key id ∷ [])) }
    ensures members { AnswersMembers result types.now state.old state.new (IsReachedFrom types.now (module_key id)) }
{
    if state.taken.module(id).is_some() {
        return Ok(());
    }
    types.sound();
    let own = add_valid_module_type(&mut state.types, types[id].clone()?)?;
    state.taken.put_module(id, own)?;
    Ok(())
}
