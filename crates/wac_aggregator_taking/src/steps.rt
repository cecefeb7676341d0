//! Taking in, step by step: an entry after all that it names, without the machine's stack.

ghost use Rattle.std.specs.Prelude.{◌≡◌, ◌++◌, ◌⊎◌, [], ◌∷◌, All, None, map, IsTrue, IfOk, IfSome, OnOk, MatchResult};
ghost use Rattle.wac_aggregator_memo.specs.EntryOrder.{HasOwn};
ghost use Rattle.wac_component.specs.Id.{Id};
ghost use Rattle.wac_component.specs.Key.{Each, AllStand, item_keys, value_keys, interface_key};
ghost use Rattle.wac_aggregator_memo.specs.Memo.{memo_of};
ghost use Rattle.wac_component.specs.Naming.{key_of};
ghost use Rattle.wac_component.specs.declared.items.ItemKind.TheVariants.{Instance};
ghost use Rattle.wac_aggregator_promises.specs.Entries.{ReachesByUses};
ghost use Rattle.wac_aggregator_taking.specs.Members.{AnswersMembers};
ghost use Rattle.wac_aggregator_taking.specs.Refused.{AnswersBelow, IsRefusedBy};
ghost use Rattle.wac_aggregator_taking.specs.Steps.{AnswersOnWay, IsOwnItem, step_key, step_near, MayStep, IsReachedFrom, IsStepOf, ArePut, AreNext, AnswersLeft, GoesOnTaking};
ghost use Rattle.wac_aggregator_taking.specs.Takes.{TakesItemAs, MayTake, IsNear, near_keys};

use super::entries::{take_defined, take_func, take_module, take_resource};
use super::interfaces::{take_exports, take_uses};
use super::noting::take_alike;
use super::owners::take_owner;
use super::ready::has_item;
use super::state::Merging;
use super::worlds::{take_world_exports, take_world_uses};
use std::alloc::AllocError;
use wac_aggregator_errors::AggregateError;
use wac_aggregator_memo::Memo;
use wac_component::{
    DefinedTypeId, EntryId, FuncTypeId, InterfaceId, ItemKind, ModuleTypeId, ResourceId, Type,
    Types, ValueType, WorldId,
};

// What is to be taken in, or gone on with. To an interface another one may be near, by which it
// is gone through.
#[derive(Clone, Copy)]
pub(crate) enum TakeStep {
    // An entry that has neither uses nor exports.
    Defined(DefinedTypeId),
    Resource(ResourceId),
    Func(FuncTypeId),
    Module(ModuleTypeId),
    // What an interface uses, from an index on.
    Uses(InterfaceId, usize),
    UsesBy(InterfaceId, InterfaceId, usize),
    // The types that it exports like the near one, once its uses were taken in.
    AlikeBy(InterfaceId, InterfaceId, usize),
    // What it exports, and then itself.
    Exports(InterfaceId, usize),
    ExportsBy(InterfaceId, InterfaceId, usize),
    // What a world uses, and what it exports, and then itself.
    WorldUses(WorldId, usize),
    WorldExports(WorldId, usize),
    // The owner of a resource, and its import.
    Owner(ResourceId),
}

/// Takes in an item. The own interface that it will be merged with is near, if there is one.
pub fn take_item(
    state: &mut Merging,
    types: &Types,
    kind: ItemKind,
    near: Option<InterfaceId>,
) -> Result<ItemKind, AggregateError>
    requires source { AllStand types.now (item_keys kind) }
    requires state { MayTake types.now state.old }
    requires near { IsNear state.old near }
    ensures taken { MatchResult result (λ k. TakesItemAs (near_keys near) types.now state.old state.new kind k) (IsRefusedBy (near_keys near) types.now state.old (item_keys kind)) }
    ensures members { (i : Id) → kind ≡ Instance i → AnswersMembers result types.now state.old state.new (ReachesByUses types.now i) }
{
    let mut steps = Vec::new(state.alloc());
    take_steps(state, types, &mut steps, &kind, &near)
}

// Takes steps until what the item names was taken in, and answers the own item. Each turn takes a
// step to its end or adds one: memory ends long before the turns do.
fn take_steps(
    state: &mut Merging,
    types: &Types,
    steps: &mut Vec<TakeStep>,
    kind: &ItemKind,
    near: &Option<InterfaceId>,
) -> Result<ItemKind, AggregateError>
    requires source { AllStand types.now (item_keys kind.now) }
    requires state { MayTake types.now state.old }
    requires near { IsNear state.old near.now }
    requires no_steps { steps.old.items ≡ [] }
    ensures way { AnswersOnWay types.now (near_keys near.now) (item_keys kind.now) state.old state.new result }
    ensures own { IfOk result (IsOwnItem (memo_of state.new.taken) kind.now) }
{
    types.sound();
    match take_first(state, types, steps, kind, near) {
        Ok(()) => {}
        Err(refusal) => return Err(refusal),
    }
    if let Some(own) = own_instance(&state.taken, kind) {
        return Ok(own);
    }
    for _turn in 0..u64::MAX {
        let done = match turn(state, types, steps, kind, near) {
            Ok(done) => done,
            Err(refusal) => return Err(refusal),
        };
        if done {
            return Ok(state.taken.renamed_item(*kind));
        }
    }
    Err(AggregateError::Memory)
}

// The own item of an instance, once that was taken in: mostly the first step is enough for it.
fn own_instance(taken: &Memo, kind: &ItemKind) -> Option<ItemKind>
    ensures { IfSome result (IsOwnItem (memo_of taken.now) kind.now) }
{
    let ItemKind::Instance(id) = kind else {
        return None;
    };
    let own = taken.interface(*id)?;
    Some(ItemKind::Instance(own))
}

// Takes the first step of an item, if it names an entry. Most items are taken in by it, and no list
// of steps is made for them.
fn take_first(
    state: &mut Merging,
    types: &Types,
    steps: &mut Vec<TakeStep>,
    kind: &ItemKind,
    near: &Option<InterfaceId>,
) -> Result<(), AggregateError>
    requires source { AllStand types.now (item_keys kind.now) }
    requires state { MayTake types.now state.old }
    requires near { IsNear state.old near.now }
    requires no_steps { steps.old.items ≡ [] }
    ensures { AnswersLeft types.now (near_keys near.now) (item_keys kind.now) state.old state.new steps.new.items result }
{
    types.sound();
    match item_step(kind, near) {
        Some(step) => take_step(state, types, steps, step),
        None => Ok(()),
    }
}

// Takes the last step, or asks where there is none.
fn turn(
    state: &mut Merging,
    types: &Types,
    steps: &mut Vec<TakeStep>,
    kind: &ItemKind,
    near: &Option<InterfaceId>,
) -> Result<bool, AggregateError>
    requires state { MayTake types.now state.old }
    requires near { IsNear state.old near.now }
    requires steps { All (MayStep types.now state.old) steps.old.items }
    ensures goes_on { GoesOnTaking types.now (near_keys near.now) (item_keys kind.now) state.old steps.old.items state.new steps.new.items result }
    ensures has { IfOk result (λ done. IsTrue done → Each (HasOwn (memo_of state.new.taken)) (item_keys kind.now)) }
{
    match steps.pop() {
        Some(step) => match take_step(state, types, steps, step) {
            Ok(()) => Ok(false),
            Err(refusal) => Err(refusal),
        },
        None => {
            let done = ask(&state.taken, steps, kind, near)?;
            Ok(done)
        }
    }
}

// Whether what the item names was taken in; if not, that is the next step.
fn ask(
    taken: &Memo,
    steps: &mut Vec<TakeStep>,
    kind: &ItemKind,
    near: &Option<InterfaceId>,
) -> Result<bool, AllocError>
    ensures steps { IfOk result (λ done. ArePut (item_keys kind.now) near.now steps.old.items steps.new.items) }
    ensures has { IfOk result (λ done. IsTrue done → Each (HasOwn (memo_of taken.now)) (item_keys kind.now)) }
{
    if has_item(taken, kind) {
        return Ok(true);
    }
    push_item(steps, kind, near)?;
    Ok(false)
}

// Takes a step: to its end, or as far as it can be taken, and puts what comes next last.
fn take_step(
    state: &mut Merging,
    types: &Types,
    steps: &mut Vec<TakeStep>,
    step: TakeStep,
) -> Result<(), AggregateError>
    requires step { MayStep types.now state.old step }
    requires state { MayTake types.now state.old }
    ensures taken { AnswersBelow (near_keys (step_near step)) types.now state.old state.new (step_key step) result }
    ensures members { AnswersMembers result types.now state.old state.new (IsReachedFrom types.now (step_key step)) }
    ensures steps { OnOk result (AreNext types.now state.new (step_key step) (step_near step) steps.old.items steps.new.items) }
{
    match step {
        TakeStep::Defined(id) => take_defined(state, types, steps, id),
        TakeStep::Resource(id) => take_resource(state, types, steps, id),
        TakeStep::Func(id) => take_func(state, types, steps, id),
        TakeStep::Module(id) => take_module(state, types, id),
        TakeStep::Uses(id, next) => take_uses(state, types, steps, id, &None, next),
        TakeStep::UsesBy(id, near, next) => take_uses(state, types, steps, id, &Some(near), next),
        TakeStep::AlikeBy(id, near, next) => take_alike(state, types, steps, id, near, next),
        TakeStep::Exports(id, next) => take_exports(state, types, steps, id, &None, next),
        TakeStep::ExportsBy(id, near, next) => take_exports(
            state,
            types,
            steps,
            id,
            &Some(near),
            next,
        ),
        TakeStep::WorldUses(id, next) => take_world_uses(state, types, steps, id, next),
        TakeStep::WorldExports(id, next) => take_world_exports(state, types, steps, id, next),
        TakeStep::Owner(id) => take_owner(state, types, steps, id),
    }
}

// The step that takes an entry in.
pub(crate) fn step_of(id: &EntryId, near: &Option<InterfaceId>) -> TakeStep
    ensures key { step_key result ≡ key_of id.now }
    ensures near { (step_near result ≡ None) ⊎ (step_near result ≡ near.now) }
{
    match *id {
        EntryId::Defined(id) => TakeStep::Defined(id),
        EntryId::Resource(id) => TakeStep::Resource(id),
        EntryId::Func(id) => TakeStep::Func(id),
        EntryId::Interface(id) => uses_step(id, near, 0),
        EntryId::World(id) => TakeStep::WorldUses(id, 0),
        EntryId::Module(id) => TakeStep::Module(id),
    }
}

// The step that goes on with what an interface uses.
pub(crate) fn uses_step(id: InterfaceId, near: &Option<InterfaceId>, next: usize) -> TakeStep
    ensures key { step_key result ≡ interface_key id }
    ensures near { step_near result ≡ near.now }
{
    match *near {
        Some(near) => TakeStep::UsesBy(id, near, next),
        None => TakeStep::Uses(id, next),
    }
}

// The step that goes on with what it exports.
pub(crate) fn exports_step(id: InterfaceId, near: &Option<InterfaceId>, next: usize) -> TakeStep
    ensures key { step_key result ≡ interface_key id }
    ensures near { step_near result ≡ near.now }
{
    match *near {
        Some(near) => TakeStep::ExportsBy(id, near, next),
        None => TakeStep::Exports(id, next),
    }
}

// The step after its uses: with the types that it exports like the near one, if there is one.
pub(crate) fn alike_step(id: InterfaceId, near: &Option<InterfaceId>) -> TakeStep
    ensures key { step_key result ≡ interface_key id }
    ensures near { step_near result ≡ near.now }
{
    match *near {
        Some(near) => TakeStep::AlikeBy(id, near, 0),
        None => TakeStep::Exports(id, 0),
    }
}

// Whether all of these were taken in.
pub(crate) fn has_all(taken: &Memo, ids: &[EntryId]) -> bool
    ensures { IsTrue result → Each (HasOwn (memo_of taken.now)) (map key_of ids.now) }
{
    for i in 0..ids.len() {
        if !taken.has(&ids[i]) {
            return false;
        }
    }
    true
}

// Puts the steps that take these in last, so that the first comes next.
pub(crate) fn push_ids(
    steps: &mut Vec<TakeStep>,
    ids: &[EntryId],
    near: &Option<InterfaceId>,
) -> Result<(), AllocError>
    ensures { OnOk result (ArePut (map key_of ids.now) near.now steps.old.items steps.new.items) }
{
    for i in 0..ids.len() {
        push_step(steps, step_of(&ids[ids.len() - 1 - i], near))?;
    }
    Ok(())
}

// The step that takes in what an item names, if it names an entry.
fn item_step(kind: &ItemKind, near: &Option<InterfaceId>) -> Option<TakeStep>
    ensures { IfSome result (IsStepOf (item_keys kind.now) near.now) }
{
    match kind.ty() {
        Type::Resource(id) => Some(TakeStep::Resource(id)),
        Type::Func(id) => Some(TakeStep::Func(id)),
        Type::Value(ty) => value_step(&ty),
        Type::Interface(id) => Some(uses_step(id, near, 0)),
        Type::World(id) => Some(TakeStep::WorldUses(id, 0)),
        Type::Module(id) => Some(TakeStep::Module(id)),
    }
}

// The same of a value type.
fn value_step(ty: &ValueType) -> Option<TakeStep>
    ensures { IfSome result (IsStepOf (value_keys ty.now) None) }
{
    match *ty {
        ValueType::Primitive(_) => None,
        ValueType::Borrow(id) => Some(TakeStep::Resource(id)),
        ValueType::Own(id) => Some(TakeStep::Resource(id)),
        ValueType::Defined(id) => Some(TakeStep::Defined(id)),
    }
}

// Puts the step that takes in what an item names last, if it names an entry.
pub(crate) fn push_item(
    steps: &mut Vec<TakeStep>,
    kind: &ItemKind,
    near: &Option<InterfaceId>,
) -> Result<(), AllocError>
    ensures { OnOk result (ArePut (item_keys kind.now) near.now steps.old.items steps.new.items) }
{
    match item_step(kind, near) {
        Some(step) => push_step(steps, step),
        None => Ok(()),
    }
}

// Puts a step last.
pub(crate) fn push_step(steps: &mut Vec<TakeStep>, step: TakeStep) -> Result<(), AllocError>
    ensures { OnOk result (steps.new.items ≡ steps.old.items ++ step ∷ []) }
{
    match steps.push(step) {
        Ok(()) => Ok(()),
        Err(_) => Err(AllocError),
    }
}

// Puts a step last, and behind it one that comes first.
pub(crate) fn push_before(
    steps: &mut Vec<TakeStep>,
    again: TakeStep,
    first: TakeStep,
) -> Result<(), AllocError>
    ensures { OnOk result (steps.new.items ≡ steps.old.items ++ again ∷ first ∷ []) }
{
    push_step(steps, again)?;
    push_step(steps, first)
}
