//! What needs no step: all that is named was taken in, or is made at once.

ghost use Rattle.std.specs.Prelude.{◌<◌, [], IsTrue, IfOk, OnOk};
ghost use Rattle.wac_component.specs.Content.{named, types_of};
ghost use Rattle.wac_aggregator_memo.specs.EntryOrder.{HasOwn};
ghost use Rattle.wac_component.specs.Height.{keys_height};
ghost use Rattle.wac_component.specs.Key.{Each, Stands, AllStand, item_keys, value_keys, named_keys, next, func_key};
ghost use Rattle.wac_aggregator_memo.specs.Memo.{memo_of};
ghost use Rattle.wac_aggregator_taking.specs.Steps.{AreItemsNoted};
ghost use Rattle.wac_aggregator_taking.specs.Takes.{TakesKeys, TakesBelow, MayTake, Takes, OnlyGrows};

use super::entries::make_func;
use super::near::nth_extern;
use super::state::Merging;
use indexmap::IndexMap;
use std::alloc::AllocError;
use wac_aggregator_memo::Memo;
use wac_component::{FuncTypeId, ItemKind, Type, Types, ValueType};

// Takes in what items from an index on name, as long as that needs no step. Says which item needs
// one, or how many there are.
pub(crate) fn take_ready(
    state: &mut Merging,
    types: &Types,
    externs: &IndexMap<String, ItemKind>,
    next: usize,
) -> Result<usize, AllocError>
    requires source { AllStand types.now (named_keys item_keys (named (λ k. k) externs.now.entries)) }
    requires state { MayTake types.now state.old }
    ensures taken { OnOk result (TakesKeys [] types.now state.old state.new (named_keys item_keys (named (λ k. k) externs.now.entries)) (λ t. Unit {0})) }
    ensures grows { OnOk result (OnlyGrows types.now state.old state.new) }
    ensures noted { IfOk result (AreItemsNoted (memo_of state.new.taken) (types_of externs.now.entries) next) }
{
    for i in next..externs.len() {
        if !is_ready(state, types, nth_extern(externs, i))? {
            return Ok(i);
        }
    }
    Ok(externs.len())
}

// Whether what an item names was taken in; a function type is taken in, if all that it names was.
fn is_ready(state: &mut Merging, types: &Types, kind: ItemKind) -> Result<bool, AllocError>
    requires source { AllStand types.now (item_keys kind) }
    requires state { MayTake types.now state.old }
    ensures taken { OnOk result (Takes types.now state.old state.new (keys_height types.now (item_keys kind)) (item_keys kind) (λ t. Unit {0})) }
    ensures grows { OnOk result (OnlyGrows types.now state.old state.new) }
    ensures noted { IfOk result (λ ready. IsTrue ready → Each (HasOwn (memo_of state.new.taken)) (item_keys kind)) }
{
    match kind {
        ItemKind::Func(id) => is_func_ready(state, types, id),
        kind => Ok(has_item(&state.taken, &kind)),
    }
}

// The same of a function type.
pub(crate) fn is_func_ready(
    state: &mut Merging,
    types: &Types,
    id: FuncTypeId,
) -> Result<bool, AllocError>
    requires source { Stands types.now (func_key id) }
    requires state { MayTake types.now state.old }
    ensures taken { OnOk result (TakesBelow [] types.now state.old state.new (func_key id)) }
    ensures grows { OnOk result (OnlyGrows types.now state.old state.new) }
    ensures noted { IfOk result (λ ready. IsTrue ready → HasOwn (memo_of state.new.taken) (func_key id)) }
{
    if state.taken.func(id).is_some() {
        return Ok(true);
    }
    types.sound();
    if !has_func_parts(&state.taken, types, id) {
        return Ok(false);
    }
    make_func(state, types, id)?;
    Ok(true)
}

// Whether all that a function type names was taken in.
fn has_func_parts(taken: &Memo, types: &Types, id: FuncTypeId) -> bool
    requires { Stands types.now (func_key id) }
    ensures { IsTrue result → Each (HasOwn (memo_of taken.now)) (next types.now (func_key id)) }
{
    let func = &types[id];
    for (_, ty) in &func.params {
        if !has_value(taken, ty) {
            return false;
        }
    }
    match &func.result {
        Some(ty) => has_value(taken, ty),
        None => true,
    }
}

// Whether all that items name was taken in.
pub(crate) fn has_externs(taken: &Memo, externs: &IndexMap<String, ItemKind>) -> bool
    ensures { IsTrue result → Each (HasOwn (memo_of taken.now)) (named_keys item_keys (named (λ k. k) externs.now.entries)) }
{
    for (_, kind) in externs {
        if !has_item(taken, kind) {
            return false;
        }
    }
    true
}

// Whether what an item names was taken in.
pub(crate) fn has_item(taken: &Memo, kind: &ItemKind) -> bool
    ensures { IsTrue result → Each (HasOwn (memo_of taken.now)) (item_keys kind.now) }
{
    match kind.ty() {
        Type::Resource(id) => taken.resource(id).is_some(),
        Type::Func(id) => taken.func(id).is_some(),
        Type::Value(ty) => has_value(taken, &ty),
        Type::Interface(id) => taken.interface(id).is_some(),
        Type::World(id) => taken.world(id).is_some(),
        Type::Module(id) => taken.module(id).is_some(),
    }
}

// The same of a value type.
fn has_value(taken: &Memo, ty: &ValueType) -> bool
    ensures { IsTrue result → Each (HasOwn (memo_of taken.now)) (value_keys ty.now) }
{
    match *ty {
        ValueType::Primitive(_) => true,
        ValueType::Borrow(id) | ValueType::Own(id) => taken.resource(id).is_some(),
        ValueType::Defined(id) => taken.defined(id).is_some(),
    }
}
