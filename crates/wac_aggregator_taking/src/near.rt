//! The own interfaces that are near to what is taken in: those that it will be merged with.

ghost use Rattle.std.specs.Prelude.{◌≡◌, ◌<◌, [], ◌∷◌, Some, length, slice_get, IfOk, IfSome};
ghost use Rattle.wac_component.specs.Content.{types_of};
ghost use Rattle.wac_component.specs.Id.{Id};
ghost use Rattle.wac_component.specs.Key.{Stands, item_keys, interface_key};
ghost use Rattle.wac_aggregator_narrowing.specs.State.{IsStateKept};
ghost use Rattle.wac_aggregator_taking.specs.Takes.{IsNear, IsNearest, NearNames, state_of};

use super::identity::class_of_identifier;
use super::state::Merging;
use indexmap::IndexMap;
use std::alloc::AllocError;
use wac_component::{Interface, InterfaceId, ItemKind, Type, Types};
use wac_merge::extern_named;
use wac_names::NameClass;

// The interface that another one is merged with, if that is asked for: functions, core modules and
// components that it exports are compared by what they are.
pub(crate) fn nearest_of(
    state: &Merging,
    interface: &Interface,
    near: Option<InterfaceId>,
) -> Result<Option<InterfaceId>, AllocError>
    requires state { IsStateKept (state_of state.now) }
    requires near { IsNear state.now near }
    ensures stands { IfOk result (IsNear state.now) }
    ensures nearest { IfOk result (IsNearest state.now near) }
{
    if !asks_near(&interface.exports) {
        return Ok(None);
    }
    let class = class_of_identifier(state, &interface.id)?;
    Ok(nearest(state, &class, near))
}

// Whether an item is among these for which something near is looked for: an instance or a type.
fn asks_near(externs: &IndexMap<String, ItemKind>) -> bool {
    for (_, kind) in externs {
        if matches!(kind, ItemKind::Instance(_) | ItemKind::Type(_)) {
            return true;
        }
    }
    false
}

// The shared entry of an identifier's class, else what is near already.
fn nearest(
    state: &Merging,
    class: &Option<NameClass>,
    near: Option<InterfaceId>,
) -> Option<InterfaceId>
    requires state { IsStateKept (state_of state.now) }
    requires near { IsNear state.now near }
    ensures stands { IsNear state.now result }
    ensures nearest { IsNearest state.now near result }
{
    let Some(class) = class else {
        return near;
    };
    match state.shared.get(class).copied() {
        Some(own) => Some(own),
        None => near,
    }
}

// The item at an index.
pub(crate) fn nth_extern(externs: &IndexMap<String, ItemKind>, index: usize) -> ItemKind
    requires { index < length externs.now.entries }
    ensures { slice_get (types_of externs.now.entries) index ≡ Some result }
{
    let (_, kind) = externs.get_index(index).unwrap();
    *kind
}

// What the near interface exports under the name at an index.
pub(crate) fn near_export(
    own: &Types,
    near: Option<InterfaceId>,
    externs: &IndexMap<String, ItemKind>,
    index: usize,
) -> Option<ItemKind>
    requires near { (i : Id) → near ≡ Some i → Stands own.now (interface_key i) }
    requires at { index < length externs.now.entries }
    ensures { IfSome result (λ k. NearNames own.now near (item_keys k)) }
{
    let near = near?;
    let (name, _) = externs.get_index(index).unwrap();
    extern_named(&own[near].exports, name)
}

// The same, if that is an interface.
pub(crate) fn near_interface(
    own: &Types,
    near: Option<InterfaceId>,
    externs: &IndexMap<String, ItemKind>,
    index: usize,
) -> Option<InterfaceId>
    requires near { (i : Id) → near ≡ Some i → Stands own.now (interface_key i) }
    requires at { index < length externs.now.entries }
    ensures { IfSome result (λ i. NearNames own.now near (interface_key i ∷ [])) }
{
    let export = near_export(own, near, externs, index)?;
    match &export {
        ItemKind::Instance(id) => Some(*id),
        ItemKind::Type(Type::Interface(id)) => Some(*id),
        _ => None,
    }
}
