//! Where the exports of two interfaces or of two worlds clash.

ghost use Rattle.std.specs.Prelude.{◌++◌, ◌∷◌, [], IfOk};
ghost use Rattle.wac_model.specs.ItemTree.{Kind};
ghost use Rattle.wac_component.specs.Growth.{Extends};
ghost use Rattle.wac_component.specs.Key.{AllStand, Stands, item_keys, type_keys, interface_key, world_key};
ghost use Rattle.wac_component.specs.declared.items.ItemKind.TheVariants.{«Type» as OfType};
ghost use Rattle.wac_merge.specs.Items.{entry_item, extern_keys, extern_list};
ghost use Rattle.wac_aggregator_errors.specs.Found.{HasExportsAt, IsSearchOf, IsSearchBelow, IsKnownFrom, GoesOnKnown, FoundWith};

use crate::checks::are_apart;
use indexmap::IndexMap;
use std::alloc::AllocError;
use wac_component::{InterfaceId, ItemKind, Type, Types, WorldId};
use wac_merge::Meets;

// Two exports of one name that have no meet.
#[derive(Drop)]
pub(crate) struct ExportClash {
    pub(crate) name: String,
    pub(crate) existing: ItemKind,
    pub(crate) new: ItemKind,
}

// The first exports of one name that have no meet, of two interfaces or of two worlds.
pub(crate) fn clash_below(
    meets: &mut Meets,
    own: &mut Types,
    existing: ItemKind,
    new: ItemKind,
) -> Result<Option<ExportClash>, AllocError>
    requires existing { AllStand own.old (item_keys existing) }
    requires new { AllStand own.old (item_keys new) }
    requires known { IsKnownFrom own.old meets.old (item_keys existing ++ item_keys new) }
    ensures grows { Extends own.old own.new }
    ensures known { GoesOnKnown (item_keys existing ++ item_keys new) own.old meets.old own.new meets.new }
    ensures stood { IfOk result (FoundWith own.old (item_keys existing ++ item_keys new)) }
    ensures clash { IfOk result (IsSearchBelow own.old existing new) }
{
    match (&existing, &new) {
        (ItemKind::Instance(x), ItemKind::Instance(y)) => interface_clash(meets, own, *x, *y),
        (ItemKind::Component(x), ItemKind::Component(y)) => world_clash(meets, own, *x, *y),
        (ItemKind::Type(x), ItemKind::Type(y)) => type_clash(meets, own, *x, *y),
        _ => Ok(None),
    }
}

// The same of two types.
fn type_clash(
    meets: &mut Meets,
    own: &mut Types,
    existing: Type,
    new: Type,
) -> Result<Option<ExportClash>, AllocError>
    requires existing { AllStand own.old (type_keys existing) }
    requires new { AllStand own.old (type_keys new) }
    requires known { IsKnownFrom own.old meets.old (type_keys existing ++ type_keys new) }
    ensures grows { Extends own.old own.new }
    ensures known { GoesOnKnown (type_keys existing ++ type_keys new) own.old meets.old own.new meets.new }
    ensures stood { IfOk result (FoundWith own.old (type_keys existing ++ type_keys new)) }
    ensures clash { IfOk result (IsSearchBelow own.old (OfType existing) (OfType new)) }
{
    match (&existing, &new) {
        (Type::Interface(x), Type::Interface(y)) => interface_clash(meets, own, *x, *y),
        (Type::World(x), Type::World(y)) => world_clash(meets, own, *x, *y),
        _ => Ok(None),
    }
}

// The same of two interfaces.
fn interface_clash(
    meets: &mut Meets,
    own: &mut Types,
    existing: InterfaceId,
    new: InterfaceId,
) -> Result<Option<ExportClash>, AllocError>
    requires existing { Stands own.old (interface_key existing) }
    requires new { Stands own.old (interface_key new) }
    requires known { IsKnownFrom own.old meets.old (interface_key existing ∷ interface_key new ∷ []) }
    ensures grows { Extends own.old own.new }
    ensures known { GoesOnKnown (interface_key existing ∷ interface_key new ∷ []) own.old meets.old own.new meets.new }
    ensures stood { IfOk result (FoundWith own.old (interface_key existing ∷ interface_key new ∷ [])) }
    ensures clash { IfOk result (λ o. (k : Kind) → IsSearchBelow own.old (entry_item k (interface_key existing)) (entry_item k (interface_key new)) o) }
{
    let first = interface_exports(own, existing)?;
    let second = interface_exports(own, new)?;
    first_clash(meets, own, &first, &second)
}

// The same of two worlds.
fn world_clash(
    meets: &mut Meets,
    own: &mut Types,
    existing: WorldId,
    new: WorldId,
) -> Result<Option<ExportClash>, AllocError>
    requires existing { Stands own.old (world_key existing) }
    requires new { Stands own.old (world_key new) }
    requires known { IsKnownFrom own.old meets.old (world_key existing ∷ world_key new ∷ []) }
    ensures grows { Extends own.old own.new }
    ensures known { GoesOnKnown (world_key existing ∷ world_key new ∷ []) own.old meets.old own.new meets.new }
    ensures stood { IfOk result (FoundWith own.old (world_key existing ∷ world_key new ∷ [])) }
    ensures clash { IfOk result (λ o. (k : Kind) → IsSearchBelow own.old (entry_item k (world_key existing)) (entry_item k (world_key new)) o) }
{
    let first = world_exports(own, existing)?;
    let second = world_exports(own, new)?;
    first_clash(meets, own, &first, &second)
}

// What an interface exports.
fn interface_exports(own: &Types, id: InterfaceId) -> Result<IndexMap<String, ItemKind>, AllocError>
    requires { Stands own.now (interface_key id) }
    ensures { IfOk result (λ m. HasExportsAt own.now (interface_key id) (extern_list m)) }
{
    own[id].exports.clone()
}

// What a world exports.
fn world_exports(own: &Types, id: WorldId) -> Result<IndexMap<String, ItemKind>, AllocError>
    requires { Stands own.now (world_key id) }
    ensures { IfOk result (λ m. HasExportsAt own.now (world_key id) (extern_list m)) }
{
    own[id].exports.clone()
}

// The first two of one name that have no meet.
fn first_clash(
    meets: &mut Meets,
    own: &mut Types,
    first: &IndexMap<String, ItemKind>,
    second: &IndexMap<String, ItemKind>,
) -> Result<Option<ExportClash>, AllocError>
    requires first { AllStand own.old (extern_keys (extern_list first.now)) }
    requires second { AllStand own.old (extern_keys (extern_list second.now)) }
    requires known { IsKnownFrom own.old meets.old (extern_keys (extern_list first.now) ++ extern_keys (extern_list second.now)) }
    ensures grows { Extends own.old own.new }
    ensures known { GoesOnKnown (extern_keys (extern_list first.now) ++ extern_keys (extern_list second.now)) own.old meets.old own.new meets.new }
    ensures stood { IfOk result (FoundWith own.old (extern_keys (extern_list first.now) ++ extern_keys (extern_list second.now))) }
    ensures clash { IfOk result (IsSearchOf own.old (extern_list first.now) (extern_list second.now)) }
{
    for (name, existing) in first {
        if let Some(new) = second.get(name) {
            if are_apart(meets, own, *existing, *new)? {
                return Ok(Some(ExportClash {
                    name: name.clone()?,
                    existing: *existing,
                    new: *new,
                }));
            }
        }
    }
    Ok(None)
}
