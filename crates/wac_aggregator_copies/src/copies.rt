//! Copies of entries, each made once: after those of what it names.

ghost use Rattle.std.specs.Prelude.{◌≡◌, [], ◌∷◌, None, map, OnOk, IfOk};
ghost use Rattle.wac_component.specs.Content.{named};
ghost use Rattle.wac_aggregator_memo.specs.EntryOrder.{HasOwn};
ghost use Rattle.wac_component.specs.Key.{Each, Stands, AllStand, next, item_keys, named_keys, defined_key, resource_key, func_key, interface_key, world_key, module_key};
ghost use Rattle.wac_aggregator_memo.specs.Memo.{memo_of};
ghost use Rattle.wac_component.specs.Naming.{key_of};
ghost use Rattle.wac_merge.specs.Items.{extern_keys, extern_list};
ghost use Rattle.wac_aggregator_narrowing.specs.Taking.{IsCopiedItem};
ghost use Rattle.wac_aggregator_copies.specs.Copies.{MayCopy, Copies, AreItemsCopied, HasCopies, AreToCopy};

use indexmap::{IndexMap, IndexSet};
use std::alloc::AllocError;
use wac_aggregator_memo::{Memo, parts_first};
use wac_component::valid::add_valid_module_type;
use wac_component::{
    DefinedTypeId, EntryId, FuncTypeId, InterfaceId, ItemKind, ModuleTypeId, ResourceId, Types,
    WorldId, id_at, items_ids,
};

/// Copies items under names.
pub fn copy_externs(
    own: &mut Types,
    copies: &mut Memo,
    types: &Types,
    externs: &IndexMap<String, ItemKind>,
) -> Result<IndexMap<String, ItemKind>, AllocError>
    requires source { AllStand types.now (named_keys item_keys (named (λ k. k) externs.now.entries)) }
    requires state { MayCopy types.now own.old copies.old }
    ensures { IfOk result (λ m. Copies types.now own.old copies.old own.new copies.new (extern_keys (extern_list externs.now)) (AreItemsCopied types.now (extern_list externs.now) (extern_list m))) }
{
    let ids = items_ids(copies.alloc(), externs)?;
    copy_ids(own, copies, types, &ids)?;
    copies.renamed_items(externs)
}

// Copies entries, with all that they lead to.
fn copy_ids(
    own: &mut Types,
    copies: &mut Memo,
    types: &Types,
    ids: &[EntryId],
) -> Result<(), AllocError>
    requires source { AllStand types.now (map key_of ids.now) }
    requires state { MayCopy types.now own.old copies.old }
    ensures { OnOk result (HasCopies types.now own.old copies.old own.new copies.new (map key_of ids.now)) }
{
    types.sound();
    let order = parts_first(types, copies, ids)?;
    copy_each(own, copies, types, &order)?;
    Ok(())
}

// Copies entries in an order in which each comes after what it names.
fn copy_each(
    own: &mut Types,
    copies: &mut Memo,
    types: &Types,
    order: &IndexSet<EntryId>,
) -> Result<(), AllocError>
    requires state { MayCopy types.now own.old copies.old }
    requires order { AreToCopy types.now (memo_of copies.old) (map key_of order.now.keys) }
    ensures { OnOk result (HasCopies types.now own.old copies.old own.new copies.new (map key_of order.now.keys)) }
{
    for i in 0..order.len() {
        copy_entry(own, copies, types, id_at(order, i))?;
    }
    Ok(())
}

// Copies an entry all of whose parts were copied, unless it was.
fn copy_entry(
    own: &mut Types,
    copies: &mut Memo,
    types: &Types,
    id: EntryId,
) -> Result<(), AllocError>
    requires source { Stands types.now (key_of id) }
    requires state { MayCopy types.now own.old copies.old }
    requires parts { Each (HasOwn (memo_of copies.old)) (next types.now (key_of id)) }
    ensures { OnOk result (HasCopies types.now own.old copies.old own.new copies.new (key_of id ∷ [])) }
{
    if copies.has(&id) {
        return Ok(());
    }
    match id {
        EntryId::Defined(id) => copy_defined(own, copies, types, id),
        EntryId::Resource(id) => copy_resource(own, copies, types, id),
        EntryId::Func(id) => copy_func(own, copies, types, id),
        EntryId::Interface(id) => copy_interface(own, copies, types, id),
        EntryId::World(id) => copy_world(own, copies, types, id),
        EntryId::Module(id) => copy_module(own, copies, types, id),
    }
}

// Copies a defined type.
fn copy_defined(
    own: &mut Types,
    copies: &mut Memo,
    types: &Types,
    id: DefinedTypeId,
) -> Result<(), AllocError>
    requires source { Stands types.now (defined_key id) }
    requires state { MayCopy types.now own.old copies.old }
    requires parts { Each (HasOwn (memo_of copies.old)) (next types.now (defined_key id)) }
    requires new { memo_of copies.old (defined_key id) ≡ None }
    ensures { OnOk result (HasCopies types.now own.old copies.old own.new copies.new (defined_key id ∷ [])) }
{
    types.sound();
    let renamed = copies.renamed_defined(&types[id])?;
    let copy = own.add_defined_type(renamed)?;
    copies.put_defined(id, copy)?;
    Ok(())
}

// Copies a resource.
fn copy_resource(
    own: &mut Types,
    copies: &mut Memo,
    types: &Types,
    id: ResourceId,
) -> Result<(), AllocError>
    requires source { Stands types.now (resource_key id) }
    requires state { MayCopy types.now own.old copies.old }
    requires parts { Each (HasOwn (memo_of copies.old)) (next types.now (resource_key id)) }
    requires new { memo_of copies.old (resource_key id) ≡ None }
    ensures { OnOk result (HasCopies types.now own.old copies.old own.new copies.new (resource_key id ∷ [])) }
{
    types.sound();
    let renamed = copies.renamed_resource(&types[id])?;
    let copy = own.add_resource(renamed)?;
    copies.put_resource(id, copy)?;
    Ok(())
}

// Copies a function type.
fn copy_func(
    own: &mut Types,
    copies: &mut Memo,
    types: &Types,
    id: FuncTypeId,
) -> Result<(), AllocError>
    requires source { Stands types.now (func_key id) }
    requires state { MayCopy types.now own.old copies.old }
    requires parts { Each (HasOwn (memo_of copies.old)) (next types.now (func_key id)) }
    requires new { memo_of copies.old (func_key id) ≡ None }
    ensures { OnOk result (HasCopies types.now own.old copies.old own.new copies.new (func_key id ∷ [])) }
{
    types.sound();
    let renamed = copies.renamed_func(&types[id])?;
    let copy = own.add_func_type(renamed)?;
    copies.put_func(id, copy)?;
    Ok(())
}

// Copies an interface. The copy has its identifier.
fn copy_interface(
    own: &mut Types,
    copies: &mut Memo,
    types: &Types,
    id: InterfaceId,
) -> Result<(), AllocError>
    requires source { Stands types.now (interface_key id) }
    requires state { MayCopy types.now own.old copies.old }
    requires parts { Each (HasOwn (memo_of copies.old)) (next types.now (interface_key id)) }
    requires new { memo_of copies.old (interface_key id) ≡ None }
    ensures { OnOk result (HasCopies types.now own.old copies.old own.new copies.new (interface_key id ∷ [])) }
{
    types.sound();
    let renamed = copies.renamed_interface(&types[id])?;
    let copy = own.add_interface(renamed)?;
    copies.put_interface(id, copy)?;
    Ok(())
}

// Copies a world.
fn copy_world(
    own: &mut Types,
    copies: &mut Memo,
    types: &Types,
    id: WorldId,
) -> Result<(), AllocError>
    requires source { Stands types.now (world_key id) }
    requires state { MayCopy types.now own.old copies.old }
    requires parts { Each (HasOwn (memo_of copies.old)) (next types.now (world_key id)) }
    requires new { memo_of copies.old (world_key id) ≡ None }
    ensures { OnOk result (HasCopies types.now own.old copies.old own.new copies.new (world_key id ∷ [])) }
{
    types.sound();
    let renamed = copies.renamed_world(&types[id])?;
    let copy = own.add_world(renamed)?;
    copies.put_world(id, copy)?;
    Ok(())
}

// Copies a core module type.
fn copy_module(
    own: &mut Types,
    copies: &mut Memo,
    types: &Types,
    id: ModuleTypeId,
) -> Result<(), AllocError>
    requires source { Stands types.now (module_key id) }
    requires state { MayCopy types.now own.old copies.old }
    requires new { memo_of copies.old (module_key id) ≡ None }
    ensures { OnOk result (HasCopies types.now own.old copies.old own.new copies.new (module_key id ∷ [])) }
{
    types.sound();
    let copy = add_valid_module_type(own, types[id].clone()?)?;
    copies.put_module(id, copy)?;
    Ok(())
}
