//! Named things, read and put by name.

ghost use Rattle.std.specs.Prelude.{◌≡◌, string_bytes, OnOk};
ghost use Rattle.std.specs.Str.{bytes_eq};
ghost use Rattle.indexmap.specs.IndexMap.{insert_entry};
ghost use Rattle.wac_model.specs.Text.{lookup};
ghost use Rattle.wac_core_merge.specs.Names.{with_new};
ghost use Rattle.wac_merge.specs.Items.{AreUnhidden, extern_list};

use indexmap::IndexMap;
use std::alloc::AllocError;
use wac_component::ItemKind;
use wac_core_merge::add_new;

/// The item of a name, if there is one.
pub fn extern_named(externs: &IndexMap<String, ItemKind>, name: &String) -> Option<ItemKind>
    ensures { result ≡ lookup bytes_eq (extern_list externs.now) (string_bytes name.now) }
{
    externs.get(name).copied()
}

/// Puts an item under a name: in the place of the one that stands there, else last.
pub fn put_extern(
    externs: &mut IndexMap<String, ItemKind>,
    name: &String,
    kind: ItemKind,
) -> Result<(), AllocError>
    ensures { OnOk result (extern_list externs.new ≡ insert_entry bytes_eq (extern_list externs.old) (string_bytes name.now) kind) }
{
    externs.insert(name.clone()?, kind)?;
    Ok(())
}

// Puts the items of the second side last whose names the first side lacks.
pub(crate) fn add_others(
    externs: &mut IndexMap<String, ItemKind>,
    second: &IndexMap<String, ItemKind>,
) -> Result<(), AllocError>
    ensures added { OnOk result (extern_list externs.new ≡ with_new bytes_eq (extern_list externs.old) (extern_list second.now)) }
    ensures found { OnOk result (AreUnhidden (extern_list second.now)) }
{
    add_new(externs, second.clone()?)
}
