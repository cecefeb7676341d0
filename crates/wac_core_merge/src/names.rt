//! Maps by name, put together.

ghost use Rattle.std.specs.Prelude.{◌≡◌, [], ◌∷◌, OnOk};
ghost use Rattle.indexmap.specs.IndexMap.{IsUnique};
ghost use Rattle.wac_core_merge.specs.Names.{put, with_new};

use indexmap::IndexMap;
use std::alloc::AllocError;
use std::hash::Hash;

// Puts a value last, if the map has none of this name.
pub(crate) fn insert_new<K: Eq + Hash + Drop, V: Drop>(
    map: &mut IndexMap<K, V>,
    name: K,
    value: V,
) -> Result<(), AllocError>
    ensures { OnOk result (map.new.entries ≡ with_new K.eq map.old.entries ((name, value) ∷ [])) }
{
    if map.contains_key(&name) {
        return Ok(());
    }
    map.insert(name, value)?;
    Ok(())
}

// Puts a value last, if there is one, and the map has none of this name.
pub(crate) fn insert_if_any<K: Eq + Hash + Drop, V: Drop>(
    map: &mut IndexMap<K, V>,
    name: K,
    value: Option<V>,
) -> Result<(), AllocError>
    ensures { OnOk result (map.new.entries ≡ with_new K.eq map.old.entries (put name value [])) }
{
    match value {
        Some(value) => insert_new(map, name, value),
        None => Ok(()),
    }
}

/// Puts the entries of the second map whose names the first lacks last, in their order.
pub fn add_new<K: Eq + Hash + Drop, V: Drop>(
    first: &mut IndexMap<K, V>,
    second: IndexMap<K, V>,
) -> Result<(), AllocError>
    ensures entries { OnOk result (first.new.entries ≡ with_new K.eq first.old.entries second.entries) }
    ensures unique { IsUnique K.eq second }
{
    for (name, value) in second {
        insert_new(first, name, value)?;
    }
    Ok(())
}
