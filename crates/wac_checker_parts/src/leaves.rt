//! Reading what has a place: names, fields, cases and externs.

ghost use Rattle.std.specs.Prelude.{◌≡◌, ◌<◌, map, slice_get, length, string_bytes, Some};
ghost use Rattle.std.specs.Str.{bytes_eq};
ghost use Rattle.wac_model.specs.Text.{lookup};
ghost use Rattle.wac_component.specs.Content.{named, names, types_of};
ghost use Rattle.wac_component.specs.Key.{Stands, resource_key};
ghost use Rattle.wac_component.specs.Tree.{root_name};
ghost use Rattle.indexmap.specs.IndexMap.{get_by_text};

use indexmap::{IndexMap, IndexSet};
use wac_component::{ItemKind, ResourceId, Types, ValueType};

pub(crate) type Fields = IndexMap<String, ValueType>;

pub(crate) type Cases = IndexMap<String, Payload>;

pub(crate) type Items = IndexMap<String, ItemKind>;

pub(crate) type Names = IndexSet<String>;

pub(crate) type Payload = Option<ValueType>;

// The name at the root of a resource's aliases.
pub(crate) fn root_name_of(id: ResourceId, types: &Types) -> &String
    requires { Stands types.now (resource_key id) }
    ensures { string_bytes result.now ≡ root_name types.now id }
{
    &types[types.resolve_resource(id)].name
}

// The name at an index.
pub(crate) fn name_at(names: &Names, index: usize) -> &String
    requires { index < length names.now.keys }
    ensures { slice_get (map string_bytes names.now.keys) index ≡ Some (string_bytes result.now) }
{
    names.get_index(index).unwrap()
}

/// The name at an index, and what it stands for.
pub fn entry_at<V>(entries: &IndexMap<String, V>, index: usize) -> (&String, &V)
    requires { index < length entries.now.entries }
    ensures name { slice_get (names entries.now.entries) index ≡ Some (string_bytes result.0.now) }
    ensures ty { slice_get (types_of entries.now.entries) index ≡ Some result.1.now }
    ensures lookup { get_by_text entries.now (string_bytes result.0.now) ≡ Some result.1.now }
    ensures at { slice_get (named (λ k. k) entries.now.entries) index ≡ Some (string_bytes result.0.now, result.1.now) }
    ensures by_name { lookup bytes_eq (named (λ k. k) entries.now.entries) (string_bytes result.0.now) ≡ Some result.1.now }
{
    entries.get_index(index).unwrap()
}

// The item at an index.
pub(crate) fn nth_type(items: &[ValueType], index: usize) -> &ValueType
    requires { index < length items.now }
    ensures { slice_get items.now index ≡ Some result.now }
{
    &items[index]
}
