//! What an entry names, in order.

ghost use Rattle.std.specs.Prelude.{◌≡◌, ◌<◌, Some, length, map, slice_get};
ghost use Rattle.wac_component.specs.Content.{named, defined_content, resource_content, func_content, interface_content, world_content, types_of};
ghost use Rattle.wac_component.specs.Key.{item_keys, named_keys, resource_keys, func_keys, interface_keys, world_keys};
ghost use Rattle.wac_component.specs.Parts.{places, all_places, placed, places_keys, members_of};
ghost use Rattle.std.specs.Option.{option_map};
ghost use Rattle.wac_component.specs.declared.items.ItemKind.TheVariants.{Value};

use super::defined::DefinedType;
use super::functions::FuncType;
use super::interfaces::{Interface, UsedType};
use super::items::{ItemKind, Type, ValueType};
use super::resources::Resource;
use super::worlds::World;
use indexmap::IndexMap;

/// Items that an entry names, in order. A used type is the instance of its interface, and a place
/// of a variant's case may be empty.
#[derive(Clone, Copy)]
pub(crate) enum Parts<'a> {
    Pair(Option<ItemKind>, Option<ItemKind>),
    Values(&'a [ValueType]),
    Fields(&'a IndexMap<String, ValueType>),
    Cases(&'a IndexMap<String, Option<ValueType>>),
    Uses(&'a IndexMap<String, UsedType>),
    Items(&'a IndexMap<String, ItemKind>),
}

impl Parts<'_> {
    /// In how many places an item may stand.
    pub(crate) fn len(&self) -> usize
        ensures { result ≡ length (places self.now) }
    {
        match self {
            Parts::Pair(_, _) => 2,
            Parts::Values(types) => types.len(),
            Parts::Fields(fields) => fields.len(),
            Parts::Cases(cases) => cases.len(),
            Parts::Uses(uses) => uses.len(),
            Parts::Items(items) => items.len(),
        }
    }

    /// The item at a place, if one stands there.
    pub(crate) fn get(&self, index: usize) -> Option<ItemKind>
        requires { index < length (places self.now) }
        ensures { slice_get (places self.now) index ≡ Some result }
    {
        match self {
            Parts::Pair(first, _) if index == 0 => *first,
            Parts::Pair(_, second) => *second,
            Parts::Values(types) => Some(ItemKind::Value(item_at(types, index))),
            Parts::Fields(fields) => Some(ItemKind::Value(*value_at(fields, index))),
            Parts::Cases(cases) => value_item(*value_at(cases, index)),
            Parts::Uses(uses) => Some(ItemKind::Instance(value_at(uses, index).interface)),
            Parts::Items(items) => Some(*value_at(items, index)),
        }
    }
}

pub(crate) fn item_at(types: &[ValueType], index: usize) -> ValueType
    requires { index < length types.now }
    ensures { slice_get types.now index ≡ Some result }
{
    types[index]
}

pub(crate) fn value_at<V>(map: &IndexMap<String, V>, index: usize) -> &V
    requires { index < length map.now.entries }
    ensures { slice_get (types_of map.now.entries) index ≡ Some result.now }
{
    let (_, value) = map.get_index(index).unwrap();
    value
}

/// All that an entry names, in order: one list after another.
pub(crate) type AllParts<'a> = (Parts<'a>, Parts<'a>, Parts<'a>);

// No items.
pub(crate) const NONE: Parts<'static> = Parts::Pair(None, None);

// A value type as an item, if there is one.
fn value_item(ty: Option<ValueType>) -> Option<ItemKind>
    ensures { result ≡ option_map Value ty }
{
    ty.map(ItemKind::Value)
}

/// Items under names.
pub(crate) fn items_parts(items: &IndexMap<String, ItemKind>) -> AllParts<'_>
    ensures { places_keys (all_places result) ≡ named_keys item_keys (named (λ k. k) items.now.entries) }
{
    (Parts::Items(items), NONE, NONE)
}

impl DefinedType {
    /// The value types that stand directly in the defined type.
    pub(crate) fn parts(&self) -> Parts<'_>
        ensures { placed (places result) ≡ map Value (members_of (defined_content self.now)) }
    {
        match self {
            DefinedType::Tuple(items) => Parts::Values(items),
            DefinedType::Variant(variant) => Parts::Cases(&variant.cases),
            DefinedType::Record(record) => Parts::Fields(&record.fields),
            DefinedType::Flags(_) | DefinedType::Enum(_) => NONE,
            DefinedType::Map(key, value) => Parts::Pair(
                Some(ItemKind::Value(*key)),
                Some(ItemKind::Value(*value)),
            ),
            DefinedType::Result { ok, err } => Parts::Pair(value_item(*ok), value_item(*err)),
            DefinedType::Stream(ty) | DefinedType::Future(ty) => Parts::Pair(value_item(*ty), None),
            DefinedType::List(ty)
            | DefinedType::FixedSizeList(ty, _)
            | DefinedType::Option(ty)
            | DefinedType::Alias(ty) => Parts::Pair(Some(ItemKind::Value(*ty)), None),
        }
    }
}

impl Resource {
    /// The owner and the source of a resource that is another name of one.
    pub(crate) fn parts(&self) -> Parts<'_>
        ensures { places_keys (places result) ≡ resource_keys (resource_content self.now) }
    {
        let Some(alias) = self.alias else {
            return NONE;
        };
        let source = ItemKind::Type(Type::Resource(alias.source));
        Parts::Pair(alias.owner.map(ItemKind::Instance), Some(source))
    }
}

impl FuncType {
    /// The types of the parameters, and that of the result.
    pub(crate) fn parts(&self) -> AllParts<'_>
        ensures { places_keys (all_places result) ≡ func_keys (func_content self.now) }
    {
        let result = Parts::Pair(value_item(self.result), None);
        (Parts::Fields(&self.params), result, NONE)
    }
}

impl Interface {
    /// The interfaces that types are used from, and the exports.
    pub(crate) fn parts(&self) -> AllParts<'_>
        ensures { places_keys (all_places result) ≡ interface_keys (interface_content self.now) }
    {
        (Parts::Uses(&self.uses), Parts::Items(&self.exports), NONE)
    }
}

impl World {
    /// The interfaces that types are used from, the imports and the exports.
    pub(crate) fn parts(&self) -> AllParts<'_>
        ensures { places_keys (all_places result) ≡ world_keys (world_content self.now) }
    {
        let uses = Parts::Uses(&self.uses);
        (
            uses,
            Parts::Items(&self.imports),
            Parts::Items(&self.exports),
        )
    }
}
