//! Whether a borrowed handle stands in a type.

ghost use Rattle.std.specs.Prelude.{◌≡◌, map};
ghost use Rattle.std.specs.List.{flat_map};
ghost use Rattle.std.specs.Option.{option_to_list};
ghost use Rattle.wac_model.specs.ValueTree.{parts_of};
ghost use Rattle.wac_component.specs.Borrow.{has_borrow, have_borrow};
ghost use Rattle.wac_component.specs.Content.{defined_content, types_of, case_types};
ghost use Rattle.wac_component.specs.Key.{AllStand, value_keys, defined_keys};
ghost use Rattle.wac_component.specs.Tree.{value_tree, content_tree};

use super::collection::Types;
use super::defined::DefinedType;
use super::items::ValueType;
use super::parts::{item_at, value_at};
use indexmap::IndexMap;

impl ValueType {
    /// Whether a borrowed handle stands in the value type, with aliases looked through.
    #[cycle(borrows)]
    pub fn contains_borrow(&self, types: &Types) -> bool
        requires { AllStand types.now (value_keys self.now) }
        ensures { result ≡ has_borrow (value_tree types.now self.now) }
    {
        match self {
            ValueType::Primitive(_) | ValueType::Own(_) => false,
            ValueType::Borrow(_) => true,
            ValueType::Defined(id) => types[*id].contains_borrow(types),
        }
    }
}

impl DefinedType {
    /// Whether a borrowed handle stands in the defined type, with aliases looked through.
    #[cycle(borrows)]
    pub fn contains_borrow(&self, types: &Types) -> bool
        requires { AllStand types.now (defined_keys (defined_content self.now)) }
        ensures { result ≡ has_borrow (content_tree (value_tree types.now) (defined_content self.now)) }
    {
        match self {
            DefinedType::Tuple(items) => items_borrow(items, types),
            DefinedType::List(ty) => ty.contains_borrow(types),
            DefinedType::FixedSizeList(ty, _) => ty.contains_borrow(types),
            DefinedType::Map(key, value) => {
                key.contains_borrow(types) || value.contains_borrow(types)
            }
            DefinedType::Option(ty) => ty.contains_borrow(types),
            DefinedType::Result { ok, err } => {
                optional_borrows(ok, types) || optional_borrows(err, types)
            }
            DefinedType::Variant(variant) => cases_borrow(&variant.cases, types),
            DefinedType::Record(record) => fields_borrow(&record.fields, types),
            DefinedType::Flags(_) | DefinedType::Enum(_) => false,
            DefinedType::Alias(ty) => ty.contains_borrow(types),
            DefinedType::Stream(payload) => optional_borrows(payload, types),
            DefinedType::Future(payload) => optional_borrows(payload, types),
        }
    }
}

// Whether a borrowed handle stands in what is there, if anything is.
#[cycle(borrows)]
fn optional_borrows(ty: &Option<ValueType>, types: &Types) -> bool
    requires { AllStand types.now (flat_map value_keys (option_to_list ty.now)) }
    ensures { result ≡ have_borrow (parts_of (map (value_tree types.now) (option_to_list ty.now))) }
{
    match ty {
        Some(ty) => ty.contains_borrow(types),
        None => false,
    }
}

// Whether a borrowed handle stands in an item of a tuple.
#[cycle(borrows)]
fn items_borrow(items: &[ValueType], types: &Types) -> bool
    requires { AllStand types.now (flat_map value_keys items.now) }
    ensures { result ≡ have_borrow (parts_of (map (value_tree types.now) items.now)) }
{
    for i in 0..items.len() {
        if item_at(items, i).contains_borrow(types) {
            return true;
        }
    }
    false
}

// Whether a borrowed handle stands in a field of a record.
#[cycle(borrows)]
fn fields_borrow(fields: &IndexMap<String, ValueType>, types: &Types) -> bool
    requires { AllStand types.now (flat_map value_keys (types_of fields.now.entries)) }
    ensures { result ≡ have_borrow (parts_of (map (value_tree types.now) (types_of fields.now.entries))) }
{
    for i in 0..fields.len() {
        if value_at(fields, i).contains_borrow(types) {
            return true;
        }
    }
    false
}

// Whether a borrowed handle stands in a case of a variant.
#[cycle(borrows)]
fn cases_borrow(cases: &IndexMap<String, Option<ValueType>>, types: &Types) -> bool
    requires { AllStand types.now (flat_map value_keys (case_types cases.now.entries)) }
    ensures { result ≡ have_borrow (parts_of (map (value_tree types.now) (case_types cases.now.entries))) }
{
    for i in 0..cases.len() {
        if optional_borrows(value_at(cases, i), types) {
            return true;
        }
    }
    false
}
