//! The texts of value types, of resources and of functions: what comes first is put at once, and the
//! rest in chunks.

ghost use Rattle.std.specs.Prelude.{◌≡◌, ◌<◌, OnOk, Some, length, slice_get};
ghost use Rattle.std.specs.List.{flat_map};
ghost use Rattle.std.specs.Option.{option_to_list};
ghost use Rattle.wac_component.specs.Content.{defined_content, func_content, types_of, case_types};
ghost use Rattle.wac_component.specs.Key.{Stands, AllStand, resource_key, value_keys, defined_keys, func_keys};
ghost use Rattle.wac_item_text.specs.Rest.{AreStanding};

use super::rest::Rest;
use indexmap::{IndexMap, IndexSet};
use std::alloc::AllocError;
use wac_component::{DefinedType, FuncType, ResourceId, Types, ValueType};
use wac_script_syntax::push_name;

// Puts a text last, and then the word of the name at the root of a resource's aliases.
pub(crate) fn push_resource(
    text: &mut String,
    types: &Types,
    before: &str,
    id: ResourceId,
) -> Result<(), AllocError>
    requires { Stands types.now (resource_key id) }
{
    text.push_str(before)?;
    push_name(text, &types[types.resolve_resource(id)].name)
}

// Begins the text of a value type.
pub(crate) fn begin_value<'a>(
    text: &mut String,
    rest: &mut Rest<'a>,
    types: &'a Types,
    ty: ValueType,
) -> Result<(), AllocError>
    requires before { AreStanding types.now rest.old.pending.items }
    requires ty { AllStand types.now (value_keys ty) }
    ensures { OnOk result (AreStanding types.now rest.new.pending.items) }
{
    match ty {
        ValueType::Primitive(of) => text.push_str(of.desc()),
        ValueType::Borrow(id) => {
            push_resource(text, types, "borrow<", id)?;
            text.push_str(">")
        }
        ValueType::Own(id) => {
            push_resource(text, types, "own<", id)?;
            text.push_str(">")
        }
        ValueType::Defined(id) => begin_defined(text, rest, types, &types[id]),
    }
}

// Begins the text of a defined type.
fn begin_defined<'a>(
    text: &mut String,
    rest: &mut Rest<'a>,
    types: &Types,
    ty: &'a DefinedType,
) -> Result<(), AllocError>
    requires before { AreStanding types.now rest.old.pending.items }
    requires ty { AllStand types.now (defined_keys (defined_content ty.now)) }
    ensures { OnOk result (AreStanding types.now rest.new.pending.items) }
{
    text.push_str(first_word(ty))?;
    match ty {
        DefinedType::Tuple(items) => push_items(rest, types, items),
        DefinedType::List(item) | DefinedType::Option(item) => {
            rest.push_text(">")?;
            rest.push_value(types, *item)
        }
        DefinedType::FixedSizeList(item, size) => {
            rest.push_text(">")?;
            rest.push_number(*size)?;
            rest.push_text(";")?;
            rest.push_value(types, *item)
        }
        DefinedType::Map(key, value) => push_two(rest, types, Some(*key), Some(*value)),
        DefinedType::Result { ok, err } => push_two(rest, types, *ok, *err),
        DefinedType::Variant(variant) => {
            rest.push_text("}")?;
            push_cases(rest, types, &variant.cases)
        }
        DefinedType::Record(record) => {
            rest.push_text("}")?;
            push_fields(rest, types, &record.fields)
        }
        DefinedType::Flags(names) => push_names(text, &names.0),
        DefinedType::Enum(names) => push_names(text, &names.0),
        DefinedType::Alias(of) => rest.push_value(types, *of),
        DefinedType::Stream(of) | DefinedType::Future(of) => {
            rest.push_text(">")?;
            rest.push_optional(types, *of)
        }
    }
}

// What the text of a defined type begins with.
fn first_word(ty: &DefinedType) -> &'static str {
    match ty {
        DefinedType::Tuple(_) => "tuple<",
        DefinedType::List(_) | DefinedType::FixedSizeList(_, _) => "list<",
        DefinedType::Map(_, _) => "map<",
        DefinedType::Option(_) => "option<",
        DefinedType::Result { .. } => "result<",
        DefinedType::Variant(_) => "variant{",
        DefinedType::Record(_) => "record{",
        DefinedType::Flags(_) => "flags{",
        DefinedType::Enum(_) => "enum{",
        DefinedType::Alias(_) => "",
        DefinedType::Stream(_) => "stream<",
        DefinedType::Future(_) => "future<",
    }
}

// Lets two types come next, with a comma between them and an angle bracket behind.
fn push_two(
    rest: &mut Rest<'_>,
    types: &Types,
    first: Option<ValueType>,
    second: Option<ValueType>,
) -> Result<(), AllocError>
    requires before { AreStanding types.now rest.old.pending.items }
    requires first { AllStand types.now (flat_map value_keys (option_to_list first)) }
    requires second { AllStand types.now (flat_map value_keys (option_to_list second)) }
    ensures { OnOk result (AreStanding types.now rest.new.pending.items) }
{
    rest.push_text(">")?;
    rest.push_optional(types, second)?;
    rest.push_text(",")?;
    rest.push_optional(types, first)
}

// What stands before the part of this index.
fn comma_before(index: usize) -> &'static str {
    if index == 0 { "" } else { "," }
}

// Lets the types of a tuple come next, with commas between them and an angle bracket behind.
fn push_items(rest: &mut Rest<'_>, types: &Types, items: &[ValueType]) -> Result<(), AllocError>
    requires before { AreStanding types.now rest.old.pending.items }
    requires items { AllStand types.now (flat_map value_keys items.now) }
    ensures { OnOk result (AreStanding types.now rest.new.pending.items) }
{
    rest.push_text(">")?;
    for i in 0..items.len() {
        let at = items.len() - 1 - i;
        rest.push_value(types, item_at(items, at))?;
        rest.push_text(comma_before(at))?;
    }
    Ok(())
}

fn item_at(items: &[ValueType], index: usize) -> ValueType
    requires { index < length items.now }
    ensures { slice_get items.now index ≡ Some result }
{
    items[index]
}

// Lets fields or parameters come next, with commas between them.
fn push_fields<'a>(
    rest: &mut Rest<'a>,
    types: &Types,
    fields: &'a IndexMap<String, ValueType>,
) -> Result<(), AllocError>
    requires before { AreStanding types.now rest.old.pending.items }
    requires fields { AllStand types.now (flat_map value_keys (types_of fields.now.entries)) }
    ensures { OnOk result (AreStanding types.now rest.new.pending.items) }
{
    for i in 0..fields.len() {
        let at = fields.len() - 1 - i;
        let (name, ty) = field_at(fields, at);
        rest.push_value(types, ty)?;
        rest.push_key(name)?;
        rest.push_text(comma_before(at))?;
    }
    Ok(())
}

// The name and the type at an index.
fn field_at(fields: &IndexMap<String, ValueType>, index: usize) -> (&str, ValueType)
    requires { index < length fields.now.entries }
    ensures { slice_get (types_of fields.now.entries) index ≡ Some result.1 }
{
    let (name, ty) = fields.get_index(index).unwrap();
    (name.as_str(), *ty)
}

// Lets the cases of a variant come next, with commas between them.
fn push_cases<'a>(
    rest: &mut Rest<'a>,
    types: &Types,
    cases: &'a IndexMap<String, Option<ValueType>>,
) -> Result<(), AllocError>
    requires before { AreStanding types.now rest.old.pending.items }
    requires cases { AllStand types.now (flat_map value_keys (case_types cases.now.entries)) }
    ensures { OnOk result (AreStanding types.now rest.new.pending.items) }
{
    for i in 0..cases.len() {
        let at = cases.len() - 1 - i;
        let (name, ty) = case_at(cases, at);
        push_case(rest, types, name, ty)?;
        rest.push_text(comma_before(at))?;
    }
    Ok(())
}

// The name and the type at an index.
fn case_at(cases: &IndexMap<String, Option<ValueType>>, index: usize) -> (&str, Option<ValueType>)
    requires { index < length cases.now.entries }
    ensures { slice_get (types_of cases.now.entries) index ≡ Some result.1 }
{
    let (name, ty) = cases.get_index(index).unwrap();
    (name.as_str(), *ty)
}

// Lets a case come next.
fn push_case<'a>(
    rest: &mut Rest<'a>,
    types: &Types,
    name: &'a str,
    ty: Option<ValueType>,
) -> Result<(), AllocError>
    requires before { AreStanding types.now rest.old.pending.items }
    requires ty { AllStand types.now (flat_map value_keys (option_to_list ty)) }
    ensures { OnOk result (AreStanding types.now rest.new.pending.items) }
{
    match ty {
        Some(ty) => {
            rest.push_value(types, ty)?;
            rest.push_key(name)
        }
        None => rest.push_name(name),
    }
}

// Puts names with commas between them, and a closing brace, last.
fn push_names(text: &mut String, names: &IndexSet<String>) -> Result<(), AllocError> {
    let mut is_first = true;
    for name in names {
        if !is_first {
            text.push_str(",")?;
        }
        push_name(text, name)?;
        is_first = false;
    }
    text.push_str("}")
}

// Begins the text of a function.
pub(crate) fn begin_func<'a>(
    text: &mut String,
    rest: &mut Rest<'a>,
    types: &Types,
    func: &'a FuncType,
) -> Result<(), AllocError>
    requires before { AreStanding types.now rest.old.pending.items }
    requires func { AllStand types.now (func_keys (func_content func.now)) }
    ensures { OnOk result (AreStanding types.now rest.new.pending.items) }
{
    text.push_str(if func.is_async { "async(" } else { "func(" })?;
    push_result(rest, types, func.result)?;
    rest.push_text(")")?;
    push_fields(rest, types, &func.params)
}

// Lets the result of a function come next, if it has one.
fn push_result(rest: &mut Rest<'_>, types: &Types, ty: Option<ValueType>) -> Result<(), AllocError>
    requires before { AreStanding types.now rest.old.pending.items }
    requires ty { AllStand types.now (flat_map value_keys (option_to_list ty)) }
    ensures { OnOk result (AreStanding types.now rest.new.pending.items) }
{
    match ty {
        Some(ty) => {
            rest.push_value(types, ty)?;
            rest.push_text("->")
        }
        None => Ok(()),
    }
}
