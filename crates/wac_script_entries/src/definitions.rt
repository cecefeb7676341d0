//! The contents of defined types, as words describe them.

ghost use Rattle.std.specs.Prelude.{IfOk, OnOk};
ghost use Rattle.std.specs.List.{flat_map};
ghost use Rattle.wac_component.specs.Content.{named, defined_content};
ghost use Rattle.wac_component.specs.Key.{AllStand, value_keys, optional_keys, named_keys, defined_keys};

use super::contents::named_values;
use super::names::{find_optional_value, find_value};
use indexmap::{IndexMap, IndexSet};
use std::alloc::Global;
use wac_component::{DefinedType, Enum, Flags, Record, Types, ValueType, Variant};
use wac_script_syntax::{
    ScriptError, Value, read_name, read_optional_value, read_small_number, read_value, split_named,
    unexpected,
};

// The names of flags or of the cases of an enum.
fn name_set<'a>(alloc: Global, words: &[&'a str]) -> Result<IndexSet<String>, ScriptError<'a>> {
    let mut names = IndexSet::new(alloc);
    for &word in words {
        let name = read_name(alloc, word)?;
        let is_new = names.insert(name)?;
        if !is_new {
            return Err(ScriptError::Repeated(word));
        }
    }
    Ok(names)
}

// The value types of a tuple.
fn value_types<'a>(
    alloc: Global,
    types: &Types,
    words: &[&'a str],
) -> Result<Vec<ValueType>, ScriptError<'a>>
    ensures { IfOk result (λ found. AllStand types.now (flat_map value_keys found.items)) }
{
    let mut found = Vec::new(alloc);
    for &word in words {
        let ty = find_value(types, read_value(word)?)?;
        found.push(ty)?;
    }
    Ok(found)
}

// The cases of a variant, which words `NAME=VALUE` and `NAME=-` name.
fn cases_of<'a>(
    alloc: Global,
    types: &Types,
    words: &[&'a str],
) -> Result<IndexMap<String, Option<ValueType>>, ScriptError<'a>>
    ensures { IfOk result (λ cases. AllStand types.now (named_keys (optional_keys value_keys) (named (λ t. t) cases.entries))) }
{
    let mut cases = IndexMap::new(alloc);
    for &word in words {
        add_case(alloc, types, &mut cases, word)?;
    }
    Ok(cases)
}

// One more of these, under a name that wasn't there.
fn add_case<'a>(
    alloc: Global,
    types: &Types,
    cases: &mut IndexMap<String, Option<ValueType>>,
    word: &'a str,
) -> Result<(), ScriptError<'a>>
    requires { AllStand types.now (named_keys (optional_keys value_keys) (named (λ t. t) cases.old.entries)) }
    ensures { OnOk result (AllStand types.now (named_keys (optional_keys value_keys) (named (λ t. t) cases.new.entries))) }
{
    let (name, value) = split_named("`NAME=VALUE` or `NAME=-`", word)?;
    let ty = find_optional_value(types, read_optional_value(value)?)?;
    let key = read_name(alloc, name)?;
    match cases.insert(key, ty)? {
        None => Ok(()),
        Some(_) => Err(ScriptError::Repeated(name)),
    }
}

// The word that stands alone after a kind, in this form.
fn only_word<'a>(form: &'static str, words: &[&'a str]) -> Result<&'a str, ScriptError<'a>> {
    match *words {
        [word] => Ok(word),
        _ => Err(ScriptError::Misused(form)),
    }
}

// The value type that it names.
fn only_value<'a>(form: &'static str, words: &[&'a str]) -> Result<Value, ScriptError<'a>> {
    read_value(only_word(form, words)?)
}

// The value type that it names, or none for `-`.
fn only_optional_value<'a>(
    form: &'static str,
    words: &[&'a str],
) -> Result<Option<Value>, ScriptError<'a>> {
    read_optional_value(only_word(form, words)?)
}

// A list of a fixed size.
fn fixed_of<'a>(types: &Types, words: &[&'a str]) -> Result<DefinedType, ScriptError<'a>>
    ensures { IfOk result (λ ty. AllStand types.now (defined_keys (defined_content ty))) }
{
    let [item, size] = *words else {
        return Err(ScriptError::Misused("def fixed VALUE SIZE"));
    };
    let item = find_value(types, read_value(item)?)?;
    Ok(DefinedType::FixedSizeList(item, read_small_number(size)?))
}

// A map from a key to a value.
fn map_of<'a>(types: &Types, words: &[&'a str]) -> Result<DefinedType, ScriptError<'a>>
    ensures { IfOk result (λ ty. AllStand types.now (defined_keys (defined_content ty))) }
{
    let [key, value] = *words else {
        return Err(ScriptError::Misused("def map VALUE VALUE"));
    };
    let key = find_value(types, read_value(key)?)?;
    let value = find_value(types, read_value(value)?)?;
    Ok(DefinedType::Map(key, value))
}

fn result_of<'a>(types: &Types, words: &[&'a str]) -> Result<DefinedType, ScriptError<'a>>
    ensures { IfOk result (λ ty. AllStand types.now (defined_keys (defined_content ty))) }
{
    let [ok, err] = *words else {
        return Err(ScriptError::Misused("def result VALUE|- VALUE|-"));
    };
    let ok = find_optional_value(types, read_optional_value(ok)?)?;
    let err = find_optional_value(types, read_optional_value(err)?)?;
    Ok(DefinedType::Result { ok, err })
}

// A record of these fields.
fn record_of<'a>(
    alloc: Global,
    types: &Types,
    words: &[&'a str],
) -> Result<DefinedType, ScriptError<'a>>
    ensures { IfOk result (λ ty. AllStand types.now (defined_keys (defined_content ty))) }
{
    let fields = named_values(alloc, types, words)?;
    Ok(DefinedType::Record(Record { fields }))
}

/// A defined type, by its kind and the words after it.
pub(crate) fn definition_of<'a>(
    alloc: Global,
    types: &Types,
    words: &[&'a str],
) -> Result<DefinedType, ScriptError<'a>>
    ensures { IfOk result (λ ty. AllStand types.now (defined_keys (defined_content ty))) }
{
    let Some((&kind, words)) = words.split_first() else {
        return Err(ScriptError::Misused("def KIND .."));
    };
    match kind {
        "tuple" => Ok(DefinedType::Tuple(value_types(alloc, types, words)?)),
        "list" => {
            let value = only_value("def list VALUE", words)?;
            Ok(DefinedType::List(find_value(types, value)?))
        }
        "option" => {
            let value = only_value("def option VALUE", words)?;
            Ok(DefinedType::Option(find_value(types, value)?))
        }
        "alias" => {
            let value = only_value("def alias VALUE", words)?;
            Ok(DefinedType::Alias(find_value(types, value)?))
        }
        "fixed" => fixed_of(types, words),
        "map" => map_of(types, words),
        "result" => result_of(types, words),
        "stream" => {
            let value = only_optional_value("def stream VALUE|-", words)?;
            Ok(DefinedType::Stream(find_optional_value(types, value)?))
        }
        "future" => {
            let value = only_optional_value("def future VALUE|-", words)?;
            Ok(DefinedType::Future(find_optional_value(types, value)?))
        }
        "variant" => Ok(DefinedType::Variant(Variant {
            cases: cases_of(alloc, types, words)?,
        })),
        "record" => record_of(alloc, types, words),
        "flags" => Ok(DefinedType::Flags(Flags(name_set(alloc, words)?))),
        "enum" => Ok(DefinedType::Enum(Enum(name_set(alloc, words)?))),
        _ => Err(unexpected("a kind of defined type", kind)),
    }
}
