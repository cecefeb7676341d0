//! The contents of entries, as words describe them.

ghost use Rattle.std.specs.Prelude.{IfOk, OnOk};
ghost use Rattle.wac_component.specs.Content.{named, use_content, resource_content, func_content, interface_content, world_content};
ghost use Rattle.wac_component.specs.Key.{AllStand, value_keys, item_keys, use_keys, named_keys, resource_keys, func_keys, interface_keys, world_keys};

use super::names::{
    find_interface, find_item, find_optional_interface, find_optional_value, find_resource,
    find_value,
};
use indexmap::IndexMap;
use std::alloc::Global;
use wac_component::{
    FuncType, Interface, ItemKind, Resource, ResourceAlias, Types, UsedType, ValueType, World,
};
use wac_script_syntax::{
    ScriptError, read_interface, read_item, read_name, read_optional_interface, read_optional_name,
    read_optional_value, read_resource, read_value, split_named, unexpected,
};

/// The value types of parameters or fields, which words `NAME=VALUE` name.
pub(crate) fn named_values<'a>(
    alloc: Global,
    types: &Types,
    words: &[&'a str],
) -> Result<IndexMap<String, ValueType>, ScriptError<'a>>
    ensures { IfOk result (λ found. AllStand types.now (named_keys value_keys (named (λ t. t) found.entries))) }
{
    let mut found = IndexMap::new(alloc);
    for &word in words {
        add_value(alloc, types, &mut found, word)?;
    }
    Ok(found)
}

// One more of these, under a name that wasn't there.
fn add_value<'a>(
    alloc: Global,
    types: &Types,
    found: &mut IndexMap<String, ValueType>,
    word: &'a str,
) -> Result<(), ScriptError<'a>>
    requires { AllStand types.now (named_keys value_keys (named (λ t. t) found.old.entries)) }
    ensures { OnOk result (AllStand types.now (named_keys value_keys (named (λ t. t) found.new.entries))) }
{
    let (name, value) = split_named("`NAME=VALUE`", word)?;
    let ty = find_value(types, read_value(value)?)?;
    let key = read_name(alloc, name)?;
    match found.insert(key, ty)? {
        None => Ok(()),
        Some(_) => Err(ScriptError::Repeated(name)),
    }
}

// The items of the members `NAME=ITEM` of one part, whose letter and
// colon each of them begins with.
fn named_items<'a>(
    alloc: Global,
    types: &Types,
    part: &str,
    members: &[&'a str],
) -> Result<IndexMap<String, ItemKind>, ScriptError<'a>>
    ensures { IfOk result (λ kinds. AllStand types.now (named_keys item_keys (named (λ k. k) kinds.entries))) }
{
    let mut kinds = IndexMap::new(alloc);
    for &member in members {
        if let Some(word) = member.strip_prefix(part) {
            add_item(alloc, types, &mut kinds, word)?;
        }
    }
    Ok(kinds)
}

// One more of these, under a name that wasn't there.
fn add_item<'a>(
    alloc: Global,
    types: &Types,
    kinds: &mut IndexMap<String, ItemKind>,
    word: &'a str,
) -> Result<(), ScriptError<'a>>
    requires { AllStand types.now (named_keys item_keys (named (λ k. k) kinds.old.entries)) }
    ensures { OnOk result (AllStand types.now (named_keys item_keys (named (λ k. k) kinds.new.entries))) }
{
    let (name, item) = split_named("`NAME=ITEM`", word)?;
    let kind = find_item(types, read_item(item)?)?;
    let key = read_name(alloc, name)?;
    match kinds.insert(key, kind)? {
        None => Ok(()),
        Some(_) => Err(ScriptError::Repeated(name)),
    }
}

// Where types are used from: the members `u:NAME=iN` and `u:NAME=iN=NAME`.
fn named_uses<'a>(
    alloc: Global,
    types: &Types,
    members: &[&'a str],
) -> Result<IndexMap<String, UsedType>, ScriptError<'a>>
    ensures { IfOk result (λ found. AllStand types.now (named_keys use_keys (named use_content found.entries))) }
{
    let mut found = IndexMap::new(alloc);
    for &member in members {
        if let Some(word) = member.strip_prefix("u:") {
            add_use(alloc, types, &mut found, word)?;
        }
    }
    Ok(found)
}

// One more of these, under a name that wasn't there.
fn add_use<'a>(
    alloc: Global,
    types: &Types,
    found: &mut IndexMap<String, UsedType>,
    word: &'a str,
) -> Result<(), ScriptError<'a>>
    requires { AllStand types.now (named_keys use_keys (named use_content found.old.entries)) }
    ensures { OnOk result (AllStand types.now (named_keys use_keys (named use_content found.new.entries))) }
{
    let (name, of) = split_named("`NAME=iN[=NAME]`", word)?;
    let used = used_type(alloc, types, of)?;
    let key = read_name(alloc, name)?;
    match found.insert(key, used)? {
        None => Ok(()),
        Some(_) => Err(ScriptError::Repeated(name)),
    }
}

// Where a type is used from: `iN`, or `iN=NAME` where it has another name there.
fn used_type<'a>(alloc: Global, types: &Types, word: &'a str) -> Result<UsedType, ScriptError<'a>>
    ensures { IfOk result (λ used. AllStand types.now (use_keys (use_content used))) }
{
    let Some((interface, original)) = word.split_once('=') else {
        return Ok(UsedType {
            interface: find_interface(types, read_interface(word)?)?,
            name: None,
        });
    };
    let interface = find_interface(types, read_interface(interface)?)?;
    Ok(UsedType {
        interface,
        name: Some(read_name(alloc, original)?),
    })
}

/// A resource: `NAME`, or `NAME rSOURCE iOWNER|-` for an alias.
pub(crate) fn resource_of<'a>(
    alloc: Global,
    types: &Types,
    words: &[&'a str],
) -> Result<Resource, ScriptError<'a>>
    ensures { IfOk result (λ r. AllStand types.now (resource_keys (resource_content r))) }
{
    match *words {
        [name] => Ok(Resource {
            name: read_name(alloc, name)?,
            alias: None,
        }),
        [name, source, owner] => {
            let source = find_resource(types, read_resource(source)?)?;
            let owner = find_optional_interface(types, read_optional_interface(owner)?)?;
            Ok(Resource {
                name: read_name(alloc, name)?,
                alias: Some(ResourceAlias { owner, source }),
            })
        }
        _ => Err(ScriptError::Misused("res NAME [rSOURCE iOWNER|-]")),
    }
}

// Whether a word says that a function is asynchronous.
fn read_is_async(word: &str) -> Result<bool, ScriptError<'_>> {
    match word {
        "sync" => Ok(false),
        "async" => Ok(true),
        _ => Err(unexpected("`sync` or `async`", word)),
    }
}

/// A function type: `sync|async RESULT|- (NAME=VALUE)*`.
pub(crate) fn func_of<'a>(
    alloc: Global,
    types: &Types,
    words: &[&'a str],
) -> Result<FuncType, ScriptError<'a>>
    ensures { IfOk result (λ f. AllStand types.now (func_keys (func_content f))) }
{
    let [kind, value, params @ ..] = words else {
        return Err(ScriptError::Misused("func sync|async RESULT|- (NAME=VALUE)*"));
    };
    let is_async = read_is_async(kind)?;
    let result = find_optional_value(types, read_optional_value(value)?)?;
    let params = named_values(alloc, types, params)?;
    Ok(FuncType {
        params,
        result,
        is_async,
    })
}

/// That each member is one of these parts, whose letters stand before a colon.
pub(crate) fn check_parts<'a>(
    parts: &[&str],
    expected: &'static str,
    members: &[&'a str],
) -> Result<(), ScriptError<'a>> {
    for &member in members {
        match member.split_once(':') {
            Some((part, _)) if (&*parts).contains(&part) => {}
            _ => return Err(unexpected(expected, member)),
        }
    }
    Ok(())
}

/// An interface: `ID|- (u:NAME=iN[=NAME])* (e:NAME=ITEM)*`.
pub(crate) fn interface_of<'a>(
    alloc: Global,
    types: &Types,
    words: &[&'a str],
) -> Result<Interface, ScriptError<'a>>
    ensures { IfOk result (λ i. AllStand types.now (interface_keys (interface_content i))) }
{
    let Some((id, members)) = words.split_first() else {
        return Err(ScriptError::Misused("iface ID|- (u:NAME=iN[=NAME])* (e:NAME=ITEM)*"));
    };
    check_parts(&["u", "e"], "`u:..` or `e:..`", members)?;
    let uses = named_uses(alloc, types, members)?;
    let exports = named_items(alloc, types, "e:", members)?;
    let id = read_optional_name(alloc, id)?;
    Ok(Interface { id, uses, exports })
}

/// A world: `ID|- (u:NAME=iN[=NAME])* (m:NAME=ITEM)* (e:NAME=ITEM)*`.
pub(crate) fn world_of<'a>(
    alloc: Global,
    types: &Types,
    words: &[&'a str],
) -> Result<World, ScriptError<'a>>
    ensures { IfOk result (λ w. AllStand types.now (world_keys (world_content w))) }
{
    let Some((id, members)) = words.split_first() else {
        return Err(ScriptError::Misused(
            "world ID|- (u:NAME=iN[=NAME])* (m:NAME=ITEM)* (e:NAME=ITEM)*",
        ));
    };
    check_parts(&["u", "m", "e"], "`u:..`, `m:..` or `e:..`", members)?;
    let uses = named_uses(alloc, types, members)?;
    let imports = named_items(alloc, types, "m:", members)?;
    let exports = named_items(alloc, types, "e:", members)?;
    let id = read_optional_name(alloc, id)?;
    Ok(World {
        id,
        uses,
        imports,
        exports,
    })
}
