//! The lines of a script that build the entries of a collection.

ghost use Rattle.wac_component.specs.Key.{AllStand, value_keys, type_keys};

use super::words::{push_item, push_value};
use indexmap::{IndexMap, IndexSet};
use std::alloc::AllocError;
use wac_component::{
    DefinedType, FuncType, Interface, ItemKind, Resource, Type, Types, UsedType, ValueType, World,
};
use wac_core::ModuleType;
use wac_item_text::push_extern;
use wac_script_syntax::push_name;

/// Puts the line that builds an entry last, with its names in their order; of a value
/// type that is no entry, its word.
pub fn push_entry(line: &mut String, types: &Types, entry: Type) -> Result<(), AllocError>
    requires { AllStand types.now (type_keys entry) }
{
    match entry {
        Type::Value(ty) => push_value_type(line, types, ty),
        Type::Resource(id) => push_resource(line, &types[id]),
        Type::Func(id) => push_func(line, &types[id]),
        Type::Interface(id) => push_interface(line, &types[id]),
        Type::World(id) => push_world(line, &types[id]),
        Type::Module(id) => push_module(line, &types[id]),
    }
}

fn push_value_type(line: &mut String, types: &Types, ty: ValueType) -> Result<(), AllocError>
    requires { AllStand types.now (value_keys ty) }
{
    let ValueType::Defined(id) = ty else {
        return push_value(line, ty);
    };
    push_definition(line, &types[id])
}

// Puts a text last, and then a value type, or `-` where there is none.
fn push_optional(line: &mut String, text: &str, ty: Option<ValueType>) -> Result<(), AllocError> {
    line.push_str(text)?;
    match ty {
        Some(ty) => push_value(line, ty),
        None => line.push_str("-"),
    }
}

// Puts a text last, and then a name and `=`.
fn push_key(line: &mut String, text: &str, name: &str) -> Result<(), AllocError> {
    line.push_str(text)?;
    push_name(line, name)?;
    line.push_str("=")
}

fn push_definition(line: &mut String, ty: &DefinedType) -> Result<(), AllocError> {
    match ty {
        DefinedType::Tuple(items) => push_tuple(line, items),
        DefinedType::List(ty) => push_optional(line, "def list ", Some(*ty)),
        DefinedType::FixedSizeList(ty, size) => {
            push_optional(line, "def fixed ", Some(*ty))?;
            write!(line, " {size}")
        }
        DefinedType::Map(key, value) => {
            push_optional(line, "def map ", Some(*key))?;
            push_optional(line, " ", Some(*value))
        }
        DefinedType::Option(ty) => push_optional(line, "def option ", Some(*ty)),
        DefinedType::Result { ok, err } => {
            push_optional(line, "def result ", *ok)?;
            push_optional(line, " ", *err)
        }
        DefinedType::Variant(variant) => push_cases(line, &variant.cases),
        DefinedType::Record(record) => {
            line.push_str("def record")?;
            push_fields(line, &record.fields)
        }
        DefinedType::Flags(flags) => push_names(line, "def flags", &flags.0),
        DefinedType::Enum(cases) => push_names(line, "def enum", &cases.0),
        DefinedType::Alias(ty) => push_optional(line, "def alias ", Some(*ty)),
        DefinedType::Stream(ty) => push_optional(line, "def stream ", *ty),
        DefinedType::Future(ty) => push_optional(line, "def future ", *ty),
    }
}

fn push_tuple(line: &mut String, items: &[ValueType]) -> Result<(), AllocError> {
    line.push_str("def tuple")?;
    for ty in items {
        push_optional(line, " ", Some(*ty))?;
    }
    Ok(())
}

fn push_cases(
    line: &mut String,
    cases: &IndexMap<String, Option<ValueType>>,
) -> Result<(), AllocError> {
    line.push_str("def variant")?;
    for (name, ty) in cases {
        push_key(line, " ", name)?;
        push_optional(line, "", *ty)?;
    }
    Ok(())
}

// Puts fields or parameters last.
fn push_fields(line: &mut String, fields: &IndexMap<String, ValueType>) -> Result<(), AllocError> {
    for (name, ty) in fields {
        push_key(line, " ", name)?;
        push_value(line, *ty)?;
    }
    Ok(())
}

// Puts a text last, and then names.
fn push_names(line: &mut String, text: &str, names: &IndexSet<String>) -> Result<(), AllocError> {
    line.push_str(text)?;
    for name in names {
        line.push_str(" ")?;
        push_name(line, name)?;
    }
    Ok(())
}

fn push_resource(line: &mut String, resource: &Resource) -> Result<(), AllocError> {
    line.push_str("res ")?;
    push_name(line, &resource.name)?;
    let Some(alias) = resource.alias else {
        return Ok(());
    };
    let source = alias.source;
    match alias.owner {
        Some(owner) => write!(line, " r{source} i{owner}"),
        None => write!(line, " r{source} -"),
    }
}

fn push_func(line: &mut String, func: &FuncType) -> Result<(), AllocError> {
    let begin = if func.is_async {
        "func async "
    } else {
        "func sync "
    };
    push_optional(line, begin, func.result)?;
    push_fields(line, &func.params)
}

// Puts a text last, and then the identifier of an interface or a world, or `-` where it has none.
fn push_identifier(line: &mut String, text: &str, id: &Option<String>) -> Result<(), AllocError> {
    line.push_str(text)?;
    match id {
        Some(id) => push_name(line, id),
        None => line.push_str("-"),
    }
}

fn push_interface(line: &mut String, interface: &Interface) -> Result<(), AllocError> {
    push_identifier(line, "iface ", &interface.id)?;
    push_uses(line, &interface.uses)?;
    push_items(line, " e:", &interface.exports)
}

fn push_world(line: &mut String, world: &World) -> Result<(), AllocError> {
    push_identifier(line, "world ", &world.id)?;
    push_uses(line, &world.uses)?;
    push_items(line, " m:", &world.imports)?;
    push_items(line, " e:", &world.exports)
}

fn push_uses(line: &mut String, uses: &IndexMap<String, UsedType>) -> Result<(), AllocError> {
    for (name, used) in uses {
        push_key(line, " u:", name)?;
        push_used_type(line, used)?;
    }
    Ok(())
}

fn push_used_type(line: &mut String, used: &UsedType) -> Result<(), AllocError> {
    let interface = used.interface;
    write!(line, "i{interface}")?;
    match &used.name {
        Some(original) => {
            line.push_str("=")?;
            push_name(line, original)
        }
        None => Ok(()),
    }
}

// Puts imports or exports last, each after this text.
fn push_items(
    line: &mut String,
    text: &str,
    items: &IndexMap<String, ItemKind>,
) -> Result<(), AllocError> {
    for (name, item) in items {
        push_key(line, text, name)?;
        push_item(line, *item)?;
    }
    Ok(())
}

fn push_module(line: &mut String, ty: &ModuleType) -> Result<(), AllocError> {
    line.push_str("module")?;
    for (key, of) in &ty.imports {
        let (source, name) = key;
        line.push_str(" m:")?;
        push_name(line, source)?;
        push_key(line, ",", name)?;
        push_extern(line, of)?;
    }
    push_core_exports(line, ty)
}

fn push_core_exports(line: &mut String, ty: &ModuleType) -> Result<(), AllocError> {
    for (name, of) in &ty.exports {
        push_key(line, " e:", name)?;
        push_extern(line, of)?;
    }
    Ok(())
}
