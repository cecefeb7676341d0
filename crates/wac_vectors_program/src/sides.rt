//! What the built-in rows ask about.

ghost use Rattle.std.specs.Prelude.{◌≡◌, [], IfOk};
ghost use Rattle.wac_component.specs.Content.{defined_content, func_content, named};
ghost use Rattle.wac_component.specs.Key.{Stands, AllStand, func_key, module_key, item_keys, defined_keys, func_keys, named_keys};

use indexmap::IndexMap;
use std::alloc::{AllocError, Global};
use std::io;
use wac_component::{
    DefinedType, FuncType, FuncTypeId, Interface, ItemKind, ModuleError, ModuleTypeId, Resource,
    Type, Types, ValueType, World,
};
use wac_core::{CoreExtern, ModuleType};
use wac_model::PrimitiveType;

// What stands on one side of a row.
#[derive(Clone, Copy)]
pub(crate) enum RowSide {
    // A value of a primitive type.
    Value(PrimitiveType),
    // A value of a list.
    List(PrimitiveType),
    // A value of a map, with these as its key and its value.
    Map(PrimitiveType, PrimitiveType),
    // A value of a stream, with a payload or none.
    Stream(Option<PrimitiveType>),
    // A function, with the name of a parameter of type `u8` if it has one.
    Func(Option<&'static str>),
    // A function without parameters that gives this.
    FuncGiving(PrimitiveType),
    // The type of a resource of this name.
    Resource(&'static str),
    // A primitive type.
    Type(PrimitiveType),
    // Another name of a primitive type.
    Alias(PrimitiveType),
    // An instance that exports functions under these names.
    Instance(&'static [&'static str]),
    // A component that imports functions under these names.
    Component(&'static [&'static str]),
    // A core module that exports a memory `m`, whose initial and greatest size are these.
    Module(u64, Option<u64>),
}

// Adds what a side needs to a collection, and gives its item: an error of the kind `InvalidInput`
// for a module whose memory starts above its maximum.
pub(crate) fn add_side(alloc: Global, types: &mut Types, side: RowSide) -> io::Result<ItemKind>
    ensures stands { IfOk result (λ item. AllStand types.new (item_keys item)) }
    ensures number { types.new.number ≡ types.old.number }
{
    match side {
        RowSide::Value(ty) => Ok(ItemKind::Value(ValueType::Primitive(ty))),
        RowSide::List(ty) => add_value(types, DefinedType::List(ValueType::Primitive(ty))),
        RowSide::Map(key, value) => {
            let key = ValueType::Primitive(key);
            add_value(types, DefinedType::Map(key, ValueType::Primitive(value)))
        }
        RowSide::Stream(None) => add_value(types, DefinedType::Stream(None)),
        RowSide::Stream(Some(ty)) => {
            add_value(types, DefinedType::Stream(Some(ValueType::Primitive(ty))))
        }
        RowSide::Func(None) => add_func(types, FuncType::new(alloc)),
        RowSide::Func(Some(name)) => add_func(types, func_taking(alloc, name)?),
        RowSide::FuncGiving(ty) => add_func(types, func_giving(alloc, ty)),
        RowSide::Resource(name) => {
            let name = String::from_str(alloc, name)?;
            let id = types.add_resource(Resource { name, alias: None })?;
            Ok(ItemKind::Type(Type::Resource(id)))
        }
        RowSide::Type(ty) => Ok(ItemKind::Type(Type::Value(ValueType::Primitive(ty)))),
        RowSide::Alias(ty) => {
            let id = types.add_defined_type(DefinedType::Alias(ValueType::Primitive(ty)))?;
            Ok(ItemKind::Type(Type::Value(ValueType::Defined(id))))
        }
        RowSide::Instance(names) => add_instance(alloc, types, names),
        RowSide::Component(names) => add_component(alloc, types, names),
        RowSide::Module(initial, maximum) => {
            let id = add_module(types, exporting_memory(alloc, initial, maximum)?)?;
            Ok(ItemKind::Module(id))
        }
    }
}

fn add_value(types: &mut Types, ty: DefinedType) -> io::Result<ItemKind>
    requires { defined_keys (defined_content ty) ≡ [] }
    ensures stands { IfOk result (λ item. AllStand types.new (item_keys item)) }
    ensures number { types.new.number ≡ types.old.number }
{
    let id = types.add_defined_type(ty)?;
    Ok(ItemKind::Value(ValueType::Defined(id)))
}

fn add_func(types: &mut Types, ty: FuncType) -> io::Result<ItemKind>
    requires { func_keys (func_content ty) ≡ [] }
    ensures stands { IfOk result (λ item. AllStand types.new (item_keys item)) }
    ensures number { types.new.number ≡ types.old.number }
{
    let id = types.add_func_type(ty)?;
    Ok(ItemKind::Func(id))
}

fn add_module(types: &mut Types, ty: ModuleType) -> io::Result<ModuleTypeId>
    ensures stands { IfOk result (λ id. Stands types.new (module_key id)) }
    ensures number { types.new.number ≡ types.old.number }
{
    match types.add_module_type(ty) {
        Ok(id) => Ok(id),
        Err(ModuleError::Limits) => Err(io::Error::from(io::ErrorKind::InvalidInput)),
        Err(ModuleError::Memory) => Err(io::Error::from(AllocError)),
    }
}

// A function with one parameter of type `u8`.
fn func_taking(alloc: Global, name: &str) -> Result<FuncType, AllocError>
    ensures { IfOk result (λ f. func_keys (func_content f) ≡ []) }
{
    let mut params = IndexMap::new(alloc);
    let name = String::from_str(alloc, name)?;
    params.insert(name, ValueType::Primitive(PrimitiveType::U8))?;
    Ok(FuncType {
        params,
        result: None,
        is_async: false,
    })
}

// A function without parameters that gives this.
fn func_giving(alloc: Global, ty: PrimitiveType) -> FuncType
    ensures { func_keys (func_content result) ≡ [] }
{
    FuncType {
        params: IndexMap::new(alloc),
        result: Some(ValueType::Primitive(ty)),
        is_async: false,
    }
}

// An instance that exports functions under these names.
fn add_instance(alloc: Global, types: &mut Types, names: &[&str]) -> io::Result<ItemKind>
    ensures stands { IfOk result (λ item. AllStand types.new (item_keys item)) }
    ensures number { types.new.number ≡ types.old.number }
{
    let func = types.add_func_type(FuncType::new(alloc))?;
    let id = types.add_interface(Interface {
        id: None,
        uses: IndexMap::new(alloc),
        exports: under_names(alloc, types, names, func)?,
    })?;
    Ok(ItemKind::Instance(id))
}

// A component that imports functions under these names.
fn add_component(alloc: Global, types: &mut Types, names: &[&str]) -> io::Result<ItemKind>
    ensures stands { IfOk result (λ item. AllStand types.new (item_keys item)) }
    ensures number { types.new.number ≡ types.old.number }
{
    let func = types.add_func_type(FuncType::new(alloc))?;
    let id = types.add_world(World {
        id: None,
        uses: IndexMap::new(alloc),
        imports: under_names(alloc, types, names, func)?,
        exports: IndexMap::new(alloc),
    })?;
    Ok(ItemKind::Component(id))
}

// The function under each of the names.
fn under_names(
    alloc: Global,
    types: &Types,
    names: &[&str],
    func: FuncTypeId,
) -> Result<IndexMap<String, ItemKind>, AllocError>
    requires { Stands types.now (func_key func) }
    ensures { IfOk result (λ externs. AllStand types.now (named_keys item_keys (named (λ k. k) externs.entries))) }
{
    let mut externs = IndexMap::new(alloc);
    for name in names {
        externs.insert(String::from_str(alloc, name)?, ItemKind::Func(func))?;
    }
    Ok(externs)
}

// A core module that exports a 32-bit memory `m`, which isn't shared.
fn exporting_memory(
    alloc: Global,
    initial: u64,
    maximum: Option<u64>,
) -> Result<ModuleType, AllocError> {
    let mut ty = ModuleType::new(alloc);
    let memory = CoreExtern::Memory {
        memory64: false,
        shared: false,
        initial,
        maximum,
        page_size_log2: None,
    };
    ty.exports.insert(String::from_str(alloc, "m")?, memory)?;
    Ok(ty)
}
