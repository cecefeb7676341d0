//! What words name in a collection: entries by their indices, value types, types and items.

ghost use Rattle.std.specs.Prelude.{◌∷◌, [], IfOk};
ghost use Rattle.wac_component.specs.Key.{Stands, AllStand, defined_key, resource_key, func_key, interface_key, world_key, module_key, value_keys, type_keys, item_keys, optional_keys};

use wac_component::{
    DefinedTypeId, FuncTypeId, InterfaceId, ItemKind, ModuleTypeId, ResourceId, Type, Types,
    ValueType, WorldId,
};
use wac_script_syntax::{EntryName, Item, Sort, TypeWord, Value};

/// The defined type at an index. Its name comes back where there is none.
pub fn find_defined(types: &Types, index: usize) -> Result<DefinedTypeId, EntryName>
    ensures { IfOk result (λ id. Stands types.now (defined_key id)) }
{
    match types.defined_type_at(index) {
        Some(id) => Ok(id),
        None => Err(EntryName {
            sort: Sort::DefinedType,
            index,
        }),
    }
}

/// The resource at an index. Its name comes back where there is none.
pub fn find_resource(types: &Types, index: usize) -> Result<ResourceId, EntryName>
    ensures { IfOk result (λ id. Stands types.now (resource_key id)) }
{
    match types.resource_at(index) {
        Some(id) => Ok(id),
        None => Err(EntryName {
            sort: Sort::Resource,
            index,
        }),
    }
}

/// The function type at an index. Its name comes back where there is none.
pub fn find_func(types: &Types, index: usize) -> Result<FuncTypeId, EntryName>
    ensures { IfOk result (λ id. Stands types.now (func_key id)) }
{
    match types.func_type_at(index) {
        Some(id) => Ok(id),
        None => Err(EntryName {
            sort: Sort::Func,
            index,
        }),
    }
}

/// The interface at an index. Its name comes back where there is none.
pub fn find_interface(types: &Types, index: usize) -> Result<InterfaceId, EntryName>
    ensures { IfOk result (λ id. Stands types.now (interface_key id)) }
{
    match types.interface_at(index) {
        Some(id) => Ok(id),
        None => Err(EntryName {
            sort: Sort::Interface,
            index,
        }),
    }
}

/// The world at an index. Its name comes back where there is none.
pub fn find_world(types: &Types, index: usize) -> Result<WorldId, EntryName>
    ensures { IfOk result (λ id. Stands types.now (world_key id)) }
{
    match types.world_at(index) {
        Some(id) => Ok(id),
        None => Err(EntryName {
            sort: Sort::World,
            index,
        }),
    }
}

/// The core module type at an index. Its name comes back where there is none.
pub fn find_module(types: &Types, index: usize) -> Result<ModuleTypeId, EntryName>
    ensures { IfOk result (λ id. Stands types.now (module_key id)) }
{
    match types.module_type_at(index) {
        Some(id) => Ok(id),
        None => Err(EntryName {
            sort: Sort::Module,
            index,
        }),
    }
}

/// The value type that a word names. The name of its entry comes back where that isn't there.
pub fn find_value(types: &Types, value: Value) -> Result<ValueType, EntryName>
    ensures { IfOk result (λ ty. AllStand types.now (value_keys ty)) }
{
    match value {
        Value::Primitive(primitive) => Ok(ValueType::Primitive(primitive)),
        Value::Own(index) => Ok(ValueType::Own(find_resource(types, index)?)),
        Value::Borrow(index) => Ok(ValueType::Borrow(find_resource(types, index)?)),
        Value::Defined(index) => Ok(ValueType::Defined(find_defined(types, index)?)),
    }
}

/// The value type that a word names, if there is one. The name of its entry
/// comes back where that isn't there.
pub(crate) fn find_optional_value(
    types: &Types,
    value: Option<Value>,
) -> Result<Option<ValueType>, EntryName>
    ensures { IfOk result (λ ty. AllStand types.now (optional_keys value_keys ty)) }
{
    match value {
        Some(value) => Ok(Some(find_value(types, value)?)),
        None => Ok(None),
    }
}

/// The interface at an index, if there is one. Its name comes back where it isn't there.
pub(crate) fn find_optional_interface(
    types: &Types,
    index: Option<usize>,
) -> Result<Option<InterfaceId>, EntryName>
    ensures { IfOk result (λ id. AllStand types.now (optional_keys (λ i. interface_key i ∷ []) id)) }
{
    match index {
        Some(index) => Ok(Some(find_interface(types, index)?)),
        None => Ok(None),
    }
}

/// The entry of this name. The name comes back where it isn't there.
pub fn find_entry(types: &Types, entry: EntryName) -> Result<Type, EntryName>
    ensures { IfOk result (λ found. AllStand types.now (type_keys found)) }
{
    let index = entry.index;
    match entry.sort {
        Sort::DefinedType => Ok(Type::Value(ValueType::Defined(find_defined(types, index)?))),
        Sort::Resource => Ok(Type::Resource(find_resource(types, index)?)),
        Sort::Func => Ok(Type::Func(find_func(types, index)?)),
        Sort::Interface => Ok(Type::Interface(find_interface(types, index)?)),
        Sort::World => Ok(Type::World(find_world(types, index)?)),
        Sort::Module => Ok(Type::Module(find_module(types, index)?)),
    }
}

/// The type that a word names. The name of its entry comes back where that isn't there.
pub fn find_type(types: &Types, ty: TypeWord) -> Result<Type, EntryName>
    ensures { IfOk result (λ found. AllStand types.now (type_keys found)) }
{
    match ty {
        TypeWord::Entry(entry) => find_entry(types, entry),
        TypeWord::Value(value) => Ok(Type::Value(find_value(types, value)?)),
    }
}

/// The item that a word names. The name of its entry comes back where that isn't there.
pub fn find_item(types: &Types, item: Item) -> Result<ItemKind, EntryName>
    ensures { IfOk result (λ found. AllStand types.now (item_keys found)) }
{
    match item {
        Item::Type(ty) => Ok(ItemKind::Type(find_type(types, ty)?)),
        Item::Func(index) => Ok(ItemKind::Func(find_func(types, index)?)),
        Item::Instance(index) => Ok(ItemKind::Instance(find_interface(types, index)?)),
        Item::Component(index) => Ok(ItemKind::Component(find_world(types, index)?)),
        Item::Module(index) => Ok(ItemKind::Module(find_module(types, index)?)),
        Item::Value(value) => Ok(ItemKind::Value(find_value(types, value)?)),
    }
}
