//! Looks entries up that may not stand in a collection.

use wac_component::{
    DefinedType, DefinedTypeId, FuncType, FuncTypeId, Interface, InterfaceId, ItemKind, Resource,
    ResourceId, Type, Types, ValueType, World, WorldId,
};

/// A defined type, where it stands in the collection.
pub fn defined_type(types: &Types, id: DefinedTypeId) -> Option<&DefinedType> {
    if types.contains(Type::Value(ValueType::Defined(id))) {
        return Some(&types[id]);
    }
    None
}

/// A resource, where it stands in the collection.
pub fn resource(types: &Types, id: ResourceId) -> Option<&Resource> {
    if types.contains(Type::Resource(id)) {
        return Some(&types[id]);
    }
    None
}

/// A function type, where it stands in the collection.
pub fn func_type(types: &Types, id: FuncTypeId) -> Option<&FuncType> {
    if types.contains(Type::Func(id)) {
        return Some(&types[id]);
    }
    None
}

/// An interface, where it stands in the collection.
pub fn interface(types: &Types, id: InterfaceId) -> Option<&Interface> {
    if types.contains(Type::Interface(id)) {
        return Some(&types[id]);
    }
    None
}

/// A world, where it stands in the collection.
pub fn world(types: &Types, id: WorldId) -> Option<&World> {
    if types.contains(Type::World(id)) {
        return Some(&types[id]);
    }
    None
}

/// The identifier of an interface, where it has one.
pub fn interface_id(types: &Types, id: InterfaceId) -> Option<&str> {
    match &interface(types, id)?.id {
        Some(id) => Some(id.as_str()),
        None => None,
    }
}

/// What a message calls an item.
pub fn sort_of(item: ItemKind) -> &'static str {
    match item {
        ItemKind::Type(Type::Resource(_)) => "resource",
        ItemKind::Type(_) => "type",
        ItemKind::Func(_) => "function",
        ItemKind::Instance(_) => "interface",
        ItemKind::Component(_) => "component",
        ItemKind::Module(_) => "core module",
        ItemKind::Value(_) => "value",
    }
}

/// The resource at the end of a resource's aliases.
pub fn root_of(types: &Types, id: ResourceId) -> ResourceId {
    if types.contains(Type::Resource(id)) {
        return types.resolve_resource(id);
    }
    id
}
