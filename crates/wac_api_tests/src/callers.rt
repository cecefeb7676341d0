//! The callers that CALLING.md of `wac_types` quotes.

use std::alloc::{AllocError, Global};
use std::test::Fail;
use wac_callers::building::{
    EditError, add_client, add_getter, add_memory, add_service, change_client, change_getter,
    change_memory, change_service,
};
use wac_callers::naming::{Bounded, find, offer};
use wac_callers::registering::{definition, first_version};
use wac_callers::visiting::before_stream;
use wac_types::{
    DefinedType, Interface, ItemKind, ModuleError, NameError, NameMap, PrimitiveType, Type, Types,
    ValueType, World,
};

// Whether an edit was done, unless an allocation failed.
fn is_done(answer: Result<(), EditError>) -> Result<bool, AllocError> {
    match answer {
        Ok(()) => Ok(true),
        Err(EditError::Memory) => Err(AllocError),
        Err(_) => Ok(false),
    }
}

// Whether a function is replaced.
fn replaces_a_function(alloc: Global, types: &mut Types) -> Result<bool, AllocError> {
    let byte = ValueType::Primitive(PrimitiveType::U8);
    let text = ValueType::Primitive(PrimitiveType::String);
    let get = add_getter(alloc, types, byte)?;
    if !is_done(change_getter(alloc, types, get, text))? || !types.contains(Type::Func(get)) {
        return Ok(false);
    }
    Ok(types[get].result == Some(text))
}

// Whether an interface is replaced.
fn replaces_an_interface(alloc: Global, types: &mut Types) -> Result<bool, AllocError> {
    let get = add_getter(alloc, types, ValueType::Primitive(PrimitiveType::U8))?;
    let service = add_service(alloc, types, "get", get)?;
    if !types.contains(Type::Func(get)) {
        return Ok(false);
    }
    if !is_done(change_service(alloc, types, service, "text", get))? {
        return Ok(false);
    }
    if !types.contains(Type::Interface(service)) {
        return Ok(false);
    }
    Ok(types[service].exports.contains_key("text"))
}

// Whether a world is replaced.
fn replaces_a_world(alloc: Global, types: &mut Types) -> Result<bool, AllocError> {
    let service = types.add_interface(Interface::new(alloc))?;
    let client = add_client(alloc, types, "acme:lamp/light", service)?;
    if !types.contains(Type::Interface(service)) {
        return Ok(false);
    }
    if !is_done(change_client(alloc, types, client, "light", service))? {
        return Ok(false);
    }
    if !types.contains(Type::World(client)) {
        return Ok(false);
    }
    Ok(types[client].imports.contains_key("light"))
}

#[test]
fn entries_are_added_and_replaced(rt: HostRuntime) -> Result<(), Fail> {
    let mut types = Types::new(rt.alloc(), 1);
    assert!(&rt; replaces_a_function(rt.alloc(), &mut types)?);
    assert!(&rt; replaces_an_interface(rt.alloc(), &mut types)?);
    assert!(&rt; replaces_a_world(rt.alloc(), &mut types)?);
    Ok(())
}

// Whether no memory is added that starts above its maximum.
fn keeps_limits(alloc: Global, types: &mut Types) -> Result<bool, AllocError> {
    match add_memory(alloc, types, "memory", 2, 1) {
        Ok(_) => Ok(false),
        Err(ModuleError::Limits) => Ok(true),
        Err(ModuleError::Memory) => Err(AllocError),
    }
}

// Whether a memory is replaced by one that may grow further, and by none that starts above its
// maximum.
fn replaces_a_memory(alloc: Global, types: &mut Types) -> Result<bool, AllocError> {
    let Ok(memory) = add_memory(alloc, types, "memory", 1, 2) else {
        return Err(AllocError);
    };
    if is_done(change_memory(alloc, types, memory, "memory", 3, 2))? {
        return Ok(false);
    }
    if !types.contains(Type::Module(memory)) {
        return Ok(false);
    }
    if !is_done(change_memory(alloc, types, memory, "more", 1, 4))? {
        return Ok(false);
    }
    if !types.contains(Type::Module(memory)) {
        return Ok(false);
    }
    Ok(types[memory].exports.contains_key("more"))
}

#[test]
fn a_memory_starts_within_its_maximum(rt: HostRuntime) -> Result<(), Fail> {
    let mut types = Types::new(rt.alloc(), 1);
    assert!(&rt; keeps_limits(rt.alloc(), &mut types)?);
    assert!(&rt; replaces_a_memory(rt.alloc(), &mut types)?);
    Ok(())
}

#[test]
fn offers_are_found_by_track(rt: HostRuntime) -> Result<(), Fail> {
    let mut offers = NameMap::new(rt.alloc());
    let mut names = Bounded::new(4);
    offer(&mut offers, &mut names, "acme:lamp/light@1.0.0", 10)?;
    offer(&mut offers, &mut names, "acme:lamp/light@1.2.0", 12)?;
    assert_eq!(&rt; find(&offers, &names, "acme:lamp/light@1.1.0")?, Some(12));
    let refused = offer(&mut offers, &mut names, "acme:lamp/more", 1);
    assert!(&rt; matches!(refused, Err(NameError::Memory)));
    Ok(())
}

#[test]
fn a_visitor_ends_a_visit(rt: HostRuntime) -> Result<(), Fail> {
    let mut types = Types::new(rt.alloc(), 1);
    let stream = types.add_defined_type(DefinedType::Stream(None))?;
    let list = types.add_defined_type(DefinedType::List(ValueType::Defined(stream)))?;
    let ty = Type::Value(ValueType::Defined(list));
    assert_eq!(&rt; before_stream(&types, ty), Some(1));
    Ok(())
}

// A world that exports one item.
fn exporting(alloc: Global, name: &str, item: ItemKind) -> Result<World, AllocError> {
    let mut world = World::new(alloc);
    world.exports.insert(String::from_str(alloc, name)?, item)?;
    Ok(world)
}

// What a package defines under `light`, which exports an empty interface there.
fn light(alloc: Global, types: &mut Types) -> Result<Option<ItemKind>, AllocError> {
    let service = types.add_interface(Interface::new(alloc))?;
    let light = exporting(alloc, "acme:lamp/light@1.0.0", ItemKind::Instance(service))?;
    if !types.can_add_world(&light) {
        return Ok(None);
    }
    let light = types.add_world(light)?;
    let lamp = exporting(alloc, "light", ItemKind::Type(Type::World(light)))?;
    if !types.can_add_world(&lamp) {
        return Ok(None);
    }
    let lamp = types.add_world(lamp)?;
    let package = first_version(alloc, types, "acme:lamp", lamp)?;
    Ok(definition(&package, "light"))
}

#[test]
fn a_package_defines_an_interface(rt: HostRuntime) -> Result<(), Fail> {
    let mut types = Types::new(rt.alloc(), 1);
    let defined = light(rt.alloc(), &mut types)?;
    assert!(&rt; matches!(defined, Some(ItemKind::Type(Type::Interface(_)))));
    Ok(())
}
