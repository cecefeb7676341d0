//! Interfaces like those of WASI, in two versions.

ghost use Rattle.std.specs.Prelude.{◌≡◌, IfOk};

use super::building::{add_func, add_interface, add_resource};
use super::failure::CompositionFailure;
use std::alloc::Global;
use wac_types::{
    InterfaceId, ItemKind, PrimitiveType, ResourceAlias, ResourceId, Type, Types, ValueType,
};

/// A collection of these interfaces, in which texts are values of this type.
pub(crate) fn packages(
    alloc: Global,
    number: u64,
    text: PrimitiveType,
) -> Result<Types, CompositionFailure>
    ensures { IfOk result (λ types. types.number ≡ number) }
{
    let mut types = Types::new(alloc, number);
    let (owner, request) = add_requests(alloc, &mut types, "wasi:http/types@0.2.0")?;
    add_handler(alloc, &mut types, "wasi:http/handler@0.2.0", owner, request)?;
    let (owner, request) = add_requests(alloc, &mut types, "wasi:http/types@0.2.1")?;
    add_handler(alloc, &mut types, "wasi:http/handler@0.2.1", owner, request)?;
    add_logging(alloc, &mut types, text)?;
    add_store_and_sockets(alloc, &mut types, text)?;
    Ok(types)
}

// The types of requests: a resource, and a method of it.
fn add_requests(
    alloc: Global,
    types: &mut Types,
    id: &str,
) -> Result<(InterfaceId, ResourceId), CompositionFailure>
    ensures { types.new.number ≡ types.old.number }
{
    let request = add_resource(alloc, types, "request", None)?;
    let path = Some(ValueType::Primitive(PrimitiveType::String));
    let path = add_func(alloc, types, ("self", ValueType::Borrow(request)), path)?;
    let exports = [
        ("request", ItemKind::Type(Type::Resource(request))),
        ("[method]request.path", path),
    ];
    let owner = add_interface(alloc, types, id, &[], &exports)?;
    Ok((owner, request))
}

// A handler of requests, which uses their types.
fn add_handler(
    alloc: Global,
    types: &mut Types,
    id: &str,
    owner: InterfaceId,
    source: ResourceId,
) -> Result<(), CompositionFailure>
    ensures { types.new.number ≡ types.old.number }
{
    let alias = ResourceAlias {
        owner: Some(owner),
        source,
    };
    let request = add_resource(alloc, types, "request", Some(alias))?;
    let status = Some(ValueType::Primitive(PrimitiveType::U16));
    let handle = add_func(alloc, types, ("request", ValueType::Own(request)), status)?;
    let exports = [
        ("request", ItemKind::Type(Type::Resource(request))),
        ("handle", handle),
    ];
    add_interface(alloc, types, id, &[("request", owner)], &exports)?;
    Ok(())
}

// Logging; the newer version also warns.
fn add_logging(
    alloc: Global,
    types: &mut Types,
    text: PrimitiveType,
) -> Result<(), CompositionFailure>
    ensures { types.new.number ≡ types.old.number }
{
    let log = add_func(alloc, types, ("message", ValueType::Primitive(text)), None)?;
    let warn = add_func(alloc, types, ("message", ValueType::Primitive(text)), None)?;
    let exports = [("log", log), ("warn", warn)];
    add_interface(
        alloc,
        types,
        "wasi:logging/logging@0.2.0",
        &[],
        &exports[..1],
    )?;
    add_interface(alloc, types, "wasi:logging/logging@0.2.1", &[], &exports)?;
    Ok(())
}

// A store of texts, and sockets.
fn add_store_and_sockets(
    alloc: Global,
    types: &mut Types,
    text: PrimitiveType,
) -> Result<(), CompositionFailure>
    ensures { types.new.number ≡ types.old.number }
{
    let key = ("key", ValueType::Primitive(PrimitiveType::String));
    let value = ValueType::Primitive(text);
    let get = [("get", add_func(alloc, types, key, Some(value))?)];
    add_interface(alloc, types, "wasi:keyvalue/store@0.2.0", &[], &get)?;
    let address = ("address", ValueType::Primitive(PrimitiveType::String));
    let socket = ValueType::Primitive(PrimitiveType::U32);
    let connect = [("connect", add_func(alloc, types, address, Some(socket))?)];
    add_interface(alloc, types, "wasi:sockets/tcp@0.2.0", &[], &connect)?;
    Ok(())
}
