//! The composed component, and worlds that it may be made for.
//!
//! A component and its target world stand in one collection, and the merged imports in another. So
//! the composed component is entered beside the target worlds, with the packages' interfaces of the
//! same names. These are checked to fit where the merged imports are asked for, and what the
//! middleware exports to fit where theirs are. Where they do, the composed component fits whatever
//! target world the entered one does.

use super::checking::push_answer;
use super::component::{Component, add_world, interface_named};
use super::failure::CompositionFailure;
use super::packages::packages;
use std::alloc::Global;
use wac_types::{
    ItemKind, PrimitiveType, TargetError, Type, TypeAggregator, Types, WorldId, validate_target,
};

/// Says in which of two worlds the composed component fits: one has the newer
/// logging, the other the older.
pub(crate) fn push_targets(
    alloc: Global,
    text: &mut String,
    merged: &TypeAggregator,
    middleware: &Component,
) -> Result<(), CompositionFailure> {
    let mut types = packages(alloc, 5, PrimitiveType::String)?;
    let world = add_composed(alloc, text, &mut types, merged, middleware)?;
    push_target(alloc, text, &mut types, world, "wasi:logging/logging@0.2.1")?;
    push_target(alloc, text, &mut types, world, "wasi:logging/logging@0.2.0")
}

// Enters the composed component.
fn add_composed(
    alloc: Global,
    text: &mut String,
    types: &mut Types,
    merged: &TypeAggregator,
    middleware: &Component,
) -> Result<WorldId, CompositionFailure> {
    let mut imports = Vec::new(alloc);
    for (name, wanted) in merged.imports() {
        push_imported(alloc, text, types, name, &wanted, merged)?;
        imports.push(name)?;
    }
    let mut exports = Vec::new(alloc);
    for (name, given) in middleware.exports() {
        push_exported(alloc, text, types, name, given, middleware)?;
        exports.push(name.as_str())?;
    }
    add_world(alloc, types, &imports, &exports)
}

// Says whether the packages' interface of this name fits where a merged import is asked for.
fn push_imported(
    alloc: Global,
    text: &mut String,
    types: &Types,
    name: &str,
    wanted: &ItemKind,
    merged: &TypeAggregator,
) -> Result<(), CompositionFailure> {
    let given = ItemKind::Instance(interface_named(types, name)?);
    write!(
        text,
        "  composed component imports {name}, as the package has it: "
    )?;
    push_answer(alloc, text, &given, types, wanted, merged.types())
}

// Says whether what the middleware exports fits where the packages'
// interface of this name is asked for.
fn push_exported(
    alloc: Global,
    text: &mut String,
    types: &Types,
    name: &str,
    given: &ItemKind,
    middleware: &Component,
) -> Result<(), CompositionFailure> {
    let wanted = ItemKind::Instance(interface_named(types, name)?);
    write!(
        text,
        "  composed component exports {name}, as the package has it: "
    )?;
    push_answer(alloc, text, given, &middleware.types, &wanted, types)
}

// Says whether a component fits a world that has this logging, or gives the report of what doesn't.
fn push_target(
    alloc: Global,
    text: &mut String,
    types: &mut Types,
    component: WorldId,
    logging: &str,
) -> Result<(), CompositionFailure> {
    let imports = ["wasi:http/types@0.2.1", logging, "wasi:sockets/tcp@0.2.0"];
    let target = add_world(alloc, types, &imports, &["wasi:http/handler@0.2.0"])?;
    if !types.contains(Type::World(component)) {
        return Err(CompositionFailure::Missing);
    }
    write!(text, "  composed component in a world with {logging}: ")?;
    match validate_target(alloc, types, target, component) {
        Ok(Ok(())) => text.push_str("fits\n")?,
        Ok(Err(report)) => write!(text, "doesn't fit\n{report}")?,
        Err(TargetError::NoIdentifier { interface: _ }) => return Err(CompositionFailure::Missing),
        Err(TargetError::Memory) => return Err(CompositionFailure::Memory),
    }
    Ok(())
}
