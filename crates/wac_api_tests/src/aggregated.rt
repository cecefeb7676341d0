//! What an aggregator makes of what stands below an import of a component.

use std::alloc::Global;
use std::collections::HashSet;
use std::test::Fail;
use wac_script_entries::built;
use wac_test_tools::world;
use wac_types::{
    Call, ItemKind, SubtypeChecker, Type, TypeAggregator, Types, WorldId, aggregate_all,
};

// A component that imports an instance of an interface which uses a type of another one.
static USER: &str =
    "iface p:i/i@1.0.0 e:t=T:u8\niface p:k/k@1.0.0 u:t=i0 e:s=T:u8\nworld - m:x=I:i1";

// What is made of a component.
fn aggregated(alloc: Global, types: &Types) -> Result<TypeAggregator, Fail> {
    if types.number() == 9 {
        return Err(Fail::new("two collections have one number"));
    }
    let id = world(types, 0)?;
    let calls = [Call {
        name: "c",
        types,
        kind: ItemKind::Component(id),
    }];
    let mut cache = HashSet::new(alloc);
    let mut checker = SubtypeChecker::new(&mut cache);
    match aggregate_all(alloc, 9, &calls, &mut checker) {
        Ok(aggregated) => Ok(aggregated),
        Err(refusal) => Err(Fail::from(refusal.error)),
    }
}

// Whether the interfaces that a world and its imports use are the one of this identifier.
fn uses_only(alloc: Global, types: &Types, id: WorldId, name: &str) -> Result<bool, Fail> {
    if !types.contains(Type::World(id)) {
        return Ok(false);
    }
    let used = types[id].implicit_imported_interfaces(alloc, types)?;
    let mut names = used.keys();
    let (Some(found), None) = (names.next(), names.next()) else {
        return Ok(false);
    };
    Ok(*found == name)
}

// Whether the only import is a component whose imports use the one interface of this identifier.
fn component_uses_only(alloc: Global, merged: &TypeAggregator, name: &str) -> Result<bool, Fail> {
    let mut imports = merged.imports();
    let (Some((_, import)), None) = (imports.next(), imports.next()) else {
        return Ok(false);
    };
    let ItemKind::Component(id) = import else {
        return Ok(false);
    };
    uses_only(alloc, merged.types(), id, name)
}

#[test]
fn an_interface_below_an_import_keeps_its_uses(rt: HostRuntime) -> Result<(), Fail> {
    let types = built(rt.alloc(), 1, USER)?;
    let aggregated = aggregated(rt.alloc(), &types)?;
    assert!(&rt; component_uses_only(rt.alloc(), &aggregated, "p:i/i@1.0.0")?);
    Ok(())
}
