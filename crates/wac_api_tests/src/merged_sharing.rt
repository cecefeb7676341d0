//! What an aggregator makes of entries that share others, thirty levels deep.

use std::alloc::Global;
use std::collections::HashSet;
use std::test::Fail;
use wac_script_entries::built;
use wac_test_tools::interface;
use wac_types::{
    Call, ItemKind, SubtypeChecker, SubtypeError, TypeAggregator, Types, aggregate_all,
};

// An interface that exports the last of thirty tuples of two, each of the one before.
fn tuples(alloc: Global, number: u64) -> Result<Types, Fail> {
    let mut lines = String::from_str(alloc, "def tuple u8 u8")?;
    for i in 0..29u32 {
        lines.push_str(&format!(in alloc; "\ndef tuple d{i} d{i}")?)?;
    }
    lines.push_str("\niface - e:t=T:d29")?;
    Ok(built(alloc, number, &lines)?)
}

// A chain of interfaces, the first of which exports a function: each of the thirty next ones
// exports the one before it twice.
fn chain(alloc: Global, number: u64, first: &str) -> Result<Types, Fail> {
    let mut lines = format!(in alloc; "func sync -\niface - e:{first}=F:fn0")?;
    for i in 0..30u32 {
        lines.push_str(&format!(in alloc; "\niface - e:a=I:i{i} e:b=I:i{i}")?)?;
    }
    Ok(built(alloc, number, &lines)?)
}

// What is made of an instance of an interface of each of two collections, under one name.
fn merged(alloc: Global, a: &Types, b: &Types, index: usize) -> Result<TypeAggregator, Fail> {
    if a.number() == 9 || b.number() == 9 || a.number() == b.number() {
        return Err(Fail::new("two collections have one number"));
    }
    let calls = [
        Call {
            name: "svc",
            types: a,
            kind: ItemKind::Instance(interface(a, index)?),
        },
        Call {
            name: "svc",
            types: b,
            kind: ItemKind::Instance(interface(b, index)?),
        },
    ];
    let mut cache = HashSet::new(alloc);
    let mut checker = SubtypeChecker::new(&mut cache);
    match aggregate_all(alloc, 9, &calls, &mut checker) {
        Ok(merged) => Ok(merged),
        Err(refused) => Err(refused.error.into()),
    }
}

// Whether an item fits where another is asked for.
fn fits(
    alloc: Global,
    a: &ItemKind,
    at: &Types,
    b: &ItemKind,
    bt: &Types,
) -> Result<bool, SubtypeError> {
    if at.number() == bt.number() || !at.contains_item(*a) || !bt.contains_item(*b) {
        return Ok(false);
    }
    let mut cache = HashSet::new(alloc);
    let mut checker = SubtypeChecker::new(&mut cache);
    match checker.is_subtype(alloc, *a, at, *b, bt) {
        Ok(()) => Ok(true),
        Err(SubtypeError::Memory) => Err(SubtypeError::Memory),
        Err(_) => Ok(false),
    }
}

// Whether there is one import, which fits where the instance is asked for, and what of the other
// way round.
fn served(
    alloc: Global,
    merged: &TypeAggregator,
    types: &Types,
    index: usize,
) -> Result<(bool, bool), Fail> {
    let mut imports = merged.imports();
    let (Some((_, import)), None) = (imports.next(), imports.next()) else {
        return Err(Fail::new("there isn't one import"));
    };
    let item = ItemKind::Instance(interface(types, index)?);
    let serves = fits(alloc, &import, merged.types(), &item, types)?;
    Ok((serves, fits(alloc, &item, types, &import, merged.types())?))
}

#[test]
fn tuples_that_share_are_one_import_of_their_tree(rt: HostRuntime) -> Result<(), Fail> {
    let (a, b) = (tuples(rt.alloc(), 1)?, tuples(rt.alloc(), 2)?);
    let merged = merged(rt.alloc(), &a, &b, 0)?;
    assert!(&rt; served(rt.alloc(), &merged, &a, 0)? == (true, true));
    assert!(&rt; served(rt.alloc(), &merged, &b, 0)? == (true, true));
    Ok(())
}

#[test]
fn chains_that_share_are_one_import(rt: HostRuntime) -> Result<(), Fail> {
    let (a, b) = (chain(rt.alloc(), 1, "f")?, chain(rt.alloc(), 2, "g")?);
    let merged = merged(rt.alloc(), &a, &b, 30)?;
    assert!(&rt; served(rt.alloc(), &merged, &a, 30)? == (true, false));
    assert!(&rt; served(rt.alloc(), &merged, &b, 30)? == (true, false));
    Ok(())
}
