//! What an id names that an aggregator gave out, after calls that merge more into its import.

ghost use Rattle.std.specs.Prelude.{◌≢◌, IfOk};
ghost use Rattle.wac_types.specs.Aggregator.{state_in};
ghost use Rattle.wac_types.specs.Class.{class_of};
ghost use Rattle.wac_types.specs.Remembers.{RemembersTruly};

use std::alloc::Global;
use std::collections::HashSet;
use std::test::Fail;
use wac_script_entries::built;
use wac_test_tools::interface;
use wac_types::{InterfaceId, ItemKind, SubtypeChecker, SubtypeError, Type, TypeAggregator, Types};

// Four interfaces without identifiers, and four on one track, each of which exports a function.
const SINGLES: &str = "func sync -
iface - e:a=F:fn0
iface - e:b=F:fn0
iface - e:c=F:fn0
iface - e:d=F:fn0
iface x:y/svc@1.0.0 e:a=F:fn0
iface x:y/svc@1.1.0 e:b=F:fn0
iface x:y/svc@1.2.0 e:c=F:fn0
iface x:y/svc@1.3.0 e:d=F:fn0";

// An aggregator without imports, for calls of items of this collection.
fn nothing(alloc: Global, types: &Types) -> Result<TypeAggregator, Fail>
    ensures apart { IfOk result (λ a. types.now.number ≢ a.types.number) }
    ensures remembered { IfOk result (λ a. RemembersTruly class_of types.now (state_in a)) }
{
    if types.number() == 9 {
        return Err(Fail::new("two collections have one number"));
    }
    Ok(TypeAggregator::new(alloc, 9))
}

// What an aggregator makes of one more call: an instance of the interface at an index.
fn and_one(
    before: TypeAggregator,
    name: &str,
    types: &Types,
    index: usize,
    checker: &mut SubtypeChecker<'_>,
) -> Result<TypeAggregator, Fail>
    requires apart { types.now.number ≢ before.types.number }
    requires remembered { RemembersTruly class_of types.now (state_in before) }
    ensures apart { IfOk result (λ a. types.now.number ≢ a.types.number) }
    ensures remembered { IfOk result (λ a. RemembersTruly class_of types.now (state_in a)) }
{
    let kind = ItemKind::Instance(interface(types, index)?);
    match before.aggregate(name, types, kind, checker) {
        Ok(after) => Ok(after),
        Err(refusal) => Err(Fail::from(refusal)),
    }
}

// What an aggregator makes of three calls, from this index on, under one name.
fn and_three(
    before: TypeAggregator,
    name: &str,
    types: &Types,
    first: usize,
    checker: &mut SubtypeChecker<'_>,
) -> Result<TypeAggregator, Fail>
    requires apart { types.now.number ≢ before.types.number }
    requires remembered { RemembersTruly class_of types.now (state_in before) }
    ensures apart { IfOk result (λ a. types.now.number ≢ a.types.number) }
    ensures remembered { IfOk result (λ a. RemembersTruly class_of types.now (state_in a)) }
{
    let merged = and_one(before, name, types, first, checker)?;
    let merged = and_one(merged, name, types, first.saturating_add(1), checker)?;
    and_one(merged, name, types, first.saturating_add(2), checker)
}

// The interface of an instance.
fn interface_of(kind: &ItemKind) -> Result<InterfaceId, Fail> {
    match kind {
        ItemKind::Instance(id) => Ok(*id),
        _ => Err(Fail::new("the import isn't an instance")),
    }
}

// The interface of the only import.
fn imported(merged: &TypeAggregator) -> Result<InterfaceId, Fail> {
    let mut imports = merged.imports();
    let Some((_, kind)) = imports.next() else {
        return Err(Fail::new("there is no import"));
    };
    if imports.next().is_some() {
        return Err(Fail::new("there is more than one import"));
    }
    interface_of(&kind)
}

// Whether an interface of an aggregator exports functions of these names, in this order.
fn exports_functions(merged: &TypeAggregator, id: InterfaceId, names: &[&str]) -> bool {
    let types = merged.types();
    if !types.contains(Type::Interface(id)) || types[id].exports.len() != names.len() {
        return false;
    }
    let mut at = 0usize;
    for (name, kind) in &types[id].exports {
        if at >= names.len() || name.as_str() != names[at] || !matches!(kind, ItemKind::Func(_)) {
            return false;
        }
        at = at.saturating_add(1);
    }
    true
}

#[test]
fn an_import_without_identifier_becomes_another_entry(rt: HostRuntime) -> Result<(), Fail> {
    let types = built(rt.alloc(), 1, SINGLES)?;
    let mut cache = HashSet::new(rt.alloc());
    let mut checker = SubtypeChecker::new(&mut cache);
    let none = nothing(rt.alloc(), &types)?;
    let three = and_three(none, "svc", &types, 0, &mut checker)?;
    let given = imported(&three)?;
    assert!(&rt; exports_functions(&three, given, &["a", "b", "c"]));
    let four = and_one(three, "svc", &types, 3, &mut checker)?;
    assert!(&rt; exports_functions(&four, given, &["a", "b", "c"]));
    assert!(&rt; imported(&four)? != given);
    assert!(&rt; exports_functions(&four, imported(&four)?, &["a", "b", "c", "d"]));
    Ok(())
}

#[test]
fn an_import_with_an_identifier_grows_in_place(rt: HostRuntime) -> Result<(), Fail> {
    let types = built(rt.alloc(), 1, SINGLES)?;
    let mut cache = HashSet::new(rt.alloc());
    let mut checker = SubtypeChecker::new(&mut cache);
    let none = nothing(rt.alloc(), &types)?;
    let three = and_three(none, "x:y/svc@1.0.0", &types, 4, &mut checker)?;
    let given = imported(&three)?;
    assert!(&rt; exports_functions(&three, given, &["a", "b", "c"]));
    let four = and_one(three, "x:y/svc@1.0.0", &types, 7, &mut checker)?;
    assert!(&rt; imported(&four)? == given);
    assert!(&rt; exports_functions(&four, given, &["a", "b", "c", "d"]));
    Ok(())
}

// Whether an instance of the interface at an index fits where one of an aggregator is asked for.
fn fits_import(
    alloc: Global,
    types: &Types,
    index: usize,
    merged: &TypeAggregator,
    id: InterfaceId,
    checker: &mut SubtypeChecker<'_>,
) -> Result<bool, Fail> {
    let own = merged.types();
    let (a, b) = (
        ItemKind::Instance(interface(types, index)?),
        ItemKind::Instance(id),
    );
    if own.number() == types.number() || !own.contains_item(b) {
        return Err(Fail::new("a checker can't be asked about the two"));
    }
    match checker.is_subtype(alloc, a, types, b, own) {
        Ok(()) => Ok(true),
        Err(SubtypeError::Memory) => Err(SubtypeError::Memory.into()),
        Err(_) => Ok(false),
    }
}

#[test]
fn a_pair_of_an_import_that_grew_is_compared_again(rt: HostRuntime) -> Result<(), Fail> {
    let types = built(rt.alloc(), 1, SINGLES)?;
    let mut cache = HashSet::new(rt.alloc());
    let mut checker = SubtypeChecker::new(&mut cache);
    let none = nothing(rt.alloc(), &types)?;
    let one = and_one(none, "x:y/svc@1.0.0", &types, 4, &mut checker)?;
    let given = imported(&one)?;
    assert!(&rt; fits_import(rt.alloc(), &types, 4, &one, given, &mut checker)?);
    assert!(&rt; checker.opened() == 2);
    // the pair is in the cache
    assert!(&rt; fits_import(rt.alloc(), &types, 4, &one, given, &mut checker)?);
    assert!(&rt; checker.opened() == 0);
    let two = and_one(one, "x:y/svc@1.0.0", &types, 5, &mut checker)?;
    assert!(&rt; imported(&two)? == given);
    assert!(&rt; !fits_import(rt.alloc(), &types, 4, &two, given, &mut checker)?);
    Ok(())
}
