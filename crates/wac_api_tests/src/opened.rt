//! How many pairs of entries a checker compares.

use std::alloc::Global;
use std::collections::HashSet;
use std::test::Fail;
use wac_script_entries::built;
use wac_test_tools::{defined, function, interface, world};
use wac_types::{
    DefinedType, ItemKind, PrimitiveType, SubtypeChecker, SubtypeError, Type, Types, ValueType,
};

// The first tuple is a pair of bytes, and each of the 29 next ones a pair of the one before.
fn tuples(alloc: Global, number: u64) -> Result<Types, Fail> {
    let mut lines = String::from_str(alloc, "def tuple u8 u8")?;
    for i in 0..29u32 {
        lines.push_str(&format!(in alloc; "\ndef tuple d{i} d{i}")?)?;
    }
    Ok(built(alloc, number, &lines)?)
}

// How many pairs a new checker compares where the defined type at an index of one collection fits
// where that of another is asked for, and how many where it is asked again.
fn opened(alloc: Global, at: &Types, bt: &Types, index: usize) -> Result<(usize, usize), Fail> {
    if at.number() == bt.number() {
        return Err(Fail::new("the collections have one number"));
    }
    let (given, wanted) = (defined(at, index)?, defined(bt, index)?);
    let mut cache = HashSet::new(alloc);
    let mut checker = SubtypeChecker::new(&mut cache);
    let a = ItemKind::Value(ValueType::Defined(given));
    let b = ItemKind::Value(ValueType::Defined(wanted));
    checker.is_subtype(alloc, a, at, b, bt)?;
    let first = checker.opened();
    let a = ItemKind::Value(ValueType::Defined(given));
    let b = ItemKind::Value(ValueType::Defined(wanted));
    checker.is_subtype(alloc, a, at, b, bt)?;
    Ok((first, checker.opened()))
}

// How many pairs a checker compares to tell whether an item of one collection fits where one of
// another is asked for.
fn compared(
    alloc: Global,
    checker: &mut SubtypeChecker<'_>,
    a: &ItemKind,
    at: &Types,
    b: &ItemKind,
    bt: &Types,
) -> Result<usize, Fail> {
    if at.number() == bt.number() || !at.contains_item(*a) || !bt.contains_item(*b) {
        return Err(Fail::new("a checker can't be asked about the two"));
    }
    match checker.is_subtype(alloc, *a, at, *b, bt) {
        Ok(()) => Ok(checker.opened()),
        Err(SubtypeError::Memory) => Err(SubtypeError::Memory.into()),
        Err(_) => Ok(checker.opened()),
    }
}

#[test]
fn tuples_that_share_are_compared_once_each(rt: HostRuntime) -> Result<(), Fail> {
    let (given, wanted) = (tuples(rt.alloc(), 1)?, tuples(rt.alloc(), 2)?);
    let (first, again) = opened(rt.alloc(), &given, &wanted, 29)?;
    assert!(&rt; first == 30);
    assert!(&rt; again == 0);
    Ok(())
}

// So many maps: one of bytes, and each next one of the one before, as its key and as its value.
fn doubled(alloc: Global, number: u64, count: usize) -> Result<Types, Fail> {
    let mut types = Types::new(alloc, number);
    add_map(&mut types, byte(), byte())?;
    for i in 1..count {
        let before = ValueType::Defined(defined(&types, i - 1)?);
        add_map(&mut types, before, before)?;
    }
    Ok(types)
}

// So many maps: one from this key to a byte, and each next one of the one before, as its key or as
// its value in turn.
fn nested(alloc: Global, number: u64, count: usize, first: PrimitiveType) -> Result<Types, Fail> {
    let mut types = Types::new(alloc, number);
    add_map(&mut types, ValueType::Primitive(first), byte())?;
    for i in 1..count {
        let before = ValueType::Defined(defined(&types, i - 1)?);
        if i % 2 == 0 {
            add_map(&mut types, before, byte())?;
        } else {
            add_map(&mut types, byte(), before)?;
        }
    }
    Ok(types)
}

fn byte() -> ValueType {
    ValueType::Primitive(PrimitiveType::U8)
}

fn add_map(types: &mut Types, key: ValueType, value: ValueType) -> Result<(), Fail> {
    let map = DefinedType::Map(key, value);
    if !types.can_add_defined_type(&map) {
        return Err(Fail::new("the map names what isn't there"));
    }
    types.add_defined_type(map)?;
    Ok(())
}

// In how many frames a new checker leads from the last of these maps to where it doesn't fit.
fn frames_to_fault(alloc: Global, at: &Types, bt: &Types, index: usize) -> Result<usize, Fail> {
    if at.number() == bt.number() {
        return Err(Fail::new("the collections have one number"));
    }
    let a = ItemKind::Value(ValueType::Defined(defined(at, index)?));
    let b = ItemKind::Value(ValueType::Defined(defined(bt, index)?));
    let mut cache = HashSet::new(alloc);
    match SubtypeChecker::new(&mut cache).is_subtype(alloc, a, at, b, bt) {
        Ok(()) => Err(Fail::new("the type fits")),
        Err(SubtypeError::Memory) => Err(SubtypeError::Memory.into()),
        Err(error) => Ok(error.frames().len()),
    }
}

#[test]
fn maps_that_share_are_compared_once_each(rt: HostRuntime) -> Result<(), Fail> {
    let (given, wanted) = (doubled(rt.alloc(), 1, 30)?, doubled(rt.alloc(), 2, 30)?);
    let (first, again) = opened(rt.alloc(), &given, &wanted, 29)?;
    assert!(&rt; first == 30);
    assert!(&rt; again == 0);
    Ok(())
}

#[test]
fn maps_may_be_nested_deep(rt: HostRuntime) -> Result<(), Fail> {
    let given = nested(rt.alloc(), 1, 100_000, PrimitiveType::U8)?;
    let wanted = nested(rt.alloc(), 2, 100_000, PrimitiveType::U8)?;
    let (first, again) = opened(rt.alloc(), &given, &wanted, 99_999)?;
    assert!(&rt; first == 100_000);
    assert!(&rt; again == 0);
    Ok(())
}

#[test]
fn a_fault_in_maps_nested_deep_has_a_frame_for_each(rt: HostRuntime) -> Result<(), Fail> {
    let given = nested(rt.alloc(), 1, 100_000, PrimitiveType::U8)?;
    let wanted = nested(rt.alloc(), 2, 100_000, PrimitiveType::S8)?;
    assert!(&rt; frames_to_fault(rt.alloc(), &given, &wanted, 99_999)? == 100_000);
    Ok(())
}

// A chain of a thousand aliases, the first of which is of a byte.
fn aliases(alloc: Global, number: u64) -> Result<Types, Fail> {
    let mut lines = String::from_str(alloc, "def alias u8")?;
    for i in 0..999u32 {
        lines.push_str(&format!(in alloc; "\ndef alias d{i}")?)?;
    }
    Ok(built(alloc, number, &lines)?)
}

// How many pairs a new checker compares where the last alias fits where a byte is asked for.
fn opened_by_aliases(alloc: Global, types: &Types) -> Result<usize, Fail> {
    let last = ItemKind::Value(ValueType::Defined(defined(types, 999)?));
    let byte = ItemKind::Value(ValueType::Primitive(PrimitiveType::U8));
    let mut cache = HashSet::new(alloc);
    let mut checker = SubtypeChecker::new(&mut cache);
    checker.is_subtype(alloc, last, types, byte, types)?;
    Ok(checker.opened())
}

#[test]
fn aliases_are_no_pairs(rt: HostRuntime) -> Result<(), Fail> {
    let types = aliases(rt.alloc(), 1)?;
    assert!(&rt; opened_by_aliases(rt.alloc(), &types)? == 0);
    Ok(())
}

#[test]
fn an_entry_fits_itself_unopened(rt: HostRuntime) -> Result<(), Fail> {
    let types = tuples(rt.alloc(), 1)?;
    let last = ItemKind::Value(ValueType::Defined(defined(&types, 29)?));
    let mut cache = HashSet::new(rt.alloc());
    let mut checker = SubtypeChecker::new(&mut cache);
    checker.is_subtype(rt.alloc(), last, &types, last, &types)?;
    assert!(&rt; checker.opened() == 0);
    Ok(())
}

#[test]
fn other_names_of_an_entry_are_no_pairs(rt: HostRuntime) -> Result<(), Fail> {
    let given = built(rt.alloc(), 1, "def tuple u8 u8\ndef alias d0\ndef alias d1")?;
    let wanted = tuples(rt.alloc(), 2)?;
    let a = ItemKind::Value(ValueType::Defined(defined(&given, 2)?));
    let b = ItemKind::Value(ValueType::Defined(defined(&wanted, 0)?));
    let mut cache = HashSet::new(rt.alloc());
    let mut checker = SubtypeChecker::new(&mut cache);
    assert!(&rt; compared(rt.alloc(), &mut checker, &a, &given, &b, &wanted)? == 1);
    Ok(())
}

// An instance that exports a function under two names.
const TWICE: &str = "func sync -\niface - e:f=F:fn0 e:g=F:fn0";

#[test]
fn exports_that_share_are_compared_once(rt: HostRuntime) -> Result<(), Fail> {
    let (given, wanted) = (built(rt.alloc(), 1, TWICE)?, built(rt.alloc(), 2, TWICE)?);
    let a = ItemKind::Instance(interface(&given, 0)?);
    let b = ItemKind::Instance(interface(&wanted, 0)?);
    let mut cache = HashSet::new(rt.alloc());
    let mut checker = SubtypeChecker::new(&mut cache);
    assert!(&rt; compared(rt.alloc(), &mut checker, &a, &given, &b, &wanted)? == 2);
    Ok(())
}

#[test]
fn what_follows_a_difference_is_not_compared(rt: HostRuntime) -> Result<(), Fail> {
    let lines = "func sync -\nfunc sync -\niface - e:f=F:fn0 e:g=F:fn1";
    let others = "func sync - x=u8\nfunc sync -\niface - e:f=F:fn0 e:g=F:fn1";
    let (given, wanted) = (built(rt.alloc(), 1, lines)?, built(rt.alloc(), 2, others)?);
    let a = ItemKind::Instance(interface(&given, 0)?);
    let b = ItemKind::Instance(interface(&wanted, 0)?);
    let mut cache = HashSet::new(rt.alloc());
    let mut checker = SubtypeChecker::new(&mut cache);
    assert!(&rt; compared(rt.alloc(), &mut checker, &a, &given, &b, &wanted)? == 2);
    Ok(())
}

#[test]
fn a_function_in_the_cache_is_not_compared_again(rt: HostRuntime) -> Result<(), Fail> {
    let lines = "func sync -\niface - e:f=F:fn0";
    let (given, wanted) = (built(rt.alloc(), 1, lines)?, built(rt.alloc(), 2, lines)?);
    let (a, b) = (function(&given, 0)?, function(&wanted, 0)?);
    let mut cache = HashSet::new(rt.alloc());
    let mut checker = SubtypeChecker::new(&mut cache);
    let (f, g) = (ItemKind::Func(a), ItemKind::Func(b));
    assert!(&rt; compared(rt.alloc(), &mut checker, &f, &given, &g, &wanted)? == 1);
    let x = ItemKind::Instance(interface(&given, 0)?);
    let y = ItemKind::Instance(interface(&wanted, 0)?);
    assert!(&rt; compared(rt.alloc(), &mut checker, &x, &given, &y, &wanted)? == 1);
    let (f, g) = (ItemKind::Type(Type::Func(a)), ItemKind::Type(Type::Func(b)));
    assert!(&rt; compared(rt.alloc(), &mut checker, &f, &given, &g, &wanted)? == 0);
    Ok(())
}

#[test]
fn a_tuple_in_the_cache_is_not_compared_again(rt: HostRuntime) -> Result<(), Fail> {
    let (given, wanted) = (tuples(rt.alloc(), 1)?, tuples(rt.alloc(), 2)?);
    let mut cache = HashSet::new(rt.alloc());
    let mut checker = SubtypeChecker::new(&mut cache);
    let a = ItemKind::Value(ValueType::Defined(defined(&given, 19)?));
    let b = ItemKind::Value(ValueType::Defined(defined(&wanted, 19)?));
    assert!(&rt; compared(rt.alloc(), &mut checker, &a, &given, &b, &wanted)? == 20);
    // a new checker, which knows nothing of the cache
    let mut checker = SubtypeChecker::new(&mut cache);
    let a = ItemKind::Value(ValueType::Defined(defined(&given, 29)?));
    let b = ItemKind::Value(ValueType::Defined(defined(&wanted, 29)?));
    assert!(&rt; compared(rt.alloc(), &mut checker, &a, &given, &b, &wanted)? == 10);
    Ok(())
}

// How many pairs a new checker compares where the defined type at an index of one collection fits
// where that of another at its index is asked for.
fn values_compared(
    alloc: Global,
    at: &Types,
    left: usize,
    bt: &Types,
    right: usize,
) -> Result<usize, Fail> {
    let a = ItemKind::Value(ValueType::Defined(defined(at, left)?));
    let b = ItemKind::Value(ValueType::Defined(defined(bt, right)?));
    let mut cache = HashSet::new(alloc);
    let mut checker = SubtypeChecker::new(&mut cache);
    compared(alloc, &mut checker, &a, at, &b, bt)
}

#[test]
fn a_list_and_an_option_of_bytes_are_pairs(rt: HostRuntime) -> Result<(), Fail> {
    let lines = "def list u8\ndef option u8\ndef list s8\ndef option s8";
    let (given, wanted) = (built(rt.alloc(), 1, lines)?, built(rt.alloc(), 2, lines)?);
    assert!(&rt; values_compared(rt.alloc(), &given, 0, &wanted, 0)? == 1);
    assert!(&rt; values_compared(rt.alloc(), &given, 1, &wanted, 1)? == 1);
    // what is compared may differ
    assert!(&rt; values_compared(rt.alloc(), &given, 0, &wanted, 2)? == 1);
    assert!(&rt; values_compared(rt.alloc(), &given, 1, &wanted, 3)? == 1);
    Ok(())
}

#[test]
fn another_name_of_a_list_of_bytes_is_that_list(rt: HostRuntime) -> Result<(), Fail> {
    let given = built(rt.alloc(), 1, "def list u8\ndef alias d0")?;
    let wanted = built(rt.alloc(), 2, "def list u8")?;
    assert!(&rt; values_compared(rt.alloc(), &given, 1, &wanted, 0)? == 1);
    Ok(())
}

#[test]
fn a_list_of_bytes_in_others_is_compared_once(rt: HostRuntime) -> Result<(), Fail> {
    let lines = "def list u8\ndef list d0\ndef tuple d0 d0";
    let (given, wanted) = (built(rt.alloc(), 1, lines)?, built(rt.alloc(), 2, lines)?);
    assert!(&rt; values_compared(rt.alloc(), &given, 1, &wanted, 1)? == 2);
    assert!(&rt; values_compared(rt.alloc(), &given, 2, &wanted, 2)? == 2);
    Ok(())
}

#[test]
fn a_list_of_bytes_in_the_cache_is_not_compared_again(rt: HostRuntime) -> Result<(), Fail> {
    let lines = "def list u8\ndef list d0";
    let (given, wanted) = (built(rt.alloc(), 1, lines)?, built(rt.alloc(), 2, lines)?);
    let mut cache = HashSet::new(rt.alloc());
    let mut checker = SubtypeChecker::new(&mut cache);
    let a = ItemKind::Value(ValueType::Defined(defined(&given, 0)?));
    let b = ItemKind::Value(ValueType::Defined(defined(&wanted, 0)?));
    assert!(&rt; compared(rt.alloc(), &mut checker, &a, &given, &b, &wanted)? == 1);
    let a = ItemKind::Value(ValueType::Defined(defined(&given, 1)?));
    let b = ItemKind::Value(ValueType::Defined(defined(&wanted, 1)?));
    assert!(&rt; compared(rt.alloc(), &mut checker, &a, &given, &b, &wanted)? == 1);
    Ok(())
}

#[test]
fn a_parameter_that_is_a_list_of_bytes_is_a_pair(rt: HostRuntime) -> Result<(), Fail> {
    let lines = "def list u8\nfunc sync - a=d0\niface - e:f=F:fn0";
    let (given, wanted) = (built(rt.alloc(), 1, lines)?, built(rt.alloc(), 2, lines)?);
    let a = ItemKind::Instance(interface(&given, 0)?);
    let b = ItemKind::Instance(interface(&wanted, 0)?);
    let mut cache = HashSet::new(rt.alloc());
    let mut checker = SubtypeChecker::new(&mut cache);
    assert!(&rt; compared(rt.alloc(), &mut checker, &a, &given, &b, &wanted)? == 3);
    Ok(())
}

// How many pairs a new checker compares where the component of the world at an index fits where that
// of the same collection at another is asked for.
fn components_compared(
    alloc: Global,
    types: &Types,
    left: usize,
    right: usize,
) -> Result<usize, Fail> {
    let a = ItemKind::Component(world(types, left)?);
    let b = ItemKind::Component(world(types, right)?);
    let mut cache = HashSet::new(alloc);
    let mut checker = SubtypeChecker::new(&mut cache);
    checker.is_subtype(alloc, a, types, b, types)?;
    Ok(checker.opened())
}

// Two instances of one type, each its own entry, and components that import and export them.
const CROSSED: &str = "func sync -
iface - e:f=F:fn0
iface - e:f=F:fn0
world - m:m=I:i1 e:e=I:i0
world - m:m=I:i0 e:e=I:i1
world - m:m=I:i0 e:e=I:i0
world - m:m=I:i1 e:e=I:i1";

#[test]
fn what_an_import_and_an_export_ask_alike_is_compared_once(rt: HostRuntime) -> Result<(), Fail> {
    let types = built(rt.alloc(), 1, CROSSED)?;
    // both ask whether the first instance fits where the second is asked for
    assert!(&rt; components_compared(rt.alloc(), &types, 0, 1)? == 2);
    // the export asks that, and the import the other way round
    assert!(&rt; components_compared(rt.alloc(), &types, 2, 3)? == 3);
    Ok(())
}

#[test]
fn what_is_imported_of_another_collection_is_another_pair(rt: HostRuntime) -> Result<(), Fail> {
    let (given, wanted) = (
        built(rt.alloc(), 1, CROSSED)?,
        built(rt.alloc(), 2, CROSSED)?,
    );
    let a = ItemKind::Component(world(&given, 2)?);
    let b = ItemKind::Component(world(&wanted, 2)?);
    let mut cache = HashSet::new(rt.alloc());
    let mut checker = SubtypeChecker::new(&mut cache);
    // the components, and the instances and their functions as exports and as imports
    assert!(&rt; compared(rt.alloc(), &mut checker, &a, &given, &b, &wanted)? == 5);
    Ok(())
}
