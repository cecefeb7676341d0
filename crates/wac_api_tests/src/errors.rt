//! A refusal as a value: its frames, its fault, and its texts.

use std::alloc::{AllocError, Global};
use std::collections::HashSet;
use std::test::Fail;
use wac_script_entries::built;
use wac_test_tools::{debugs, defined, shows};
use wac_types::{ItemKind, SubtypeChecker, SubtypeError, Types, ValueType};

const LISTS: &str = "def option u8
def list d0
def option s8
def list d2";

// Why a list of options of one type doesn't fit where one of another is asked
// for, in a collection of `LISTS`.
fn refusal(alloc: Global, types: &Types) -> Result<SubtypeError, Fail> {
    let (a, b) = (defined(types, 1)?, defined(types, 3)?);
    let a = ItemKind::Value(ValueType::Defined(a));
    let b = ItemKind::Value(ValueType::Defined(b));
    let mut cache = HashSet::new(alloc);
    match SubtypeChecker::new(&mut cache).is_subtype(alloc, a, types, b, types) {
        Ok(()) => Err(Fail::new("the item fits")),
        Err(SubtypeError::Memory) => Err(Fail::from(AllocError)),
        Err(error) => Ok(error),
    }
}

fn mismatch(alloc: Global) -> Result<SubtypeError, Fail> {
    let types = built(alloc, 1, LISTS)?;
    refusal(alloc, &types)
}

#[test]
fn frames_lead_from_the_outermost_place_to_the_fault(rt: HostRuntime) -> Result<(), Fail> {
    let error = mismatch(rt.alloc())?;
    assert!(&rt; debugs(&error.frames(), "[ListElement, Option]"));
    assert!(&rt;
        debugs(
            &error.fault(),
            "Some(Kind { expected: \"s8\", found: \"u8\" })"
        )
    );
    assert!(&rt; shows(&error, "mismatched type for list element"));
    let shown =
        "Mismatch { frames: [ListElement, Option], fault: Kind { expected: \"s8\", found: \"u8\" } }";
    assert!(&rt; debugs(&error, shown));
    Ok(())
}
