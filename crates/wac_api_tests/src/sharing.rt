//! Entries that share others, thirty levels deep: what is made once for each pair of
//! them, and not once for each use.

use std::alloc::Global;
use std::test::Fail;
use wac_script_entries::built;
use wac_test_tools::interface;
use wac_types::{ItemKind, Types, join, meet};

// Two chains of interfaces, whose first ones have an export each: every next one exports the
// one before it in its chain twice.
fn chains(alloc: Global) -> Result<Types, Fail> {
    let first = "func sync -\niface - e:f=F:fn0\niface - e:g=F:fn0";
    let mut lines = String::from_str(alloc, first)?;
    for i in 0..60u32 {
        lines.push_str(&format!(in alloc; "\niface - e:a=I:i{i} e:b=I:i{i}")?)?;
    }
    Ok(built(alloc, 1, &lines)?)
}

// Whether the ends of two such chains have a meet.
fn ends_meet(alloc: Global, types: &mut Types) -> Result<bool, Fail> {
    let a = ItemKind::Instance(interface(types, 60)?);
    let b = ItemKind::Instance(interface(types, 61)?);
    let bound = meet(alloc, types, a, b)?;
    Ok(matches!(bound, Some(ItemKind::Instance(_))))
}

// Whether they have a join.
fn ends_join(alloc: Global, types: &mut Types) -> Result<bool, Fail> {
    let a = ItemKind::Instance(interface(types, 60)?);
    let b = ItemKind::Instance(interface(types, 61)?);
    let bound = join(alloc, types, a, b)?;
    Ok(matches!(bound, Some(ItemKind::Instance(_))))
}

#[test]
fn chains_that_share_are_met_pair_by_pair(rt: HostRuntime) -> Result<(), Fail> {
    let mut types = chains(rt.alloc())?;
    assert!(&rt; types.interfaces().len() == 62);
    assert!(&rt; ends_meet(rt.alloc(), &mut types)?);
    assert!(&rt; types.interfaces().len() == 93);
    Ok(())
}

#[test]
fn chains_that_share_are_joined_pair_by_pair(rt: HostRuntime) -> Result<(), Fail> {
    let mut types = chains(rt.alloc())?;
    assert!(&rt; types.interfaces().len() == 62);
    assert!(&rt; ends_join(rt.alloc(), &mut types)?);
    assert!(&rt; types.interfaces().len() == 93);
    Ok(())
}
