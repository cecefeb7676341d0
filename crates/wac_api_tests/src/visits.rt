//! A visit, whose visitor looks at what it is handed, and what an entry names.

use std::test::Fail;
use wac_script_entries::built;
use wac_test_tools::{defined, lists_seen};
use wac_types::EntryId;

const LINES: &str = "def list u8
def list u8
def tuple d0 u8 d1 d0";

#[test]
fn a_visitor_may_look_up_what_it_is_handed(rt: HostRuntime) -> Result<(), Fail> {
    let types = built(rt.alloc(), 1, LINES)?;
    assert_eq!(&rt; lists_seen(&types, defined(&types, 2)?), 3);
    Ok(())
}

#[test]
fn an_entry_names_each_of_its_parts_in_order(rt: HostRuntime) -> Result<(), Fail> {
    let types = built(rt.alloc(), 1, LINES)?;
    let (first, second) = (defined(&types, 0)?, defined(&types, 1)?);
    let named = types.ids_in(rt.alloc(), EntryId::Defined(defined(&types, 2)?))?;
    assert_eq!(&rt; named.len(), 3);
    assert!(&rt; named[0] == EntryId::Defined(first));
    assert!(&rt; named[1] == EntryId::Defined(second));
    assert!(&rt; named[2] == EntryId::Defined(first));
    Ok(())
}
