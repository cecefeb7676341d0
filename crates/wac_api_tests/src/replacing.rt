//! What replacing an entry answers where that would close a cycle: the content is
//! handed back, and nothing changes.

use std::alloc::AllocError;
use std::process::Abort;
use std::test::Fail;
use wac_script_entries::built;
use wac_test_tools::{debugs, defined};
use wac_types::{DefinedType, ReplaceError, Types, ValueType};

// Replaces the first defined type by an option of itself.
fn close_over_type<R: Abort>(rt: &R, types: &mut Types) -> Result<(), Fail> {
    let list = defined(types, 0)?;
    let content = DefinedType::Option(ValueType::Defined(list));
    assert!(rt; types.can_add_defined_type(&content));
    let answer = types.replace_defined_type(list, content);
    if matches!(&answer, Err(ReplaceError::Memory(_))) {
        return Err(Fail::from(AllocError));
    }
    let handed = "Err(Cycle(Option(Defined(DefinedTypeId { number: 1, index: 0 }))))";
    assert!(rt; debugs(&answer, handed));
    Ok(())
}

#[test]
fn a_type_that_would_hold_itself_is_handed_back(rt: HostRuntime) -> Result<(), Fail> {
    let mut types = built(rt.alloc(), 1, "def list u8")?;
    close_over_type(&rt, &mut types)?;
    let kept =
        "Types { number: 1, defined: [List(Primitive(U8))], resources: [], funcs: [], interfaces: [], worlds: [], modules: [] }";
    assert!(&rt; debugs(&types, kept));
    Ok(())
}
