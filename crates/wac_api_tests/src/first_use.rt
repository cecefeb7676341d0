//! The first use that README shows.

use std::alloc::{AllocError, Global};
use std::collections::HashSet;
use std::test::Fail;
use wac_types::{
    DefinedType, Fault, Frame, ItemKind, PrimitiveType, SubtypeChecker, SubtypeError, Types,
    ValueType,
};

// Whether a list of `u8` will do where a list of `s8` is asked for.
fn bytes_for_signed_bytes(alloc: Global) -> Result<(), SubtypeError> {
    let mut given = Types::new(alloc, 1);
    let mut wanted = Types::new(alloc, 2);
    let byte = ValueType::Primitive(PrimitiveType::U8);
    let signed_byte = ValueType::Primitive(PrimitiveType::S8);
    let bytes = given.add_defined_type(DefinedType::List(byte))?;
    let signed_bytes = wanted.add_defined_type(DefinedType::List(signed_byte))?;
    let a = ItemKind::Value(ValueType::Defined(bytes));
    let b = ItemKind::Value(ValueType::Defined(signed_bytes));
    let mut cache = HashSet::new(alloc);
    let mut checker = SubtypeChecker::new(&mut cache);
    checker.is_subtype(alloc, a, &given, b, &wanted)
}

// Whether this is a no, at an element of the lists.
fn is_no(answer: &Result<(), SubtypeError>) -> bool {
    let Err(error) = answer else {
        return false;
    };
    let (expected, found) = ("s8", "u8");
    error.frames() == [Frame::ListElement].as_slice()
        && error.fault() == Some(&Fault::Kind { expected, found })
}

#[test]
fn a_list_of_bytes_does_not_do_for_a_list_of_signed_bytes(rt: HostRuntime) -> Result<(), Fail> {
    let answer = bytes_for_signed_bytes(rt.alloc());
    if matches!(&answer, Err(SubtypeError::Memory)) {
        return Err(Fail::from(AllocError));
    }
    assert!(&rt; is_no(&answer));
    Ok(())
}
