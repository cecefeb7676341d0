//! The built-in rows: questions whether one item fits where another is asked for.

use super::sides::{RowSide, add_side};
use std::alloc::{AllocError, Global};
use std::collections::HashSet;
use std::io;
use std::io::Write;
use wac_checker::SubtypeChecker;
use wac_component::Types;
use wac_mismatch::SubtypeError;
use wac_model::PrimitiveType;

// Which item is asked about, and which is asked for.
static ROWS: [(RowSide, RowSide); 17] = [
    (
        RowSide::Value(PrimitiveType::U8),
        RowSide::Value(PrimitiveType::U8),
    ),
    (
        RowSide::Value(PrimitiveType::U8),
        RowSide::Value(PrimitiveType::S8),
    ),
    (
        RowSide::List(PrimitiveType::U8),
        RowSide::List(PrimitiveType::U8),
    ),
    (
        RowSide::Stream(None),
        RowSide::Stream(Some(PrimitiveType::U8)),
    ),
    (RowSide::Func(Some("a")), RowSide::Func(Some("b"))),
    (RowSide::FuncGiving(PrimitiveType::U8), RowSide::Func(None)),
    (RowSide::Resource("file"), RowSide::Resource("dir")),
    (
        RowSide::Alias(PrimitiveType::U8),
        RowSide::Type(PrimitiveType::U8),
    ),
    (RowSide::Instance(&["f", "g"]), RowSide::Instance(&["f"])),
    (RowSide::Instance(&["f"]), RowSide::Instance(&["f", "g"])),
    (RowSide::Component(&["x"]), RowSide::Component(&[])),
    (RowSide::Module(2, Some(5)), RowSide::Module(1, None)),
    (RowSide::Module(1, None), RowSide::Module(2, Some(5))),
    (RowSide::Value(PrimitiveType::U8), RowSide::Func(None)),
    (
        RowSide::Map(PrimitiveType::String, PrimitiveType::U8),
        RowSide::Map(PrimitiveType::String, PrimitiveType::U8),
    ),
    (
        RowSide::Map(PrimitiveType::String, PrimitiveType::U8),
        RowSide::Map(PrimitiveType::String, PrimitiveType::S8),
    ),
    (
        RowSide::Map(PrimitiveType::String, PrimitiveType::U8),
        RowSide::List(PrimitiveType::U8),
    ),
];

/// Prints each row's number and answer: `yes`, or `no:` and the outermost text of the error.
pub fn print_rows<W: Write>(alloc: Global, out: &mut W) -> io::Result<()> {
    for (i, (left, right)) in ROWS.iter().enumerate() {
        print_row(alloc, i + 1, *left, *right, out)?;
    }
    Ok(())
}

// Asks in a covariant check with an empty cache, of an item of
// collection 1 and one of collection 2.
fn print_row<W: Write>(
    alloc: Global,
    number: usize,
    left: RowSide,
    right: RowSide,
    out: &mut W,
) -> io::Result<()> {
    let mut at = Types::new(alloc, 1);
    let mut bt = Types::new(alloc, 2);
    let a = add_side(alloc, &mut at, left)?;
    let b = add_side(alloc, &mut bt, right)?;
    let mut cache = HashSet::new(alloc);
    match SubtypeChecker::new(&mut cache).is_subtype(alloc, a, &at, b, &bt) {
        Ok(()) => writeln!(out, "{number} yes"),
        Err(SubtypeError::Memory) => Err(io::Error::from(AllocError)),
        Err(error) => writeln!(out, "{number} no: {error}"),
    }
}
