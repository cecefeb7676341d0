//! Whether one item fits where another is asked for.

use super::failure::CompositionFailure;
use std::alloc::Global;
use std::collections::HashSet;
use wac_types::{ItemKind, SubtypeChecker, SubtypeError, Types};

/// Puts last whether an item of one collection fits where one of another is asked for, or
/// the path to where it doesn't.
pub(crate) fn push_answer(
    alloc: Global,
    text: &mut String,
    a: &ItemKind,
    at: &Types,
    b: &ItemKind,
    bt: &Types,
) -> Result<(), CompositionFailure> {
    if at.number() == bt.number() || !at.contains_item(*a) || !bt.contains_item(*b) {
        return Err(CompositionFailure::Missing);
    }
    let mut cache = HashSet::new(alloc);
    match SubtypeChecker::new(&mut cache).is_subtype(alloc, *a, at, *b, bt) {
        Ok(()) => text.push_str("fits\n")?,
        Err(SubtypeError::Memory) => return Err(CompositionFailure::Memory),
        Err(error) => {
            let path = error.path();
            writeln!(text, "doesn't fit: {path}")?;
        }
    }
    Ok(())
}
