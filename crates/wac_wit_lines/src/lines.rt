//! Lists entries as the lines of a script that builds them.

use super::picking::picked;
use super::placing::placed;
use std::alloc::{AllocError, Global};
use wac_component::{Type, Types};
use wac_script_entries::push_entry;
use wac_wit_entries::EntryError;

/// Puts the lines last that build all entries of a collection.
pub fn push_all(alloc: Global, out: &mut String, types: &Types) -> Result<(), AllocError> {
    push_lines(out, types, &placed(alloc, types)?)
}

/// Puts the lines last that build an entry with all that it stands on.
pub fn push_one(
    alloc: Global,
    out: &mut String,
    types: &Types,
    entry: Type,
) -> Result<(), EntryError> {
    let one = picked(alloc, types, &placed(alloc, types)?, entry)?;
    push_all(alloc, out, &one)?;
    Ok(())
}

fn push_lines(out: &mut String, types: &Types, order: &[Type]) -> Result<(), AllocError> {
    for entry in order {
        if types.contains(*entry) {
            push_entry(out, types, *entry)?;
            out.push_str("\n")?;
        }
    }
    Ok(())
}
