//! Answers about core externs.

use super::comparisons::push_outcome;
use std::alloc::{AllocError, Global};
use std::collections::HashSet;
use wac_checker::SubtypeChecker;
use wac_core::CoreExtern;
use wac_script_syntax::{ScriptError, read_extern};

/// Puts the answer to `coresub` last: `yes` where the first extern fits where the second is asked
/// for, else `no: ` and what they disagree in. No frame stands before that.
pub(crate) fn core_subtype<'a>(
    alloc: Global,
    text: &mut String,
    words: &[&'a str],
) -> Result<(), ScriptError<'a>> {
    let [left, right] = *words else {
        return Err(ScriptError::Misused("coresub EXTERN EXTERN"));
    };
    let left = read_extern(alloc, left)?;
    let right = read_extern(alloc, right)?;
    Ok(compare(alloc, text, &left, &right)?)
}

fn compare(
    alloc: Global,
    text: &mut String,
    left: &CoreExtern,
    right: &CoreExtern,
) -> Result<(), AllocError> {
    let mut cache = HashSet::new(alloc);
    let checker = SubtypeChecker::new(&mut cache);
    push_outcome(alloc, text, checker.core_subtype(alloc, left, right))
}

/// Puts the sort of an extern, and the text of its function type, its element type or the type of
/// its value last: the answer to `core`.
pub(crate) fn core<'a>(
    alloc: Global,
    text: &mut String,
    words: &[&'a str],
) -> Result<(), ScriptError<'a>> {
    let [word] = *words else {
        return Err(ScriptError::Misused("core EXTERN"));
    };
    let of = read_extern(alloc, word)?;
    Ok(push_core(text, &of)?)
}

fn push_core(text: &mut String, of: &CoreExtern) -> Result<(), AllocError> {
    match of {
        CoreExtern::Func(ty) | CoreExtern::Tag(ty) => write!(text, "{of}: {ty}"),
        CoreExtern::Table { element_type, .. } => write!(text, "{of}: {element_type}"),
        CoreExtern::Memory { .. } => write!(text, "{of}"),
        CoreExtern::Global { val_type, .. } => write!(text, "{of}: {val_type}"),
    }
}
