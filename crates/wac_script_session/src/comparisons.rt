//! Whether an item fits where another is asked for.

use super::collections::Collections;
use super::lines::push_on_one_line;
use std::alloc::{AllocError, Global};
use std::collections::HashSet;
use wac_checker::SubtypeChecker;
use wac_component::ItemKind;
use wac_mismatch::SubtypeError;
use wac_script_entries::find_item;
use wac_script_syntax::{Item, ScriptError, read_item, read_number, unexpected};

/// The pairs that a checker believes.
pub(crate) type Cache = HashSet<(ItemKind, ItemKind)>;

// Whether a checker is inverted once before it is asked.
fn read_is_inverted(word: &str) -> Result<bool, ScriptError<'_>> {
    match word {
        "co" => Ok(false),
        "contra" => Ok(true),
        _ => Err(unexpected("`co` or `contra`", word)),
    }
}

// The words of a question whether an item fits where another is asked for.
#[derive(Clone, Copy)]
struct Comparison {
    left: (u64, Item),
    right: (u64, Item),
    is_inverted: bool,
}

fn read_comparison<'a>(words: &[&'a str]) -> Result<Comparison, ScriptError<'a>> {
    let [left, left_item, right, right_item, variance] = *words else {
        return Err(ScriptError::Misused("subtype COLL ITEM COLL ITEM co|contra"));
    };
    Ok(Comparison {
        left: (read_number(left)?, read_item(left_item)?),
        right: (read_number(right)?, read_item(right_item)?),
        is_inverted: read_is_inverted(variance)?,
    })
}

/// Puts the answer to `subtype` last: `yes`, or `no: ` and the texts of the frames and of the
/// fault, asked of a new checker with this cache.
pub(crate) fn subtype<'a>(
    alloc: Global,
    text: &mut String,
    collections: &Collections,
    cache: &mut Cache,
    words: &[&'a str],
) -> Result<(), ScriptError<'a>> {
    let asked = read_comparison(words)?;
    let at = collections.get(asked.left.0)?;
    let bt = collections.get(asked.right.0)?;
    let mut checker = SubtypeChecker::new(cache);
    if asked.is_inverted {
        checker.invert();
    }
    match (find_item(at, asked.left.1), find_item(bt, asked.right.1)) {
        (Ok(a), Ok(b)) => {
            let outcome = checker.is_subtype(alloc, a, at, b, bt);
            Ok(push_outcome(alloc, text, outcome)?)
        }
        (Err(missing), _) | (_, Err(missing)) => Err(ScriptError::NoEntry(missing)),
    }
}

/// Puts last what a check came to, on one line.
pub(crate) fn push_outcome(
    alloc: Global,
    text: &mut String,
    outcome: Result<(), SubtypeError>,
) -> Result<(), AllocError> {
    match outcome {
        Ok(()) => text.push_str("yes"),
        Err(SubtypeError::Memory) => Err(AllocError),
        Err(error) => {
            text.push_str("no: ")?;
            push_path(alloc, text, &error)
        }
    }
}

/// Puts the texts of a mismatch last, on one line.
pub(crate) fn push_path(
    alloc: Global,
    text: &mut String,
    error: &SubtypeError,
) -> Result<(), AllocError> {
    let path = error.path();
    push_on_one_line(text, &format!(in alloc; "{path}")?)
}
