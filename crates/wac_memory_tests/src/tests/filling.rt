//! Collections of lines.

use super::trial::Trial;
use std::alloc::Global;
use std::fmt::Debug;
use std::slice;
use wac_script_entries::add_line;
use wac_script_syntax::ScriptError;
use wac_types::Types;

// A line that takes the place of the one of this number, from 0 on.
#[derive(Drop)]
pub(crate) struct Change {
    at: usize,
    line: &'static str,
}

// No line has this number.
const NOWHERE: usize = usize::MAX;

pub(crate) static UNCHANGED: Change = Change {
    at: NOWHERE,
    line: "",
};

impl Change {
    // The change of the line of this number, where it is made.
    pub(crate) fn where_made(is_made: bool, at: usize, line: &'static str) -> Change {
        Change {
            at: if is_made { at } else { NOWHERE },
            line,
        }
    }
}

// Adds the entries of lines, of which one is changed; an empty line has none.
pub(crate) fn fill<'a>(
    alloc: Global,
    types: &mut Types,
    lines: &[&'a str],
    change: &Change,
) -> Result<(), ScriptError<'a>> {
    for (at, line) in lines.iter().enumerate() {
        let line = if at == change.at { change.line } else { line };
        if !line.is_empty() {
            add_line(alloc, types, line)?;
        }
    }
    Ok(())
}

// Demands that the first entries of a list are those of another one.
fn demand_front<T: Debug>(
    entries: slice::Iter<'_, T>,
    wanted: slice::Iter<'_, T>,
    trial: &mut Trial,
) {
    let mut entries = entries;
    for entry in wanted {
        match entries.next() {
            Some(found) => trial.demand_alike(found, entry),
            None => trial.demand(false),
        }
    }
}

// Demands that each function, interface, world and core module of a collection stands in another
// one, in its place.
fn demand_fronts(types: &Types, wanted: &Types, trial: &mut Trial) {
    demand_front(types.func_types(), wanted.func_types(), trial);
    demand_front(types.interfaces(), wanted.interfaces(), trial);
    demand_front(types.worlds(), wanted.worlds(), trial);
    demand_front(types.modules(), wanted.modules(), trial);
}

// Adds the entries of lines, of which one is changed, and then those of further ones.
fn fill_both<'a>(
    alloc: Global,
    types: &mut Types,
    lines: &[&'a str],
    change: &Change,
    added: &[&'a str],
) -> Result<(), ScriptError<'a>> {
    fill(alloc, types, lines, change)?;
    fill(alloc, types, added, &UNCHANGED)
}

// Demands that a collection is the one of these lines, of which one is changed, and of further ones.
pub(crate) fn demand_lines(
    types: &Types,
    lines: &[&str],
    change: &Change,
    added: &[&str],
    trial: &mut Trial,
) {
    let mut wanted = Types::new(trial.alloc, 1);
    match fill_both(trial.alloc, &mut wanted, lines, change, added) {
        Ok(()) => trial.demand_alike(types, &wanted),
        Err(error) => trial.fail_line(&error),
    }
}

// Demands that the entries of these lines stand in a collection, which may have more.
pub(crate) fn demand_kept(types: &Types, lines: &[&str], trial: &mut Trial) {
    let mut kept = Types::new(trial.alloc, 1);
    match fill(trial.alloc, &mut kept, lines, &UNCHANGED) {
        Ok(()) => demand_fronts(types, &kept, trial),
        Err(error) => trial.fail_line(&error),
    }
}
