//! Collections, as the lines of a script describe them.

ghost use Rattle.std.specs.Prelude.{◌≡◌, IfOk, OnErr};

use super::adding::add;
use std::alloc::Global;
use wac_component::Types;
use wac_script_syntax::{Command, ScriptError, read_line, unexpected};

/// Puts the entry that a line describes last in the list of its sort. Refused, the
/// collection is unchanged: `Unexpected` where the line adds no entry, and else as
/// [`add`] and `read_line` refuse it.
pub fn add_line<'a>(alloc: Global, types: &mut Types, line: &'a str) -> Result<(), ScriptError<'a>>
    ensures number { types.new.number ≡ types.old.number }
    ensures err { OnErr result (types.new ≡ types.old) }
{
    match read_line(alloc, line)? {
        Some(Command::Add(content)) => add(alloc, types, content),
        _ => Err(unexpected("a line that adds an entry", line)),
    }
}

/// A collection of this number, of the entries that lines describe, in their order. It is refused
/// as the first line is for which [`add_line`] is.
pub fn built<'a>(alloc: Global, number: u64, lines: &'a str) -> Result<Types, ScriptError<'a>>
    ensures { IfOk result (λ types. types.number ≡ number) }
{
    let mut types = Types::new(alloc, number);
    for line in lines.lines() {
        add_line(alloc, &mut types, line)?;
    }
    Ok(types)
}
