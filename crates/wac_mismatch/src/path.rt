//! The whole path of a mismatch on one line.

ghost use Rattle.std.specs.Fmt.{WritesOnOk};
ghost use Rattle.wac_mismatch.specs.Error.{steps_text, path_text};

use crate::{Fault, Frame, SubtypeError};
use std::fmt;

/// The path of an error, as [`SubtypeError::path`] gives it.
///
/// It prints the texts of the frames, the outermost first, and then that of the fault, with ` / `
/// between them; `out of memory` where there is no mismatch.
#[derive(Clone, Copy, Debug)]
pub struct Path<'a> {
    pub(crate) error: &'a SubtypeError,
}

impl fmt::Display for Path<'_> {
    ghost use Rattle.std.specs.Prelude.{Some};

    ghost output = { λ path. Some (path_text path.error.now) };

    fn fmt<W: fmt::Write>(&self, f: &mut fmt::Formatter<W>) -> fmt::Result {
        match self.error {
            SubtypeError::Mismatch { frames, fault } => write_steps(f, frames, fault),
            SubtypeError::Memory => write!(f, "out of memory"),
        }
    }
}

// Writes the texts of the frames and of the fault with ` / ` between them.
fn write_steps<W: fmt::Write>(
    f: &mut fmt::Formatter<W>,
    frames: &[Frame],
    fault: &Fault,
) -> fmt::Result
    ensures { WritesOnOk W.write_str_gives f.old result (steps_text frames.now fault.now) f.new }
{
    for frame in frames {
        write!(f, "{frame} / ")?;
    }
    write!(f, "{fault}")
}
