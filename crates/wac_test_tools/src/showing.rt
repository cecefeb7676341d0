//! What values show.

use super::writers::Expecting;
use std::fmt::{Debug, Display, Write};

/// Whether a value prints as this text.
pub fn shows<D: Display>(value: &D, wanted: &str) -> bool {
    let mut out = Expecting::of(wanted);
    let written = write!(out, "{value}");
    written.is_ok() && out.has_all()
}

/// Whether a value has this debug text.
pub fn debugs<D: Debug>(value: &D, wanted: &str) -> bool {
    let mut out = Expecting::of(wanted);
    let written = write!(out, "{value:?}");
    written.is_ok() && out.has_all()
}
