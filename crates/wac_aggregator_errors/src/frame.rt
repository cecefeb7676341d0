//! The steps to what can't be merged.

use std::fmt;

/// A step to the place where two items can't be merged.
#[derive(PartialEq, Eq, Debug, Drop)]
pub enum MergeFrame {
    /// To the merge of an interface with this identifier.
    Interface(String),
    /// To the two exports of this name.
    Export(String),
}

impl fmt::Display for MergeFrame {
    ghost use Rattle.std.specs.Prelude.{Some};
    ghost use Rattle.wac_aggregator_errors.specs.Texts.{merge_frame_text};

    ghost output = { λ frame. Some (merge_frame_text frame) };

    fn fmt<W: fmt::Write>(&self, f: &mut fmt::Formatter<W>) -> fmt::Result {
        match self {
            MergeFrame::Interface(name) => write!(f, "failed to merge interface `{name}`"),
            MergeFrame::Export(name) => write!(f, "mismatched type for export `{name}`"),
        }
    }
}
