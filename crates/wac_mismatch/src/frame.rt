//! The steps of a path.

use std::fmt;

/// A step from two types to a part that both have.
#[derive(PartialEq, Eq, Debug, Drop)]
pub enum Frame {
    /// To the exports of this name, of two interfaces, worlds or core modules.
    Export(String),
    /// To the imports of this name of two worlds, with the sides
    /// exchanged and the direction turned.
    Import(String),
    /// To the imports of this module and name of two core modules, with the sides exchanged and the
    /// direction turned.
    CoreImport(String, String),
    /// To the types of the parameter of this name.
    Parameter(String),
    /// To the results of two functions.
    FuncResult,
    /// To the elements of two lists.
    ListElement,
    /// To the elements of two lists of fixed size.
    FixedSizeListElement,
    /// To the keys of two maps.
    MapKey,
    /// To the values of two maps.
    MapValue,
    /// To the payloads of two futures, each there or not.
    FuturePayload,
    /// To the payloads of two streams, each there or not.
    StreamPayload,
    /// To the types of two options.
    Option,
    /// To the `ok` types of two results.
    Ok,
    /// To the `err` types of two results.
    Err,
    /// To the types of the record field of this name.
    Field(String),
    /// To the types of the variant case of this name.
    Case(String),
    /// To the types of the tuple item at this index.
    Item(usize),
}

impl fmt::Display for Frame {
    ghost use Rattle.std.specs.Prelude.{Some};
    ghost use Rattle.wac_mismatch.specs.FrameText.{frame_text};

    ghost output = { λ frame. Some (frame_text frame) };

    fn fmt<W: fmt::Write>(&self, f: &mut fmt::Formatter<W>) -> fmt::Result {
        match self {
            Frame::Export(name) => write!(f, "mismatched type for export `{name}`"),
            Frame::Import(name) => write!(f, "mismatched type for import `{name}`"),
            Frame::CoreImport(from, name) => {
                write!(f, "mismatched type for import `{from}::{name}`")
            }
            Frame::Parameter(name) => {
                write!(f, "mismatched type for function parameter `{name}`")
            }
            Frame::FuncResult => write!(f, "mismatched type for function result"),
            Frame::ListElement => write!(f, "mismatched type for list element"),
            Frame::FixedSizeListElement => {
                write!(f, "mismatched type for fixed size list element")
            }
            Frame::MapKey => write!(f, "mismatched type for map key"),
            Frame::MapValue => write!(f, "mismatched type for map value"),
            Frame::FuturePayload => write!(f, "mismatched type for future payload"),
            Frame::StreamPayload => write!(f, "mismatched type for stream payload"),
            Frame::Option => write!(f, "mismatched type for option"),
            Frame::Ok => write!(f, "mismatched type for result `ok`"),
            Frame::Err => write!(f, "mismatched type for result `err`"),
            Frame::Field(name) => write!(f, "mismatched type for record field `{name}`"),
            Frame::Case(name) => write!(f, "mismatched type for variant case `{name}`"),
            Frame::Item(index) => write!(f, "mismatched type for tuple item {index}"),
        }
    }
}
