//! Reads WIT text, the interface language of the Component Model, into a syntax tree.
//!
//! [`parse`] reads one file. A text that isn't WIT is refused at up to [`MAX_REFUSALS`] places,
//! each with what was expected there and what was found; [`push_report`] prints one with the line
//! of the text. Names aren't looked up here.
#![tactic(auto)]

mod characters;
mod cursor;
mod documents;
mod error;
mod functions;
mod gates;
mod interfaces;
mod keywords;
pub mod laws;
mod lexer;
mod lists;
mod names;
mod paths;
mod positions;
mod refusals;
mod reports;
mod scanning;
mod token;
mod tree;
mod typedefs;
mod types;
mod versions;
mod worlds;

pub use documents::parse;
pub use error::{MAX_REFUSALS, Refusal, SyntaxError};
pub use keywords::is_keyword;
pub use positions::{Position, Span, position_of};
pub use reports::push_report;
pub use tree::{
    Case, Document, Extern, ExternItem, Field, FuncItem, Gate, Gates, Ident, IncludeItem,
    InterfaceDecl, InterfaceItem, Method, MethodKind, NestedPackage, PackageName, Path, Rename,
    Signature, TopItem, TopUse, TypeDef, TypeExpr, TypeItem, UseItem, WorldDecl, WorldItem,
};
pub use types::MAX_DEPTH;
