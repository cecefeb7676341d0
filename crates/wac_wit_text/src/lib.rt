//! Writes the entries of a collection as WIT text, in one canonical form: types, functions,
//! interfaces and worlds, and the heads of the packages around them.
//!
//! A [`Printer`] holds the text so far. Types stand where a collection lists them, those that are
//! used first, and the functions of a resource stand in it. An interface of the package that is
//! written is named in short, and any other one in full; keywords stand behind `%`.
#![tactic(auto)]

mod definitions;
mod methods;
mod printer;
mod writing;

pub use printer::Printer;
