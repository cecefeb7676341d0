//! Whether types and their names are refused with reason.
#![tactic(auto)]

mod borrows;
mod carried;
mod char_streams;
mod constructors;
mod definitions;
mod handles;
mod names_twice;
mod taken_names;
mod type_cycles;
mod type_names;
mod type_reasons;
mod type_sites;
mod wanted;

pub use borrows::{is_borrow_returned, is_borrow_sent};
pub use char_streams::is_char_stream;
pub use constructors::is_not_constructed;
pub use handles::is_not_resource;
pub use names_twice::is_name_twice;
pub use taken_names::{TakenName, export_names, item_names};
pub use type_cycles::is_type_cycle;
pub use type_names::{is_hidden_type, is_unknown_type};
pub use type_reasons::{is_empty, is_many_flags, is_named_as_resource, is_zero_length};
