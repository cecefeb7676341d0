//! Whether types and functions are what texts of WIT denote.
#![tactic(auto)]

mod exports;
mod functions;
mod methods;
mod names;
mod new_names;
mod progress;
mod texts;
mod typedefs;
mod values;

pub use exports::{are_used, is_next_func, is_typedef};
pub use methods::{is_next_method, method_text};
pub use names::{NamedTypes, has_meaning, local_name, named_by};
pub use new_names::NewNames;
pub use progress::ExportMarks;
pub use texts::{
    is_identifier_of, is_identifier_text, is_package_text, is_plain, is_version_text, is_word,
};
pub use typedefs::is_same_type;
