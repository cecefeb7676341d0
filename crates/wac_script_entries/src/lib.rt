//! The entries of a collection of types, as the lines of a script describe and name them.
#![tactic(auto)]

mod adding;
mod building;
mod contents;
mod definitions;
mod lines;
mod modules;
mod names;
mod words;

pub use adding::{Replacement, add, replace};
pub use building::{add_line, built};
pub use lines::push_entry;
pub use names::{
    find_defined, find_entry, find_func, find_interface, find_item, find_module, find_resource,
    find_type, find_value, find_world,
};
pub use words::{push_item, push_type, push_value};
