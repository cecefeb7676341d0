//! The names of entries.

use super::numbers::index_after;
use std::fmt;

/// One of the six lists of a collection.
#[derive(Clone, Copy, Debug)]
pub enum Sort {
    /// The defined types, as `d0`.
    DefinedType,
    /// The resources, as `r0`.
    Resource,
    /// The function types, as `fn0`.
    Func,
    /// The interfaces, as `i0`.
    Interface,
    /// The worlds, as `w0`.
    World,
    /// The core module types, as `m0`.
    Module,
}

// Each sort, with the letters of its entries and the command that adds one.
static SORTS: [(Sort, &str, &str); 6] = [
    (Sort::DefinedType, "d", "def"),
    (Sort::Resource, "r", "res"),
    (Sort::Func, "fn", "func"),
    (Sort::Interface, "i", "iface"),
    (Sort::World, "w", "world"),
    (Sort::Module, "m", "module"),
];

fn sorts() -> &'static [(Sort, &'static str, &'static str)] {
    &SORTS
}

/// The sort of the entries that a command adds.
pub(crate) fn sort_added_by(command: &str) -> Option<Sort> {
    for (sort, _, adding) in sorts() {
        if *adding == command {
            return Some(*sort);
        }
    }
    None
}

/// The name of an entry: the index in the list of its sort, from 0.
#[derive(Clone, Copy, Debug)]
pub struct EntryName {
    /// The sort.
    pub sort: Sort,
    /// The index.
    pub index: usize,
}

impl fmt::Display for EntryName {
    fn fmt<W: fmt::Write>(&self, f: &mut fmt::Formatter<W>) -> fmt::Result {
        let index = self.index;
        match self.sort {
            Sort::DefinedType => write!(f, "d{index}"),
            Sort::Resource => write!(f, "r{index}"),
            Sort::Func => write!(f, "fn{index}"),
            Sort::Interface => write!(f, "i{index}"),
            Sort::World => write!(f, "w{index}"),
            Sort::Module => write!(f, "m{index}"),
        }
    }
}

/// The entry that a word names.
pub(crate) fn entry_of(word: &str) -> Option<EntryName> {
    for (sort, letters, _) in sorts() {
        if let Some(index) = index_after(letters, word) {
            return Some(EntryName { sort: *sort, index });
        }
    }
    None
}
