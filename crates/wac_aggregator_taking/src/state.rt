//! The state of merging.

use super::handed_in::HandedIn;
use indexmap::IndexMap;
use std::alloc::Global;
use wac_aggregator_imports::ImportList;
use wac_aggregator_memo::Memo;
use wac_component::{InterfaceId, Types};
use wac_mismatch::SubtypeCheck;
use wac_names::NameClass;

/// The own collection, and what stands in it for what.
#[derive(Debug)]
pub struct Merging {
    /// The own collection.
    pub types: Types,
    /// The entry of each interface with an identifier, found by the class of that.
    pub shared: IndexMap<NameClass, InterfaceId>,
    /// The imports.
    pub imports: ImportList,
    /// What was taken in, but for what was copied.
    pub taken: Memo,
    /// What was copied, below imports of components.
    pub copies: Memo,
    /// The direction in which a mismatch is told.
    pub check: SubtypeCheck,
    /// The interface that was handed in, if it is one.
    pub handed_in: Option<HandedIn>,
}

// By hand, as of `Types`.
impl Drop for Merging {
    fn drop(self) {
        let Merging {
            types: _,
            shared: _,
            imports: _,
            taken: _,
            copies: _,
            check: _,
            handed_in: _,
        } = self;
    }
}

impl Merging {
    /// Where its parts are allocated.
    pub fn alloc(&self) -> Global {
        *self.shared.allocator()
    }
}
