//! Where interfaces and worlds are written.

use wac_component::InterfaceId;

/// Where an interface or a world is written: the index of what it stands in, and its own there.
#[derive(Clone, Copy)]
pub struct ItemPlace {
    /// Of the items of files and of the packages inside them.
    pub scope: usize,
    /// Of the item among these.
    pub item: usize,
}

/// An interface that is as it is written.
#[derive(Clone, Copy)]
pub struct FoundInterface {
    /// Where it is written.
    pub place: ItemPlace,
    /// Its entry.
    pub id: InterfaceId,
}
