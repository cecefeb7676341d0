//! The two sides of a check, and the places of what it says.

use super::parts::{added, named, nth};
use super::sources::FilePlace;
use super::walking::{Map, SourceWalk};
use std::alloc::{AllocError, Global};
use wac_types::{Fault, Frame};

/// A side of a comparison: a position in its syntax, where there is one.
#[derive(Clone, Copy)]
pub struct SourceSide<'s, 'd> {
    /// The side.
    pub map: Map<'s, 'd>,
    /// The position, where the syntax has it.
    pub walk: Option<SourceWalk<'d>>,
}

impl<'s, 'd> SourceSide<'s, 'd> {
    /// Where the position is.
    pub fn place(&self) -> Option<FilePlace> {
        match &self.walk {
            Some(walk) => Some(walk.place),
            None => None,
        }
    }

    /// The position at the end of a path.
    pub fn at_end(&self, frames: &[Frame]) -> SourceSide<'s, 'd> {
        match &self.walk {
            Some(walk) => SourceSide {
                map: self.map,
                walk: Some(self.map.at_end(walk, frames)),
            },
            None => SourceSide {
                map: self.map,
                walk: None,
            },
        }
    }

    /// The position of a member of the interface, where it has one of this name.
    pub fn member(&self, name: &str) -> SourceSide<'s, 'd> {
        let walk = match &self.walk {
            Some(walk) => self.map.member(walk, name),
            None => None,
        };
        SourceSide {
            map: self.map,
            walk,
        }
    }

    /// The place of a member of the interface; of the interface, where it has none of this name.
    pub fn member_place(&self, name: &str) -> Option<FilePlace> {
        let Some(walk) = &self.walk else {
            return None;
        };
        match self.map.member(walk, name) {
            Some(there) => Some(there.place),
            None => Some(walk.place),
        }
    }
}

/// The two places of a fault: on the side that expects and on the other one, whose positions are at
/// the end of the path.
pub fn places_of(
    alloc: Global,
    expected: &SourceSide<'_, '_>,
    found: &SourceSide<'_, '_>,
    fault: &Fault,
) -> Result<(Option<FilePlace>, Option<FilePlace>), AllocError> {
    match fault {
        Fault::Count { .. } | Fault::ParamCount { .. } => added(alloc, expected, found),
        Fault::Name { index, .. } | Fault::ParamName { index, .. } => Ok((
            nth(alloc, expected, *index)?,
            nth(alloc, found, *index)?,
        )),
        Fault::CaseType { name, .. } => Ok((
            named(alloc, expected, name)?,
            named(alloc, found, name)?,
        )),
        Fault::MissingExport { name, .. } => {
            Ok((expected.member_place(name), found.member_place(name)))
        }
        _ => Ok((expected.place(), found.place())),
    }
}
