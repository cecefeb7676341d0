//! The imports one after another.

ghost use Rattle.std.specs.Iterator.{item_count, YieldsFirstBy};
ghost use Rattle.wac_aggregator_imports.specs.Left.{imports_left};

use super::import::Import;
use std::slice::Iter;
use wac_component::ItemKind;

/// The imports in order, each with its name.
#[derive(Drop)]
pub struct Imports<'a> {
    // Places, some of them empty.
    pub(crate) places: Iter<'a, Option<Import>>,
}

impl<'a> Iterator for Imports<'a> {
    type Item = (&'a str, ItemKind);

    ghost next_gives = { YieldsFirstBy (λ p. (p.0.now, p.1)) imports_left };

    ghost remaining = { item_count imports_left };

    fn next(&mut self) -> Option<(&'a str, ItemKind)> {
        while let Some(place) = self.places.next() {
            if let Some(import) = place {
                return Some((import.name.as_str(), import.kind));
            }
        }
        None
    }
}
