//! Where the worlds that a world includes are written, by the catalog.

ghost use Rattle.wac_wit_validation.specs.WorldChecking.{StaysAs};

use super::validator::Validator;
use indexmap::IndexMap;
use std::alloc::AllocError;
use wac_wit_names::{Decl, Fault, FoundPlace};
use wac_wit_syntax::{Path, WorldItem};

impl<'v> Validator<'v> {
    /// Looks up the worlds that a world of the catalog includes.
    pub(crate) fn note_includes(&mut self, node: usize) -> Result<(), AllocError>
        ensures { StaysAs self.old self.new }
    {
        self.include_places = IndexMap::new(self.alloc);
        let Some(of) = self.catalog.nodes.get(node) else {
            return Ok(());
        };
        match of.decl {
            Decl::World(decl) => self.note_items(of.scope, &decl.items),
            Decl::Interface(_) => Ok(()),
        }
    }

    fn note_items(&mut self, scope: usize, items: &[WorldItem]) -> Result<(), AllocError>
        ensures { StaysAs self.old self.new }
    {
        for item in items {
            if let WorldItem::Include(it) = item {
                self.note_include(scope, &it.path)?;
            }
        }
        Ok(())
    }

    fn note_include(&mut self, scope: usize, path: &Path) -> Result<(), AllocError>
        ensures { StaysAs self.old self.new }
    {
        if let Some(place) = self.include_place(scope, path)? {
            self.include_places.insert(path.span.start, place)?;
        }
        Ok(())
    }

    // Where the world at the end of a path is written, and which `use` the path goes by.
    fn include_place(&self, scope: usize, path: &Path) -> Result<Option<FoundPlace>, AllocError> {
        let Ok(of) = self.catalog.scope(scope) else {
            return Ok(None);
        };
        let node = match self.catalog.find_world(of, path) {
            Ok(node) => node.index,
            Err(Fault::Memory) => return Err(AllocError),
            Err(_) => return Ok(None),
        };
        let via = match &path.package {
            Some(_) => None,
            None => match of.uses.get(path.name.name.as_str()) {
                Some(used) => Some(used.item),
                None => None,
            },
        };
        Ok(Some(FoundPlace { node, via }))
    }
}
