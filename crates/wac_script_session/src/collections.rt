//! Collections by their numbers.

ghost use Rattle.std.specs.Prelude.{◌≡◌, None, Some, IfOk, IfSome};
ghost use Rattle.wac_script_session.specs.Collections.{collection_at};

use super::growth::{Growth, grow};
use indexmap::IndexMap;
use std::alloc::{AllocError, Global};
use std::marker::Model;
use wac_component::Types;
use wac_script_entries::{Replacement, add, replace};
use wac_script_syntax::{Content, EntryName, ScriptError};

/// Collections, each under its own number.
pub(crate) struct Collections {
    by_number: IndexMap<u64, Types>,
}

// By hand, as of `Types`.
impl Drop for Collections {
    fn drop(self) {
        let Collections { by_number: _ } = self;
    }
}

impl Model for Collections {
    ghost use Rattle.wac_script_session.specs.Collections.{Numbered, AreNumbered};

    ghost Value = { Numbered };

    ghost view = { λ a. a.by_number.entries };

    ghost invariant = { λ a. AreNumbered a.by_number.entries };
}

impl Collections {
    /// No collections.
    pub(crate) fn new(alloc: Global) -> Collections {
        Collections {
            by_number: IndexMap::new(alloc),
        }
    }

    /// The collection of this number. `NoCollection` comes exactly where there is none.
    pub(crate) fn get<'a>(&self, number: u64) -> Result<&Types, ScriptError<'a>>
        ensures found { IfOk result (λ types. collection_at self.now number ≡ Some types.now) }
        ensures numbered { IfOk result (λ types. types.now.number ≡ number) }
    {
        match self.by_number.get(&number) {
            Some(types) => Ok(types),
            None => Err(ScriptError::NoCollection(number)),
        }
    }

    /// A number that no collection has.
    pub(crate) fn free_number(&self) -> Option<u64>
        ensures { IfSome result (λ n. collection_at self.now n ≡ None) }
    {
        for number in 0..u64::MAX {
            if !self.by_number.contains_key(&number) {
                return Some(number);
            }
        }
        None
    }

    /// Begins an empty collection of this number, unless one is there.
    pub(crate) fn begin(&mut self, alloc: Global, number: u64) -> Result<(), AllocError> {
        if self.by_number.contains_key(&number) {
            return Ok(());
        }
        self.by_number.insert(number, Types::new(alloc, number))?;
        Ok(())
    }

    /// Adds an entry to the collection of this number.
    pub(crate) fn add<'a>(
        &mut self,
        alloc: Global,
        number: u64,
        content: Content<'a>,
    ) -> Result<(), ScriptError<'a>> {
        let Some(types) = self.by_number.get_mut(&number) else {
            return Err(ScriptError::NoCollection(number));
        };
        add(alloc, types, content)
    }

    /// Replaces an entry of the collection of this number, unless that closes a cycle.
    pub(crate) fn replace<'a>(
        &mut self,
        alloc: Global,
        number: u64,
        entry: EntryName,
        words: &[&'a str],
    ) -> Result<Replacement, ScriptError<'a>> {
        let Some(types) = self.by_number.get_mut(&number) else {
            return Err(ScriptError::NoCollection(number));
        };
        replace(alloc, types, entry, words)
    }

    /// Adds to the collection of this number what is made of its entries, and puts the answer last.
    pub(crate) fn grow<'a>(
        &mut self,
        alloc: Global,
        text: &mut String,
        number: u64,
        growth: Growth,
    ) -> Result<(), ScriptError<'a>> {
        let Some(types) = self.by_number.get_mut(&number) else {
            return Err(ScriptError::NoCollection(number));
        };
        grow(alloc, text, types, growth)
    }
}
