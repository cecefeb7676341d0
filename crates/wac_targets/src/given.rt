//! What there is for what is wanted, by name.

ghost use Rattle.std.specs.Prelude.{◌≡◌, ◌++◌, [], IsSome, IfOk, IfErr, OnOk};
ghost use Rattle.std.specs.Option.{option_copied};
ghost use Rattle.std.specs.Str.{bytes_eq};
ghost use Rattle.indexmap.specs.IndexMap.{insert_all};
ghost use Rattle.wac_component.specs.Content.{named};
ghost use Rattle.wac_component.specs.declared.implicit.TargetError.TheVariants.{Memory};
ghost use Rattle.wac_names.specs.Pairs.{HasDistinctTexts, IsFound, value_at};
ghost use Rattle.wac_targets.specs.Given.{own_items, items_in, IsGivenLawful};
ghost use Rattle.wac_targets.specs.Named.{IsMapOf, borrowed};

use crate::maps::{insert_borrowed, insert_named};
use indexmap::IndexMap;
use std::alloc::Global;
use wac_component::{ItemKind, TargetError};
use wac_names::{NameMap, NameMapNoIntern};

/// Items by name. Most names are found as they stand; the map that is read by track is made where
/// first one isn't.
pub(crate) struct Given<'a> {
    // The implicit ones.
    implicit: IndexMap<&'a str, ItemKind>,
    // A side's own, each in the place of an implicit one of its name.
    own: &'a IndexMap<String, ItemKind>,
    by_track: Option<NameMap<String, ItemKind>>,
}

// By hand, as of `Types`.
impl Drop for Given<'_> {
    fn drop(self) {
        let Given {
            implicit: _,
            own: _,
            by_track: _,
        } = self;
    }
}

impl<'a> Given<'a> {
    // Implicit items, and a side's own.
    pub(crate) fn new(
        implicit: IndexMap<&'a str, ItemKind>,
        own: &'a IndexMap<String, ItemKind>,
    ) -> Given<'a>
        ensures items { items_in result ≡ insert_all bytes_eq [] (borrowed implicit.entry.entries ++ named (λ k. k) own.now.entries) }
        ensures distinct { HasDistinctTexts (named (λ k. k) own.now.entries) }
        ensures lawful { IsGivenLawful result }
    {
        // A name stands once in a map.
        let _ = own.len();
        Given {
            implicit,
            own,
            by_track: None,
        }
    }

    // The map that is read by track.
    fn indexed(&self, alloc: Global) -> Result<NameMap<String, ItemKind>, TargetError>
        ensures ok { IfOk result (λ m. IsMapOf m (items_in self.now)) }
        ensures err { IfErr result (λ e. e ≡ Memory) }
    {
        let mut map = NameMap::new(alloc);
        insert_borrowed(&mut map, &self.implicit)?;
        insert_named(&mut map, self.own)?;
        Ok(map)
    }

    // The own item of this name, if there is one.
    pub(crate) fn own(&self, name: &str) -> Option<&'a ItemKind>
        ensures { option_copied result ≡ value_at (own_items self.now) name.now }
    {
        let own = self.own;
        own.get(name)
    }

    // Makes the map that is read by track, unless it is made.
    pub(crate) fn index(&mut self, alloc: Global) -> Result<(), TargetError>
        requires lawful { IsGivenLawful self.old }
        ensures lawful { IsGivenLawful self.new }
        ensures same { items_in self.new ≡ items_in self.old }
        ensures made { OnOk result (IsSome self.new.by_track) }
        ensures err { IfErr result (λ e. e ≡ Memory) }
    {
        if self.by_track.is_none() {
            let map = self.indexed(alloc)?;
            self.by_track = Some(map);
        }
        Ok(())
    }

    // What is found at a name, once the map is made.
    pub(crate) fn get(&self, name: &str) -> Result<Option<&ItemKind>, TargetError>
        requires lawful { IsGivenLawful self.now }
        requires made { IsSome self.now.by_track }
        ensures found { IfOk result (λ r. IsFound (items_in self.now) name.now (option_copied r)) }
        ensures err { IfErr result (λ e. e ≡ Memory) }
    {
        let map = self.by_track.as_ref().unwrap();
        let found = map.get(name, &NameMapNoIntern)?;
        Ok(found)
    }
}
