//! Imports in order, found by the classes of names.

ghost use Rattle.std.specs.Prelude.{◌≡◌, [], ◌∷◌, ◌++◌, Some, None, IfOk, IsSome, OnOk, slice_set, string_bytes};
ghost use Rattle.std.specs.Option.{option_copied, option_map};
ghost use Rattle.indexmap.specs.IndexMap.{insert_entry};
ghost use Rattle.wac_names.specs.Class.{class_eq, class_of};
ghost use Rattle.wac_aggregator_imports.specs.Import.{ImportContent, import_of, canonical, AreFiled, PutsImport, PutsName, IsImportNoted};
ghost use Rattle.wac_aggregator_imports.specs.Left.{imports_left, listed_imports};
ghost use Rattle.wac_aggregator_imports.specs.Places.{import_in};

use super::import::Import;
use super::imports::Imports;
use super::newer::is_newer;
use indexmap::IndexMap;
use std::alloc::{AllocError, Global};
use std::marker::Model;
use wac_component::ItemKind;
use wac_names::NameClass;

/// Imports in order, one at most of each class of names, and the names that lead to them. Each is
/// found by the class of a name, however many there are.
#[derive(Debug)]
pub struct ImportList {
    // The imports in order. One that went last left an empty place.
    places: Vec<Option<Import>>,
    // The place of the import of each class.
    by_class: IndexMap<NameClass, usize>,
    // The names that lead to an import of another name, each with its class.
    led: IndexMap<String, NameClass>,
}

// By hand, as of `Types`.
impl Drop for ImportList {
    fn drop(self) {
        let ImportList {
            places: _,
            by_class: _,
            led: _,
        } = self;
    }
}

impl Model for ImportList {
    ghost use Rattle.wac_component.specs.Content.{named};
    ghost use Rattle.wac_aggregator_imports.specs.Import.{ImportsContent, AreFiled};
    ghost use Rattle.wac_aggregator_imports.specs.Places.{imports_in, ArePlaced};

    ghost Value = { ImportsContent };

    ghost view = { λ a. record { list = imports_in a.places.items; led = named (λ c. c) a.led.entries } };

    ghost invariant = { λ a. ArePlaced a.places.items a.by_class.entries
        × AreFiled (record { list = imports_in a.places.items; led = named (λ c. c) a.led.entries }) };
}

impl ImportList {
    /// No imports.
    pub fn new(alloc: Global) -> ImportList
        ensures { result ≡ record { list = []; led = [] } }
    {
        ImportList {
            places: Vec::new(alloc),
            by_class: IndexMap::new(alloc),
            led: IndexMap::new(alloc),
        }
    }

    /// Makes room for so many imports more.
    pub fn reserve(&mut self, additional: usize) -> Result<(), AllocError>
        ensures { self.new ≡ self.old }
    {
        self.places.reserve(additional)?;
        self.by_class.reserve(additional)
    }

    /// What is known of every list of imports; this does nothing.
    pub fn filed(&self)
        ensures { AreFiled self.now }
    {
        let _ = &self.led;
    }

    /// What is imported on a class of names, if anything is.
    pub fn kind_of(&self, class: &NameClass) -> Option<ItemKind>
        ensures { result ≡ option_map (λ i. i.1) (import_of self.now class.now) }
    {
        let import = self.get(class)?;
        Some(import.kind)
    }

    /// The name of the import to which a name leads; any other name is its own.
    pub fn canonical<'a>(&'a self, name: &'a str) -> &'a str
        ensures { result.now ≡ canonical self.now name.now }
    {
        let Some(class) = self.led.get(name) else {
            return name;
        };
        match self.get(class) {
            Some(import) => import.name.as_str(),
            None => name,
        }
    }

    /// The imports in order.
    pub fn iter(&self) -> Imports<'_>
        ensures { imports_left result ≡ listed_imports self.now }
    {
        Imports {
            places: self.places.iter(),
        }
    }

    /// Puts an import in the place of that of its name's class, or last.
    pub fn put(&mut self, class: NameClass, name: String, kind: ItemKind) -> Result<(), AllocError>
        requires of { class ≡ class_of (string_bytes name) }
        ensures import { OnOk result (PutsImport self.old self.new class (string_bytes name, kind)) }
        ensures order { OnOk result (self.new.list ≡ insert_entry class_eq self.old.list class (string_bytes name, kind)) }
        ensures led { self.new.led ≡ self.old.led }
    {
        let Some(place) = self.by_class.get(&class) else {
            return self.put_last(class, name, kind);
        };
        let place = *place;
        self.places[place] = Some(Import { name, kind });
        Ok(())
    }

    /// Puts an import of a class that has none last.
    pub fn put_last(
        &mut self,
        class: NameClass,
        name: String,
        kind: ItemKind,
    ) -> Result<(), AllocError>
        requires of { class ≡ class_of (string_bytes name) }
        requires new { import_of self.old class ≡ None }
        ensures import { OnOk result (PutsImport self.old self.new class (string_bytes name, kind)) }
        ensures order { OnOk result (self.new.list ≡ self.old.list ++ (class, (string_bytes name, kind)) ∷ []) }
        ensures led { self.new.led ≡ self.old.led }
    {
        let last = self.places.len();
        self.places.push(None)?;
        self.by_class.insert(class, last)?;
        self.places[last] = Some(Import { name, kind });
        Ok(())
    }

    /// Notes what the import of a name's class was merged to, for an item that was handed in under
    /// the name. Where that has a higher version it becomes the import's name, which goes last;
    /// else it leads to the import.
    pub fn note(
        &mut self,
        alloc: Global,
        class: NameClass,
        name: String,
        kind: ItemKind,
    ) -> Result<(), AllocError>
        requires of { class ≡ class_of (string_bytes name) }
        requires found { IsSome (import_of self.old class) }
        ensures { (i : ImportContent) → import_of self.old class ≡ Some i → OnOk result (IsImportNoted self.old self.new class i.0 (string_bytes name) kind) }
    {
        let import = self.get(&class).unwrap();
        if name == import.name {
            return self.put(class, name, kind);
        }
        if is_newer(alloc, name.as_str(), import.name.as_str())? {
            return self.raise(class, name, kind);
        }
        let was = import.name.clone()?;
        self.lead(name, class.clone()?)?;
        self.put(class, was, kind)
    }

    // The import of a class.
    fn get(&self, class: &NameClass) -> Option<&Import>
        ensures value { option_copied result ≡ import_of self.now class.now }
        ensures filed { AreFiled self.now }
    {
        let place = *self.by_class.get(class)?;
        self.places[place].as_ref()
    }

    // Gives the import of a class another name, to which the old one leads, and puts it last.
    fn raise(&mut self, class: NameClass, name: String, kind: ItemKind) -> Result<(), AllocError>
        requires of { class ≡ class_of (string_bytes name) }
        requires found { IsSome (import_of self.old class) }
        ensures import { OnOk result (PutsImport self.old self.new class (string_bytes name, kind)) }
        ensures led { (i : ImportContent) → import_of self.old class ≡ Some i → OnOk result (PutsName self.old self.new i.0 class) }
    {
        let was = self.move_last(&class, name, kind)?;
        self.lead(was, class)
    }

    // Puts the import of a class last, under another name, and answers its old one. That leaves an
    // empty place.
    fn move_last(
        &mut self,
        class: &NameClass,
        name: String,
        kind: ItemKind,
    ) -> Result<String, AllocError>
        requires of { class.now ≡ class_of (string_bytes name) }
        requires found { IsSome (import_of self.old class.now) }
        ensures import { OnOk result (PutsImport self.old self.new class.now (string_bytes name, kind)) }
        ensures was { (i : ImportContent) → import_of self.old class.now ≡ Some i → IfOk result (λ n. string_bytes n ≡ i.0) }
        ensures class { IfOk result (λ n. class.now ≡ class_of (string_bytes n)) }
        ensures led { self.new.led ≡ self.old.led }
    {
        let last = self.places.len();
        self.places.push(None)?;
        let place = self.by_class.get_mut(class).unwrap();
        let left = *place;
        *place = last;
        let import = take_import(&mut self.places, left);
        self.places[last] = Some(Import { name, kind });
        Ok(import.name)
    }

    // Lets a name lead to the import of its class.
    fn lead(&mut self, name: String, class: NameClass) -> Result<(), AllocError>
        requires of { class ≡ class_of (string_bytes name) }
        requires found { IsSome (import_of self.old class) }
        ensures imports { self.new.list ≡ self.old.list }
        ensures led { OnOk result (PutsName self.old self.new (string_bytes name) class) }
    {
        self.led.insert(name, class)?;
        Ok(())
    }
}

// Takes the import out of a place, which that empties.
fn take_import(places: &mut Vec<Option<Import>>, place: usize) -> Import
    requires { IsSome (import_in places.old.items place) }
    ensures import { import_in places.old.items place ≡ Some result }
    ensures emptied { places.new.items ≡ slice_set places.old.items place None }
{
    places[place].take().unwrap()
}
