//! What names become.

ghost use Rattle.std.specs.Prelude.{◌≡◌, ◌≢◌, [], IfOk, None, OnOk, Some, string_bytes};
ghost use Rattle.std.specs.Option.{option_map};
ghost use Rattle.wac_model.specs.Text.{Text};
ghost use Rattle.wac_wit_validation_types.specs.Denoted.{renamed};
ghost use Rattle.wac_wit_validation_types.specs.Reading.{AreNamesBy, IsComposed, new_name, new_name_or};
ghost use Rattle.wac_wit_scopes.specs.WitSources.{ident_text};

use super::names::local_name;
use indexmap::IndexMap;
use std::alloc::{AllocError, Global};
use wac_wit_syntax::{Extern, ExternItem, Ident, Rename, WorldItem};

/// The names that names become.
pub struct NewNames<'v> {
    /// What each becomes.
    pub names: IndexMap<String, &'v Ident>,
}

impl Drop for NewNames<'_> {
    fn drop(self) {
        let NewNames { names: _ } = self;
    }
}

impl<'v> NewNames<'v> {
    /// None yet.
    pub fn new(alloc: Global) -> NewNames<'v>
        ensures { (n : Text) → new_name result n ≡ None }
    {
        NewNames {
            names: IndexMap::new(alloc),
        }
    }

    /// What a name becomes, if that is known.
    pub fn get(&self, name: &str) -> Option<&'v Ident>
        ensures { option_map (λ i. ident_text i.now) result ≡ new_name self.now name.now }
    {
        self.names.get(name).copied()
    }

    // What a name becomes, or that name.
    fn renamed(&self, name: &'v Ident) -> &'v Ident
        ensures { ident_text result.now ≡ new_name_or self.now (ident_text name.now) }
    {
        match self.get(&name.name) {
            Some(new) => new,
            None => name,
        }
    }

    // Says what a name becomes.
    fn put(&mut self, name: &String, new: &'v Ident) -> Result<(), AllocError>
        ensures same { OnOk result (new_name self.new (string_bytes name.now) ≡ Some (ident_text new.now)) }
        ensures others { OnOk result ((n : Text) → n ≢ string_bytes name.now → new_name self.new n ≡ new_name self.old n) }
    {
        self.names.insert(name.clone()?, new)?;
        Ok(())
    }

    /// What an `include` says that names become: of two for one name, the first counts.
    pub fn of_include(alloc: Global, renames: &'v [Rename]) -> Result<NewNames<'v>, AllocError>
        ensures { IfOk result (λ m. (n : Text) → new_name_or m n ≡ renamed renames.now n) }
    {
        let mut names = NewNames::new(alloc);
        for index in (0..renames.len()).rev() {
            if let Some(rename) = renames.get(index) {
                names.put(&rename.name.name, local_name(rename))?;
            }
        }
        Ok(names)
    }

    /// The same, where what names become is something else once more.
    pub fn then(&self, alloc: Global, by: &NewNames<'v>) -> Result<NewNames<'v>, AllocError>
        ensures { IfOk result (IsComposed self.now by.now) }
    {
        let mut names = NewNames::new(alloc);
        for (name, _) in &self.names {
            if let Some(new) = self.get(name) {
                names.put(name, by.renamed(new))?;
            }
        }
        Ok(names)
    }

    /// Notes that names of an item become what they are.
    pub fn note_item(&mut self, item: &'v WorldItem) -> Result<(), AllocError>
        ensures { OnOk result (AreNamesBy self.old [] → AreNamesBy self.new []) }
    {
        match item {
            WorldItem::Use(it) => self.note_used(&it.names),
            WorldItem::Type(it) => self.note(&it.name),
            WorldItem::Import(it) => self.note_extern(it),
            WorldItem::Export(it) => self.note_extern(it),
            WorldItem::Include(_) => Ok(()),
        }
    }

    fn note_used(&mut self, renames: &'v [Rename]) -> Result<(), AllocError>
        ensures { OnOk result (AreNamesBy self.old [] → AreNamesBy self.new []) }
    {
        for rename in renames {
            self.note(local_name(rename))?;
        }
        Ok(())
    }

    fn note_extern(&mut self, item: &'v ExternItem) -> Result<(), AllocError>
        ensures { OnOk result (AreNamesBy self.old [] → AreNamesBy self.new []) }
    {
        match &item.what {
            Extern::Func(name, _) => self.note(name),
            Extern::Inline(name, _) => self.note(name),
            _ => Ok(()),
        }
    }

    fn note(&mut self, name: &'v Ident) -> Result<(), AllocError>
        ensures { OnOk result (AreNamesBy self.old [] → AreNamesBy self.new []) }
    {
        self.put(&name.name, name)
    }
}
