//! Looking for a walk along ids.

ghost use Rattle.std.specs.Prelude.{◌≡◌, ◌↔◌, map, IsTrue, OnOk, IfOk};
ghost use Rattle.wac_component.specs.Key.{Stands, AllStand, next};
ghost use Rattle.wac_component.specs.Naming.{key_of, Puts};
ghost use Rattle.wac_component.specs.Parts.{all_places, places_keys};
ghost use Rattle.wac_component.specs.Replacing.{NamesReach};

use super::Types;
use super::naming::{EntryId, id_at, named_ids, put_ids};
use crate::parts::{AllParts, NONE};
use indexmap::IndexSet;
use std::alloc::{AllocError, Global};

impl Types {
    // What an entry names.
    fn parts_at(&self, id: EntryId) -> AllParts<'_>
        requires { Stands self.now (key_of id) }
        ensures { places_keys (all_places result) ≡ next self.now (key_of id) }
    {
        match id {
            EntryId::Defined(id) => (self[id].parts(), NONE, NONE),
            EntryId::Resource(id) => (self[id].parts(), NONE, NONE),
            EntryId::Func(id) => self[id].parts(),
            EntryId::Interface(id) => self[id].parts(),
            EntryId::World(id) => self[id].parts(),
            EntryId::Module(_) => (NONE, NONE, NONE),
        }
    }

    /// What an entry names, in order.
    pub fn ids_in(&self, alloc: Global, id: EntryId) -> Result<Vec<EntryId>, AllocError>
        requires { Stands self.now (key_of id) }
        ensures { IfOk result (λ ids. map key_of ids.items ≡ next self.now (key_of id)) }
    {
        named_ids(alloc, &self.parts_at(id))
    }

    // Puts those ids in an entry last that aren't there.
    fn put_named(&self, reached: &mut IndexSet<EntryId>, id: EntryId) -> Result<(), AllocError>
        requires { Stands self.now (key_of id) }
        ensures { OnOk result (Puts (next self.now (key_of id)) (map key_of reached.old.keys) (map key_of reached.new.keys)) }
    {
        let named = self.ids_in(*self.defined.allocator(), id)?;
        put_ids(reached, &named)
    }

    // Whether a walk along ids leads from one of these to another. Each id is gone through once.
    pub(crate) fn names_lead_to(&self, ids: &[EntryId], target: EntryId) -> Result<bool, AllocError>
        requires { AllStand self.now (map key_of ids.now) }
        ensures { IfOk result (λ leads. IsTrue leads ↔ NamesReach self.now (map key_of ids.now) (key_of target)) }
    {
        let mut reached = IndexSet::new(*self.defined.allocator());
        put_ids(&mut reached, ids)?;
        let mut next = 0;
        while next < reached.len() {
            let id = id_at(&reached, next);
            if id == target {
                return Ok(true);
            }
            self.put_named(&mut reached, id)?;
            next += 1;
        }
        Ok(false)
    }
}
