//! Interfaces that are taken out of their entries, to grow, and put back. Nothing is cloned, and
//! nothing is gone through but what is new.

ghost use Rattle.std.specs.Prelude.{◌≡◌, ◌↔◌, ◌++◌, Some, slice_get, slice_set, map, IsTrue, IfOk};
ghost use Rattle.wac_component.specs.Content.{named, use_content, interface_content};
ghost use Rattle.wac_component.specs.Key.{Stands, AllStand, interface_key, interface_keys, item_keys, named_keys, use_keys};
ghost use Rattle.wac_component.specs.Naming.{key_of};
ghost use Rattle.wac_component.specs.Replacing.{NamesReach};
ghost use Rattle.wac_component.specs.TakenOut.{without_content};

use super::Types;
use super::naming::{EntryId, named_ids};
use crate::parts::{NONE, Parts};
use crate::{Interface, InterfaceId, ItemKind, UsedType};
use indexmap::IndexMap;
use std::alloc::{AllocError, Global};
use std::mem;

/// The ids in uses and exports, in order.
pub fn contents_ids(
    alloc: Global,
    uses: &IndexMap<String, UsedType>,
    exports: &IndexMap<String, ItemKind>,
) -> Result<Vec<EntryId>, AllocError>
    ensures { IfOk result (λ ids. map key_of ids.items ≡ named_keys use_keys (named use_content uses.now.entries) ++ named_keys item_keys (named (λ k. k) exports.now.entries)) }
{
    named_ids(alloc, &(Parts::Uses(uses), Parts::Items(exports), NONE))
}

/// Whether a walk along ids leads from one of these to an interface.
pub fn lead_to(types: &Types, ids: &[EntryId], id: InterfaceId) -> Result<bool, AllocError>
    requires { AllStand types.now (map key_of ids.now) }
    ensures { IfOk result (λ leads. IsTrue leads ↔ NamesReach types.now (map key_of ids.now) (interface_key id)) }
{
    types.names_lead_to(ids, EntryId::Interface(id))
}

/// Takes an interface out of its entry, which is left with one that has no identifier, and uses and
/// exports nothing.
pub fn take_out(types: &mut Types, id: InterfaceId) -> Interface
    requires { Stands types.old (interface_key id) }
    ensures content { slice_get types.old.interfaces id.index ≡ Some (interface_content result) }
    ensures left { types.new ≡ without_content types.old id }
{
    types.take_interface(id)
}

/// Puts an interface into an entry, from which no id in it leads back there.
pub fn put_back(types: &mut Types, id: InterfaceId, interface: Interface)
    requires id { Stands types.old (interface_key id) }
    requires named { AllStand types.old (interface_keys (interface_content interface)) }
    requires acyclic { ¬ (NamesReach types.old (interface_keys (interface_content interface)) (interface_key id)) }
    ensures { types.new ≡ record types.old { interfaces = slice_set types.old.interfaces id.index (interface_content interface) } }
{
    types.put_interface(id, interface);
}

impl Types {
    // Takes an interface out of its entry.
    fn take_interface(&mut self, id: InterfaceId) -> Interface
        requires { Stands self.old (interface_key id) }
        ensures content { slice_get self.old.interfaces id.index ≡ Some (interface_content result) }
        ensures left { self.new ≡ without_content self.old id }
    {
        let empty = Interface::new(*self.defined.allocator());
        mem::replace(&mut self.interfaces[id.index()], empty)
    }

    // Puts an interface into an entry.
    fn put_interface(&mut self, id: InterfaceId, interface: Interface)
        requires id { Stands self.old (interface_key id) }
        requires named { AllStand self.old (interface_keys (interface_content interface)) }
        requires acyclic { ¬ (NamesReach self.old (interface_keys (interface_content interface)) (interface_key id)) }
        ensures { self.new ≡ record self.old { interfaces = slice_set self.old.interfaces id.index (interface_content interface) } }
    {
        self.interfaces[id.index()] = interface;
    }
}
