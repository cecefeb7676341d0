//! What is handed in, as it is noted.

ghost use Rattle.std.specs.Prelude.{◌≡◌, IfOk};
ghost use Rattle.wac_names.specs.Class.{class_of};

use smallvec::SmallVec;
use std::alloc::{AllocError, Global};
use std::marker::Model;
use wac_component::InterfaceId;
use wac_names::NameClass;

/// An interface that was handed in, and the name that it was handed in under with the class of
/// that: mostly its identifier, whose class is asked for once more while it is taken in.
///
/// A name of up to 32 bytes asks for no memory.
#[derive(Debug, Drop)]
pub struct HandedIn {
    interface: InterfaceId,
    // The bytes of the name.
    name: SmallVec<u8, 32>,
    class: NameClass,
}

impl Model for HandedIn {
    ghost use Rattle.wac_component.specs.Id.{Id};

    ghost Value = { Id };

    ghost use Rattle.std.specs.Prelude.{◌≡◌};
    ghost use Rattle.wac_names.specs.Class.{class_of};

    ghost view = { λ h. h.interface };

    ghost invariant = { λ h. h.class ≡ class_of h.name.items };
}

impl HandedIn {
    /// An interface that is handed in under a name of this class.
    pub fn new(
        alloc: Global,
        interface: InterfaceId,
        name: &str,
        class: &NameClass,
    ) -> Result<HandedIn, AllocError>
        requires of { class.now ≡ class_of name.now }
        ensures { IfOk result (λ h. h ≡ interface) }
    {
        Ok(HandedIn {
            interface,
            name: SmallVec::from_slice(alloc, name.as_bytes())?,
            class: class.clone()?,
        })
    }

    // The interface.
    pub(crate) fn interface(&self) -> InterfaceId
        ensures { result ≡ self.now }
    {
        self.interface
    }

    // The class of a name: a clone, where this is the one that it was handed in under.
    pub(crate) fn class_of(&self, alloc: Global, name: &str) -> Result<NameClass, AllocError>
        ensures { IfOk result (λ c. c ≡ class_of name.now) }
    {
        if self.name.as_slice() == name.as_bytes() {
            return self.class.clone();
        }
        NameClass::of(alloc, name)
    }
}
