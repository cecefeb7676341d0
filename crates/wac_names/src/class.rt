//! The classes of names.

ghost use Rattle.std.specs.Prelude.{◌≡◌, IfOk};
ghost use Rattle.wac_names.specs.Class.{class_eq, class_from, class_of, class_writes};
ghost use Rattle.wac_names.specs.ClassLaws.{class_eq_equiv, classes_fed_alike};
ghost use Rattle.std.specs.Cmp.{partial_equiv_from_equiv};

use crate::track::track_of;
use smallvec::SmallVec;
use std::alloc::{AllocError, Global};
use std::hash::{Hash, Hasher};
use std::marker::Model;
use std::{fmt, str};

/// What a name is compatible with, as a key for an index: the classes of two names are equal
/// exactly where the names are compatible.
///
/// A text of up to 32 bytes asks for no memory, as of the interfaces of WASI: most classes are made
/// to look something up and are dropped again.
#[derive(Drop)]
pub struct NameClass {
    // Whether it is the class of the names on a track.
    on_track: bool,
    // The bytes of the track key, or of the one name of the class.
    text: SmallVec<u8, 32>,
}

impl Model for NameClass {
    ghost use Rattle.wac_names.specs.Class.{Class};

    ghost Value = { Class };

    ghost use Rattle.wac_names.specs.Class.{class_from};

    ghost view = { λ c. class_from c.on_track c.text.items };
}

impl NameClass {
    fn new(alloc: Global, on_track: bool, text: &str) -> Result<NameClass, AllocError>
        ensures { IfOk result (λ c. c ≡ class_from on_track text.now) }
    {
        let text = SmallVec::from_slice(alloc, text.as_bytes())?;
        Ok(NameClass { on_track, text })
    }

    /// The class of a name. `Err` is a failed allocation.
    pub fn of(alloc: Global, name: &str) -> Result<NameClass, AllocError>
        ensures { IfOk result (λ c. c ≡ class_of name.now) }
    {
        match track_of(alloc, name)? {
            Some(key) => NameClass::new(alloc, true, key),
            None => NameClass::new(alloc, false, name),
        }
    }
}

impl Clone for NameClass {
    ghost is_clone = { λ c d. d ≡ c };

    fn clone(&self) -> Result<NameClass, AllocError> {
        Ok(NameClass {
            on_track: self.on_track,
            text: SmallVec::from_slice(*self.text.allocator(), self.text.as_slice())?,
        })
    }
}

impl fmt::Debug for NameClass {
    fn fmt<W: fmt::Write>(&self, f: &mut fmt::Formatter<W>) -> fmt::Result {
        f.debug_struct("NameClass")
            .field("on_track", &self.on_track)
            .field("text", &str::from_utf8(self.text.as_slice()))
            .finish()
    }
}

impl PartialEq for NameClass {
    ghost eq = { class_eq };

    ghost laws = { partial_equiv_from_equiv class_eq_equiv };

    fn eq(&self, other: &NameClass) -> bool {
        self.on_track == other.on_track && self.text.as_slice() == other.text.as_slice()
    }
}

impl Eq for NameClass {
    ghost laws = { class_eq_equiv };
}

impl Hash for NameClass {
    ghost hash_input = { class_writes };

    ghost respects_eq = { classes_fed_alike };

    fn hash<H: Hasher>(&self, state: &mut H) {
        self.on_track.hash(state);
        state.write(self.text.as_slice());
        state.write(&[0xff]);
    }
}
