//! The word by which C holds a script that goes on.

ghost use Rattle.std.specs.Prelude.{◌≡◌};
ghost use denote.RawPtr.{null_ptr};
ghost use Rattle.std.specs.Option.{MatchOption};
ghost use Rattle.std.specs.declared.option.Option.{Option as Maybe};
ghost use Rattle.std.specs.declared.option.Option.TheVariants.{None, Some};
ghost use Rattle.std.specs.contracts.option.Option.{the_row as option_row};
ghost use Rattle.wac_script_program.specs.declared.dialogue.Dialogue.{Dialogue as DialogueValue};
ghost use Rattle.wac_script_program.specs.contracts.dialogue.Dialogue.{the_row as dialogue_row};
ghost use Rattle.wac_c_calls.specs.Ownership.{handle_owns};

use super::raw_box::RawBox;
use std::alloc::Global;
use std::marker::Model;
use std::ptr::null_mut;
use wac_script_program::Dialogue;

/// A `wac_session` of C: the pointer of a script that goes on, or null for none.
#[repr(C)]
pub struct Handle {
    at: *mut (),
    alloc: Global,
    pub(crate) ghost value: { Maybe DialogueValue } by { (option_row dialogue_row).coded },
}

impl Model for Handle {
    ghost also_owns = { λ h. handle_owns dialogue_row h.alloc h.at h.value };
}

impl Handle {
    /// No script.
    pub(crate) fn empty(alloc: Global) -> Handle
        ensures { (result.value ≡ None) × (result.at ≡ null_ptr) }
    {
        Handle {
            at: null_mut(),
            alloc,
        }
    }

    /// This script.
    pub(crate) fn of(dialogue: RawBox<Dialogue, Global>) -> Handle
        ensures { (result.value ≡ Some dialogue.value) × (result.at ≡ dialogue.at) }
    {
        let RawBox { at, alloc } = dialogue;
        Handle {
            at: at as *mut (),
            alloc,
        }
    }

    /// The script, if there is one.
    pub(crate) fn into_raw_box(self) -> Option<RawBox<Dialogue, Global>>
        ensures { MatchOption result ((self.value ≡ None) × (self.at ≡ null_ptr)) (λ b. (self.value ≡ Some b.value) × (self.at ≡ b.at)) }
    {
        let Handle { at, alloc } = self;
        if at.is_null() {
            None
        } else {
            Some(RawBox {
                at: at as *mut Dialogue,
                alloc,
            })
        }
    }
}

// Ends the script, if there is one.
impl Drop for Handle {
    fn drop(self) {
        match self.into_raw_box() {
            None => {}
            Some(dialogue) => drop(dialogue.into_box()),
        }
    }
}
