//! Sessions: scripts that go on, each held by its `Handle`.

ghost use Rattle.std.specs.Prelude.{◌≡◌};
ghost use denote.RawPtr.{null_ptr};
ghost use Rattle.std.specs.declared.option.Option.TheVariants.{None};
ghost use Rattle.wac_c_calls.specs.Sessions.{IsSessionBegun, IsSessionKept};

use super::answer::{NO_MEMORY, NO_SESSION};
use super::handle::Handle;
use super::raw_box::RawBox;
use super::scripts::{ask, feed};
use std::alloc::Global;
use std::mem::replace;
use wac_script_program::Dialogue;

/// Begins a session; one that is there is ended. Gives 0, or the number for want of memory.
pub fn session_new(alloc: Global, session: &mut Handle) -> isize
    ensures { IsSessionBegun session.old.value session.new.value result }
{
    match Box::new(alloc, Dialogue::new(alloc)) {
        Ok(dialogue) => {
            *session = Handle::of(RawBox::of(dialogue));
            0
        }
        Err(_) => NO_MEMORY,
    }
}

/// Carries out lines, after all that were carried out before, and keeps what they answer. Gives the
/// length of that.
pub fn session_feed(alloc: Global, session: &mut Handle, script: &[u8]) -> isize
    ensures kept { IsSessionKept session.old.value session.new.value result }
    ensures same_pointer { session.new.at ≡ session.old.at }
{
    let Some(mut dialogue) = replace(session, Handle::empty(alloc)).into_raw_box() else {
        return NO_SESSION;
    };
    let length = feed(alloc, dialogue.get(), script);
    *session = Handle::of(dialogue);
    length
}

/// The same, with the answer; of no lines, the answer that is kept.
pub fn session_ask(alloc: Global, session: &mut Handle, script: &[u8], out: &mut [u8]) -> isize
    ensures kept { IsSessionKept session.old.value session.new.value result }
    ensures same_pointer { session.new.at ≡ session.old.at }
{
    let Some(mut dialogue) = replace(session, Handle::empty(alloc)).into_raw_box() else {
        return NO_SESSION;
    };
    let length = ask(alloc, dialogue.get(), script, out);
    *session = Handle::of(dialogue);
    length
}

/// Ends a session, if there is one.
pub fn session_free(alloc: Global, session: &mut Handle)
    ensures { (session.new.value ≡ None) × (session.new.at ≡ null_ptr) }
{
    *session = Handle::empty(alloc);
}
