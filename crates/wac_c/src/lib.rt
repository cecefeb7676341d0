//! The library for C: texts in, texts out, and sessions, which are scripts that go on.
//! `include/wac.h` declares its functions, and says what each one does; what they do is in
//! `wac_c_calls`.
#![tactic(auto)]

ghost use Rattle.std.specs.Prelude.{◌≡◌};
ghost use denote.RawPtr.{null_ptr};
ghost use Rattle.std.specs.declared.option.Option.TheVariants.{None};
ghost use Rattle.wac_c_calls.specs.Sessions.{IsSessionBegun, IsSessionKept};

use std::alloc::Global;
use wac_c_calls::{
    Handle, answer_script, compat, merge, put, session_ask, session_feed, session_free,
    session_new, targets,
};

// The version of this library, which is that of the Rust crate whose calls it has.
const VERSION: &str = "0.11.0";

/// Gives the version of this library, as `0.11.0`.
#[unsafe(no_mangle)]
pub extern "C" fn wac_version(out: &mut [u8]) -> isize {
    put(VERSION.as_bytes(), out)
}

/// Gives the answers of a script.
#[unsafe(no_mangle)]
pub extern "C" fn wac_answer_script(alloc: Global, script: &[u8], out: &mut [u8]) -> isize {
    answer_script(alloc, script, out)
}

/// Begins a session; one that is there is ended. Gives 0, or `WAC_NO_MEMORY`.
#[unsafe(no_mangle)]
pub extern "C" fn wac_session_new(alloc: Global, session: &mut Handle) -> isize
    ensures { IsSessionBegun session.old.value session.new.value result }
{
    session_new(alloc, session)
}

/// Carries out lines of a session, and gives the length of what they answer.
#[unsafe(no_mangle)]
pub extern "C" fn wac_session_feed(alloc: Global, session: &mut Handle, script: &[u8]) -> isize
    ensures kept { IsSessionKept session.old.value session.new.value result }
    ensures same_pointer { session.new.at ≡ session.old.at }
{
    session_feed(alloc, session, script)
}

/// The same, with the answer; of no lines, the answer that is kept.
#[unsafe(no_mangle)]
pub extern "C" fn wac_session_ask(
    alloc: Global,
    session: &mut Handle,
    script: &[u8],
    out: &mut [u8],
) -> isize
    ensures kept { IsSessionKept session.old.value session.new.value result }
    ensures same_pointer { session.new.at ≡ session.old.at }
{
    session_ask(alloc, session, script, out)
}

/// Ends a session, if there is one.
#[unsafe(no_mangle)]
pub extern "C" fn wac_session_free(alloc: Global, session: &mut Handle)
    ensures { (session.new.value ≡ None) × (session.new.at ≡ null_ptr) }
{
    session_free(alloc, session)
}

/// Says whether the packages of the text `new` serve whoever was built against those of `old`.
#[unsafe(no_mangle)]
pub extern "C" fn wac_compat(alloc: Global, old: &[u8], new: &[u8], out: &mut [u8]) -> isize {
    compat(alloc, old, new, out)
}

/// Says whether a component that imports and exports all of a world of the text `wit` runs where a
/// world of the text `target_wit` is the target.
#[unsafe(no_mangle)]
pub extern "C" fn wac_targets(
    alloc: Global,
    world: &[u8],
    wit: &[u8],
    target: &[u8],
    target_wit: &[u8],
    out: &mut [u8],
) -> isize {
    targets(alloc, (world, wit), (target, target_wit), out)
}

/// Merges the imports of components of worlds, whose names stand in `worlds` with blanks between
/// them.
#[unsafe(no_mangle)]
pub extern "C" fn wac_merge(alloc: Global, worlds: &[u8], wit: &[u8], out: &mut [u8]) -> isize {
    merge(alloc, worlds, wit, out)
}
