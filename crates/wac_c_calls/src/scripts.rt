//! Scripts that are answered, all at once or piece by piece.

use super::answer::{NO_MEMORY, NO_TEXT, length_of, put, text_of};
use std::alloc::Global;
use wac_script_program::Dialogue;

/// Gives the answers of a script, as `wac-replay` prints them: a line or more for each question. A
/// line that is malformed, or that names what isn't there, ends them, with a last line that says
/// its number and what is wrong with it.
pub fn answer_script(alloc: Global, script: &[u8], out: &mut [u8]) -> isize {
    ask(alloc, &mut Dialogue::new(alloc), script, out)
}

/// Carries out a piece of a script, and gives the length of its answer, or why there is none.
pub(crate) fn feed(alloc: Global, dialogue: &mut Dialogue, script: &[u8]) -> isize {
    if text_of(script).is_err() {
        return NO_TEXT;
    }
    match dialogue.feed(alloc, script) {
        Ok(()) => length_of(dialogue.answer()),
        Err(_) => NO_MEMORY,
    }
}

/// The same, and writes what fits of the answer into a buffer. Of no bytes nothing is carried out,
/// and the answer is the last one.
pub(crate) fn ask(alloc: Global, dialogue: &mut Dialogue, script: &[u8], out: &mut [u8]) -> isize {
    if !script.is_empty() {
        let length = feed(alloc, dialogue, script);
        if length < 0 {
            return length;
        }
    }
    put(dialogue.answer(), out)
}
