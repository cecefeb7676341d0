//! What the functions of the library for C do, which `wac_c` gives C under their names there.
//!
//! An answer goes into the caller's buffer. A function gives the length of the whole answer, in
//! bytes, also where the buffer has no room for it: then the bytes that fit stand in it, and the
//! caller can ask again with more room. Where there is no answer the number is negative, and the
//! buffer is as it was.
#![tactic(auto)]

mod answer;
mod handle;
mod packages;
mod raw_box;
mod scripts;
mod sessions;

pub use answer::put;
pub use handle::Handle;
pub use packages::{compat, merge, targets};
pub use scripts::answer_script;
pub use sessions::{session_ask, session_feed, session_free, session_new};
