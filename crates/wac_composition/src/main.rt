//! The program `wac-composition`: composes three components, and prints what
//! the library says of each step.
#![tactic(auto)]

mod building;
mod checking;
mod component;
mod composition;
mod failure;
mod graph;
mod merging;
mod orders;
mod packages;
mod targets;

use composition::compose;
use failure::CompositionFailure;
use std::alloc::{AllocError, Global};
use std::io;
use wac_types::PrimitiveType;

fn main(rt: HostRuntime) -> io::Result<()> {
    match both_compositions(rt.alloc()) {
        Ok(text) => print!(rt; "{text}"),
        Err(CompositionFailure::Missing) => Err(io::Error::from(io::ErrorKind::NotFound)),
        Err(CompositionFailure::Memory) => Err(io::Error::from(AllocError)),
    }
}

// What is said of the composition whose client has texts as the others do,
// and of one whose client doesn't.
fn both_compositions(alloc: Global) -> Result<String, CompositionFailure> {
    let mut text = String::new(alloc);
    text.push_str("With a client whose texts are strings:\n")?;
    compose(alloc, &mut text, PrimitiveType::String)?;
    text.push_str("With a client whose texts are single characters:\n")?;
    compose(alloc, &mut text, PrimitiveType::Char)?;
    Ok(text)
}
