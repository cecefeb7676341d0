//! The parts of a pair of types: what is compared where one is asked to fit where the other is asked
//! for.
#![tactic(auto)]

pub(crate) mod composites;
pub(crate) mod leaves;
pub mod parts;
pub mod sides;
pub(crate) mod values;

pub use leaves::entry_at;
pub use parts::{EntryPair, Halt, PairPart, PairParts, PairSort};
pub use sides::{Sides, defined_at, func_at, interface_at, module_at, world_at};
