//! Goes along the path of a check through the syntax that its types were made of, so that each no
//! has a place in the sources of both sides.
//!
//! [`PackageSources`] has the interfaces and worlds of files by their identifiers, a [`Map`] a collection
//! beside them, a [`SourceWalk`] is a position on a path and a [`SourceSide`] one of the two sides of a check:
//! [`SourceSide::at_end`] follows the frames of an error, and [`places_of`] finds the function, field,
//! case or parameter that its fault speaks of.
#![tactic(auto)]

mod members;
mod parts;
mod sides;
mod sources;
mod walking;

pub use sides::{SourceSide, places_of};
pub use sources::{FilePlace, PackageSources, syntax_of};
pub use walking::{Map, SourceWalk};
