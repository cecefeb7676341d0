//! Names with versions, the tracks that they stand on, and maps that are read by track.
//!
//! A name of an import or an export may end in a version, as `wasi:http/types@0.2.3`. Names whose
//! versions are compatible stand on one track: one of them may serve where another is asked for.
#![tactic(auto)]

mod class;
mod error;
mod intern;
pub mod laws;
mod name_map;
mod track;

pub use class::NameClass;
pub use error::NameError;
pub use intern::{NameMapIntern, NameMapNoIntern};
pub use name_map::NameMap;
pub use track::{are_semver_compatible, read_version, track_of, version_cmp};
