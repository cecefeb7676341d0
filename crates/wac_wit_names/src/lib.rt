//! Looks up the names in the syntax trees of WIT packages: all packages with the interfaces and the
//! worlds in them, where paths lead, which items are there, and in which order things stand. What
//! is wrong is noted, up to some twenty refusals of one run.
#![tactic(auto)]

mod catalog;
mod error;
mod features;
mod gates;
mod names;
mod nearest;
mod nodes;
mod ordering;
mod places;
mod reason;
mod refusals;
mod sources;
mod taken;
mod texts;

pub use catalog::{Catalog, Decl, Node, Package, Scope, UsedName};
pub use error::{Fault, WitError, WitRefusal};
pub use features::Features;
pub use nearest::Nearest;
pub use places::FoundPlace;
pub use reason::Reason;
pub use refusals::{MAX_REFUSALS, Refusals};
pub use sources::SourceFile;
pub use taken::Taken;
pub use texts::joined;
