//! What the names of interfaces and worlds stand for: each for one thing, which comes from where an entry says.
#![tactic(auto)]

mod ambiguity;
mod given;
mod layers;
mod noted;
mod once;
mod own;
mod places;
mod worlds_once;

pub use ambiguity::give_names_once;
pub use given::{NamePlace, is_enabled};
pub use layers::{Layer, push_renamed, themselves};
pub use noted::{NotedUses, have_owners, have_roots, tells_names, tells_type};
pub use once::all_give_once;
pub use own::own_types;
pub use places::{FoundInterface, ItemPlace};
pub use worlds_once::layers_give_once;
