//! What stands where in files of WIT, for whoever judges refusals.
#![tactic(auto)]

mod bodies;
mod budget;
mod hints;
mod judge;
mod led;
mod naming;
mod paths;
mod type_items;
mod type_parts;

pub use bodies::{Body, PlacedBody};
pub use budget::{MAX_ITEMS, takes};
pub use hints::{MemberPlace, id_of};
pub use judge::{Judge, is_at};
pub use led::{LedTo, name_of};
pub use naming::{is_named, is_package_of};
pub use paths::{PlacedPath, Sought, SoughtPath, seeks_member};
pub use type_items::{
    NamedSignature, PlacedMethod, PlacedType, PlacedUse, gives, local_name, types_of, uses_of,
};
pub use type_parts::{PlacedName, WrittenType, parts_of, type_name, types_in_def};
