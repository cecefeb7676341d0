//! The laws of the library, by what they are about. Each is the contract of a function that does
//! nothing.

pub use wac_aggregator_narrowing::laws::pairs_are_remembered_truly;
pub use wac_aggregator_promises::laws as lists;
pub use wac_bounds::laws as bounds;
pub use wac_checker::laws as checks;
pub use wac_component::laws as collections;
pub use wac_mismatch::laws as mismatches;
pub use wac_model::laws as trees;
pub use wac_names::laws as names;
pub use wac_package::laws as packages;
