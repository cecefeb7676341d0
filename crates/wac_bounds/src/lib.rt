//! Greatest lower bounds (meets) and least upper bounds (joins) of the trees of `wac_model`, in the
//! order "fits".
#![tactic(auto)]

pub mod laws;
