//! The tests, by what they call, and what they share.

mod aggregating;
mod bounding;
mod cases;
mod changing;
mod cloning;
mod comparing;
mod displaying;
mod entries;
mod filling;
mod handing;
mod judging;
mod naming;
mod packaging;
mod targeting;
mod trial;
mod without_memory;
