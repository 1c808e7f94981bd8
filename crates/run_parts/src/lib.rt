//! Parts of the run over a reserve: kinds of entry, the states of a run, and what holds of every history of one.
//! An inner crate: no user calls it. Entries and marks lie in two tables that the caller lends to each call.
#![tactic(auto)]

mod kinds;
pub mod laws;
mod pivots;
mod states;
mod tables;

pub use kinds::{Entry, Level, Minutes};
pub use states::{Ended, Loading, Running, Step, start};
