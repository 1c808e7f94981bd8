//! Elimination of stations: sets of pairs, orders, filled pairs, and the algorithms that find orders with little fill.
//! An inner crate: the plan stands on it, and no user calls it.
#![tactic(auto)]

mod dropping;
mod engine;
pub mod examples;
mod filling;
mod order;
mod pair_set;
mod perfect;
pub mod theory;
mod tree;
mod words;

pub use dropping::{drop_spare, is_spare};
pub use engine::Elimination;
pub use filling::filled_pairs;
pub use order::EliminationOrder;
pub use pair_set::{PairSet, RowMembers};
pub use perfect::perfect_order;
pub use tree::{count_beyond, later_neighbours, parent_in};
