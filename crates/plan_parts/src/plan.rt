//! The plan: the couplings of one network, an order of its stations, and the filled pairs of that order.
//! A plan whose pairs are not those of its order cannot exist.
use elimination::Elimination;

mod calls;
mod couplings;
pub(crate) mod laws;
pub(crate) mod plan_call;
mod questions;
pub(crate) mod replay;

/// The elimination of one network in some order, and how many calls were refused.
#[derive(Drop)]
pub struct Plan {
    elimination: Elimination,
    refused: u16,
}
