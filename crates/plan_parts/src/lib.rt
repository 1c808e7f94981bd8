//! Parts of the plan: one network's couplings, an order and the filled pairs of that order; and the reserve frozen from it.
//! An inner crate: no user calls it. Its calls become public together with the run's and with what holds of them all.
#![tactic(auto)]

mod orders;
mod plan;
mod reserve;
mod through;

pub use plan::Plan;
pub use plan::laws::fill_within_given_and_least_once_tightened;
pub use plan::plan_call::PlanCall;
pub use plan::replay::replay_plan;
pub use reserve::Reserve;
pub use reserve::column::Column;
pub use reserve::laws::{
    filled_pairs_are_grounded, filled_places_are_closed, places_for_filled_pairs,
    places_have_no_gap,
};
