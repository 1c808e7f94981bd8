//! The reserve: an order, the filled pairs by positions in it, and where each column begins.
//! A reserve that is not closed cannot exist.
ghost use Rattle.std.specs.Prelude.{◌≤◌};
ghost use Rattle.elimination.specs.View.{graph};
ghost use Rattle.plan_parts.specs.Layout.{Closed};
ghost use Rattle.plan_parts.specs.Reserves.{Begins, Below, Irreflexive, Symmetric};

use elimination::{EliminationOrder, PairSet};

mod calls;
pub(crate) mod column;
pub(crate) mod laws;
mod parts;

/// A place for each station and each filled pair of one order.
#[derive(Drop)]
pub struct Reserve {
    order: EliminationOrder,
    pairs: PairSet,
    // Memory is fixed: 512 columns at most, and the end of the last.
    starts: [u32; 513],
    ghost some: { 1 ≤ order.size },
    ghost symmetric: { Symmetric (graph pairs) },
    ghost irreflexive: { Irreflexive (graph pairs) },
    ghost below: { Below (graph pairs) order.size },
    ghost closed: { Closed (graph pairs) order.size },
    ghost begins: { Begins (graph pairs) order.size starts },
}
