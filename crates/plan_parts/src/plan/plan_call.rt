//! The calls that change a plan, as values that can be listed.

/// One call of a plan.
#[derive(Clone, Copy)]
pub enum PlanCall<'a> {
    /// Makes a list the plan's order.
    Load(&'a [u16]),
    /// Leaves an order with a minimal fill.
    Tighten,
    /// Leaves an order with this station last.
    Seat(u16),
}
