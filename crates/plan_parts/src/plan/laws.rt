//! What holds of every plan, whatever was called on it.
//! Each law is the contract of a function that computes nothing.
ghost use Rattle.plan_parts.specs.PlanLaws.{FillWithinGivenAndLeastOnceTightened};

/// After every history, the plan's fill lies within the fill of the order last given;
/// and once tightened, every order whose fill lies within the plan's fill has that same fill.
pub fn fill_within_given_and_least_once_tightened()
    ensures { FillWithinGivenAndLeastOnceTightened }
{}
