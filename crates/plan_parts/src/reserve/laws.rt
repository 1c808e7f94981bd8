//! What holds of the reserves of orders: which pairs have places, and why.
//! Each law is the contract of a function that computes nothing.
ghost use Rattle.plan_parts.specs.Layout.{NoGap};
ghost use Rattle.plan_parts.specs.ReserveLaws.{FilledPairsAreGrounded, FilledPlacesAreClosed, PlacesForFilledPairs};

/// The places of every reserve are numbered from 0 without gap and without repeat.
pub fn places_have_no_gap()
    ensures { NoGap }
{}

/// In the reserve of an order, two stations have a place exactly if they are the same one or form a filled pair.
pub fn places_for_filled_pairs()
    ensures { PlacesForFilledPairs }
{}

/// In the reserve of an order, two later stations with a place in one column have one for their own pair.
pub fn filled_places_are_closed()
    ensures { FilledPlacesAreClosed }
{}

/// Every filled pair is a coupling, or an earlier station forms filled pairs with both.
pub fn filled_pairs_are_grounded()
    ensures { FilledPairsAreGrounded }
{}
