//! Orders of stations: each of `size` stations once, with the position of each.
//! An order that does not name each station once cannot exist.
ghost use Rattle.std.specs.Prelude.{◌≤◌};
ghost use Rattle.elimination.specs.Kept.{Found, Named, Placed};

mod calls;

/// An order in which stations leave.
#[derive(Clone, Copy)]
pub struct EliminationOrder {
    size: u16,
    // Memory is fixed: places for 512 stations.
    stations: [u16; 512],
    positions: [u16; 512],
    ghost few: { size ≤ 512 },
    ghost named: { Named size stations },
    ghost found: { Found size stations positions },
    ghost placed: { Placed size stations positions },
}
