//! What can be asked of a plan. No question changes anything.
ghost use Rattle.std.specs.Prelude.{◌≡◌, false, IfOk, Ok, slice_index};
ghost use Rattle.network.specs.Refusals.{outcome};
ghost use Rattle.elimination.specs.Elimination as elimination;
ghost use Rattle.elimination.specs.Orders.{position_of};
ghost use Rattle.plan_parts.specs.OrderLists.{order_written, room_for};
ghost use Rattle.plan_parts.specs.PlanStates.{Asks};
ghost use Rattle.plan_parts.specs.PlanStates.Question.{count_of, pair_filled, parent_of, position_of_station, refused_number, station_at_position, total_fill, whole_order};
ghost use Rattle.plan_parts.specs.PlanView.{view};
ghost use Rattle.plan_parts.specs.Reserves.{known};

use super::Plan;
use crate::orders::{in_range, position_in, station_in, write_order};
use network::Refusal;

impl Plan {
    /// The position of a station.
    pub fn position(&self, station: u16) -> Result<u16, Refusal>
        ensures value { outcome result ≡ known (view self.now).net.size station (Ok (position_of (view self.now).order station)) }
        ensures history { Asks (position_of_station station) (view self.now) }
    {
        position_in(self.elimination.order(), station)
    }

    /// The station at a position.
    pub fn station(&self, position: u16) -> Result<u16, Refusal>
        ensures value { outcome result ≡ known (view self.now).net.size position (Ok (slice_index (view self.now).order position)) }
        ensures history { Asks (station_at_position position) (view self.now) }
    {
        station_in(self.elimination.order(), position)
    }

    /// The parent of a station in the elimination tree; the last station has none. It looks at each later station at most once.
    pub fn parent(&self, station: u16) -> Result<Option<u16>, Refusal>
        ensures value { outcome result ≡ known (view self.now).net.size station (Ok (elimination.parent (view self.now).net.coupled (view self.now).order station)) }
        ensures history { Asks (parent_of station) (view self.now) }
    {
        in_range(station, self.size())?;
        Ok(self.elimination.parent(station))
    }

    /// Whether two stations form a filled pair; no station forms one with itself.
    #[tactic(auto, using(crate::proofs::Plans::pairs_apart))]
    pub fn filled(&self, a: u16, b: u16) -> Result<bool, Refusal>
        ensures value { outcome result ≡ known (view self.now).net.size a (known (view self.now).net.size b (Ok (elimination.filled (view self.now).net.coupled (view self.now).order a b))) }
        ensures same { a ≡ b → IfOk result (λ paired. paired ≡ false) }
        ensures history { Asks (pair_filled a b) (view self.now) }
    {
        in_range(a, self.size())?;
        in_range(b, self.size())?;
        Ok(self.elimination.pairs().contains(a as usize, b as usize))
    }

    /// How many filled pairs a station forms with later stations. It looks at each of those once.
    pub fn count(&self, station: u16) -> Result<u16, Refusal>
        ensures value { outcome result ≡ known (view self.now).net.size station (Ok (elimination.count (view self.now).net.coupled (view self.now).order station)) }
        ensures history { Asks (count_of station) (view self.now) }
    {
        in_range(station, self.size())?;
        Ok(self.elimination.count(station))
    }

    /// How many pairs are in the plan's fill: sixteen word steps for each station.
    pub fn total(&self) -> u32
        ensures value { result ≡ elimination.total (view self.now).net.size (view self.now).net.coupled (view self.now).order }
        ensures history { Asks total_fill (view self.now) }
    {
        self.elimination.total()
    }

    /// How many calls of load and seat were refused, at most 65,535.
    pub fn refused(&self) -> u16
        ensures value { result ≡ (view self.now).refused }
        ensures history { Asks refused_number (view self.now) }
    {
        self.refused
    }

    /// Writes the order to the front of a list: one step for each station.
    pub fn order(&self, out: &mut [u16]) -> Result<(), Refusal>
        ensures value { outcome result ≡ room_for (view self.now).net.size out.old }
        ensures written { out.new ≡ order_written (view self.now).net.size (view self.now).order out.old }
        ensures history { Asks whole_order (view self.now) }
    {
        write_order(self.elimination.order(), out)
    }
}
