//! How plans are made and changed.
//! Every order that is put in place comes with its filled pairs.
ghost use Rattle.std.specs.Prelude.{◌≡◌, ◌<◌, false, [], is_err, if◌then◌else◌, Ok, nat_lt};
ghost use Rattle.network.specs.Orders.{order_fault};
ghost use Rattle.network.specs.Refusals.{outcome, unless};
ghost use Rattle.elimination.specs.Elimination.{filled};
ghost use Rattle.elimination.specs.Orders.{up_to};
ghost use Rattle.elimination.specs.View.{listed};
ghost use Rattle.plan_parts.specs.PlanStates.{Extends, PlanHistory, Seats, Tightens, after_load, one_refused, opening, with_order};
ghost use Rattle.plan_parts.specs.PlanStates.Asked.{freeze_call, load_call, seat_call, tighten_call};
ghost use Rattle.plan_parts.specs.PlanView.{view};
ghost use Rattle.plan_parts.specs.Reserves.{by_position, known};
ghost use Rattle.plan_parts.specs.ReserveView.{filled_in, order_in, size_in};

use super::Plan;
use super::couplings::couplings_of;
use crate::orders::in_range;
use crate::reserve::Reserve;
use elimination::{Elimination, EliminationOrder};
use network::{Network, Refusal};

impl Plan {
    /// The plan of a network, with the order 0, 1, .. of its stations. It asks the network n(n - 1)/2 times, and never again.
    pub fn open<N: Network>(network: &N) -> Plan
        ensures state { view result ≡ opening (N.Network.meaning network.now) }
        ensures history { PlanHistory [] (up_to (N.Network.meaning network.now).size) false (view result) }
    {
        let order = EliminationOrder::rising(network.size());
        Plan {
            elimination: Elimination::of(couplings_of(network), order),
            refused: 0,
        }
    }

    /// How many stations there are.
    pub(super) fn size(&self) -> u16
        ensures { result ≡ (view self.now).net.size }
    {
        self.elimination.order().size()
    }

    /// Puts another order of the same stations in place, with its filled pairs.
    fn settle(&mut self, order: EliminationOrder)
        requires { order.size ≡ (view self.old).net.size }
        ensures { view self.new ≡ with_order (view self.old) (listed order) }
    {
        self.elimination = Elimination::of(*self.elimination.couplings(), order);
    }

    /// The answer of a call; the plan counts it if it is a refusal.
    fn counted<T>(&mut self, answer: Result<T, Refusal>) -> Result<T, Refusal>
        ensures answer { result ≡ answer }
        ensures state { view self.new ≡ (if is_err answer then one_refused (view self.old) else view self.old) }
    {
        if answer.is_err() {
            self.refused = self.refused.saturating_add(1);
        }
        answer
    }

    /// Makes a list the plan's order, or says why it is none. It walks the list three times, and makes the filled pairs.
    #[tactic(auto, using(crate::proofs::Calls::load_on, crate::proofs::Calls::load_off))]
    pub fn load(&mut self, order: &[u16]) -> Result<(), Refusal>
        ensures value { outcome result ≡ unless (order_fault order.now (view self.old).net.size) tt }
        ensures state { view self.new ≡ after_load (view self.old) order.now }
        ensures history { Extends (load_call order.now) (view self.old) (view self.new) }
    {
        let answer = EliminationOrder::from_list(self.size(), order);
        let order = self.counted(answer)?;
        self.settle(order);
        Ok(())
    }

    /// Leaves an order with no new fill, and such that no order has a fill that is a proper part of its fill.
    #[tactic(auto, using(crate::proofs::Calls::tight_order, crate::proofs::Calls::tighten_on))]
    pub fn tighten(&mut self)
        ensures tightens { Tightens (view self.old).net (view self.old).order (view self.new).order }
        ensures kept { view self.new ≡ with_order (view self.old) (view self.new).order }
        ensures history { Extends tighten_call (view self.old) (view self.new) }
    {
        let order = self.elimination.tightened();
        self.settle(order);
    }

    /// Leaves an order with no new fill in which the station is last.
    #[tactic(auto, using(crate::proofs::Calls::ordered, crate::proofs::Calls::seat_on, crate::proofs::Calls::seat_off))]
    pub fn seat(&mut self, station: u16) -> Result<(), Refusal>
        ensures value { outcome result ≡ known (view self.old).net.size station (Ok tt) }
        ensures state { view self.new ≡ (if nat_lt station (view self.old).net.size then with_order (view self.old) (view self.new).order else one_refused (view self.old)) }
        ensures seats { station < (view self.old).net.size → Seats (view self.old).net station (view self.old).order (view self.new).order }
        ensures history { Extends (seat_call station) (view self.old) (view self.new) }
    {
        let answer = in_range(station, self.size());
        self.counted(answer)?;
        let order = self.elimination.seated(station);
        self.settle(order);
        Ok(())
    }

    /// Puts the reserve of the plan's order into a place, and takes out what it held.
    pub fn freeze(&self, place: &mut Reserve)
        ensures size { size_in place.new ≡ (view self.now).net.size }
        ensures order { order_in place.new ≡ (view self.now).order }
        ensures pairs { filled_in place.new ≡ by_position (filled (view self.now).net.coupled (view self.now).order) (view self.now).order }
        ensures history { Extends freeze_call (view self.now) (view self.now) }
    {
        *place = Reserve::of(&self.elimination);
    }
}
