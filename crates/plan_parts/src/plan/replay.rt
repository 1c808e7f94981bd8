//! A list of calls made on a plan in turn.
//! What is left has a history of exactly those calls, so that every promise over histories holds of it.
ghost use Rattle.std.specs.Prelude.{map};
ghost use Rattle.plan_parts.specs.PlanCalls.{asked};
ghost use Rattle.plan_parts.specs.PlanLaws.{FillKept};
ghost use Rattle.plan_parts.specs.PlanStates.{Extends, Replayed, given_by, tight_by};
ghost use Rattle.plan_parts.specs.PlanView.{view};

use super::Plan;
use super::plan_call::PlanCall;
use network::Network;

impl Plan {
    /// Makes one call; the plan counts it if it is refused.
    pub(crate) fn make(&mut self, call: &PlanCall<'_>)
        ensures { Extends (asked call.now) (view self.old) (view self.new) }
    {
        match *call {
            PlanCall::Load(order) => {
                let _ = self.load(order);
            }
            PlanCall::Tighten => self.tighten(),
            PlanCall::Seat(station) => {
                let _ = self.seat(station);
            }
        }
    }
}

/// Opens a plan on a network and makes the calls in turn; those that are refused are counted.
pub fn replay_plan<N: Network>(network: &N, calls: &[PlanCall<'_>]) -> Plan
    ensures history { Replayed (N.Network.meaning network.now) (map asked calls.now) (view result) }
    ensures kept { FillKept (N.Network.meaning network.now) (given_by (N.Network.meaning network.now).size (map asked calls.now)) (tight_by (N.Network.meaning network.now).size (map asked calls.now)) (view result).order }
{
    let mut plan = Plan::open(network);
    for call in calls {
        plan.make(call);
    }
    plan
}
