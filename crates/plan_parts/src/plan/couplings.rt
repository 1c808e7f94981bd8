//! The couplings of any network, taken over as a set of pairs.
//! A plan asks its network here alone, and never again.
ghost use Rattle.std.specs.Prelude.{◌≡◌, ◌<◌, if◌then◌else◌};
ghost use Rattle.elimination.specs.View.{graph};
ghost use Rattle.elimination.specs.Graphs.{including, union};
ghost use Rattle.plan_parts.specs.Plans.{pairs_below};

use elimination::PairSet;
use network::Network;

/// Puts in a pair of stations if they are coupled: one question.
fn take_pair<N: Network>(set: &mut PairSet, network: &N, a: u16, b: u16)
    requires one { a < (N.Network.meaning network.now).size }
    requires two { b < (N.Network.meaning network.now).size }
    ensures { graph set.new ≡ (if (N.Network.meaning network.now).coupled a b then including (graph set.old) a b else graph set.old) }
{
    if network.coupled(a, b) {
        set.insert(a as usize, b as usize);
    }
}

// The same two walks as where couplings are counted and written, each with something else done: the line in network says why they stay.

/// Puts in the couplings of station `a` with smaller stations: one question for each of those.
fn take_row<N: Network>(set: &mut PairSet, network: &N, a: u16)
    requires { a < (N.Network.meaning network.now).size }
    ensures { graph set.new ≡ union (graph set.old) (pairs_below (N.Network.meaning network.now).coupled a a) }
{
    for b in 0..a {
        take_pair(set, network, a, b);
    }
}

/// The couplings of a network of n stations: n(n - 1)/2 questions.
pub(crate) fn couplings_of<N: Network>(network: &N) -> PairSet
    ensures { graph result ≡ (N.Network.meaning network.now).coupled }
{
    let mut set = PairSet::empty();
    for a in 0..network.size() {
        take_row(&mut set, network, a);
    }
    set
}
