//! Reading neighbour lists into a network place: the checks in their order, then the place.
//! Below it what lists without a fault are, and which stations are coupled in their network.
ghost use Rattle.std.specs.Prelude.{◌≡◌, IfOk, MatchResult, OnOk};
ghost use Rattle.network.specs.Refusals.{fault_in, outcome, unless};
ghost use Rattle.network.specs.Lists.{list_net, lists_fault};
ghost use Rattle.network.specs.ListLaws.{FaultlessListsAreWellFormed, CoupledStationsAreNamed};
ghost use Rattle.network.specs.ListView.{starts_in, names_in};

use crate::list_network::ListNetwork;
use crate::name_lists::{NameLists, RisingLists};
use crate::refusal::Refusal;

// The lists of a network, once all checks are made, in their order.
fn checked_lists<'a>(starts: &'a [u32], names: &'a [u16]) -> Result<ListNetwork<'a>, Refusal>
    ensures answer { fault_in result ≡ lists_fault starts.now names.now }
    ensures lists { IfOk result (λ network. (starts_in network ≡ starts.now) × (names_in network ≡ names.now)) }
{
    let lists = RisingLists::checked(NameLists::checked(starts, names)?)?;
    lists.check_both_sides()?;
    Ok(ListNetwork { lists })
}

/// Reads neighbour lists into the place: on success the place stands on them, on a refusal it stays as it was.
/// The starts are walked once, the names twice, the second time with a search by halves for each.
pub fn read_lists<'a>(
    starts: &'a [u32],
    names: &'a [u16],
    place: &mut ListNetwork<'a>,
) -> Result<(), Refusal>
    ensures answer { outcome result ≡ unless (lists_fault starts.now names.now) tt }
    ensures place { MatchResult result (λ _. (starts_in place.new ≡ starts.now) × (names_in place.new ≡ names.now)) (λ _. place.new ≡ place.old) }
    ensures meaning { OnOk result (list_net (starts_in place.new) (names_in place.new) ≡ list_net starts.now names.now) }
{
    *place = checked_lists(starts, names)?;
    Ok(())
}

/// Lists without a fault are just the well formed ones: every name is another station, the names of a list rise,
/// and every coupling is named from both sides.
pub fn faultless_lists_are_well_formed()
    ensures { FaultlessListsAreWellFormed }
{}

/// In the network of well formed lists two stations are coupled just where the list of the one names the other.
pub fn coupled_stations_are_named()
    ensures { CoupledStationsAreNamed }
{}
