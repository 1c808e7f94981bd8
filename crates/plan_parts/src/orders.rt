//! What is told of an order: positions, stations, and the whole of it in a list of the caller's.
//! Both a plan and a reserve tell their order so.
ghost use Rattle.std.specs.Prelude.{◌≡◌, ◌<◌, IfOk, Ok, slice_index};
ghost use Rattle.network.specs.Refusals.{outcome};
ghost use Rattle.elimination.specs.Orders.{position_of};
ghost use Rattle.elimination.specs.View.{listed};
ghost use Rattle.plan_parts.specs.OrderLists.{order_written, room_for};
ghost use Rattle.plan_parts.specs.Reserves.{known};

use elimination::EliminationOrder;
use network::Refusal;

/// Refuses a number that is not below `n`.
pub(crate) fn in_range(number: u16, n: u16) -> Result<(), Refusal>
    ensures value { outcome result ≡ known n number (Ok tt) }
    ensures below { IfOk result (λ _. number < n) }
{
    if number < n {
        Ok(())
    } else {
        Err(Refusal::OutOfRange(number))
    }
}

/// The position of a station in the order.
pub(crate) fn position_in(order: &EliminationOrder, station: u16) -> Result<u16, Refusal>
    ensures value { outcome result ≡ known order.now.size station (Ok (position_of (listed order.now) station)) }
    ensures there { IfOk result (λ k. slice_index (listed order.now) k ≡ station) }
    ensures small { IfOk result (λ k. k < order.now.size) }
{
    in_range(station, order.size())?;
    Ok(order.position(station))
}

/// The station at a position of the order.
pub(crate) fn station_in(order: &EliminationOrder, position: u16) -> Result<u16, Refusal>
    ensures value { outcome result ≡ known order.now.size position (Ok (slice_index (listed order.now) position)) }
    ensures small { IfOk result (λ s. s < order.now.size) }
{
    in_range(position, order.size())?;
    Ok(order.station(position))
}

/// Writes the order to the front of a list; one that is too short stays as it was. One step for each station.
pub(crate) fn write_order(order: &EliminationOrder, out: &mut [u16]) -> Result<(), Refusal>
    ensures value { outcome result ≡ room_for order.now.size out.old }
    ensures written { out.new ≡ order_written order.now.size (listed order.now) out.old }
{
    let stations = order.stations();
    if out.len() < stations.len() {
        return Err(Refusal::TooShort(stations.len()));
    }
    out[..stations.len()].copy_from_slice(stations);
    Ok(())
}
