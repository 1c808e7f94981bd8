//! Lists as orders: an order of a network names each of its stations once.
//! A list that does not is refused by its length, or at the first station that is unknown or repeated.
ghost use Rattle.std.specs.Prelude.{◌≡◌, ◌≤◌, length};
ghost use Rattle.network.specs.Refusals.{outcome, unless, first_fault};
ghost use Rattle.network.specs.Orders.{order_fault, station_fault};

use crate::refusal::Refusal;
use crate::seen::Seen;

// Whether each of as many numbers as stations is one, named once. It walks the list once, marking each station seen.
fn check_stations(n: u16, order: &[u16]) -> Result<(), Refusal>
    requires { (length order.now ≡ n) × (n ≤ 512) }
    ensures { outcome result ≡ unless (first_fault (station_fault order.now n) n) tt }
{
    let mut seen = Seen::none();
    for (k, station) in order.iter().enumerate() {
        if !seen.insert(n as usize, *station as usize) {
            return Err(Refusal::NoStation(k));
        }
    }
    Ok(())
}

/// Whether the list is an order of a network of `n` stations: first its length, then its stations, in one walk.
pub fn check_order(n: u16, order: &[u16]) -> Result<(), Refusal>
    ensures { outcome result ≡ unless (order_fault order.now n) tt }
{
    if order.len() != n as usize || n > 512 {
        return Err(Refusal::OrderLength(order.len()));
    }
    check_stations(n, order)
}
