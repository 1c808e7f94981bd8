//! How orders are made, and what can be asked of them.
ghost use Rattle.std.specs.Prelude.{◌≡◌, ℕ, ◌<◌, ◌≤◌, length, take, IfOk, None, slice_index};
ghost use Rattle.network.specs.Orders.{order_fault};
ghost use Rattle.network.specs.Refusals.{unless};
ghost use Rattle.elimination.specs.Kept.{Found, Placed};
ghost use Rattle.elimination.specs.Orders.{later, position_of, up_to};
ghost use Rattle.elimination.specs.View.{listed, listing};

use super::EliminationOrder;
use network::{Refusal, check_order};

/// The list at the start of 512 places.
fn places(list: &[u16]) -> [u16; 512]
    requires { length list.now ≤ 512 }
    ensures { take (length list.now) result ≡ list.now }
{
    let mut stations = [0; 512];
    stations[..list.len()].copy_from_slice(list);
    stations
}

/// The numbers from 0 on, rising: of `n` stations the first `n` are the order.
fn rising_places(n: u16) -> [u16; 512]
    requires { n ≤ 512 }
    ensures list { take n result ≡ up_to n }
    ensures named { order_fault (take n result) n ≡ None }
{
    let mut stations = [0; 512];
    for (k, station) in stations.iter_mut().enumerate() {
        *station = k as u16;
    }
    stations
}

/// The position of each station of a list that is an order.
fn positions_of(list: &[u16]) -> [u16; 512]
    requires { order_fault list.now (length list.now) ≡ None }
    ensures found { Found (length list.now) list.now result }
    ensures placed { Placed (length list.now) list.now result }
{
    let mut positions = [0; 512];
    for (k, station) in list.iter().enumerate() {
        positions[*station as usize] = k as u16;
    }
    positions
}

impl EliminationOrder {
    /// The order of a list that is one.
    pub(crate) fn of(list: &[u16]) -> EliminationOrder
        requires { order_fault list.now (length list.now) ≡ None }
        ensures size { result.size ≡ length list.now }
        ensures list { listed result ≡ list.now }
    {
        EliminationOrder {
            size: list.len() as u16,
            stations: places(list),
            positions: positions_of(list),
        }
    }

    /// The order that a list gives, or why it gives none: its length, or the index of a station that is unknown or repeated.
    /// It walks the list three times.
    pub fn from_list(size: u16, list: &[u16]) -> Result<EliminationOrder, Refusal>
        ensures value { listing result ≡ unless (order_fault list.now size) list.now }
        ensures size { IfOk result (λ order. order.size ≡ size) }
    {
        check_order(size, list)?;
        Ok(EliminationOrder::of(list))
    }

    /// The order 0, 1, .. of `size` stations.
    pub fn rising(size: u16) -> EliminationOrder
        requires { size ≤ 512 }
        ensures size { result.size ≡ size }
        ensures list { listed result ≡ up_to size }
    {
        let stations = rising_places(size);
        EliminationOrder::of(&stations[..size as usize])
    }

    /// How many stations the order has.
    pub fn size(&self) -> u16
        ensures { result ≡ self.now.size }
    {
        self.size
    }

    /// The station at a position.
    #[tactic(auto, using(crate::proofs::Listing::station_kept, crate::proofs::Listing::station_small))]
    pub fn station(&self, position: u16) -> u16
        requires { position < self.now.size }
        ensures value { result ≡ slice_index (listed self.now) position }
        ensures small { result < self.now.size }
    {
        self.stations[position as usize]
    }

    /// The stations in the order.
    pub fn stations(&self) -> &[u16]
        ensures list { result.now ≡ listed self.now }
        ensures all { length result.now ≡ self.now.size }
        ensures small { (k : ℕ) → k < length result.now → slice_index result.now k < self.now.size }
    {
        &self.stations[..self.size as usize]
    }

    /// The stations that come after a station in the order.
    pub fn later(&self, station: u16) -> &[u16]
        requires { station < self.now.size }
        ensures list { result.now ≡ later (listed self.now) station }
        ensures fewer { length result.now < self.now.size }
        ensures small { (k : ℕ) → k < length result.now → slice_index result.now k < self.now.size }
    {
        &self.stations()[self.position(station) as usize + 1..]
    }

    /// The position of a station.
    #[tactic(auto, using(crate::proofs::Listing::position_kept, crate::proofs::Listing::position_there, crate::proofs::Listing::position_small))]
    pub fn position(&self, station: u16) -> u16
        requires { station < self.now.size }
        ensures value { result ≡ position_of (listed self.now) station }
        ensures there { slice_index (listed self.now) result ≡ station }
        ensures small { result < self.now.size }
    {
        self.positions[station as usize]
    }
}
