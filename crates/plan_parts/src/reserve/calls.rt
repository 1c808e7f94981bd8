//! How reserves are made, and what can be asked of them.
ghost use Rattle.std.specs.Prelude.{◌≡◌, ℕ, ◌<◌, ◌≤◌, false, [], ◌∷◌, IfOk, Ok, slice_index};
ghost use Rattle.elimination.specs.Elimination.{filled};
ghost use Rattle.elimination.specs.View.{graph, listed};
ghost use Rattle.network.specs.Laws.{FirstIs};
ghost use Rattle.network.specs.Refusals.{outcome};
ghost use Rattle.elimination.specs.Orders.{position_of};
ghost use Rattle.plan_parts.specs.Layout.{cell, places};
ghost use Rattle.plan_parts.specs.OrderLists.{order_written, room_for};
ghost use Rattle.plan_parts.specs.Reserves.{by_position, has_place, known, next_of_column, place_of_stations};
ghost use Rattle.plan_parts.specs.ReserveView.{filled_in, order_in, size_in};

use super::Reserve;
use super::column::Column;
use super::parts::{by_positions, column_starts};
use crate::orders::{position_in, station_in, write_order};
use elimination::{Elimination, EliminationOrder, PairSet};
use network::Refusal;

impl Reserve {
    /// The reserve of one station.
    pub fn lone() -> Reserve
        ensures sizes { size_in result ≡ 1 }
        ensures order { order_in result ≡ 0 ∷ [] }
        ensures pairs { (i j : ℕ) → filled_in result i j ≡ false }
    {
        let order = EliminationOrder::rising(1);
        let pairs = PairSet::empty();
        let starts = column_starts(&pairs, 1);
        Reserve {
            order,
            pairs,
            starts,
        }
    }

    /// The reserve of an order: a few word steps for each filled pair.
    pub(crate) fn of(elimination: &Elimination) -> Reserve
        ensures order { result.order ≡ elimination.now.order }
        ensures pairs { filled_in result ≡ by_position (filled (graph elimination.now.couplings) (listed elimination.now.order)) (listed elimination.now.order) }
    {
        let order = *elimination.order();
        let pairs = by_positions(elimination.pairs(), &order);
        let starts = column_starts(&pairs, order.size() as usize);
        Reserve {
            order,
            pairs,
            starts,
        }
    }

    /// How many stations there are.
    pub fn size(&self) -> u16
        ensures value { result ≡ size_in self.now }
        ensures some { 1 ≤ result }
        ensures few { result ≤ 512 }
    {
        self.order.size()
    }

    /// How many places there are.
    #[tactic(auto, using(crate::proofs::Columns::start_small), unfolding(crate::specs::Layout::places))]
    pub fn length(&self) -> usize
        ensures value { result ≡ places (filled_in self.now) (size_in self.now) }
        ensures small { result ≤ 131328 }
    {
        self.starts[self.order.size() as usize] as usize
    }

    /// The number of the place in row `i` and column `j`, by positions: at most eight word steps.
    #[tactic(auto, using(crate::proofs::Columns::cell_own, crate::proofs::Columns::cell_later, crate::proofs::Columns::cell_unpaired, crate::proofs::Columns::cell_above, crate::proofs::Numbering::cell_out))]
    pub fn cell(&self, i: usize, j: usize) -> Option<usize>
        ensures { result ≡ cell (filled_in self.now) (size_in self.now) i j }
    {
        if i >= self.order.size() as usize || j > i {
            return None;
        }
        let first = self.starts[j] as usize;
        if j == i {
            return Some(first);
        }
        if !self.pairs.contains(i, j) {
            return None;
        }
        Some(first + 1 + self.pairs.count_between(j, j + 1, i) as usize)
    }

    /// The smallest position not below `from` that has a place in the column: at most eight word steps.
    pub fn next_in_column(&self, column: usize, from: usize) -> Option<usize>
        ensures value { result ≡ next_of_column (filled_in self.now) (size_in self.now) column from }
        ensures first { FirstIs (has_place (filled_in self.now) (size_in self.now) column) from 512 result }
    {
        if column >= self.order.size() as usize {
            return None;
        }
        if from <= column {
            return Some(column);
        }
        self.pairs.next(column, from)
    }

    /// The positions not below `from` that have a place in the column, by rising position: for each at most eight word steps.
    pub fn column(&self, column: usize, from: usize) -> Column<'_>
        ensures reserve { result.reserve.now ≡ self.now }
        ensures column { result.column ≡ column }
        ensures from { result.from ≡ from }
    {
        Column {
            reserve: self,
            column,
            from,
        }
    }

    /// The position of a station.
    pub fn position(&self, station: u16) -> Result<u16, Refusal>
        ensures value { outcome result ≡ known (size_in self.now) station (Ok (position_of (order_in self.now) station)) }
        ensures there { IfOk result (λ k. slice_index (order_in self.now) k ≡ station) }
        ensures small { IfOk result (λ k. k < size_in self.now) }
    {
        position_in(&self.order, station)
    }

    /// The station at a position.
    pub fn station(&self, position: u16) -> Result<u16, Refusal>
        ensures value { outcome result ≡ known (size_in self.now) position (Ok (slice_index (order_in self.now) position)) }
        ensures small { IfOk result (λ s. s < size_in self.now) }
    {
        station_in(&self.order, position)
    }

    /// The number of the place of two stations, or none: the same station twice has its diagonal. At most eight word steps.
    #[tactic(auto, unfolding(crate::specs::Layout::place_for))]
    pub fn place(&self, a: u16, b: u16) -> Result<Option<usize>, Refusal>
        ensures { outcome result ≡ known (size_in self.now) a (known (size_in self.now) b (Ok (place_of_stations (filled_in self.now) (size_in self.now) (order_in self.now) a b))) }
    {
        let i = self.position(a)? as usize;
        let j = self.position(b)? as usize;
        Ok(self.cell(i.max(j), i.min(j)))
    }

    /// Writes the order to the front of a list: one step for each station.
    pub fn order(&self, out: &mut [u16]) -> Result<(), Refusal>
        ensures value { outcome result ≡ room_for (size_in self.now) out.old }
        ensures written { out.new ≡ order_written (size_in self.now) (order_in self.now) out.old }
    {
        write_order(&self.order, out)
    }
}
