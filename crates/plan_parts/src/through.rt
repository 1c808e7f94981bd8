//! The search for a path of couplings through stations that come earlier than both of its ends.
//! A guard holds the marks of a search, one for each station: all are zero again on every way out.
ghost use Rattle.std.specs.Prelude.{◌≡◌, ℕ, ◌<◌, ◌≤◌, ◌&&◌, length, replicate, Decides, ◌≢◌, ◌==◌, if◌then◌else◌, nat_lt, slice_index, slice_set};
ghost use Rattle.network.specs.Laws.{FirstIs};
ghost use Rattle.elimination.specs.Elimination.{Joined};
ghost use Rattle.elimination.specs.Orders.{position_of};
ghost use Rattle.elimination.specs.View.{graph, listed};
ghost use Rattle.plan_parts.specs.Boards.{cleared, found, mark_after, taken};

use elimination::{Elimination, EliminationOrder};

/// What a search knows of a station. The board is the caller's bytes, so each mark is written and read as its byte.
enum Mark {
    /// The station was not seen.
    Unseen,
    /// It was found.
    Found,
    /// It was found, and its neighbours were looked at.
    Looked,
}

/// The board that a search marks its stations on, a byte for each. Its end zeroes the marks.
struct MarkBoard<'a> {
    marks: &'a mut [u8],
}

impl Drop for MarkBoard<'_> {
    fn drop(self)
        ensures { self.exit.0.now ≡ replicate (length self.entry.marks.now) 0 }
    {
        self.marks.fill(Mark::Unseen as u8);
        let MarkBoard { marks: _ } = self;
    }
}

// As methods of a search these would promise besides, and two loops carry, that elimination, position and loan stay.

/// Takes the first station that was found, to look at its neighbours: one step for each station at most.
fn take_found(marks: &mut [u8]) -> Option<usize>
    ensures first { FirstIs (found marks.old) 0 (length marks.old) result }
    ensures marked { marks.new ≡ taken result marks.old }
{
    let k = marks.iter().position(|mark| *mark == Mark::Found as u8)?;
    marks[k] = Mark::Looked as u8;
    Some(k)
}

/// Marks a station as found if it comes before a position and was not seen.
fn find(order: &EliminationOrder, position: u16, station: usize, marks: &mut [u8])
    requires known { station < order.now.size }
    requires room { order.now.size ≤ length marks.old }
    ensures { marks.new ≡ (if nat_lt (position_of (listed order.now) station) position && slice_index marks.old station == 0 then slice_set marks.old station 1 else marks.old) }
{
    if order.position(station as u16) < position && marks[station] == Mark::Unseen as u8 {
        marks[station] = Mark::Found as u8;
    }
}

/// Marks as found the neighbours of a station that come before a position and were not seen: a few word steps for each.
fn find_neighbours(elimination: &Elimination, position: u16, station: usize, marks: &mut [u8])
    requires known { station < 512 }
    requires room { elimination.now.order.size ≤ length marks.old }
    ensures length { length marks.new ≡ length marks.old }
    ensures marks { (k : ℕ) → slice_index marks.new k ≡ mark_after (graph elimination.now.couplings) (listed elimination.now.order) position station marks.old k }
{
    for neighbour in elimination.couplings().members(station) {
        find(elimination.order(), position, neighbour, marks);
    }
}

/// The same as `joined`, on a board of one mark for each station.
fn joined_on(elimination: &Elimination, a: u16, b: u16, marks: &mut [u8]) -> bool
    requires one { a < elimination.now.order.size }
    requires two { b < elimination.now.order.size }
    requires room { length marks.old ≡ elimination.now.order.size }
    ensures answer { Decides result ((a ≢ b) × Joined (graph elimination.now.couplings) (listed elimination.now.order) a b) }
    ensures marks { marks.new ≡ replicate elimination.now.order.size 0 }
{
    let board = MarkBoard { marks };
    if a == b {
        return false;
    }
    let order = elimination.order();
    let position = order.position(a).min(order.position(b));
    board.marks.fill(Mark::Unseen as u8);
    board.marks[a as usize] = Mark::Found as u8;
    while let Some(station) = take_found(board.marks) {
        if elimination.couplings().contains(station, b as usize) {
            return true;
        }
        find_neighbours(elimination, position, station, board.marks);
    }
    false
}

/// Whether two stations differ and a path of couplings joins them whose inner stations all come earlier than both.
/// It looks at the neighbours of each station once, and to find the next station steps over up to n marks.
pub(crate) fn joined(elimination: &Elimination, a: u16, b: u16, board: &mut [u8]) -> bool
    requires one { a < elimination.now.order.size }
    requires two { b < elimination.now.order.size }
    requires room { elimination.now.order.size ≤ length board.old }
    ensures answer { Decides result ((a ≢ b) × Joined (graph elimination.now.couplings) (listed elimination.now.order) a b) }
    ensures board { board.new ≡ cleared elimination.now.order.size board.old }
{
    let n = elimination.order().size() as usize;
    // What a guard leaves of a loan is known where the loan is the whole of a parameter.
    joined_on(elimination, a, b, &mut board[..n])
}
