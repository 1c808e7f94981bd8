//! One pivot in the tables: the members of its column meet pairwise.
//! The cost of a pivot is about the square of its column's length.
ghost use Rattle.std.specs.Prelude.{◌≡◌, ◌<◌, MatchResult};
ghost use Rattle.network.specs.Refusals.{outcome};
ghost use Rattle.plan_parts.specs.ReserveView.{filled_in, size_in};
ghost use Rattle.run_parts.specs.Outcomes.{pivot_outcome};
ghost use Rattle.run_parts.specs.Parts.{Pivoted};
ghost use Rattle.run_parts.specs.Square.{beyond};
ghost use Rattle.run_parts.specs.Tables.{Room, square_of};

use crate::kinds::Entry;
use crate::tables::{EMPTY, HELD, entry_at};
use network::Refusal;
use plan_parts::Reserve;

/// The two tables of a run, with room for every place of its reserve.
#[derive(Drop)]
struct Tables<'r, 't, E> {
    reserve: &'r Reserve,
    entries: &'t mut [E],
    marks: &'t mut [u8],
    ghost room: { Room (filled_in reserve.now) (size_in reserve.now) entries.now marks.now },
}

// The pivot's number and entry are parameters: that the tables hold that entry there is a fact of what they hold at the time.
impl<E: Entry> Tables<'_, '_, E> {
    ghost use Rattle.std.specs.Prelude.{◌≤◌, Some, if◌then◌else◌, nat_eq, slice_index, slice_set};
    ghost use Rattle.run_parts.specs.Lent.{Makes, SameLent, square_in};
    ghost use Rattle.run_parts.specs.Parts.{in_one};
    ghost use Rattle.run_parts.specs.Places.{places_in};
    ghost use Rattle.run_parts.specs.Square.{single, taken};
    ghost use Rattle.run_parts.specs.Tables.{held_entry};

    /// What the tables hold at row `i` and column `j`.
    #[tactic(auto, using(crate::proofs::Parts::cell_within), unfolding(crate::specs::Tables::square_of))]
    fn held(&self, i: usize, j: usize) -> Option<E>
        ensures { result ≡ square_in self.now i j }
    {
        entry_at(self.entries, self.marks, self.reserve.cell(i, j))
    }

    /// The place `p` takes first if it is empty, more if it is held.
    fn take(&mut self, p: usize, left: E, pivot: E, right: E)
        requires { p < places_in self.old.reserve.now }
        ensures lent { SameLent self.old self.new }
        ensures entries { self.new.entries.now ≡ slice_set self.old.entries.now p (taken E.kind (held_entry self.old.entries.now self.old.marks.now p) left pivot right) }
        ensures marks { self.new.marks.now ≡ slice_set self.old.marks.now p (if nat_eq (slice_index self.old.marks.now p) 0 then 1 else slice_index self.old.marks.now p) }
    {
        if self.marks[p] == EMPTY {
            self.entries[p] = E::first_of(left, pivot, right);
            self.marks[p] = HELD;
        } else {
            self.entries[p] = self.entries[p].more_of(left, pivot, right);
        }
    }

    /// Pivot `k` at row `i` and column `j`.
    fn meet(&mut self, k: usize, i: usize, j: usize, pivot: E, right: E)
        requires after { k < j }
        requires row { j ≤ i }
        requires middle { square_in self.old k k ≡ Some pivot }
        requires side { square_in self.old j k ≡ Some right }
        ensures { Makes E.kind k (single i j) self.old self.new }
    {
        let Some(left) = self.held(i, k) else {
            return;
        };
        if let Some(p) = self.reserve.cell(i, j) {
            self.take(p, left, pivot, right);
        }
    }

    /// Pivot `k` in the column `j`, row by row along the members of column `k`.
    fn sweep(&mut self, k: usize, j: usize, pivot: E)
        requires after { k < j }
        requires middle { square_in self.old k k ≡ Some pivot }
        ensures { Makes E.kind k (in_one j (size_in self.old.reserve.now)) self.old self.new }
    {
        let Some(right) = self.held(j, k) else {
            return;
        };
        for i in self.reserve.column(k, j) {
            self.meet(k, i, j, pivot, right);
        }
    }

    /// Pivot `k`, column by column along the members of column `k`.
    fn eliminate(&mut self, k: u16, pivot: E)
        requires { square_in self.old k k ≡ Some pivot }
        ensures { Makes E.kind k (beyond k) self.old self.new }
    {
        let at = k as usize;
        for j in self.reserve.column(at, at + 1) {
            self.sweep(at, j, pivot);
        }
    }
}

/// Makes pivot `k`. Refused by [`Refusal::UnusablePivot`] where it is empty or unusable.
pub(crate) fn make_pivot<E: Entry>(
    reserve: &Reserve,
    entries: &mut [E],
    marks: &mut [u8],
    k: u16,
) -> Result<(), Refusal>
    requires { Room (filled_in reserve.now) (size_in reserve.now) entries.old marks.old }
    ensures value { outcome result ≡ pivot_outcome E.kind k (square_of (filled_in reserve.now) (size_in reserve.now) entries.old marks.old k k) }
    ensures tables { MatchResult result (λ _. Pivoted E.kind (filled_in reserve.now) (size_in reserve.now) k (beyond k) entries.old marks.old entries.new marks.new) (λ _. (entries.new ≡ entries.old) × (marks.new ≡ marks.old)) }
{
    let at = k as usize;
    let mut tables = Tables {
        reserve,
        entries,
        marks,
    };
    let pivot = tables
        .held(at, at)
        .filter(|p| p.is_usable())
        .ok_or(Refusal::UnusablePivot(k))?;
    tables.eliminate(k, pivot);
    Ok(())
}
