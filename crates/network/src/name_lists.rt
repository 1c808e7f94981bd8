//! Neighbour lists as they were lent, by what is known of them: first that every station has a part of the names,
//! then that the names of each part are other stations and rise.
ghost use Rattle.std.specs.Prelude.{◌≡◌, ℕ, ◌+◌, ◌-◌, ◌<◌, ◌≤◌, Option, false, length, is_some, IfOk, OnOk, slice_index};
ghost use Rattle.network.specs.Refusals.{Fault, fault_in, outcome, unless, first_fault};
ghost use Rattle.network.specs.Lists.{list_size, named_in, starts_length_fault, is_fitting_start, start_fault, starts_fault, is_fitting_name, name_fault, one_sided_fault, row_fault, rows_fault, InList};

use crate::refusal::Refusal;
use std::ops::Range;

/// Lists of which the starts fit: station `s` has the names from `starts[s]` up to, without, `starts[s + 1]`.
#[derive(Clone, Copy)]
pub(crate) struct NameLists<'a> {
    pub(crate) starts: &'a [u32],
    pub(crate) names: &'a [u16],
    ghost some: { 2 ≤ length starts.now },
    ghost few: { length starts.now ≤ 513 },
    ghost fitting: { is_some (first_fault (start_fault starts.now (length names.now)) (length starts.now)) ≡ false },
}

// Whether there are starts for 1 to 512 stations.
fn check_length(starts: &[u32]) -> Result<(), Refusal>
    ensures answer { outcome result ≡ unless (starts_length_fault starts.now) tt }
    ensures range { OnOk result ((2 ≤ length starts.now) × (length starts.now ≤ 513)) }
{
    let count = starts.len();
    if count < 2 || count > 513 {
        return Err(Refusal::StartsLength(count));
    }
    Ok(())
}

// Whether the start at `i` fits the one before it and, at the end, the number of the names.
fn start_fits(starts: &[u32], count: usize, i: usize) -> bool
    requires { i < length starts.now }
    ensures { result ≡ is_fitting_start starts.now count i }
{
    let start = starts[i];
    let rises = if i == 0 {
        start == 0
    } else {
        starts[i - 1] <= start
    };
    rises && (i + 1 < starts.len() || start as usize == count)
}

// Goes once through the starts.
fn check_starts(starts: &[u32], count: usize) -> Result<(), Refusal>
    ensures { outcome result ≡ unless (first_fault (start_fault starts.now count) (length starts.now)) tt }
{
    match (0..starts.len()).find(|i| !start_fits(starts, count, *i)) {
        Some(i) => Err(Refusal::NoStart(i)),
        None => Ok(()),
    }
}

impl<'a> NameLists<'a> {
    /// The two lists, once their starts are checked.
    pub(crate) fn checked(starts: &'a [u32], names: &'a [u16]) -> Result<NameLists<'a>, Refusal>
        ensures answer { fault_in result ≡ starts_fault starts.now (length names.now) }
        ensures lists { IfOk result (λ lists. (lists.starts.now ≡ starts.now) × (lists.names.now ≡ names.now)) }
    {
        check_length(starts)?;
        check_starts(starts, names.len())?;
        Ok(NameLists { starts, names })
    }

    /// How many stations there are.
    pub(crate) fn size(&self) -> u16
        ensures value { result ≡ list_size self.now.starts.now }
    {
        (self.starts.len() - 1) as u16
    }

    // Where the names of a station lie.
    fn part_of(&self, station: u16) -> Range<usize>
        requires { station < list_size self.now.starts.now }
        ensures low { result.start ≡ slice_index self.now.starts.now station }
        ensures high { result.end ≡ slice_index self.now.starts.now (station + 1) }
        ensures order { result.start ≤ result.end }
        ensures within { result.end ≤ length self.now.names.now }
    {
        let station = station as usize;
        self.starts[station] as usize..self.starts[station + 1] as usize
    }

    // `k` lies in the part of `station` in what follows: a fact of two numbers and the lists, which no type of the two can state.

    // The name at `k`, in the part of `station`.
    fn name_at(&self, station: u16, k: usize) -> u16
        requires { InList self.now.starts.now station k }
        ensures { result ≡ slice_index self.now.names.now k }
    {
        let part = self.part_of(station);
        prove!(part.start <= k && k < part.end);
        self.names[k]
    }

    // Makes a check at each name of a station, until one is refused.
    fn check_row<F: Fn(u16, usize) -> Result<(), Refusal>>(
        &self,
        check: &F,
        station: u16,
    ) -> Result<(), Refusal>
        ghost found: { ℕ → ℕ → Option Fault }
        requires station { station < list_size self.now.starts.now }
        requires can { (k : ℕ) → InList self.now.starts.now station k → F.pre check.now station k }
        requires tells { (k : ℕ) (r : _) → InList self.now.starts.now station k → F.post check.now station k r → outcome r ≡ unless (found station k) tt }
        ensures { outcome result ≡ unless (row_fault self.now.starts.now found station) tt }
    {
        let part = self.part_of(station);
        for k in part.start..part.end {
            check(station, k)?;
        }
        Ok(())
    }

    /// Makes a check at each name of each station, in their order, until one is refused.
    pub(crate) fn check_rows<F: Fn(u16, usize) -> Result<(), Refusal>>(
        &self,
        check: F,
    ) -> Result<(), Refusal>
        ghost found: { ℕ → ℕ → Option Fault }
        requires can { (s k : ℕ) → InList self.now.starts.now s k → F.pre check s k }
        requires tells { (s k : ℕ) (r : _) → InList self.now.starts.now s k → F.post check s k r → outcome r ≡ unless (found s k) tt }
        ensures { outcome result ≡ unless (rows_fault self.now.starts.now found) tt }
    {
        for station in 0..self.size() {
            self.check_row(&check, station)?;
        }
        Ok(())
    }

    // Whether the name at `k`, in the part of `station`, is another station and above the name before it.
    fn name_fits(&self, station: u16, k: usize) -> bool
        requires { InList self.now.starts.now station k }
        ensures { result ≡ is_fitting_name self.now.names.now (list_size self.now.starts.now) (slice_index self.now.starts.now station) station k }
    {
        let part = self.part_of(station);
        let name = self.name_at(station, k);
        name < self.size() && name != station && (k == part.start || self.names[k - 1] < name)
    }

    // Refuses a name that does not fit.
    fn check_name(&self, station: u16, k: usize) -> Result<(), Refusal>
        requires { InList self.now.starts.now station k }
        ensures { outcome result ≡ unless (name_fault self.now.starts.now self.now.names.now station k) tt }
    {
        if !self.name_fits(station, k) {
            return Err(Refusal::NoName(k));
        }
        Ok(())
    }

    // Goes once through the names of all stations.
    fn check_names(&self) -> Result<(), Refusal>
        ensures { outcome result ≡ unless (rows_fault self.now.starts.now (name_fault self.now.starts.now self.now.names.now)) tt }
    {
        self.check_rows(|station, k| self.check_name(station, k))
    }
}

/// Lists of which the names are other stations too, and rise in each part.
#[derive(Clone, Copy)]
pub(crate) struct RisingLists<'a> {
    pub(crate) lists: NameLists<'a>,
    ghost rising: { is_some (rows_fault lists.starts.now (name_fault lists.starts.now lists.names.now)) ≡ false },
}

impl<'a> RisingLists<'a> {
    /// The lists, once their names are checked.
    pub(crate) fn checked(lists: NameLists<'a>) -> Result<RisingLists<'a>, Refusal>
        ensures answer { fault_in result ≡ rows_fault lists.entry.starts.now (name_fault lists.entry.starts.now lists.entry.names.now) }
        ensures lists { IfOk result (λ rising. (rising.lists.starts.now ≡ lists.entry.starts.now) × (rising.lists.names.now ≡ lists.entry.names.now)) }
    {
        lists.check_names()?;
        Ok(RisingLists { lists })
    }

    /// How many stations there are.
    pub(crate) fn size(&self) -> u16
        ensures { result ≡ list_size self.now.lists.starts.now }
    {
        self.lists.size()
    }

    /// Whether the list of station `a` names `b`. The names of a list rise, so a search by halves finds it.
    pub(crate) fn is_named(&self, a: u16, b: u16) -> bool
        requires { a < list_size self.now.lists.starts.now }
        ensures { result ≡ named_in self.now.lists.starts.now self.now.lists.names.now a b }
    {
        let names = &self.lists.names[self.lists.part_of(a)];
        names.binary_search(&b).is_ok()
    }

    // Refuses a name whose station does not name the namer.
    fn check_side(&self, namer: u16, k: usize) -> Result<(), Refusal>
        requires { InList self.now.lists.starts.now namer k }
        ensures { outcome result ≡ unless (one_sided_fault self.now.lists.starts.now self.now.lists.names.now namer k) tt }
    {
        if !self.is_named(self.lists.name_at(namer, k), namer) {
            return Err(Refusal::OneSided(k));
        }
        Ok(())
    }

    /// Looks up every station in the list of each station that it names: a search by halves for each name.
    pub(crate) fn check_both_sides(&self) -> Result<(), Refusal>
        ensures { outcome result ≡ unless (rows_fault self.now.lists.starts.now (one_sided_fault self.now.lists.starts.now self.now.lists.names.now)) tt }
    {
        self.lists.check_rows(|namer, k| self.check_side(namer, k))
    }
}
