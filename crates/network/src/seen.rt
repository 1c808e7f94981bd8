//! Which stations a walk has come upon, so that each is taken once.
//! A station's mark is looked at and set in one step.
ghost use Rattle.std.specs.Prelude.{◌≡◌, ℕ, ◌<◌, ◌≤◌, true, false, not, ◌&&◌, ◌||◌, ◌==◌, nat_lt};
ghost use Rattle.network.specs.Seen.{is_seen};

/// A mark for each station that a network can have.
#[derive(Drop)]
pub(crate) struct Seen {
    marks: [bool; 512],
}

impl Seen {
    /// No station was seen.
    pub(crate) fn none() -> Seen
        ensures { (v : ℕ) → is_seen result v ≡ false }
    {
        Seen {
            marks: [false; 512],
        }
    }

    /// Marks a number that is one of `n` stations and was not seen before, and tells whether it is.
    pub(crate) fn insert(&mut self, n: usize, station: usize) -> bool
        requires { n ≤ 512 }
        ensures new { result ≡ (nat_lt station n && not (is_seen self.old station)) }
        ensures marked { result ≡ true → (v : ℕ) → v < 512 → is_seen self.new v ≡ (is_seen self.old v || station == v) }
    {
        if station >= n || self.marks[station] {
            return false;
        }
        self.marks[station] = true;
        true
    }
}
