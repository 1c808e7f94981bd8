//! Kinds of entry: the three functions that a pivot needs, and the two kinds that are delivered.
//! Nothing more is asked of a kind, and every promise holds for every kind.
ghost use Rattle.std.specs.Prelude.{◌≡◌};
ghost use Rattle.run_parts.specs.Kinds.{Kind, level_kind, level_product, minutes_kind};

/// A kind of entry. The ghost member says what its functions answer.
pub trait Entry: Copy {
    ghost kind: { Kind Self };

    /// Whether the entry may be a pivot.
    fn is_usable(self) -> bool
        ensures { result ≡ kind.usable self };

    /// What an empty place takes.
    fn first_of(left: Self, pivot: Self, right: Self) -> Self
        ensures { result ≡ kind.first left pivot right };

    /// What a place that holds `self` takes.
    fn more_of(self, left: Self, pivot: Self, right: Self) -> Self
        ensures { result ≡ kind.more self left pivot right };
}

/// A level. Every NaN counts as the same entry.
#[derive(Clone, Copy)]
pub struct Level(pub f64);

/// What a pivot takes from a place: each operation rounds to 64 bits.
fn product(left: Level, pivot: Level, right: Level) -> f64
    ensures { result ≡ level_product left.0 pivot.0 right.0 }
{
    left.0 / pivot.0 * right.0
}

impl Entry for Level {
    ghost kind = { level_kind };

    #[tactic(auto, using(crate::proofs::Levels::infinity_is))]
    fn is_usable(self) -> bool {
        0.0 < self.0 && self.0 < f64::INFINITY
    }

    fn first_of(left: Level, pivot: Level, right: Level) -> Level {
        Level(-product(left, pivot, right))
    }

    fn more_of(self, left: Level, pivot: Level, right: Level) -> Level {
        Level(self.0 - product(left, pivot, right))
    }
}

/// Minutes of a way, of which the shortest counts.
#[derive(Clone, Copy)]
pub struct Minutes(pub u32);

impl Entry for Minutes {
    ghost kind = { minutes_kind };

    fn is_usable(self) -> bool {
        true
    }

    fn first_of(left: Minutes, _pivot: Minutes, right: Minutes) -> Minutes {
        Minutes(left.0.saturating_add(right.0))
    }

    fn more_of(self, left: Minutes, pivot: Minutes, right: Minutes) -> Minutes {
        Minutes(self.0.min(Minutes::first_of(left, pivot, right).0))
    }
}
