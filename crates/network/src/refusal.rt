//! Why a call of this system was refused, and where: one variant for each refusal,
//! carrying its place wherever the place varies.
ghost use Rattle.std.specs.Prelude.{◌≡◌, Some};
ghost use Rattle.network.specs.Refusals.{fault_text, told, ToldApart};

use std::error::Error;
use std::fmt;

/// A refusal. Its number and its place are those of docs/REFUSALS.md.
#[derive(Clone, Copy, PartialEq, Eq, Debug, Drop)]
pub enum Refusal {
    /// A field of the sheet is not whole: its first bit.
    NotWhole(usize),
    /// The sheet is of another kind.
    WrongKind,
    /// The sheet's number of stations is 0 or above 512.
    SizeOutOfRange,
    /// The sheet counts more couplings than its stations have pairs.
    TooManyCouplings,
    /// Two numbers of the sheet are no larger and smaller station: the pair's first bit.
    NoPair(usize),
    /// A pair of the sheet is not above the one before it: its first bit.
    PairNotRising(usize),
    /// A station of the sheet's order is unknown or repeated: its first bit.
    NoOrderStation(usize),
    /// Something follows the sheet's fields: the first bit after them.
    NotEnded(usize),
    /// The starts are too few or too many: how many they are.
    StartsLength(usize),
    /// A start does not fit the one before it or the names: its index.
    NoStart(usize),
    /// A name is no other station, or does not rise: its index.
    NoName(usize),
    /// A name lacks its counterpart in the other station's list: its index.
    OneSided(usize),
    /// The list of an order is too short or too long: its length.
    OrderLength(usize),
    /// A station of an order's list is unknown or repeated: its index.
    NoStation(usize),
    /// A station or a position that the network does not have.
    OutOfRange(u16),
    /// A buffer, list or board is too short: the length needed.
    TooShort(usize),
    /// A table is shorter than the reserve: the length needed.
    TableTooShort(usize),
    /// A pair has no place in the reserve: its larger station.
    NoPlace(u16),
    /// A pivot is empty or unusable: its position.
    UnusablePivot(u16),
    /// A sheet is longer than a listing takes.
    SheetTooLong,
}

impl Refusal {
    // One line for each refusal: its number, and its place.
    fn number_and_place(self) -> (u16, usize)
        ensures number { result.0 ≡ (told self).number }
        ensures place { result.1 ≡ (told self).place }
    {
        match self {
            Refusal::NotWhole(bit) => (1, bit),
            Refusal::WrongKind => (2, 0),
            Refusal::SizeOutOfRange => (3, 5),
            Refusal::TooManyCouplings => (4, 15),
            Refusal::NoPair(bit) => (5, bit),
            Refusal::PairNotRising(bit) => (6, bit),
            Refusal::NoOrderStation(bit) => (7, bit),
            Refusal::NotEnded(bit) => (8, bit),
            Refusal::StartsLength(length) => (9, length),
            Refusal::NoStart(index) => (10, index),
            Refusal::NoName(index) => (11, index),
            Refusal::OneSided(index) => (12, index),
            Refusal::OrderLength(length) => (13, length),
            Refusal::NoStation(index) => (14, index),
            Refusal::OutOfRange(number) => (15, number as usize),
            Refusal::TooShort(length) => (16, length),
            Refusal::TableTooShort(length) => (17, length),
            Refusal::NoPlace(station) => (18, station as usize),
            Refusal::UnusablePivot(position) => (19, position as usize),
            Refusal::SheetTooLong => (20, 0),
        }
    }

    /// The number of the refusal, 1 to 20.
    pub fn number(self) -> u16
        ensures { result ≡ (told self).number }
    {
        self.number_and_place().0
    }

    /// The place of the refusal: a bit, an index, a length or a station, by its number.
    pub fn place(self) -> usize
        ensures { result ≡ (told self).place }
    {
        self.number_and_place().1
    }
}

impl fmt::Display for Refusal {
    ghost output = { λ e. Some (fault_text (told e)) };

    fn fmt<W: fmt::Write>(&self, f: &mut fmt::Formatter<W>) -> fmt::Result {
        let (number, place) = self.number_and_place();
        write!(f, "refused {number} at {place}")
    }
}

impl Error for Refusal {}

/// Number and place tell refusals apart.
pub fn refusals_are_told_apart()
    ensures { ToldApart }
{}
