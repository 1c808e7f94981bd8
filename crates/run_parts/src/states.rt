//! The states of a run: loading, running, ended. Each holds its reserve, into which nothing can be frozen meanwhile.
//! A state is not copied, so that begin and finish end the state before.
ghost use Rattle.std.specs.Prelude.{◌≡◌, ◌≤◌};

use plan_parts::Reserve;
use std::marker::PhantomData;

mod answers;
mod load;
mod pivoting;

pub use load::start;

/// What a step did.
#[derive(Clone, Copy, PartialEq, Eq, Debug, Drop)]
pub enum Step {
    /// The next pivot was made.
    Made,
    /// Every pivot had been made before.
    Finished,
}

/// A run that takes entries.
#[derive(Drop)]
pub struct Loading<'r, E> {
    reserve: &'r Reserve,
    kind: PhantomData<E>,
}

/// A run that makes pivots.
#[derive(Drop)]
pub struct Running<'r, E> {
    reserve: &'r Reserve,
    made: u16,
    kind: PhantomData<E>,
    ghost some: { made ≤ reserve.now.order.size },
}

/// A run that answers entries.
#[derive(Drop)]
pub struct Ended<'r, E> {
    reserve: &'r Reserve,
    pivots: u16,
    kind: PhantomData<E>,
}

impl<E> Running<'_, E> {
    /// How many pivots were made.
    pub fn made(&self) -> u16
        ensures { result ≡ self.now.made }
    {
        self.made
    }
}
