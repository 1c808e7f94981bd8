//! Symmetric sets of pairs of stations.
//! The words are known in words.rt and in this module: everything else speaks of the graph that a set is.
ghost use Rattle.elimination.specs.Words.{Mirrored};

mod calls;
mod joins;
mod members;

pub use members::RowMembers;

/// A set of unordered pairs of stations below 512, in 32 KiB.
#[derive(Clone, Copy)]
pub struct PairSet {
    // Memory is fixed: 512 rows of eight words.
    words: [u64; 4096],
    ghost mirrored: { Mirrored words },
}
