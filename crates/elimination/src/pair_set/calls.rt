//! What can be asked of a set of pairs and done to it.
ghost use Rattle.std.specs.Prelude.{◌≡◌, ℕ, ◌*◌, ◌<◌, ◌≤◌, false};
ghost use Rattle.network.specs.Bits.{count_to};
ghost use Rattle.network.specs.Laws.{FirstIs};
ghost use Rattle.elimination.specs.Elimination.{pairs_below};
ghost use Rattle.elimination.specs.Graphs.{apart, around, including, union, without};
ghost use Rattle.elimination.specs.View.{coming, graph};
ghost use Rattle.elimination.specs.Words.{between, has_common_within, members_of, next_of};

use super::joins::join_rows;
use super::{PairSet, RowMembers};
use crate::words::{
    common_within, count_between, count_rows, holds, next_in, no_pairs, place, row_of, strike,
};

// Calls ask for stations below 512: callers hold `station < size` of an order, a fact of two values. A type of numbers below 512 would be made from it at every call, by the same proof.
impl PairSet {
    /// The set without any pair.
    pub fn empty() -> PairSet
        ensures { (a b : ℕ) → graph result a b ≡ false }
    {
        PairSet { words: no_pairs() }
    }

    /// Whether two stations form a pair of the set.
    pub fn contains(&self, a: usize, b: usize) -> bool
        ensures { result ≡ graph self.now a b }
    {
        if a >= 512 || b >= 512 {
            return false;
        }
        self.joins(a, b)
    }

    /// Whether two known stations form a pair of the set: walks over many stations ask this, which tests no bounds.
    pub(crate) fn joins(&self, a: usize, b: usize) -> bool
        requires one { a < 512 }
        requires two { b < 512 }
        ensures { result ≡ graph self.now a b }
    {
        holds(&self.words, a, b)
    }

    /// Puts a pair in.
    pub fn insert(&mut self, a: usize, b: usize)
        requires one { a < 512 }
        requires two { b < 512 }
        ensures { graph self.new ≡ including (graph self.old) a b }
    {
        place(&mut self.words, a, b);
        place(&mut self.words, b, a);
    }

    /// Takes a pair out.
    pub fn remove(&mut self, a: usize, b: usize)
        requires one { a < 512 }
        requires two { b < 512 }
        ensures { graph self.new ≡ without (graph self.old) a b }
    {
        strike(&mut self.words, a, b);
        strike(&mut self.words, b, a);
    }

    /// The first station not below `from` that is paired with `a`: at most eight word steps.
    pub fn next(&self, a: usize, from: usize) -> Option<usize>
        requires { a < 512 }
        ensures value { result ≡ next_of (graph self.now) a from }
        ensures first { FirstIs (graph self.now a) from 512 result }
    {
        next_in(&self.words, a, from)
    }

    /// The stations that are paired with `a`, rising, as the set now has them: at most eight word steps for each.
    pub fn members(&self, a: usize) -> RowMembers
        requires { a < 512 }
        ensures { coming result ≡ members_of (graph self.now) a }
    {
        RowMembers::of(row_of(&self.words, a))
    }

    /// Whether every station that is paired with both `a` and `b`, but `c` itself, is paired with `c`: at most eight word steps.
    pub fn common_within(&self, a: usize, b: usize, c: usize) -> bool
        requires one { a < 512 }
        requires two { b < 512 }
        requires third { c < 512 }
        ensures { result ≡ has_common_within 512 (graph self.now) a b c }
    {
        common_within(&self.words, a, b, c)
    }

    /// How many stations from `low` on and below `high` are paired with `a`: eight word steps.
    pub fn count_between(&self, a: usize, low: usize, high: usize) -> u32
        requires { a < 512 }
        ensures value { result ≡ count_to (between (graph self.now) a low high) 512 }
        ensures small { result ≤ 512 }
    {
        count_between(&self.words, a, low, high)
    }

    /// How many pairs of stations below `n` there are: eight word steps for each station.
    pub fn count_pairs(&self, n: usize) -> u32
        requires { n ≤ 512 }
        ensures value { result ≡ pairs_below n (graph self.now) }
        ensures small { result ≤ 512 * n }
    {
        count_rows(&self.words, n)
    }

    /// Takes out every pair of `v`: a few word steps for each.
    pub(crate) fn isolate(&mut self, v: usize)
        requires { v < 512 }
        ensures { graph self.new ≡ apart (graph self.old) v }
    {
        for a in self.members(v) {
            self.remove(v, a);
        }
    }

    /// Puts in every pair of two stations that are paired with `v`: eight word steps for each of them.
    pub(crate) fn join_neighbours(&mut self, v: usize)
        requires one { v < 512 }
        requires irreflexive { (a : ℕ) → graph self.old a a ≡ false }
        ensures { graph self.new ≡ union (graph self.old) (around (graph self.old) v) }
    {
        join_rows(&mut self.words, v);
    }
}
