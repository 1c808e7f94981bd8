//! Dropping spare fill pairs until none is left.
//! A pair that goes can make another spare, but only at one of its own two stations: only those rows are looked at again.
//! A round looks at each pair of the marked rows, at most n/8 word steps for each and far less where a test fails early.
ghost use Rattle.std.specs.Prelude.{◌≡◌, ℕ, ◌<◌, ◌≤◌, true, false, not, ◌||◌, ◌≢◌, slice_set};
ghost use Rattle.elimination.specs.Dropping.{Looked, LookedApart, Lost, Ready, Tight, marked};
ghost use Rattle.elimination.specs.Graphs.{Sub, spare, without};
ghost use Rattle.elimination.specs.View.{graph};
ghost use Rattle.elimination.specs.Words.{has_common_within};

use crate::pair_set::PairSet;

/// Whether `a` is no neighbour of `v`, or every common neighbour of `u` and `v` but itself is its neighbour.
fn joins_common(pairs: &PairSet, u: usize, v: usize, a: usize) -> bool
    requires one { u < 512 }
    requires two { v < 512 }
    ensures { result ≡ (not (graph pairs.now v a) || has_common_within 512 (graph pairs.now) u v a) }
{
    !pairs.contains(v, a) || pairs.common_within(u, v, a)
}

/// Whether the common neighbours of `u` and `v` are pairwise neighbours: at most eight word steps for each neighbour of `u`.
pub fn is_spare(pairs: &PairSet, u: usize, v: usize) -> bool
    requires one { u < 512 }
    requires two { v < 512 }
    ensures { result ≡ spare 512 (graph pairs.now) u v }
{
    pairs.members(u).all(|a| joins_common(pairs, u, v, a))
}

// The sets and the marks are parameters, and no struct that keeps `Looked`: it does not hold while a row is looked at, and a ghost field must hold at each call. `Ready` goes with them.
/// Takes a pair out, and marks its two rows.
fn drop_pair(pairs: &mut PairSet, again: &mut [bool; 512], u: usize, v: usize)
    requires one { u < 512 }
    requires two { v < 512 }
    ensures pairs { graph pairs.new ≡ without (graph pairs.old) u v }
    ensures marks { again.new ≡ slice_set (slice_set again.old u true) v true }
{
    pairs.remove(u, v);
    again[u] = true;
    again[v] = true;
}

/// Drops each fill pair of `u` that is spare when it is looked at, marks the rows of those pairs, and tells whether there was one.
fn drop_in_row(pairs: &mut PairSet, couplings: &PairSet, again: &mut [bool; 512], u: usize) -> bool
    requires one { u < 512 }
    requires looked { LookedApart (graph couplings.now) (graph pairs.old) again.old u }
    ensures ready { (n : ℕ) → Ready n (graph couplings.now) (graph pairs.old) → Ready n (graph couplings.now) (graph pairs.new) }
    ensures within { Sub (graph pairs.new) (graph pairs.old) }
    ensures looked { Looked (graph couplings.now) (graph pairs.new) again.new }
    ensures some { result ≡ true → Lost (graph pairs.old) (graph pairs.new) }
    ensures none { result ≡ false → again.new ≡ again.old }
{
    // A `for` with a flag: the closure of an `any` or a `fold` would change the sets that it captures, which is no plainer.
    let mut dropped = false;
    for v in pairs.members(u) {
        if !couplings.contains(u, v) && is_spare(pairs, u, v) {
            drop_pair(pairs, again, u, v);
            dropped = true;
        }
    }
    dropped
}

/// Drops spare fill pairs of `u` if its row is marked, and takes its mark away unless one was dropped.
fn look_again(pairs: &mut PairSet, couplings: &PairSet, again: &mut [bool; 512], u: usize) -> bool
    requires one { u < 512 }
    requires looked { Looked (graph couplings.now) (graph pairs.old) again.old }
    ensures ready { (n : ℕ) → Ready n (graph couplings.now) (graph pairs.old) → Ready n (graph couplings.now) (graph pairs.new) }
    ensures within { Sub (graph pairs.new) (graph pairs.old) }
    ensures looked { Looked (graph couplings.now) (graph pairs.new) again.new }
    ensures some { result ≡ true → Lost (graph pairs.old) (graph pairs.new) }
    ensures none { result ≡ false → (marked again.new u ≡ false) × ((j : ℕ) → (j ≢ u) → marked again.new j ≡ marked again.old j) }
{
    if !again[u] {
        return false;
    }
    again[u] = false;
    drop_in_row(pairs, couplings, again, u)
}

/// Looks at each marked row, and tells whether a pair was dropped.
fn drop_round(pairs: &mut PairSet, couplings: &PairSet, again: &mut [bool; 512], n: usize) -> bool
    requires few { n ≤ 512 }
    requires ready { Ready n (graph couplings.now) (graph pairs.old) }
    requires looked { Looked (graph couplings.now) (graph pairs.old) again.old }
    ensures ready { Ready n (graph couplings.now) (graph pairs.new) }
    ensures within { Sub (graph pairs.new) (graph pairs.old) }
    ensures looked { Looked (graph couplings.now) (graph pairs.new) again.new }
    ensures some { result ≡ true → Lost (graph pairs.old) (graph pairs.new) }
    ensures none { result ≡ false → Tight n (graph couplings.now) (graph pairs.new) }
{
    // A `for` with a flag, as in a row: a closure would change the sets that it captures.
    let mut lost = false;
    for u in 0..n {
        lost |= look_again(pairs, couplings, again, u);
    }
    lost
}

/// Drops spare fill pairs, those too that became spare when others went, until none is left.
/// Each round but the last drops a pair.
pub fn drop_spare(pairs: &mut PairSet, couplings: &PairSet, n: usize)
    requires few { n ≤ 512 }
    requires ready { Ready n (graph couplings.now) (graph pairs.old) }
    ensures ready { Ready n (graph couplings.now) (graph pairs.new) }
    ensures within { Sub (graph pairs.new) (graph pairs.old) }
    ensures tight { Tight n (graph couplings.now) (graph pairs.new) }
{
    // One mark for each station, in fixed memory: a bare array, since marks come and go where `Seen` of a check only grows.
    let mut again = [true; 512];
    while drop_round(pairs, couplings, &mut again, n) {}
}
