//! The words of a set of pairs: 512 rows of eight 64-bit words, row `a` with a bit for each station that is paired with `a`.
//! All work goes word by word. Rows and words are numbers below 512 and 8: they index fixed memory, and a type for each would be unpacked at once.
ghost use Rattle.std.specs.Prelude.{◌≡◌, ℕ, ◌+◌, ◌*◌, ◌/◌, ◌<◌, ◌≤◌, true, false, not, ◌&&◌, ◌||◌, ◌==◌, nat_lt, length, replicate, None, IfSome};
ghost use Rattle.network.specs.Bits.{bit_at, count_to};
ghost use Rattle.network.specs.Laws.{FirstIs};
ghost use Rattle.elimination.specs.Elimination.{pairs_below};
ghost use Rattle.elimination.specs.Words.{WordFirst, WordNone, WordWithin, between, has_common_within, has, in_row, next_of, placed, rows, row_taken, struck, word_count};

/// Words without any pair.
pub(crate) fn no_pairs() -> [u64; 4096]
    ensures { result ≡ replicate 4096 0 }
{
    [0; 4096]
}

/// Whether `b` is in row `a`.
pub(crate) fn holds(words: &[u64; 4096], a: usize, b: usize) -> bool
    requires one { a < 512 }
    requires two { b < 512 }
    ensures { result ≡ rows words.now a b }
{
    words[a * 8 + b / 64] >> (b % 64) & 1 == 1
}

/// Puts `b` into row `a`.
pub(crate) fn place(words: &mut [u64; 4096], a: usize, b: usize)
    requires one { a < 512 }
    requires two { b < 512 }
    ensures { rows words.new ≡ placed (rows words.old) a b }
{
    words[a * 8 + b / 64] |= 1 << (b % 64);
}

/// Takes `b` out of row `a`.
pub(crate) fn strike(words: &mut [u64; 4096], a: usize, b: usize)
    requires one { a < 512 }
    requires two { b < 512 }
    ensures { rows words.new ≡ struck (rows words.old) a b }
{
    words[a * 8 + b / 64] &= !(1 << (b % 64));
}

/// The bits of the word `k` of a row that stand for stations below `n`.
fn below(n: usize, k: usize) -> u64
    requires { k < 8 }
    ensures { (j : ℕ) → j < 64 → bit_at result j ≡ nat_lt (64 * k + j) n }
{
    let first = 64 * k;
    if n <= first {
        0
    } else if n - first < 64 {
        (1 << (n - first)) - 1
    } else {
        u64::MAX
    }
}

/// The words of row `a`, where they stand.
fn row_at(words: &[u64; 4096], a: usize) -> &[u64]
    requires { a < 512 }
    ensures row { in_row result.now ≡ rows words.now a }
    ensures long { length result.now ≡ 8 }
{
    &words[a * 8..a * 8 + 8]
}

/// A copy of the words of row `a`.
pub(crate) fn row_of(words: &[u64; 4096], a: usize) -> [u64; 8]
    requires { a < 512 }
    ensures { in_row result ≡ rows words.now a }
{
    let mut row = [0; 8];
    row.copy_from_slice(row_at(words, a));
    row
}

/// The word `k` of a row without the stations below `from`. Only the first of the words that are looked at has any.
fn word_from(row: &[u64], from: usize, k: usize) -> u64
    requires long { length row.now ≡ 8 }
    requires word { k < 8 }
    requires at { from / 64 ≤ k }
    ensures { (j : ℕ) → j < 64 → bit_at result j ≡ (in_row row.now (64 * k + j) && not (nat_lt (64 * k + j) from)) }
{
    let word = row[k];
    if k == from / 64 {
        word & !below(from, k)
    } else {
        word
    }
}

/// The first member of a row not below `from` in the word `k`.
fn first_of_word(row: &[u64], from: usize, k: usize) -> Option<usize>
    requires long { length row.now ≡ 8 }
    requires word { k < 8 }
    requires at { from / 64 ≤ k }
    ensures none { result ≡ None → WordNone row.now from k }
    ensures first { IfSome result (WordFirst row.now from k) }
{
    let word = word_from(row, from, k);
    if word == 0 {
        return None;
    }
    Some(64 * k + word.trailing_zeros() as usize)
}

/// The first member of a row not below `from`: at most eight word steps.
pub(crate) fn first_in(row: &[u64], from: usize) -> Option<usize>
    requires { length row.now ≡ 8 }
    ensures { FirstIs (in_row row.now) from 512 result }
{
    (from / 64..8).find_map(|k| first_of_word(row, from, k))
}

/// The first station not below `from` in row `a`: at most eight word steps.
pub(crate) fn next_in(words: &[u64; 4096], a: usize, from: usize) -> Option<usize>
    requires { a < 512 }
    ensures value { result ≡ next_of (rows words.now) a from }
    ensures first { FirstIs (rows words.now a) from 512 result }
{
    first_in(row_at(words, a), from)
}

/// Puts row `v` into row `a`: eight word steps.
pub(crate) fn take_row(words: &mut [u64; 4096], a: usize, v: usize)
    requires one { a < 512 }
    requires two { v < 512 }
    ensures { rows words.new ≡ row_taken (rows words.old) a v }
{
    let row = row_of(words, v);
    let part = &mut words[a * 8..a * 8 + 8];
    for (k, word) in part.iter_mut().enumerate() {
        *word |= row[k];
    }
}

/// The word `k` of row `c`, with `c` itself.
fn with_own(words: &[u64; 4096], c: usize, k: usize) -> u64
    requires one { c < 512 }
    requires two { k < 8 }
    ensures { (j : ℕ) → j < 64 → bit_at result j ≡ (has words.now c (64 * k + j) || 64 * k + j == c) }
{
    let word = words[c * 8 + k];
    if k == c / 64 {
        word | 1 << (c % 64)
    } else {
        word
    }
}

/// Whether every common member of rows `a` and `b` in the word `k`, but `c` itself, lies in row `c`.
fn word_within(words: &[u64; 4096], a: usize, b: usize, c: usize, k: usize) -> bool
    requires one { a < 512 }
    requires two { b < 512 }
    requires third { c < 512 }
    requires word { k < 8 }
    ensures within { result ≡ true → WordWithin words.now a b c k }
    ensures beyond { result ≡ false → WordWithin words.now a b c k → ⊥ }
{
    words[a * 8 + k] & words[b * 8 + k] & !with_own(words, c, k) == 0
}

/// Whether every common member of rows `a` and `b`, but `c` itself, lies in row `c`: at most eight word steps.
pub(crate) fn common_within(words: &[u64; 4096], a: usize, b: usize, c: usize) -> bool
    requires one { a < 512 }
    requires two { b < 512 }
    requires third { c < 512 }
    ensures { result ≡ has_common_within 512 (rows words.now) a b c }
{
    (0..8).all(|k| word_within(words, a, b, c, k))
}

/// How many members row `a` has in the word `k`, from `low` on and below `high`.
fn count_word(words: &[u64; 4096], a: usize, low: usize, high: usize, k: usize) -> u32
    requires one { a < 512 }
    requires word { k < 8 }
    ensures { result ≡ word_count (rows words.now) a low high k }
{
    let mask = below(high, k) & !below(low, k);
    (words[a * 8 + k] & mask).count_ones()
}

/// How many members row `a` has from `low` on and below `high`: eight word steps.
pub(crate) fn count_between(words: &[u64; 4096], a: usize, low: usize, high: usize) -> u32
    requires { a < 512 }
    ensures value { result ≡ count_to (between (rows words.now) a low high) 512 }
    ensures small { result ≤ 512 }
{
    (0..8).map(|k| count_word(words, a, low, high, k)).sum()
}

/// How many pairs of stations below `n` there are, each in the row of its larger station: eight word steps for each row.
pub(crate) fn count_rows(words: &[u64; 4096], n: usize) -> u32
    requires { n ≤ 512 }
    ensures value { result ≡ pairs_below n (rows words.now) }
    ensures small { result ≤ 512 * n }
{
    (0..n).map(|a| count_between(words, a, 0, a)).sum()
}
