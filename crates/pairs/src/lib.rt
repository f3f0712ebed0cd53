// A place's pairs of second and count, seconds rising, and how they lie in the place's cells: pair k in the cells 2k (its second)
// and 2k + 1 (its count). Other crates move and clear places as wholes, and read or write no cell by itself; what these functions
// do is said of lists of pairs. How many pairs there are stands beside the cells, which are all those that a place has: what a change
// leaves behind the pairs is said here once, and not by each caller that would have to cut the cells at 2n. So readers take n too: a
// place's cells are lent whole, and n stands in the place's head.
#![tactic(auto)]

ghost use Rattle.std.specs.Prelude.{ℕ, ◌+◌, ◌*◌, ◌≤◌, ◌<◌, ◌≡◌, ◌&&◌, ◌++◌, length, drop, get_or, eqb};
ghost use Rattle.runs.specs.Chunks.{flat};
ghost use Rattle.runs.specs.Turns.{Turns};
ghost use Rattle.model.specs.Book.{total};
ghost use Rattle.model.specs.BookWords.{most_entries, pair_words, read_pairs, pairs_sound as rising};
ghost use Rattle.pairs.specs.Pairs.{cells_words, passed_in, second_at, Holds, Takes, Loses, raised, lowered, inserted, removed, count_at};

use model::Second;
use runs::moves;

// The pairs that are earlier than a second: how many, and their entries.
#[derive(Clone, Copy)]
pub struct Passed {
    pub pairs: usize,
    pub entries: u64,
}

// Walks over the pairs that are earlier than a second. No binary search: it adds up the entries that it passes, and its contract holds for
// seconds in any order. A place is searched by the same walk, which is one for both. Here and in the book's places a second is a plain number, as it lies in the cells.
#[tactic(auto, using(crate::proofs::PairWords::walked_stop))]
pub fn earlier(cells: &[u64], n: usize, second: u64) -> Passed
    requires { (n ≤ 512) × (2 * n ≤ length cells.now) × (total (read_pairs n cells.now) ≤ most_entries) }
    ensures { result ≡ passed_in second (read_pairs n cells.now) }
{
    let mut entries = 0;
    let (pairs, _) = cells[..2 * n].as_chunks::<2>();
    for (i, &[at, count]) in pairs.iter().enumerate() {
        if second <= at {
            return Passed { pairs: i, entries };
        }
        entries += count;
    }
    Passed { pairs: n, entries }
}

// Whether pair k is there and has that second.
#[tactic(auto, using(crate::proofs::PairWords::second_here, crate::proofs::PairWords::second_past))]
pub fn has_second(cells: &[u64], n: usize, k: usize, second: u64) -> bool
    requires { (n ≤ 512) × (2 * n ≤ length cells.now) }
    ensures { result ≡ second_at second k (read_pairs n cells.now) }
{
    k < n && cells[2 * k] == second
}

// The count of pair k.
#[tactic(auto, using(crate::proofs::PairWords::count_here))]
pub fn count(cells: &[u64], k: usize) -> u64
    requires { (2 * k + 1 < length cells.now) }
    ensures { (n : ℕ) → k < n → result ≡ count_at k (read_pairs n cells.now) }
{
    cells[2 * k + 1]
}

// Writes the first n pairs at the start of `out`, of each its second and its count. What lies behind them stays.
#[tactic(auto, using(crate::proofs::PairWords::lists))]
pub fn list(cells: &[u64], n: usize, out: &mut [u64])
    requires { (n ≤ 512) × (2 * n ≤ length cells.now) × (2 * n ≤ length out.old) }
    ensures { out.new ≡ flat pair_words (read_pairs n cells.now) ++ drop (2 * n) out.old }
{
    out[..2 * n].copy_from_slice(&cells[..2 * n]);
}

// The pair k counts one entry more.
#[tactic(auto, using(crate::proofs::PairWords::raises))]
pub fn raise(cells: &mut [u64], k: usize)
    requires { (2 * k + 1 < length cells.old) × (get_or cells.old (2 * k + 1) 0 ≤ most_entries) }
    ensures { (n : ℕ) → Turns cells_words (Holds n k) (raised k) (λ x. tt {0}) cells.old cells.new (tt {0}) }
{
    cells[2 * k + 1] += 1;
}

// The pair k counts one entry less.
#[tactic(auto, using(crate::proofs::PairWords::lowers))]
pub fn lower(cells: &mut [u64], k: usize)
    requires { (2 * k + 1 < length cells.old) × (1 ≤ get_or cells.old (2 * k + 1) 0) }
    ensures { (n : ℕ) → Turns cells_words (Holds n k) (lowered k) (λ x. tt {0}) cells.old cells.new (tt {0}) }
{
    cells[2 * k + 1] -= 1;
}

// A pair of one entry comes before pair k; it takes the two cells after the pairs.
#[tactic(auto, using(crate::proofs::PairWords::inserts))]
pub fn insert(cells: &mut [u64], n: usize, k: usize, second: u64)
    requires { (n ≤ 512) × (k ≤ n) × (2 * n + 2 ≤ length cells.old) }
    ensures { Turns cells_words (Takes n k) (inserted k second) (λ x. tt {0}) cells.old cells.new (tt {0}) }
{
    cells.copy_within(2 * k..2 * n, 2 * k + 2);
    cells[2 * k] = second;
    cells[2 * k + 1] = 1;
}

// From pair k on, m pairs go; later ones close up, and the cells that they leave are 0.
#[tactic(auto, using(crate::proofs::PairWords::removes))]
pub fn remove(cells: &mut [u64], n: usize, k: usize, m: usize)
    requires { (n ≤ 512) × (k + m ≤ n) × (2 * n ≤ length cells.old) }
    ensures { Turns cells_words (Loses n k m) (removed k m) (λ x. tt {0}) cells.old cells.new (tt {0}) }
{
    moves::close_up(&mut cells[2 * k..2 * n], 2 * m);
}

// The first n pairs are sound: seconds rising and 32-bit, counts at least 1, and the counts add up to `entries` exactly.
// What is left of `entries` is counted down, so that nothing is added up and nothing wraps. The four comparisons are joined by `&`: so
// they are one value and one branch.
#[tactic(auto, using(crate::proofs::Counting::left_all, crate::proofs::Counting::left_none, crate::proofs::Counting::left_bad, crate::proofs::Counting::left_on))]
pub fn are_sound(cells: &[u64], n: usize, entries: u64) -> bool
    requires { (n ≤ 512) × (2 * n ≤ length cells.now) }
    ensures { result ≡ (rising 0 (read_pairs n cells.now) && eqb (total (read_pairs n cells.now)) entries) }
{
    let mut least = 0;
    let mut left = entries;
    let (pairs, _) = cells[..2 * n].as_chunks::<2>();
    for &[second, count] in pairs {
        if !((least <= second) & ((second <= Second::LAST) & ((1 <= count) & (count <= left)))) {
            return false;
        }
        least = second + 1;
        left -= count;
    }
    left == 0
}
