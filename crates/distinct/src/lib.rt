// Whether words are distinct, zeros aside, by sorting a copy of them: n words take some n × log n steps, whatever they are. The sort is
// its own: the library's calls itself, and include/strikes.h promises that nothing does.
#![tactic(auto)]

ghost use Rattle.std.specs.Prelude.{◌≡◌, ◌≤◌, length};
ghost use Rattle.distinct.specs.Runs.{distinct, differs, spare_sorted, Sorts};

use crate::sort::sort;

mod sort;

// Whether no word but 0 is the same as the one before it.
fn neighbours_differ(words: &[u64]) -> bool
    ensures { result ≡ differs 0 words.now }
{
    words
        .array_windows::<2>()
        .all(|[last, word]| *word == 0 || last != word)
}

// Whether words are distinct. They are copied to `sorted`, which is sorted with the help of `spare`.
#[tactic(auto, using(crate::proofs::Telling::told))]
fn distinct_through(words: &[u64], sorted: &mut [u64], spare: &mut [u64]) -> bool
    requires { (length words.now ≡ length sorted.old) × ((length sorted.old ≤ 1024) × (length sorted.old ≤ length spare.old)) }
    ensures value { result ≡ distinct words.now }
    ensures sorts { Sorts words.now sorted.new }
    ensures spare_after { spare.new ≡ spare_sorted words.now spare.old }
{
    sorted.copy_from_slice(words);
    sort(sorted, spare);
    neighbours_differ(sorted)
}

// Whether words are distinct, zeros aside. The arrays are of one size, since nothing here is taken from a heap.
pub fn are_distinct(words: &[u64]) -> bool
    requires { length words.now ≤ 1024 }
    ensures { result ≡ distinct words.now }
{
    let mut sorted = [0; 1024];
    let mut spare = [0; 1024];
    distinct_through(words, &mut sorted[..words.len()], &mut spare)
}
