// The share book of the Feeders with three places of three pairs, a Feeder's place at 5 units and a Restored one's at 2. What is
// printed is first the soundness test on words with one thing wrong (and on words with another free cell), then, for each expiry,
// whether the words were sound before and after it, and the words: pairs that go from a place, a place that goes while the later
// one closes up, a clock that steps back by two seconds and by more, and the largest second.
#![tactic(auto)]

ghost use Rattle.std.specs.Prelude.{◌≤◌, ◌<◌, ◌≡◌, true, length};
ghost use Rattle.model.specs.declared.Class.TheVariants.{Feeders};
ghost use Rattle.model.specs.Numbers.{top32};
ghost use Rattle.book.specs.ClassRules.{ClassIs};
ghost use Rattle.book_expiry_try.specs.Fixed.{fixed};

use model::{Class, Second, Shares};
use numbers::layout;
use std::io;

// The words of the class, which lie in an array: a host lends fixed memory, too.
const WORDS: usize = layout::CLASS_HEAD + 3 * (2 * 3 + layout::PLACE_HEAD);

const SHARES: Shares = Shares {
    places: 3,
    pairs: 3,
    feeder: 5,
    peer: 2,
};

fn print_test(rt: &impl Print, yes: bool, end: &str) -> io::Result<()> {
    let n = u64::from(yes);
    print!(rt; "{n}{end}")
}

// The words. book_try has these lines too: no crate that both use prints, and one for them would be longer.
fn show(rt: &impl Print, words: &[u64]) -> io::Result<()> {
    for word in words {
        print!(rt; "{word} ")?;
    }
    println!(rt; "")
}

// Whether these are the words of a well-formed class of Feeders.
fn is_class(words: &[u64]) -> bool
    ensures { result ≡ true → ClassIs fixed Feeders words.now }
{
    if words.len() != WORDS {
        return false;
    }
    book_sound::class_sound(words, SHARES, Class::Feeders)
}

// The test with another word at one place, which is then put back.
fn altered(rt: &impl Print, words: &mut [u64], at: usize, word: u64) -> io::Result<()>
    requires { at < length words.old }
{
    let kept = words[at];
    words[at] = word;
    print_test(rt, is_class(words), " ")?;
    words[at] = kept;
    Ok(())
}

// The test with counts of the first place whose sum is 6 past 2^64, where 6 is its entries.
fn wrapped(rt: &impl Print, words: &mut [u64]) -> io::Result<()>
    requires { 11 < length words.old }
{
    let first = words[9];
    let second = words[11];
    words[9] = u64::MAX;
    words[11] = 6;
    print_test(rt, is_class(words), " ")?;
    words[9] = first;
    words[11] = second;
    Ok(())
}

// Expires sound words up to a second.
fn expire(rt: &impl Print, words: &mut [u64], second: u64) -> io::Result<()>
    requires { second ≤ top32 }
{
    let sound = is_class(words);
    print_test(rt, sound, " ")?;
    if !sound {
        return Ok(());
    }
    book_expiry::expire(words, SHARES, Class::Feeders, Second(second));
    print_test(rt, is_class(words), ":")?;
    show(rt, words)
}

fn main(rt: HostRuntime) -> io::Result<()> {
    // 13 entries of 3 holders, 25 units, expired 10; Feeder 7, Feeder 8 with two free cells, and Restored with a free number
    let mut words = [
        13, 3, 25, 10, 0, 7, 6, 3, 12, 2, 20, 3, 30, 1, 0, 8, 5, 2, 11, 4, 15, 1, 99, 98, 3, 44, 2,
        1, 25, 2, 0, 0, 0, 0u64,
    ];
    // seconds that do not rise
    altered(&rt, &mut words, 10, 31)?;
    altered(&rt, &mut words, 10, 12)?;
    // totals that are not the sums, and more than 32 bits
    altered(&rt, &mut words, 0, 14)?;
    altered(&rt, &mut words, 1, 2)?;
    altered(&rt, &mut words, 2, 24)?;
    altered(&rt, &mut words, 3, 4294967296)?;
    // a Peer, and a Feeder twice
    altered(&rt, &mut words, 14, 1)?;
    altered(&rt, &mut words, 15, 7)?;
    wrapped(&rt, &mut words)?;
    // what no rule reads
    altered(&rt, &mut words, 22, 5)?;
    altered(&rt, &mut words, 25, 45)?;
    println!(rt; "")?;
    // a pair goes; a pair and a place go
    expire(&rt, &mut words, 12)?;
    expire(&rt, &mut words, 16)?;
    // back by two seconds, by three, and on
    expire(&rt, &mut words, 14)?;
    expire(&rt, &mut words, 13)?;
    expire(&rt, &mut words, 26)?;
    // the last place goes; back by one at the cap, and by three
    expire(&rt, &mut words, 4294967295)?;
    expire(&rt, &mut words, 4294967294)?;
    expire(&rt, &mut words, 4294967292)?;
    // an unused place that is not 0
    altered(&rt, &mut words, 33, 1)?;
    println!(rt; "")
}
