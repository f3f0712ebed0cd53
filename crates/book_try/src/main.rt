// The share book of the Feeders with four places of two pairs, a place at 1 unit, and limits of 12. What is printed is the worked
// case of shares (three Feeders get 11, 5 and 3 entries, a fourth 1, and its second is refused by twice the limit), then draws
// given back: a pair lowered, a pair that goes, a second that is not listed, and a place that goes from the middle.
#![tactic(auto)]

ghost use Rattle.std.specs.Prelude.{◌≤◌, ◌≡◌, length};
ghost use Rattle.model.specs.declared.Class.TheVariants.{Feeders};
ghost use Rattle.model.specs.Numbers.{top32};
ghost use Rattle.model.specs.Words.{class_width};
ghost use Rattle.book.specs.ClassRules.{ClassIs};
ghost use Rattle.book_try.specs.Fixed.{fixed};

use book::front::Terms;
use model::{Deliverer, Draw, Limits, Second, Shares};
use numbers::layout;
use std::io;

// The words of the class, which lie in an array: a host lends fixed memory, too.
const WORDS: usize = layout::CLASS_HEAD + 4 * (2 * 2 + layout::PLACE_HEAD);

const SHARES: Shares = Shares {
    places: 4,
    pairs: 2,
    feeder: 1,
    peer: 2,
};

const TERMS: Terms = Terms {
    limits: Limits {
        feeder: 12,
        feeders: 12,
        peer: 12,
        peers: 12,
        relay: 12,
    },
    closed: false,
};

// The words. book_expiry_try has these lines too: no crate that both use prints, and one for them would be longer.
fn show(rt: &impl Print, words: &[u64]) -> io::Result<()> {
    for word in words {
        print!(rt; "{word} ")?;
    }
    println!(rt; "")
}

// No places, and totals of 0.
fn begin(words: &mut [u64])
    requires { length words.old ≡ class_width fixed }
    ensures { ClassIs fixed Feeders words.new }
{
    words.fill(0);
}

// One draw of a Feeder; its answer is printed.
fn take(rt: &impl Print, words: &mut [u64], id: u64, second: u64) -> io::Result<()>
    requires { ClassIs fixed Feeders words.old × (second ≤ top32) }
    ensures { ClassIs fixed Feeders words.new }
{
    let who = Deliverer::Feeder(id);
    let n = book::take(words, SHARES, TERMS, who, Second(second)) as u64;
    print!(rt; "{n} ")
}

// One draw of a Feeder given back.
fn untake(words: &mut [u64], id: u64, second: u64)
    requires { ClassIs fixed Feeders words.old }
    ensures { ClassIs fixed Feeders words.new }
{
    book::untake(words, SHARES, Deliverer::Feeder(id), Second(second));
}

// So many draws of one Feeder at one second.
fn takes(rt: &impl Print, words: &mut [u64], id: u64, second: u64, times: u64) -> io::Result<()>
    requires { ClassIs fixed Feeders words.old × (second ≤ top32) }
    ensures { ClassIs fixed Feeders words.new }
{
    'draws: for _ in 0..times {
        take(rt, words, id, second)?;
    }
    show(rt, words)
}

fn main(rt: HostRuntime) -> io::Result<()> {
    let mut words = [0u64; WORDS];
    begin(&mut words);
    takes(&rt, &mut words, 7, 20, 12)?;
    takes(&rt, &mut words, 8, 10, 6)?;
    takes(&rt, &mut words, 9, 30, 4)?;
    takes(&rt, &mut words, 6, 5, 2)?;
    // two entries of place 9 and one of 7 come back, then 9 draws at another second
    untake(&mut words, 9, 30);
    untake(&mut words, 9, 30);
    untake(&mut words, 7, 20);
    untake(&mut words, 8, 10);
    takes(&rt, &mut words, 9, 10, 1)?;
    // a second that is not listed; a pair that goes; a place that goes from the middle
    untake(&mut words, 9, 11);
    untake(&mut words, 9, 30);
    show(&rt, &words)?;
    untake(&mut words, 9, 10);
    show(&rt, &words)
}
