// A ring of three positions with at most four slots each: fingerprints are inserted, looked for, dropped and swept, and the words
// are printed after each step. Where three of four slots are held a new one finds no room, and one that is held does. Damaged words
// are refused.
#![tactic(auto)]

ghost use Rattle.std.specs.Prelude.{◌≡◌, true};
ghost use Rattle.ring.specs.Ring.{RingWords};

use generation::Entry;
use model::{Bucket, Fingerprint, Room};
use numbers::layout;
use ring::{Buckets, Shape};
use std::io;

const SHAPE: Shape = Shape { slots: 4, ring: 3 };

// The words of a position, and of the ring, which lie in an array: a host lends fixed memory, too.
const WIDTH: usize = 4 + layout::GENERATION_HEAD;

const WORDS: usize = 3 * WIDTH;

// The answer's number, then the words. generation_try has this, `number`, `show_strike` and `show_sweep` too: no crate that both use
// prints, and one for them would be longer.
fn show(rt: &impl Print, says: u64, words: &[u64]) -> io::Result<()> {
    print!(rt; "{says}:")?;
    for word in words {
        print!(rt; "{word} ")?;
    }
    println!(rt; "")
}

// Whether these are the words of a well-formed ring.
fn is_ring(words: &[u64]) -> bool
    ensures { result ≡ true → RingWords 4 3 words.now }
{
    words.len() == WORDS && ring::is_sound(words, SHAPE)
}

// Where a ring holds a fingerprint: in the bucket that is asked about, in another, or in none.
enum Found {
    Here,
    Elsewhere,
    Nowhere,
}

// Inserts a fingerprint if there is room. Answers the room that was found, and none for unsound words.
fn strike(words: &mut [u64], bucket: Bucket, fp: Fingerprint, stamp: u64) -> Option<Room> {
    if !is_ring(words) {
        return None;
    }
    let room = ring::room(words, SHAPE.position_of(bucket), fp);
    if let Room::At(at) = room {
        ring::insert(words, SHAPE, at, Entry { bucket, fp, stamp });
    }
    Some(room)
}

// Where the ring holds a fingerprint; unsound words hold none.
fn look(words: &[u64], bucket: Bucket, fp: Fingerprint) -> Found {
    if !is_ring(words) {
        return Found::Nowhere;
    }
    let here = ring::contains_at(words, SHAPE.position_of(bucket), fp);
    let any = ring::contains_any(words, SHAPE, fp);
    if here {
        Found::Here
    } else if any {
        Found::Elsewhere
    } else {
        Found::Nowhere
    }
}

// Drops a bucket. Answers the newest stamp that went, if any did; nothing goes of unsound words.
fn drop_bucket(words: &mut [u64], bucket: Bucket) -> Option<u64> {
    if !is_ring(words) {
        return None;
    }
    ring::drop_bucket(words, SHAPE, bucket)
}

// The same of a sweep: a function for both would be passed the one call in which they differ, and be no shorter.
fn sweep(words: &mut [u64], buckets: Buckets) -> Option<u64> {
    if !is_ring(words) {
        return None;
    }
    ring::sweep(words, SHAPE, buckets)
}

// 1 where a fingerprint was inserted, 2 where another bucket is held, 3 where there is no room, and 0 for unsound words.
fn number(room: Option<Room>) -> u64 {
    match room {
        Some(Room::At(_)) => 1,
        Some(Room::Collides) => 2,
        Some(Room::Full) => 3,
        None => 0,
    }
}

fn found_number(found: Found) -> u64 {
    match found {
        Found::Here => 3,
        Found::Elsewhere => 2,
        Found::Nowhere => 0,
    }
}

// Inserts a fingerprint, and prints what became of it.
fn show_strike(
    rt: &impl Print,
    words: &mut [u64],
    bucket: u64,
    fp: u64,
    stamp: u64,
) -> io::Result<()> {
    let room = strike(words, Bucket(bucket), Fingerprint::from(fp), stamp);
    show(rt, number(room), words)
}

// Prints where the ring holds a fingerprint.
fn show_look(rt: &impl Print, words: &[u64], bucket: u64, fp: u64) -> io::Result<()> {
    let found = look(words, Bucket(bucket), Fingerprint::from(fp));
    show(rt, found_number(found), words)
}

// Drops a bucket, and prints the newest that went, or 0.
fn show_drop(rt: &impl Print, words: &mut [u64], bucket: u64) -> io::Result<()> {
    let went = drop_bucket(words, Bucket(bucket));
    show(rt, went.unwrap_or(0), words)
}

// The same of a sweep.
fn show_sweep(rt: &impl Print, words: &mut [u64], from: u64, through: u64) -> io::Result<()> {
    let buckets = Buckets {
        from: Bucket(from),
        through: Bucket(through),
    };
    let went = sweep(words, buckets);
    show(rt, went.unwrap_or(0), words)
}

fn main(rt: HostRuntime) -> io::Result<()> {
    let mut words = [0u64; WORDS];
    show_strike(&rt, &mut words, 6, 7, 100)?;
    show_strike(&rt, &mut words, 7, 7, 300)?;
    show_strike(&rt, &mut words, 8, 5, 200)?;
    show_strike(&rt, &mut words, 9, 5, 200)?;
    show_strike(&rt, &mut words, 6, 11, 90)?;
    show_strike(&rt, &mut words, 6, 12, 90)?;
    show_strike(&rt, &mut words, 6, 13, 90)?;
    show_strike(&rt, &mut words, 6, 12, 80)?;
    show_look(&rt, &words, 6, 7)?;
    show_look(&rt, &words, 8, 7)?;
    show_look(&rt, &words, 8, 9)?;
    show_drop(&rt, &mut words, 9)?;
    show_drop(&rt, &mut words, 8)?;
    show_sweep(&rt, &mut words, 5, 7)?;
    show_strike(&rt, &mut words, 9, 5, 400)?;
    show_sweep(&rt, &mut words, 7, 10)?;
    words[2 * WIDTH + layout::GENERATION_HEAD] = 5;
    show_strike(&rt, &mut words, 6, 5, 1)
}
