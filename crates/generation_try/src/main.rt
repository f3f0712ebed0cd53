// A generation of at most 8 slots at position 0 of a ring of 24: fingerprints are inserted, words printed after each, one is
// dropped, and damaged words are refused. What is printed is the worked case of holding 1, 2, 3, 4, 6 and a seventh, with
// fingerprints that start at the same slot. Two of them are inserted again: at 3 of 4 slots the slots stay 4, and at 6 of 8 there
// is room, unlike for a seventh. Then 128 slots of which 95 are held, by fingerprints that all start at one slot.
#![tactic(auto)]

ghost use Rattle.std.specs.Prelude.{◌≡◌, true, ◌<◌, length};
ghost use Rattle.model.specs.Widths.{generation_width};
ghost use Rattle.model.specs.GenerationWords.{generation_sound};

use generation::{Entry, Generation};
use model::{Bucket, Fingerprint, Room};
use numbers::layout;
use std::io;

// The words of a generation of at most 8 slots, and of one of 128, which lie in an array: a host lends fixed memory, too.
const FEW: usize = 8 + layout::GENERATION_HEAD;

const MANY: usize = 128 + layout::GENERATION_HEAD;

// The answer's number, then the words. ring_try has this, `number`, `show_strike` and `show_sweep` too: no crate that both use prints, and one
// for them would be longer.
fn show(rt: &impl Print, says: u64, part: &[u64]) -> io::Result<()> {
    print!(rt; "{says}:")?;
    for word in part {
        print!(rt; "{word} ")?;
    }
    println!(rt; "")
}

// Whether these are the words of a well-formed generation of at most 8 slots.
fn is_generation(part: &[u64]) -> bool
    ensures { result ≡ true → (length part.now ≡ generation_width 8) × (generation_sound 24 0 part.now ≡ true) }
{
    part.len() == FEW && generation::is_sound(part, 24, 0)
}

// Inserts a fingerprint if there is room. Answers the room that was found, and none for unsound words.
fn strike(part: &mut [u64], bucket: Bucket, fp: Fingerprint, stamp: u64) -> Option<Room> {
    if !is_generation(part) {
        return None;
    }
    let room = generation::room(part, 0, bucket, fp);
    if let Room::At(_) = room {
        generation::insert(part, Entry { bucket, fp, stamp });
    }
    Some(room)
}

// Drops the generation if a sweep passes it. Answers the newest that went, if any did; nothing goes of unsound words.
fn sweep(part: &mut [u64], through: Bucket) -> Option<u64> {
    if !is_generation(part) {
        return None;
    }
    generation::sweep_one(part, through)
}

// 1 where a fingerprint was inserted, 2 where another bucket is held, 3 where there is no room, and 0 for unsound words.
fn number(room: Option<Room>) -> u64 {
    match room {
        Some(Room::At(_)) => 1,
        Some(Room::Collides) => 2,
        Some(Room::Full) => 3,
        None => 0,
    }
}

// Inserts a fingerprint, and prints what became of it.
fn show_strike(
    rt: &impl Print,
    part: &mut [u64],
    bucket: u64,
    fp: u64,
    stamp: u64,
) -> io::Result<()> {
    let room = strike(part, Bucket(bucket), Fingerprint::from(fp), stamp);
    show(rt, number(room), part)
}

// Sweeps, and prints the newest that went, or 0.
fn show_sweep(rt: &impl Print, part: &mut [u64], through: u64) -> io::Result<()> {
    let went = sweep(part, Bucket(through));
    show(rt, went.unwrap_or(0), part)
}

// 128 slots of bucket 120. The 95 from `first` on, round the end, are held, and probing for each fingerprint starts at `first`.
fn crowd(first: usize) -> [u64; MANY]
    requires { first < 128 }
{
    let mut part = [0u64; MANY];
    part[Generation::SLOTS] = 128;
    part[Generation::NEWEST] = 100;
    part[Generation::BUCKET] = 120;
    for k in 0..95 {
        let at = (first + k) % 128 + layout::GENERATION_HEAD;
        part[at] = ((k + 1) * 128 + first) as u64;
    }
    part
}

// Prints 1 if they are sound, and else 0, with one slot changed and so many said to be held.
fn show_crowd(rt: &impl Print, first: usize, at: usize, word: u64, held: u64) -> io::Result<()>
    requires { (first < 128) × (at < 128) }
{
    let mut part = crowd(first);
    part[at + layout::GENERATION_HEAD] = word;
    part[Generation::HELD] = held;
    let sound = generation::is_sound(&part, 24, 0);
    print!(rt; "{} ", u64::from(sound))
}

// Those from `first` on, of which `next` is the slot behind the last, with a new fingerprint there, with one that is
// held already, with the new one past an empty slot, with an empty slot among them, and with one too few said to be held.
fn show_crowds(rt: &impl Print, first: usize, next: usize, new: u64, known: u64) -> io::Result<()>
    requires { (first < 128) × (next < 96) }
{
    show_crowd(rt, first, next, 0, 95)?;
    show_crowd(rt, first, next, new, 96)?;
    show_crowd(rt, first, next, known, 96)?;
    show_crowd(rt, first, next + 1, new, 96)?;
    show_crowd(rt, first, 51, 0, 94)?;
    show_crowd(rt, first, next, 0, 94)?;
    println!(rt; "")
}

fn main(rt: HostRuntime) -> io::Result<()> {
    let mut part = [0u64; FEW];
    show_strike(&rt, &mut part, 120, 8, 100)?;
    show_strike(&rt, &mut part, 120, 16, 90)?;
    show_strike(&rt, &mut part, 120, 15, 110)?;
    show_strike(&rt, &mut part, 120, 15, 120)?;
    show_strike(&rt, &mut part, 120, 7, 105)?;
    show_strike(&rt, &mut part, 96, 7, 105)?;
    show_strike(&rt, &mut part, 120, 23, 105)?;
    show_strike(&rt, &mut part, 120, 31, 105)?;
    show_strike(&rt, &mut part, 120, 1, 105)?;
    show_strike(&rt, &mut part, 120, 31, 130)?;
    show_sweep(&rt, &mut part, 120)?;
    show_sweep(&rt, &mut part, 121)?;
    part[layout::GENERATION_HEAD + 5] = 5;
    show_strike(&rt, &mut part, 120, 5, 1)?;
    show_crowds(&rt, 0, 95, 131072, 128)?;
    show_crowds(&rt, 100, 67, 131172, 228)
}
