// A generation: the fingerprints of one bucket, in its own run of words. Its head leads (slots, held, newest, bucket, oldest), then
// come the slots: as many as the first word says are live, and the rest of the run is 0. `Bounded` is a fact in contracts and no type:
// half of the functions change the words, so a type would have to say it before and after each of them.
#![tactic(auto)]

ghost use Rattle.std.specs.Prelude.{◌≡◌, cond, ◌≤◌, ◌<◌, min, length, eqb};
ghost use Rattle.runs.specs.Turns.{silent};
ghost use Rattle.model.specs.Widths.{generation_head, generation_width};
ghost use Rattle.model.specs.Generation.{among, insert, dropped};
ghost use Rattle.generation.specs.Rules.{holds_in, room_in, room_for, with_slots_for, entered, drop_says, dropped_in, drop_in_says, swept_at, sweep_says};
ghost use Rattle.generation.specs.Words.{Bounded, Roomy, RoomyFor, Leads, led_by, opened, GenerationReads, GenerationTurns, FittingTurns};

use crate::slots::{put, regrow};
use model::{Bucket, Fingerprint, Probe, Room};
use numbers::layout;
use std::ops::Range;

mod crowded;
mod slots;
mod sound;

pub use slots::find;
pub use sound::{is_sound, one_if_held};

// The words that lead a generation's run.
#[derive(Clone, Copy, Default)]
pub struct Generation {
    // How many slots are live: 0, or a power of two.
    pub slots: u64,
    // How many of them hold a fingerprint.
    pub held: u64,
    // The newest stamp that was inserted.
    pub newest: u64,
    pub bucket: u64,
    // The oldest stamp that was inserted.
    pub oldest: u64,
}

impl Generation {
    // The slots that doubling starts from where there are none.
    pub const LEAST: u64 = 1;

    // The words that lead a run: a generation of at most S slots has S + HEAD.
    pub const HEAD: usize = layout::GENERATION_HEAD;

    // Which word is which.
    pub const SLOTS: usize = 0;

    pub const HELD: usize = 1;

    pub const NEWEST: usize = 2;

    pub const BUCKET: usize = 3;

    pub const OLDEST: usize = 4;

    // One that holds nothing yet. A rule of the project names this function.
    pub fn open() -> Generation
        ensures { result ≡ opened }
    {
        Generation::default()
    }

    // The one that leads a run.
    pub fn of(part: &[u64]) -> Generation
        requires { generation_head ≤ length part.now }
        ensures { Leads part.now result }
    {
        Generation {
            slots: part[Generation::SLOTS],
            held: part[Generation::HELD],
            newest: part[Generation::NEWEST],
            bucket: part[Generation::BUCKET],
            oldest: part[Generation::OLDEST],
        }
    }

    // Makes it lead a run.
    pub fn lead(self, part: &mut [u64])
        requires { generation_head ≤ length part.old }
        ensures { part.new ≡ led_by self part.old }
    {
        part[..Generation::HEAD].copy_from_slice(&[
            self.slots,
            self.held,
            self.newest,
            self.bucket,
            self.oldest,
        ]);
    }
}

// What is inserted: a fingerprint, under its bucket and its stamp.
#[derive(Clone, Copy)]
pub struct Entry {
    pub bucket: Bucket,
    pub fp: Fingerprint,
    pub stamp: u64,
}

// Where the live slots lie in a run that has so many.
fn live(slots: u64) -> Range<usize>
    requires { slots ≤ 1024 }
    ensures start { result.start ≡ generation_head }
    ensures end { result.end ≡ generation_width slots }
{
    Generation::HEAD..slots as usize + Generation::HEAD
}

// Whether a generation holds a fingerprint.
pub fn contains(part: &[u64], fp: Fingerprint) -> bool
    requires { Bounded part.now }
    ensures { GenerationReads (λ S g. among fp.word g.slots) part.now result }
{
    let slots = &part[live(part[Generation::SLOTS])];
    matches!(find(slots, fp.word), Probe::Held(_))
}

// Whether it holds a fingerprint, and is of a bucket.
pub fn contains_in(part: &[u64], bucket: Bucket, fp: Fingerprint) -> bool
    requires { Bounded part.now }
    ensures { GenerationReads (λ S. holds_in bucket.0 fp.word) part.now result }
{
    part[Generation::BUCKET] == bucket.0 && contains(part, fp)
}

// The room for one more fingerprint of a bucket in the generation at position `at`: that position, or what stands against it.
// `known`: the fingerprint is held already.
pub fn room_known(part: &[u64], at: usize, bucket: Bucket, known: bool) -> Room
    requires { Bounded part.now }
    ensures { GenerationReads (room_in known bucket.0 at) part.now result }
{
    let most = (part.len() - Generation::HEAD) as u64;
    let head = Generation::of(part);
    if (head.bucket != bucket.0) & (head.held != 0) {
        return Room::Collides;
    }
    let wanted = head.slots_for(known);
    if wanted <= most {
        Room::At(at)
    } else {
        Room::Full
    }
}

// The same for a fingerprint, which is looked up.
pub fn room(part: &[u64], at: usize, bucket: Bucket, fp: Fingerprint) -> Room
    requires { Bounded part.now }
    ensures { GenerationReads (room_for fp.word bucket.0 at) part.now result }
{
    room_known(part, at, bucket, contains(part, fp))
}

// A generation's slots grow as one more fingerprint asks. `known`: it is held already.
fn grow(part: &mut [u64], known: bool)
    requires { Bounded part.old × Roomy known part.old }
    ensures { Bounded part.new × GenerationTurns (with_slots_for known) silent part.old part.new (tt {0}) }
{
    let head = Generation::of(part);
    let wanted = head.slots_for(known);
    regrow(
        &mut part[Generation::HEAD..],
        head.slots as usize,
        wanted as usize,
    );
    part[Generation::SLOTS] = wanted;
}

// The oldest stamp once this one is inserted. Nothing held tells the first insertion, since a stamp of 0 is a stamp.
fn oldest_with(head: Generation, stamp: u64) -> u64
    ensures { result ≡ cond (eqb head.held 0) stamp (min head.oldest stamp) }
{
    if head.held == 0 {
        return stamp;
    }
    head.oldest.min(stamp)
}

// Puts an entry, and the numbers that lead follow it.
fn enter(part: &mut [u64], entry: Entry)
    requires { Bounded part.old }
    ensures { FittingTurns (entered entry.bucket.0 entry.fp.word entry.stamp) silent part.old part.new (tt {0}) }
{
    let head = Generation::of(part);
    let added = put(&mut part[live(head.slots)], entry.fp);
    let next = Generation {
        slots: head.slots,
        held: head.held + added,
        newest: head.newest.max(entry.stamp),
        bucket: entry.bucket.0,
        oldest: oldest_with(head, entry.stamp),
    };
    next.lead(part);
}

// Inserts an entry. `known` says whether its fingerprint is held already, and there must be room for it.
pub fn insert_known(part: &mut [u64], known: bool, entry: Entry)
    requires { GenerationReads (λ S g. among entry.fp.word g.slots) part.old known × (Bounded part.old × Roomy known part.old) }
    ensures { GenerationTurns (insert entry.bucket.0 entry.fp.word entry.stamp) silent part.old part.new (tt {0}) }
{
    grow(part, known);
    enter(part, entry);
}

// The same, and the fingerprint is looked up.
pub fn insert(part: &mut [u64], entry: Entry)
    requires { Bounded part.old × RoomyFor entry.fp.word part.old }
    ensures { GenerationTurns (insert entry.bucket.0 entry.fp.word entry.stamp) silent part.old part.new (tt {0}) }
{
    let known = contains(part, entry.fp);
    insert_known(part, known, entry);
}

// A generation is dropped: it holds nothing, and its bucket word stays. Answers the newest stamp that went, if any did.
pub fn drop_all(part: &mut [u64]) -> Option<u64>
    requires { Bounded part.old }
    ensures { GenerationTurns dropped drop_says part.old part.new result }
{
    let head = Generation::of(part);
    if head.held == 0 {
        return None;
    }
    part[live(head.slots)].fill(0);
    let next = Generation {
        bucket: head.bucket,
        ..Generation::open()
    };
    next.lead(part);
    Some(head.newest)
}

// The same, if it is of a bucket.
pub fn drop_in(part: &mut [u64], bucket: Bucket) -> Option<u64>
    requires { Bounded part.old }
    ensures { GenerationTurns (dropped_in bucket.0) (drop_in_says bucket.0) part.old part.new result }
{
    if part[Generation::BUCKET] == bucket.0 {
        drop_all(part)
    } else {
        None
    }
}

// One position of a sweep: a held generation of a bucket before `through` is dropped. Answers the newest that went. It differs from
// `drop_in` in one test, which a parameter would only move to the callers.
pub fn sweep_one(part: &mut [u64], through: Bucket) -> Option<u64>
    requires { Bounded part.old }
    ensures { GenerationTurns (swept_at through.0) (sweep_says through.0) part.old part.new result }
{
    if part[Generation::BUCKET] < through.0 {
        drop_all(part)
    } else {
        None
    }
}

// The same with nothing dropped: the newest that would go.
#[tactic(auto, using(crate::proofs::Dropping::passed_told))]
pub fn newest_passed(part: &[u64], through: Bucket) -> Option<u64>
    requires { generation_head ≤ length part.now }
    ensures { GenerationReads (λ S. sweep_says through.0) part.now result }
{
    let head = Generation::of(part);
    ((head.bucket < through.0) & (head.held != 0)).then_some(head.newest)
}
