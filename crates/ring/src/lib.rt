// A class's ring: for each position a generation, in one run of words. Bucket b is at position b mod ring. A ring is handed
// over as its words and its shape. `RingWords` is a fact in contracts and no type: a type for the functions that read would be a
// second form beside that of the three that write.
#![tactic(auto)]

mod peeking;
mod shapes;

ghost use Rattle.std.specs.Prelude.{◌≡◌, ◌<◌, ◌*◌, length};
ghost use Rattle.runs.specs.Combine.{test_all};
ghost use Rattle.runs.specs.Turns.{silent};
ghost use Rattle.model.specs.Widths.{generation_width};
ghost use Rattle.model.specs.GenerationWords.{generation_place};
ghost use Rattle.model.specs.Register.{holds, holds_any};
ghost use Rattle.model.specs.Judge.{make_room};
ghost use Rattle.model.specs.Dump.{drop_bucket};
ghost use Rattle.ring.specs.Ring.{RingWords, RingReads, RingTurns, bucket_in, found_at, inserted_in, drop_bucket_says};
ghost use Rattle.ring.specs.Sweep.{swept_ring, swept_says};

use generation::{Entry, Generation};
use model::{Bucket, Fingerprint, Room};
pub use peeking::{contains_after, newest_passed, room_after};
pub use shapes::{Position, Shape};

// The buckets whose positions a sweep visits: from one up to, not including, another. They are two ends and no `Range`, which is not
// `Copy`.
#[derive(Clone, Copy)]
pub struct Buckets {
    pub from: Bucket,
    pub through: Bucket,
}

// The bucket that a position has; where it holds nothing any number, which no rule reads.
pub fn bucket_at(words: &[u64], shape: Shape, at: usize) -> Bucket
    requires { RingWords shape.slots shape.ring words.now × (at < shape.ring) }
    ensures { RingReads shape.slots shape.ring (bucket_in at) words.now result.0 }
{
    let head = Generation::of(&words[shape.place(at)]);
    Bucket(head.bucket)
}

// Whether the ring holds a fingerprint in a bucket, by its position.
pub fn contains_at(words: &[u64], position: Position, fp: Fingerprint) -> bool
    requires { RingWords position.shape.slots position.shape.ring words.now }
    ensures { RingReads position.shape.slots position.shape.ring (holds position.bucket.0 fp.word) words.now result }
{
    let part = &words[position.shape.place(position.at)];
    generation::contains_in(part, position.bucket, fp)
}

// Whether it holds it in any. The answer is kept to the end: where it is not held, all are looked through in any case. A chain with `any`
// was tried, and its proof did not close: what is known of the chunks goes by their positions.
pub fn contains_any(words: &[u64], shape: Shape, fp: Fingerprint) -> bool
    requires { RingWords shape.slots shape.ring words.now }
    ensures { RingReads shape.slots shape.ring (holds_any fp.word) words.now result }
{
    let mut any = false;
    for part in words.chunks_exact(shape.width()) {
        any |= generation::contains(part, fp);
    }
    any
}

// The room for one more fingerprint of a bucket: its position, or what stands against it.
pub fn room(words: &[u64], position: Position, fp: Fingerprint) -> Room
    requires { RingWords position.shape.slots position.shape.ring words.now }
    ensures { RingReads position.shape.slots position.shape.ring (make_room position.shape.slots position.bucket.0 fp.word) words.now result }
{
    let part = &words[position.shape.place(position.at)];
    generation::room(part, position.at, position.bucket, fp)
}

// Inserts an entry at the position where room was found for it. That comes from `Room::At`, so no position is computed again.
pub fn insert(words: &mut [u64], shape: Shape, at: usize, entry: Entry)
    requires { RingWords shape.slots shape.ring words.old × RingReads shape.slots shape.ring (make_room shape.slots entry.bucket.0 entry.fp.word) words.old (found_at at) }
    ensures ring_words { RingWords shape.slots shape.ring words.new }
    ensures ring_turns { RingTurns shape.slots shape.ring (inserted_in entry.bucket.0 entry.fp.word entry.stamp) silent words.old words.new (tt {0}) }
{
    generation::insert(&mut words[shape.place(at)], entry);
}

// The generation of a bucket is dropped, if its position has it. Answers the newest that went.
pub fn drop_bucket(words: &mut [u64], shape: Shape, bucket: Bucket) -> Option<u64>
    requires { RingWords shape.slots shape.ring words.old }
    ensures ring_words { RingWords shape.slots shape.ring words.new }
    ensures ring_turns { RingTurns shape.slots shape.ring (drop_bucket bucket.0) (drop_bucket_says bucket.0) words.old words.new result }
{
    let at = shape.position_of(bucket).at;
    generation::drop_in(&mut words[shape.place(at)], bucket)
}

// Where a sweep visits a held generation of a bucket before `through`, it is dropped. Answers the newest that went: of two
// drops the larger, since None is the least.
pub fn sweep(words: &mut [u64], shape: Shape, buckets: Buckets) -> Option<u64>
    requires { RingWords shape.slots shape.ring words.old }
    ensures ring_words { RingWords shape.slots shape.ring words.new }
    ensures ring_turns { RingTurns shape.slots shape.ring (swept_ring buckets.from.0 buckets.through.0) (swept_says buckets.from.0 buckets.through.0) words.old words.new result }
{
    let mut went = None;
    for b in buckets.from.0..buckets.through.0 {
        let at = shape.position_of(Bucket(b)).at;
        let more = generation::sweep_one(&mut words[shape.place(at)], buckets.through);
        went = went.max(more);
    }
    went
}

// The words of a ring are sound, whatever they are. The answer is kept to the end: sound words are looked through to the end in any case.
// What is known of the chunks goes by their positions: a chain with `all` would need lemmas that state them as one list.
pub fn is_sound(words: &[u64], shape: Shape) -> bool
    requires { length words.now ≡ shape.ring * generation_width shape.slots }
    ensures { result ≡ test_all (generation_place shape.slots shape.ring) 0 shape.ring words.now }
{
    let mut all = true;
    for (i, part) in words.chunks_exact(shape.width()).enumerate() {
        all &= generation::is_sound(part, shape.ring as u64, i as u64);
    }
    all
}
