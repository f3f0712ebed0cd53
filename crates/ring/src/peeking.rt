// A ring as a sweep would leave it, read without one: no word is written, and none is copied. Where a contract asks for it the
// sweep is over no more buckets than the ring has positions.
ghost use Rattle.std.specs.Prelude.{◌≤◌};
ghost use Rattle.ring.specs.Ring.{RingWords, RingReads};
ghost use Rattle.ring.specs.Sweep.{swept_says, Visits, goes_at, holds_after as held_after, room_after as room_left};

use crate::{Buckets, Position, Shape, contains_at, room};
use generation::Generation;
use model::{Bucket, Fingerprint, Room};

// The newest that would go, which is what the sweep answers. It is the loop of `sweep` on words that are lent to be read: one function
// for both would have to write.
pub fn newest_passed(words: &[u64], shape: Shape, buckets: Buckets) -> Option<u64>
    requires { RingWords shape.slots shape.ring words.now }
    ensures { RingReads shape.slots shape.ring (swept_says buckets.from.0 buckets.through.0) words.now result }
{
    let mut went = None;
    for b in buckets.from.0..buckets.through.0 {
        let at = shape.position_of(Bucket(b)).at;
        let more = generation::newest_passed(&words[shape.place(at)], buckets.through);
        went = went.max(more);
    }
    went
}

// Whether what a bucket's position holds would go: it is of a bucket before `through`, and the position is visited. The last bucket
// before `through` that has this position lies a remainder back, and it is visited if it is `from` or a later one.
fn goes_at(words: &[u64], position: Position, buckets: Buckets) -> bool
    requires { RingWords position.shape.slots position.shape.ring words.now × Visits position.shape.ring buckets }
    ensures { RingReads position.shape.slots position.shape.ring (goes_at buckets position.at) words.now result }
{
    let head = Generation::of(&words[position.shape.place(position.at)]);
    head.held != 0
        && head.bucket < buckets.through.0
        && (buckets.through.0 - 1 - head.bucket) % (position.shape.ring as u64)
            < buckets.through.0 - buckets.from.0
}

// Whether the ring would hold a fingerprint in a bucket, by its position.
#[tactic(auto, using(crate::proofs::Foreseen::holds_gone, crate::proofs::Foreseen::holds_left))]
pub fn contains_after(words: &[u64], position: Position, buckets: Buckets, fp: Fingerprint) -> bool
    requires { RingWords position.shape.slots position.shape.ring words.now × Visits position.shape.ring buckets }
    ensures { RingReads position.shape.slots position.shape.ring (held_after buckets position.bucket.0 fp.word) words.now result }
{
    if goes_at(words, position, buckets) {
        false
    } else {
        contains_at(words, position, fp)
    }
}

// The room that there would be for one more fingerprint of a bucket. Where what the position holds would go there is room, since the
// fewest slots that a generation may have are enough for its first fingerprint.
#[tactic(auto, using(crate::proofs::Foreseen::room_gone, crate::proofs::Foreseen::room_left))]
pub fn room_after(words: &[u64], position: Position, buckets: Buckets, fp: Fingerprint) -> Room
    requires { RingWords position.shape.slots position.shape.ring words.now × ((2 ≤ position.shape.slots) × Visits position.shape.ring buckets) }
    ensures { RingReads position.shape.slots position.shape.ring (room_left buckets position.shape.slots position.bucket.0 fp.word) words.now result }
{
    if goes_at(words, position, buckets) {
        Room::At(position.at)
    } else {
        room(words, position, fp)
    }
}
