// A register as the sweep of a reading would leave it, read without one: no word is written, and none is copied. What the sweep would do is
// seen once, and then any number of tickets may be asked about.
ghost use Rattle.std.specs.Prelude.{◌≡◌, ◌<◌};
ghost use Rattle.register.specs.Rules.{asked_by};
ghost use Rattle.register.specs.Seen.{Sees, newest_of_class, seen_rings, seen_by, class_holds, holder_left, late_rule, judge_rule, room_left};
ghost use Rattle.register.specs.Words.{RegisterWords, RegisterReads};

use crate::extents::Rings;
use crate::{Ask, heading, sweeping};
use model::{Bucket, Class, Fingerprint, Judged, Reason, Room, Usable};
use numbers::{layout, spans};
use ring::{Buckets, Position};

// What a sweep would do: it would visit the positions of these buckets, of none where `from` is `through`, and leave this floor, if any.
// `Sees` is a fact in contracts: it is said by the register's settings, which `Seen` does not keep.
#[derive(Clone, Copy)]
pub struct Seen {
    pub buckets: Buckets,
    pub floor: Option<u64>,
}

// The newest that would go of a class's ring.
fn newest_in(part: &[u64], rings: Rings, class: Class, buckets: Buckets) -> Option<u64>
    requires { RegisterWords rings.u part.now }
    ensures { RegisterReads rings.u (newest_of_class class buckets.from.0 buckets.through.0) part.now result }
{
    ring::newest_passed(&part[rings.words(class)], rings.shape, buckets)
}

// The floor raised by what would go of the three rings: None is the least, so a floor never falls, and one that is absent becomes
// the first that would go.
fn see_rings(part: &[u64], rings: Rings, seen: Seen) -> Seen
    requires { RegisterWords rings.u part.now }
    ensures { RegisterReads rings.u (seen_rings seen) part.now result }
{
    let mut floor = seen.floor;
    for class in Class::ALL {
        floor = floor.max(newest_in(part, rings, class, seen.buckets));
    }
    Seen { floor, ..seen }
}

// What the sweep of a reading would do. A pending register does not sweep, and a clock that stepped back drops nothing.
pub fn see(part: &[u64], u: Usable, reading: Judged) -> Seen
    requires { RegisterWords u part.now }
    ensures { Sees u result × RegisterReads u (seen_by u reading.0) part.now result }
{
    let through = spans::through_of(u, reading);
    let swept = Bucket(part[layout::SWEPT]);
    let floor = heading::floor(part);
    if heading::is_pending(part) || through.0 <= swept.0 {
        let buckets = Buckets {
            from: through,
            through,
        };
        Seen { buckets, floor }
    } else {
        let rings = Rings::of(u);
        let buckets = Buckets {
            from: sweeping::sweep_from(swept, through, rings.shape.ring as u64),
            through,
        };
        see_rings(part, rings, Seen { buckets, floor })
    }
}

// Whether a class's ring would hold a fingerprint in a bucket, by its position.
fn holds_after(
    part: &[u64],
    rings: Rings,
    seen: Seen,
    class: Class,
    position: Position,
    fp: Fingerprint,
) -> bool
    requires { RegisterWords rings.u part.now × ((position.shape ≡ rings.shape) × Sees rings.u seen) }
    ensures { RegisterReads rings.u (class_holds seen class position.bucket.0 fp.word) part.now result }
{
    ring::contains_after(&part[rings.words(class)], position, seen.buckets, fp)
}

// The lowest class whose ring would.
fn holder_after(
    part: &[u64],
    u: Usable,
    seen: Seen,
    bucket: Bucket,
    fp: Fingerprint,
) -> Option<Class>
    requires { RegisterWords u part.now × Sees u seen }
    ensures { RegisterReads u (holder_left seen bucket.0 fp.word) part.now result }
{
    let rings = Rings::of(u);
    let position = rings.shape.position_of(bucket);
    Class::ALL.iter().copied().find(|class| holds_after(part, rings, seen, *class, position, fp))
}

// The first of the rules on the stamp that is met: the floor, and the window's two sides.
fn late_after(u: Usable, seen: Seen, ask: Ask) -> Reason
    ensures { result ≡ late_rule u seen.floor (asked_by ask) }
{
    let window = spans::window_for(u, ask.who);
    let within = spans::in_window(window, ask.stamp, ask.now);
    let past = spans::front_past(window, ask.stamp, ask.now);
    if heading::is_under(seen.floor, ask.stamp) {
        Reason::Floor
    } else if within {
        Reason::Accepted
    } else if past {
        Reason::Ahead
    } else {
        Reason::Behind
    }
}

// The first of the rules of judge that is met, or accepted.
pub fn judge_after(part: &[u64], u: Usable, seen: Seen, ask: Ask) -> Reason
    requires { RegisterWords u part.now × Sees u seen }
    ensures { RegisterReads u (judge_rule u seen (asked_by ask)) part.now result }
{
    let bucket = spans::bucket_of(u, ask.stamp);
    let fp = Fingerprint::from(ask.fp);
    if heading::is_pending(part) {
        Reason::Pending
    } else if !ask.judging {
        Reason::Flag
    } else if let Some(class) = holder_after(part, u, seen, bucket, fp) {
        Reason::Held(class)
    } else {
        late_after(u, seen, ask)
    }
}

// The room that there would be for a fingerprint of a bucket in a class's ring.
pub fn room_after(
    part: &[u64],
    u: Usable,
    seen: Seen,
    class: Class,
    bucket: Bucket,
    fp: Fingerprint,
) -> Room
    requires { RegisterWords u part.now × Sees u seen }
    ensures { RegisterReads u (room_left u seen class bucket.0 fp.word) part.now result }
{
    let rings = Rings::of(u);
    ring::room_after(
        &part[rings.words(class)],
        rings.shape.position_of(bucket),
        seen.buckets,
        fp,
    )
}
