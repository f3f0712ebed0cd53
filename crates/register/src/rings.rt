// A register's three rings, each in its place.
ghost use Rattle.std.specs.Prelude.{◌≡◌, ◌<◌};
ghost use Rattle.runs.specs.Turns.{silent};
ghost use Rattle.model.specs.Settings.{ring_of};
ghost use Rattle.model.specs.Class.{pick};
ghost use Rattle.model.specs.Generation.{as_read as read_as};
ghost use Rattle.model.specs.Register.{holds, holds_any, any_class, strike as struck};
ghost use Rattle.model.specs.Judge.{make_room};
ghost use Rattle.ring.specs.Ring.{bucket_in, found_at};
ghost use Rattle.register.specs.Rules.{swept_class};
ghost use Rattle.register.specs.Words.{RegisterWords, RegisterReads, RegisterTurns};

use crate::extents::Rings;
use crate::heading;
use generation::Entry;
use model::{Bucket, Class, Fingerprint, Room, Usable};
use ring::{Buckets, Position};

// The bucket that a position of a class's ring has; where it holds nothing any number.
pub fn bucket_at(part: &[u64], u: Usable, class: Class, position: usize) -> Bucket
    requires { RegisterWords u part.now × (position < ring_of u) }
    ensures { RegisterReads u (λ reg. bucket_in position (pick class reg.rings)) part.now result.0 }
{
    let rings = Rings::of(u);
    ring::bucket_at(&part[rings.words(class)], rings.shape, position)
}

// Whether a class's ring holds a fingerprint in a bucket, by its position.
fn holds_in(part: &[u64], rings: Rings, class: Class, position: Position, fp: Fingerprint) -> bool
    requires { RegisterWords rings.u part.now × (position.shape ≡ rings.shape) }
    ensures { RegisterReads rings.u (λ reg. holds position.bucket.0 fp.word (pick class reg.rings)) part.now result }
{
    ring::contains_at(&part[rings.words(class)], position, fp)
}

// Whether any class's ring does.
pub fn holds_any_class(part: &[u64], u: Usable, bucket: Bucket, fp: Fingerprint) -> bool
    requires { RegisterWords u part.now }
    ensures { RegisterReads u (λ reg. any_class (holds bucket.0 fp.word) reg.rings) part.now result }
{
    let rings = Rings::of(u);
    let position = rings.shape.position_of(bucket);
    Class::ALL
        .iter()
        .any(|class| holds_in(part, rings, *class, position, fp))
}

// Whether a class's ring holds a fingerprint in any bucket.
fn holds_hash(part: &[u64], rings: Rings, class: Class, fp: Fingerprint) -> bool
    requires { RegisterWords rings.u part.now }
    ensures { RegisterReads rings.u (λ reg. holds_any fp.word (pick class reg.rings)) part.now result }
{
    ring::contains_any(&part[rings.words(class)], rings.shape, fp)
}

// Whether the register holds a fingerprint in any bucket of any class. `fp` is the host's number, which is read as a `Fingerprint` here.
pub fn contains_hash(part: &[u64], u: Usable, fp: u64) -> bool
    requires { RegisterWords u part.now }
    ensures { RegisterReads u (λ reg. any_class (holds_any (read_as fp)) reg.rings) part.now result }
{
    let print = Fingerprint::from(fp);
    let rings = Rings::of(u);
    Class::ALL
        .iter()
        .any(|class| holds_hash(part, rings, *class, print))
}

// The room for a fingerprint of a bucket in a class's ring.
pub fn room(part: &[u64], u: Usable, class: Class, bucket: Bucket, fp: Fingerprint) -> Room
    requires { RegisterWords u part.now }
    ensures { RegisterReads u (λ reg. make_room u.slots bucket.0 fp.word (pick class reg.rings)) part.now result }
{
    let rings = Rings::of(u);
    ring::room(
        &part[rings.words(class)],
        rings.shape.position_of(bucket),
        fp,
    )
}

// Inserts an entry into a class's ring, at the position where room was found for it. It is inlined, since a restore calls it for each
// fingerprint.
#[inline(always)]
pub fn strike(part: &mut [u64], u: Usable, class: Class, position: usize, entry: Entry)
    requires { RegisterWords u part.old × RegisterReads u (λ reg. make_room u.slots entry.bucket.0 entry.fp.word (pick class reg.rings)) part.old (found_at position) }
    ensures { RegisterTurns u (struck class entry.bucket.0 entry.fp.word entry.stamp) silent part.old part.new (tt {0}) }
{
    let rings = Rings::of(u);
    ring::insert(&mut part[rings.words(class)], rings.shape, position, entry);
}

// A class's ring is swept, and the newest that went raises the floor.
pub fn sweep_class(part: &mut [u64], rings: Rings, class: Class, buckets: Buckets)
    requires { RegisterWords rings.u part.old }
    ensures { RegisterWords rings.u part.new × RegisterTurns rings.u (swept_class class buckets.from.0 buckets.through.0) silent part.old part.new (tt {0}) }
{
    let went = ring::sweep(&mut part[rings.words(class)], rings.shape, buckets);
    heading::raise_by(part, went);
}
