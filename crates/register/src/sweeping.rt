// Sweep: every generation that the clock has passed is dropped, and the newest stamp that went raises the floor.
ghost use Rattle.std.specs.Prelude.{◌≡◌, ◌-◌, max};
ghost use Rattle.runs.specs.Turns.{silent};
ghost use Rattle.model.specs.Register.{sweep_rings as swept_rings, sweep as swept_by};
ghost use Rattle.register.specs.Words.{RegisterWords, RegisterTurns};

use crate::extents::Rings;
use crate::{heading, rings};
use model::{Bucket, Class, Judged, Usable};
use numbers::{layout, spans};
use ring::Buckets;

// The bucket that a sweep starts from: the one swept last, or a whole ring back where the clock has moved further than that.
pub(crate) fn sweep_from(swept: Bucket, through: Bucket, ring: u64) -> Bucket
    ensures { result.0 ≡ max swept.0 (through.0 - ring) }
{
    Bucket(swept.0.max(through.0.saturating_sub(ring)))
}

// The three rings are swept, and the register is swept up to a bucket.
fn sweep_rings(part: &mut [u64], rings: Rings, buckets: Buckets)
    requires { RegisterWords rings.u part.old }
    ensures { RegisterTurns rings.u (swept_rings buckets.from.0 buckets.through.0) silent part.old part.new (tt {0}) }
{
    for class in Class::ALL {
        rings::sweep_class(part, rings, class, buckets);
    }
    heading::set_swept(part, rings.u, buckets.through);
}

// A pending register does not sweep. A clock that stepped back drops nothing, and what is taken after it is dropped as that
// clock passes it.
pub fn sweep(part: &mut [u64], u: Usable, reading: Judged)
    requires { RegisterWords u part.old }
    ensures { RegisterWords u part.new × RegisterTurns u (swept_by u reading.0) silent part.old part.new (tt {0}) }
{
    if heading::is_pending(part) {
        return;
    }
    let through = spans::through_of(u, reading);
    let swept = Bucket(part[layout::SWEPT]);
    // Where it is swept up to there already, that is published, and nothing changes.
    if through.0 < swept.0 {
        heading::set_swept(part, u, through);
    } else if swept.0 < through.0 {
        let rings = Rings::of(u);
        let buckets = Buckets {
            from: sweep_from(swept, through, rings.shape.ring as u64),
            through,
        };
        sweep_rings(part, rings, buckets);
    }
}
