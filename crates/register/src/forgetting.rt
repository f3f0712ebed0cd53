// What restore and resume ask of a register besides strikes and a raised floor: a generation that failed is forgotten, and the floor is forgotten.
ghost use Rattle.std.specs.Prelude.{◌≡◌, ◌≤◌, length};
ghost use Rattle.runs.specs.Turns.{silent};
ghost use Rattle.model.specs.declared.Usable.{Usable};
ghost use Rattle.register.specs.Heading.{floor_stored};
ghost use Rattle.register.specs.Rules.{failed_at, floor_gone};
ghost use Rattle.register.specs.Words.{RegisterWords, RegisterTurns};

use crate::extents::Rings;
use crate::heading;
use model::{Bucket, Class, Usable};
use numbers::layout;

// A generation failed: what its position holds of its bucket is dropped, and the floor rises to the larger of the newest stamp that
// went with it and the dump's.
pub fn fail(part: &mut [u64], u: Usable, class: Class, bucket: Bucket, newest: u64)
    requires { RegisterWords u part.old }
    ensures { RegisterWords u part.new × RegisterTurns u (failed_at class bucket.0 newest) silent part.old part.new (tt {0}) }
{
    let rings = Rings::of(u);
    let went = ring::drop_bucket(&mut part[rings.words(class)], rings.shape, bucket);
    heading::raise_by(part, went);
    heading::raise_floor(part, newest);
}

// Forgets the floor.
pub fn forget_floor(part: &mut [u64])
    requires { 24 ≤ length part.old }
    ensures part_after { part.new ≡ floor_stored None part.old }
    ensures register_turns { (u : Usable) → RegisterTurns u floor_gone silent part.old part.new (tt {0}) }
{
    part[layout::HAS_FLOOR] = 0;
    part[layout::FLOOR] = 0;
}
