// What is asked about each stamp.
ghost use Rattle.std.specs.Prelude.{◌<◌};
ghost use Rattle.model.specs.Settings.{usable_at, ring_of};
ghost use Rattle.taking.specs.Words.{RunWords, StateReads};
ghost use Rattle.seeking.specs.Seeking.{verdict_seen, bucket_seen};

use crate::quest::Quest;
use model::{Bucket, Class, Verdict};
use numbers::spans;
use register::Ask;

// The verdict of `take_batch` on the ticket with this stamp: that of the rule that gives `take` its verdict, and past the window's front
// Ahead for Late.
pub(crate) fn verdict_at(run: &[u64], q: &Quest, stamp: u64) -> Verdict
    requires { RunWords q.now.on.s run.now }
    ensures { StateReads q.now.on.s (verdict_seen q.now stamp) run.now result }
{
    let ask = Ask { stamp, ..q.ask };
    let reason = taking::explain_seen(run, &q.on, q.seen, ask);
    let past = spans::front_past(spans::window_for(q.on.extent.u, ask.who), stamp, ask.now);
    register::ahead_for(past, Verdict::from(reason))
}

// The bucket that a position of a class's ring has.
pub(crate) fn bucket_at(run: &[u64], q: &Quest, class: Class, position: usize) -> Bucket
    requires { RunWords q.now.on.s run.now × (position < ring_of (usable_at q.now.on.s q.now.on.r)) }
    ensures { StateReads q.now.on.s (bucket_seen q.now class position) run.now result.0 }
{
    register::bucket_at(&run[q.on.words()], q.on.extent.u, class, position)
}
