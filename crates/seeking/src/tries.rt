// The stamps that are tried, each once. Between two of them the verdict does not change.
ghost use Rattle.std.specs.Prelude.{◌≡◌};
ghost use Rattle.model.specs.Stamp.{below, floor_stamps, window_stamps};
ghost use Rattle.taking.specs.Words.{RunWords, StateReads};
ghost use Rattle.seeking.specs.Seeking.{usable_for, better_seen, least_seen, edges_seen, around_bucket, ring_seen};

use crate::asking;
use crate::quest::Quest;
use model::{Bucket, Class};
use numbers::spans;

// A stamp is less than the least so far, if one was found.
fn is_below(stamp: u64, best: Option<u64>) -> bool
    ensures { result ≡ below stamp best }
{
    best.is_none_or(|least| stamp < least)
}

// One more stamp: it is asked about where it is less than the least so far that gives the wanted verdict.
fn better(run: &[u64], q: &Quest, stamp: u64, best: Option<u64>) -> Option<u64>
    requires { RunWords q.now.on.s run.now }
    ensures { StateReads q.now.on.s (better_seen q.now stamp best) run.now result }
{
    if !is_below(stamp, best) {
        return best;
    }
    if q.wanted == asking::verdict_at(run, q, stamp) {
        return Some(stamp);
    }
    best
}

// Each stamp of a list.
fn least_of(run: &[u64], q: &Quest, stamps: &[u64], first: Option<u64>) -> Option<u64>
    requires { RunWords q.now.on.s run.now }
    ensures { StateReads q.now.on.s (least_seen q.now stamps.now first) run.now result }
{
    let mut best = first;
    for stamp in stamps {
        best = better(run, q, *stamp, best);
    }
    best
}

// The first stamp above the floor, if there is one.
fn of_floor(run: &[u64], q: &Quest, best: Option<u64>) -> Option<u64>
    requires { RunWords q.now.on.s run.now }
    ensures { StateReads q.now.on.s (least_seen q.now (floor_stamps q.now.seen.floor) best) run.now result }
{
    match q.seen.floor {
        Some(floor) => better(run, q, floor.saturating_add(1), best),
        None => best,
    }
}

// 0, the first of the window, the first past its front, and the first above the floor.
pub(crate) fn of_edges(run: &[u64], q: &Quest) -> Option<u64>
    requires { RunWords q.now.on.s run.now }
    ensures { StateReads q.now.on.s (edges_seen q.now) run.now result }
{
    let ms = q.ask.now.0;
    let window = spans::window_for(q.on.extent.u, q.ask.who);
    let start = ms.saturating_sub(window.behind);
    let past = ms.saturating_add(window.ahead).saturating_add(1);
    let edges = least_of(run, q, &[0, start, past], None);
    of_floor(run, q, edges)
}

// The first stamp of each bucket that a window at the reading can have.
pub(crate) fn of_window(run: &[u64], q: &Quest, first: Option<u64>) -> Option<u64>
    requires { RunWords q.now.on.s run.now }
    ensures { StateReads q.now.on.s (least_seen q.now (window_stamps (usable_for q.now) q.now.ask.now.0) first) run.now result }
{
    let u = q.on.extent.u;
    let through = spans::through_of(u, q.ask.now);
    let mut best = first;
    for k in 0..spans::ring_of(u) {
        best = better(run, q, spans::first_stamp(u, through, k), best);
    }
    best
}

// The first stamp of a bucket, and of the one after it.
fn of_bucket(run: &[u64], q: &Quest, bucket: Bucket, best: Option<u64>) -> Option<u64>
    requires { RunWords q.now.on.s run.now }
    ensures { StateReads q.now.on.s (least_seen q.now (around_bucket (usable_for q.now) bucket.0) best) run.now result }
{
    let u = q.on.extent.u;
    let first = spans::first_stamp(u, bucket, 0);
    let after = spans::first_stamp(u, bucket, 1);
    least_of(run, q, &[first, after], best)
}

// Those of every position of a class's ring, whether it holds anything or not.
pub(crate) fn of_ring(run: &[u64], q: &Quest, class: Class, first: Option<u64>) -> Option<u64>
    requires { RunWords q.now.on.s run.now }
    ensures { StateReads q.now.on.s (ring_seen q.now class first) run.now result }
{
    let mut best = first;
    for i in 0..spans::ring_of(q.on.extent.u) as usize {
        best = of_bucket(run, q, asking::bucket_at(run, q, class, i), best);
    }
    best
}
