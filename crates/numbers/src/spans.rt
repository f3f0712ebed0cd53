// Spans, buckets, seconds and windows.
ghost use Rattle.std.specs.Prelude.{◌≡◌, ◌+◌};
ghost use Rattle.model.specs.Settings.{retained as retained_of, ahead as ahead_for, ring_of as ring_for};
ghost use Rattle.model.specs.Book.{second_of as second_for};
ghost use Rattle.model.specs.Register.{through_of as through_for, published as published_for};
ghost use Rattle.model.specs.Judge.{bucket_of as bucket_for, window_for as window_of, in_window as holds_in, front_past as past_front};
ghost use Rattle.model.specs.Stamp.{first_stamp as first_stamp_of};

use crate::capped::ceil_div;
use model::{Bucket, Deliverer, Judged, Second, Usable, Window};

// The larger behind span.
#[tactic(auto, unfolding(model::specs::Settings::retained))]
pub fn retained(u: Usable) -> u64
    ensures { result ≡ retained_of u }
{
    u.origin.behind.max(u.copy.behind)
}

// The larger ahead span.
#[tactic(auto, unfolding(model::specs::Settings::ahead))]
pub fn ahead(u: Usable) -> u64
    ensures { result ≡ ahead_for u }
{
    u.origin.ahead.max(u.copy.ahead)
}

// The generations of a ring: the buckets that are live at one reading, and two more.
#[tactic(auto, unfolding(model::specs::Settings::ring_of, model::specs::Numbers::cap64))]
pub fn ring_of(u: Usable) -> u64
    ensures { result ≡ ring_for u }
{
    ceil_div(retained(u).saturating_add(ahead(u)), u.bucket).saturating_add(2)
}

// The bucket in which a ticket of this stamp ends.
#[tactic(auto, unfolding(model::specs::Judge::bucket_of, model::specs::Numbers::cap64))]
pub fn bucket_of(u: Usable, stamp: u64) -> Bucket
    ensures { result.0 ≡ bucket_for u stamp }
{
    Bucket(ceil_div(stamp.saturating_add(retained(u)), u.bucket))
}

// The smallest stamp of the bucket that comes `more` after this one, or of a later bucket, if any stamp is of such a one.
#[tactic(auto, using(crate::proofs::Arithmetic::first_is))]
pub fn first_stamp(u: Usable, bucket: Bucket, more: u64) -> u64
    ensures { result ≡ first_stamp_of u (bucket.0 + more) }
{
    let before = bucket.0.saturating_add(more).saturating_sub(1);
    let end = before.saturating_mul(u.bucket);
    end.saturating_add(1).saturating_sub(retained(u))
}

// The first bucket that a reading has not passed.
#[tactic(auto, unfolding(model::specs::Register::through_of))]
pub fn through_of(u: Usable, now: Judged) -> Bucket
    ensures { result.0 ≡ through_for u now.0 }
{
    Bucket(ceil_div(now.0, u.bucket))
}

// The sweep of a bucket in milliseconds, as the share book reads it.
#[tactic(auto, unfolding(model::specs::Register::published, model::specs::Numbers::cap64))]
pub fn published(u: Usable, swept: Bucket) -> Judged
    ensures { result.0 ≡ published_for u swept.0 }
{
    Judged(swept.0.saturating_mul(u.bucket))
}

// The second in which a bucket's entries end.
#[tactic(auto, unfolding(model::specs::Book::second_of, model::specs::Numbers::cap64))]
pub fn second_of(bucket: Bucket, width: u64) -> Second
    ensures { result.0 ≡ second_for bucket.0 width }
{
    Second::from(Judged(bucket.0.saturating_mul(width)))
}

// The window that a deliverer's tickets are judged by.
#[tactic(auto, unfolding(model::specs::Judge::window_for))]
pub fn window_for(u: Usable, who: Deliverer) -> Window
    ensures { result ≡ window_of u who }
{
    match who {
        Deliverer::Feeder(_) => u.origin,
        Deliverer::Peer(_) | Deliverer::Relay | Deliverer::Restored(_) => u.copy,
    }
}

// A stamp is within a window at a reading: neither sum is taken, so neither can wrap.
#[tactic(auto, using(crate::proofs::Arithmetic::window_behind, crate::proofs::Arithmetic::window_ahead))]
pub fn in_window(w: Window, stamp: u64, now: Judged) -> bool
    ensures { result ≡ holds_in w stamp now.0 }
{
    if stamp <= now.0 {
        now.0 - stamp <= w.behind
    } else {
        stamp - now.0 <= w.ahead
    }
}

// A stamp is past a window's front at a reading.
#[tactic(auto, using(crate::proofs::Arithmetic::front_by, crate::proofs::Arithmetic::front_not))]
pub fn front_past(w: Window, stamp: u64, now: Judged) -> bool
    ensures { result ≡ past_front w stamp now.0 }
{
    now.0 < stamp && w.ahead < stamp - now.0
}
