// Judge: what a ticket is, with nothing remembered.
ghost use Rattle.std.specs.Prelude.{◌≡◌};
ghost use Rattle.model.specs.Judge.{verdict as verdict_on, ahead_for as turned_ahead};
ghost use Rattle.register.specs.Rules.{asked_by, judged_register, judge_says, batch_register, batch_says};
ghost use Rattle.register.specs.Words.{RegisterWords, RegisterReads, RegisterTurns};

use crate::{heading, rings, sweeping};
use model::{Deliverer, Fingerprint, Judged, Usable, Verdict};
use numbers::spans;

// A ticket, the reading with its judging flag, and who delivers it. With the flag off the reading judges nothing. It is no Option of a
// reading: the rules' `Ask` has the reading and the flag, as the Rust has.
#[derive(Clone, Copy)]
pub struct Ask {
    // The host's number. It is read as a `Fingerprint` where it is looked up.
    pub fp: u64,
    pub stamp: u64,
    pub now: Judged,
    pub judging: bool,
    pub who: Deliverer,
}

// Duplicate first, however old: a ticket that is held is never Late.
fn verdict(part: &[u64], u: Usable, ask: Ask) -> Verdict
    requires { RegisterWords u part.now }
    ensures { RegisterReads u (λ reg. verdict_on u reg (asked_by ask)) part.now result }
{
    let bucket = spans::bucket_of(u, ask.stamp);
    let held = rings::holds_any_class(part, u, bucket, Fingerprint::from(ask.fp));
    let under = heading::is_under(heading::floor(part), ask.stamp);
    let within = spans::in_window(spans::window_for(u, ask.who), ask.stamp, ask.now);
    if held {
        Verdict::Duplicate
    } else if under | !within {
        Verdict::Late
    } else {
        Verdict::New
    }
}

// Nothing is judged while the register is pending or the flag is off; otherwise it sweeps first.
pub fn judge(part: &mut [u64], u: Usable, ask: Ask) -> Verdict
    requires { RegisterWords u part.old }
    ensures { RegisterWords u part.new × RegisterTurns u (judged_register u (asked_by ask)) (judge_says u (asked_by ask)) part.old part.new result }
{
    if heading::is_pending(part) || !ask.judging {
        Verdict::Unjudged
    } else {
        sweeping::sweep(part, u, ask.now);
        verdict(part, u, ask)
    }
}

// A Late ticket past the window's front is Ahead.
pub fn ahead_for(past: bool, verdict: Verdict) -> Verdict
    ensures { result ≡ turned_ahead past verdict }
{
    if past && verdict == Verdict::Late {
        Verdict::Ahead
    } else {
        verdict
    }
}

// As `judge`, for a batch.
pub fn judge_batch(part: &mut [u64], u: Usable, ask: Ask) -> Verdict
    requires { RegisterWords u part.old }
    ensures { RegisterWords u part.new × RegisterTurns u (batch_register u (asked_by ask)) (batch_says u (asked_by ask)) part.old part.new result }
{
    let verdict = judge(part, u, ask);
    let past = spans::front_past(spans::window_for(u, ask.who), ask.stamp, ask.now);
    ahead_for(past, verdict)
}
