// Explain: the rule that gives take's verdict. Nothing is written: the sweep that judge makes is seen and not made.
ghost use Rattle.register.specs.Rules.{asked_by};
ghost use Rattle.taking.specs.Reasons.{SeenAt, share_reason, reason_seen, reason_at};
ghost use Rattle.taking.specs.Words.{RunWords, StateReads};

use crate::one_register::OneRegister;
use crate::tickets::Ticket;
use crate::{on_register, shares};
use model::Reason;
use register::{Ask, Seen};

// The rule on a ticket that judge has nothing against: its share first, and then its room.
fn explain_share(run: &[u64], on: &OneRegister, seen: Seen, ticket: Ticket) -> Reason
    requires { RunWords on.now.s run.now × SeenAt on.now.s on.now.r seen }
    ensures { StateReads on.now.s (share_reason on.now.s on.now.r seen ticket) run.now result }
{
    match shares::look_up(run, on, ticket) {
        Ok(_) => {
            let room = on_register::room_after(run, on, seen, ticket);
            Reason::from(room)
        }
        Err(against) => Reason::from(against),
    }
}

// The rule on a ticket after the sweep that was seen. Of tickets that are asked about with one reading the sweep is the same.
pub fn explain_seen(run: &[u64], on: &OneRegister, seen: Seen, ask: Ask) -> Reason
    requires { RunWords on.now.s run.now × SeenAt on.now.s on.now.r seen }
    ensures { StateReads on.now.s (reason_seen on.now.s on.now.r seen (asked_by ask)) run.now result }
{
    match on_register::judge_after(run, on, seen, ask) {
        Reason::Accepted => explain_share(run, on, seen, Ticket::of(on.extent.u, ask)),
        first => first,
    }
}

// The rule that gives the verdict of `take` on these words.
pub fn explain(run: &[u64], on: &OneRegister, ask: Ask) -> Reason
    requires { RunWords on.now.s run.now }
    ensures { StateReads on.now.s (reason_at on.now.s on.now.r (asked_by ask)) run.now result }
{
    let seen = on_register::see(run, on, ask.now);
    explain_seen(run, on, seen, ask)
}
