// One register of the whole run. Where it lies is computed once for a call.
ghost use Rattle.runs.specs.Turns.{silent};
ghost use Rattle.register.specs.Rules.{asked_by};
ghost use Rattle.ring.specs.Ring.{found_at};
ghost use Rattle.taking.specs.Rules.{room_for, struck_by, judged_state, judged_says};
ghost use Rattle.taking.specs.Reasons.{SeenAt, seen_at, judge_reason, room_seen};
ghost use Rattle.taking.specs.Words.{RunWords, StateReads, StateTurns};

use crate::one_register::OneRegister;
use crate::tickets::Ticket;
use model::{Judged, Manner, Reason, Room, Verdict};
use register::{Ask, Entry, Seen};

// What the ticket is: a take judges first, and for a batch it is judged as `judge_batch` judges it.
pub fn judge(run: &mut [u64], on: &OneRegister, manner: Manner, ask: Ask) -> Verdict
    requires { RunWords on.now.s run.old }
    ensures { RunWords on.now.s run.new × StateTurns on.now.s (judged_state on.now.s on.now.r manner (asked_by ask)) (judged_says on.now.s on.now.r manner (asked_by ask)) run.old run.new result }
{
    let part = &mut run[on.words()];
    match manner {
        Manner::Judged | Manner::Taken => register::judge(part, on.extent.u, ask),
        Manner::JudgedBatch | Manner::TakenBatch => register::judge_batch(part, on.extent.u, ask),
    }
}

// The room for a ticket in its class's ring.
pub fn room(run: &[u64], on: &OneRegister, ticket: Ticket) -> Room
    requires { RunWords on.now.s run.now }
    ensures { StateReads on.now.s (room_for on.now.s on.now.r ticket) run.now result }
{
    register::room(
        &run[on.words()],
        on.extent.u,
        ticket.class(),
        ticket.bucket,
        ticket.fp,
    )
}

// A ticket is struck at the position where room was found for it.
pub fn strike(run: &mut [u64], on: &OneRegister, ticket: Ticket, position: usize)
    requires { RunWords on.now.s run.old × StateReads on.now.s (room_for on.now.s on.now.r ticket) run.old (found_at position) }
    ensures { StateTurns on.now.s (struck_by on.now.r ticket) silent run.old run.new (tt {0}) }
{
    let entry = Entry {
        bucket: ticket.bucket,
        fp: ticket.fp,
        stamp: ticket.stamp,
    };
    register::strike(
        &mut run[on.words()],
        on.extent.u,
        ticket.class(),
        position,
        entry,
    );
}

// What the sweep of a reading would do to the register. That it fits the register is a fact in contracts (`SeenAt`): `Seen` does not keep the
// register's settings.
pub fn see(run: &[u64], on: &OneRegister, reading: Judged) -> Seen
    requires { RunWords on.now.s run.now }
    ensures { SeenAt on.now.s on.now.r result × StateReads on.now.s (seen_at on.now.s on.now.r reading.0) run.now result }
{
    register::see(&run[on.words()], on.extent.u, reading)
}

// The first of the rules of judge that is met after that sweep, or accepted.
pub fn judge_after(run: &[u64], on: &OneRegister, seen: Seen, ask: Ask) -> Reason
    requires { RunWords on.now.s run.now × SeenAt on.now.s on.now.r seen }
    ensures { StateReads on.now.s (judge_reason on.now.s on.now.r seen (asked_by ask)) run.now result }
{
    register::judge_after(&run[on.words()], on.extent.u, seen, ask)
}

// The room that there would be for a ticket.
pub fn room_after(run: &[u64], on: &OneRegister, seen: Seen, ticket: Ticket) -> Room
    requires { RunWords on.now.s run.now × SeenAt on.now.s on.now.r seen }
    ensures { StateReads on.now.s (room_seen on.now.s on.now.r seen ticket) run.now result }
{
    register::room_after(
        &run[on.words()],
        on.extent.u,
        seen,
        ticket.class(),
        ticket.bucket,
        ticket.fp,
    )
}
