// Ask: a ticket is judged, and for a take a new one is drawn from its deliverer's share and struck, in the whole run of words that the
// settings need: the front, the share book and the registers. `RunWords` is a fact in contracts and no type: a struct of the run and its
// settings, lent to be changed, would have to say in each contract that the settings stay.
#![tactic(auto)]

mod asked;
mod explaining;
mod on_register;
mod one_register;
mod shares;
mod tickets;

ghost use Rattle.model.specs.Answer.{Said};
ghost use Rattle.model.specs.Calls.{asked};
ghost use Rattle.register.specs.Rules.{asked_by};
ghost use Rattle.taking.specs.Rules.{Granted, taken_room, room_says, taken_share, share_says, left, rest_of};
ghost use Rattle.taking.specs.Words.{RunWords, StateTurns};

use book::Spot;
pub use explaining::{explain, explain_seen};
use model::{Manner, Reason, Room, Verdict};
pub use on_register::see;
pub use one_register::OneRegister;
use register::Ask;
use tickets::Ticket;

// With a share to be had: where there is room the share is entered and the fingerprint struck, and otherwise nothing is altered.
fn take_room(run: &mut [u64], on: &OneRegister, ticket: Ticket, spot: Spot) -> Verdict
    requires { RunWords on.now.s run.old × Granted on.now.s ticket run.old spot }
    ensures { StateTurns on.now.s (taken_room on.now.s on.now.r ticket) (room_says on.now.s on.now.r ticket) run.old run.new result }
{
    let room = on_register::room(run, on, ticket);
    let Room::At(position) = room else {
        return Verdict::from(Reason::from(room));
    };
    shares::enter(run, on, ticket, spot);
    on_register::strike(run, on, ticket, position);
    Verdict::New
}

// A ticket that was judged new: its share first.
fn take_share(run: &mut [u64], on: &OneRegister, ticket: Ticket) -> Verdict
    requires { RunWords on.now.s run.old }
    ensures { StateTurns on.now.s (taken_share on.now.s on.now.r ticket) (share_says on.now.s on.now.r ticket) run.old run.new result }
{
    let Ok(spot) = shares::look_up(run, on, ticket) else {
        return Verdict::Full;
    };
    take_room(run, on, ticket, spot)
}

// What is left of a take once the ticket is judged.
fn take_judged(run: &mut [u64], on: &OneRegister, ask: Ask, verdict: Verdict) -> Verdict
    requires { RunWords on.now.s run.old }
    ensures { StateTurns on.now.s (λ t. left on.now.r (rest_of on.now.s on.now.r (asked_by ask) verdict t) t) (λ t. (rest_of on.now.s on.now.r (asked_by ask) verdict t).says) run.old run.new result }
{
    match verdict {
        Verdict::New => take_share(run, on, Ticket::of(on.extent.u, ask)),
        _ => verdict,
    }
}

// A ticket is asked about: it is judged, and where the manner takes, a new one is remembered, charged to its deliverer's share.
pub fn ask(run: &mut [u64], on: &OneRegister, manner: Manner, ask: Ask) -> Verdict
    requires { RunWords on.now.s run.old }
    ensures { StateTurns on.now.s (λ t. (asked on.now.s on.now.r manner (asked_by ask) t).state) (λ t. (asked on.now.s on.now.r manner (asked_by ask) t).answer) run.old run.new (Said result) }
{
    let verdict = on_register::judge(run, on, manner, ask);
    match manner {
        Manner::Judged | Manner::JudgedBatch => verdict,
        Manner::Taken | Manner::TakenBatch => take_judged(run, on, ask, verdict),
    }
}
