// Seek: the smallest stamp for which `take_batch` would give a wanted verdict, in the whole run of words that the settings need. Nothing is
// written: the sweep that judge makes is seen once and not made, and each stamp of a short list is then asked about.
#![tactic(auto)]

mod asking;
mod quest;
mod tries;

ghost use Rattle.register.specs.Rules.{asked_by};
ghost use Rattle.taking.specs.Words.{RunWords, StateReads};
ghost use Rattle.seeking.specs.Seeking.{sought_by};

use model::{Class, Verdict};
pub use quest::Quest;
use register::Ask;
use taking::OneRegister;

// The smallest stamp with which a ticket would get the wanted verdict. The stamp that the ticket brings is not read. It is never inlined:
// its quest would lie on the stack while the words are tested.
#[inline(never)]
pub fn stamp_for(run: &[u64], on: OneRegister, ask: Ask, wanted: Verdict) -> Option<u64>
    requires { RunWords on.s run.now }
    ensures { StateReads on.s (sought_by on.s on.r (asked_by ask) wanted) run.now result }
{
    let seen = taking::see(run, &on, ask.now);
    let q = Quest {
        on,
        seen,
        ask,
        wanted,
    };
    let edges = tries::of_edges(run, &q);
    let mut best = tries::of_window(run, &q, edges);
    for class in Class::ALL {
        best = tries::of_ring(run, &q, class, best);
    }
    best
}
