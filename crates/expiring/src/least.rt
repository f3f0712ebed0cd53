// The least of all published sweeps: what expire may let go of.
ghost use Rattle.std.specs.Prelude.{◌<◌};
ghost use Rattle.model.specs.Settings.{usable_at};
ghost use Rattle.model.specs.Register.{published as published_for};
ghost use Rattle.model.specs.Calls.{register_at, least_published as least_of_all};
ghost use Rattle.taking.specs.Words.{RunWords, StateReads};

use model::{Judged, Settings};
use numbers::starts;

// The sweep that a register publishes.
fn published(run: &[u64], s: Settings, r: usize) -> Judged
    requires { RunWords s run.now × (r < s.registers) }
    ensures { StateReads s (λ t. published_for (usable_at s r) (register_at r t).swept) run.now result.0 }
{
    register::heading::published_sweep(&run[starts::register_extent(s, r).words()])
}

// The least of a reading and what each register publishes.
pub fn least_published(run: &[u64], s: Settings, reading: Judged) -> Judged
    requires { RunWords s run.now }
    ensures { StateReads s (λ t. least_of_all s 0 t.registers reading.0) run.now result.0 }
{
    let mut least = reading.0;
    for r in 0..s.registers as usize {
        least = least.min(published(run, s, r).0);
    }
    Judged(least)
}
