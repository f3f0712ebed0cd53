// One generation of a dump: its fingerprints are held, each with a draw, or it fails as a whole.
ghost use Rattle.std.specs.Prelude.{◌<◌, ◌≤◌, ◌+◌, ◌/◌, length, take, drop};
ghost use Rattle.runs.specs.Turns.{silent};
ghost use Rattle.model.specs.declared.Deliverer.TheVariants.{Restored};
ghost use Rattle.model.specs.Dump.{words_of, undrawn_all};
ghost use Rattle.taking.specs.Words.{RunWords};
ghost use Rattle.restoring.specs.Rules.{Suits, draws_in, HoldActs, RestoreActs, AllOnes, all_held, generation_restored};
ghost use Rattle.restoring.specs.Words.{Acts};

use crate::heads::Head;
use crate::{on_book, on_register};
use dump::Reader;
use taking::OneRegister;

// One fingerprint: drawn first, and then struck where there is room. Told is how many draws were made with it, as an error where it
// is not held: a generation that fails gives all of them back.
fn hold_one(
    run: &mut [u64],
    on: &OneRegister,
    h: Head,
    fp: u64,
    draws: usize,
) -> Result<usize, usize>
    requires { (RunWords on.now.s run.old × Suits on.now.s on.now.r h) × (draws < 18_446_744_073_709_551_615) }
    ensures { RunWords on.now.s run.new × (AllOnes on.now.s on.now.r h fp draws run.old run.new result × (draws_in result ≤ draws + 1)) }
{
    if !on_book::draw(run, on, h) {
        return Err(draws);
    }
    if !on_register::hold(run, on, h, fp) {
        return Err(draws + 1);
    }
    Ok(draws + 1)
}

// The fingerprints that come next, up to the first that is not held. Told is how many draws were made for them, as an error where one
// is not held.
fn hold_all(
    run: &mut [u64],
    on: &OneRegister,
    h: Head,
    mut prints: Reader<'_>,
    long: u64,
) -> Result<usize, usize>
    requires { (RunWords on.now.s run.old × Suits on.now.s on.now.r h) × (prints.at + long ≤ length prints.bytes.now / 8) }
    ensures { RunWords on.now.s run.new × HoldActs on.now.s on.now.r (all_held on.now.s on.now.r h (take long (drop prints.entry.at (words_of prints.entry.bytes.now)))) run.old run.new result }
{
    let mut draws = 0;
    for _print in 0..long {
        draws = hold_one(run, on, h, prints.word(), draws)?;
    }
    Ok(draws)
}

// So many draws are given back.
fn give_back_all(run: &mut [u64], on: &OneRegister, h: Head, draws: usize)
    requires { RunWords on.now.s run.old }
    ensures { RunWords on.now.s run.new × Acts on.now.s on.now.r (λ reg k. reg) (λ reg k. undrawn_all draws (Restored h.class) h.second.0 k) (λ reg. silent) run.old run.new (tt {0}) }
{
    for _draw in 0..draws {
        on_book::give_back(run, on, h);
    }
}

// A generation whose fingerprints come next: held as a whole, or its draws are given back and it is forgotten.
pub fn restore_generation(
    run: &mut [u64],
    on: &OneRegister,
    h: Head,
    prints: Reader<'_>,
    long: u64,
) -> bool
    requires { (RunWords on.now.s run.old × Suits on.now.s on.now.r h) × (prints.at + long ≤ length prints.bytes.now / 8) }
    ensures { let ps = take long (drop prints.entry.at (words_of prints.entry.bytes.now)) in
        RunWords on.now.s run.new × RestoreActs on.now.s on.now.r (generation_restored on.now.s on.now.r h ps) run.old run.new result }
{
    let Err(draws) = hold_all(run, on, h, prints, long) else {
        return true;
    };
    give_back_all(run, on, h, draws);
    on_register::fail(run, on, h);
    false
}
