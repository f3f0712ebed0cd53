// What a restore asks of one register, in the whole run. Where the register lies is computed once for a restore.
ghost use Rattle.runs.specs.Turns.{silent};
ghost use Rattle.model.specs.Settings.{usable_at};
ghost use Rattle.register.specs.Rules.{failed_at, floor_gone, raised_with};
ghost use Rattle.register.specs.Words.{RegisterWords, RegisterTurns};
ghost use Rattle.taking.specs.Words.{RunWords};
ghost use Rattle.restoring.specs.Rules.{room_in, fits_in, held_in};
ghost use Rattle.restoring.specs.Words.{Acts};

use crate::heads::Head;
use model::{Fingerprint, Room, Usable};
use register::Entry;
use taking::OneRegister;

// A fingerprint in a register's own words: struck where there is room for it.
fn hold_in(part: &mut [u64], u: Usable, h: Head, fp: u64) -> bool
    requires { RegisterWords u part.old }
    ensures { RegisterTurns u (held_in u h fp) (λ reg. fits_in (room_in u h fp reg)) part.old part.new result }
{
    let print = Fingerprint::from(fp);
    let Room::At(position) = register::room(part, u, h.class, h.bucket, print) else {
        return false;
    };
    let entry = Entry {
        bucket: h.bucket,
        fp: print,
        stamp: h.newest,
    };
    register::strike(part, u, h.class, position, entry);
    true
}

// The same in the run.
pub fn hold(run: &mut [u64], on: &OneRegister, h: Head, fp: u64) -> bool
    requires { RunWords on.now.s run.old }
    ensures { RunWords on.now.s run.new × Acts on.now.s on.now.r (λ reg k. held_in (usable_at on.now.s on.now.r) h fp reg) (λ reg k. k) (λ reg k. fits_in (room_in (usable_at on.now.s on.now.r) h fp reg)) run.old run.new result }
{
    hold_in(&mut run[on.words()], on.extent.u, h, fp)
}

// A generation failed: what its position holds of its bucket is dropped, and the floor rises to the larger of the newest stamp that
// went with it and the dump's.
pub fn fail(run: &mut [u64], on: &OneRegister, h: Head)
    requires { RunWords on.now.s run.old }
    ensures { RunWords on.now.s run.new × Acts on.now.s on.now.r (λ reg k. failed_at h.class h.bucket.0 h.newest reg) (λ reg k. k) (λ reg. silent) run.old run.new (tt {0}) }
{
    register::fail(
        &mut run[on.words()],
        on.extent.u,
        h.class,
        h.bucket,
        h.newest,
    );
}

// The floor is forgotten.
pub fn forget_floor(run: &mut [u64], on: &OneRegister)
    requires { RunWords on.now.s run.old }
    ensures { RunWords on.now.s run.new × Acts on.now.s on.now.r (λ reg k. floor_gone reg) (λ reg k. k) (λ reg. silent) run.old run.new (tt {0}) }
{
    register::forget_floor(&mut run[on.words()]);
}

// The floor is raised to another, if there is one.
pub fn raise_floor(run: &mut [u64], on: &OneRegister, floor: Option<u64>)
    requires { RunWords on.now.s run.old }
    ensures { RunWords on.now.s run.new × Acts on.now.s on.now.r (λ reg k. raised_with floor reg) (λ reg k. k) (λ reg. silent) run.old run.new (tt {0}) }
{
    register::heading::raise_by(&mut run[on.words()], floor);
}
