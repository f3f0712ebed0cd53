// Restore and resume: a register's dump is read back, in the whole run of words that the settings need.
#![tactic(auto)]

mod classes;
mod heads;
mod holding;
mod on_book;
mod on_register;

ghost use Rattle.model.specs.Dump.{words_of};
ghost use Rattle.model.specs.Calls.{restored, resumed};
ghost use Rattle.dump.specs.Walk.{dump_at};
ghost use Rattle.taking.specs.Words.{RunWords, StateTurns};
ghost use Rattle.restoring.specs.Rules.{RestoreActs, dump_restored, restored_whole, resumed_whole};

use dump::{Dump, Reader};
use model::Class;
use taking::OneRegister;

// A dump's floor, then its three classes. They are three calls, as a dump has them: a loop is longer.
fn restore_dump(run: &mut [u64], on: &OneRegister, dump: &Dump) -> bool
    requires { RunWords on.now.s run.old }
    ensures { RunWords on.now.s run.new × RestoreActs on.now.s on.now.r (dump_restored on.now.s on.now.r (dump_at (words_of dump.now.bytes.now))) run.old run.new result }
{
    let mut reader = Reader {
        bytes: dump.bytes,
        at: 0,
    };
    on_register::raise_floor(run, on, reader.told_floor());
    let feeders = classes::restore_class(run, on, Class::Feeders, &mut reader, true);
    let peers = classes::restore_class(run, on, Class::Peers, &mut reader, feeders);
    classes::restore_class(run, on, Class::Own, &mut reader, peers)
}

// Reads a register's dump back. Whether all of it is held.
pub fn restore(run: &mut [u64], on: &OneRegister, dump: &Dump) -> bool
    requires { RunWords on.now.s run.old }
    ensures { RunWords on.now.s run.new × StateTurns on.now.s (λ t. (restored on.now.s on.now.r t (Some (dump_at (words_of dump.now.bytes.now)))).state) (restored_whole on.now.s on.now.r (dump_at (words_of dump.now.bytes.now))) run.old run.new result }
{
    restore_dump(run, on, dump)
}

// The same, and the floor is forgotten first and raised to a proven one after, if there is one.
pub fn resume(run: &mut [u64], on: &OneRegister, dump: &Dump, proven: Option<u64>) -> bool
    requires { RunWords on.now.s run.old }
    ensures { RunWords on.now.s run.new × StateTurns on.now.s (λ t. (resumed on.now.s on.now.r t proven (Some (dump_at (words_of dump.now.bytes.now)))).state) (resumed_whole on.now.s on.now.r (dump_at (words_of dump.now.bytes.now)) proven) run.old run.new result }
{
    on_register::forget_floor(run, on);
    let whole = restore_dump(run, on, dump);
    on_register::raise_floor(run, on, proven);
    whole
}
