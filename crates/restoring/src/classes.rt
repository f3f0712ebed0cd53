// The generations of one class of a dump, one after the other.
ghost use Rattle.std.specs.Prelude.{◌≡◌, ◌≤◌, ◌/◌, length};
ghost use Rattle.model.specs.Dump.{words_of};
ghost use Rattle.dump.specs.Walk.{ClassWalks, dumped_at, next_at, class_dumped, class_end};
ghost use Rattle.taking.specs.Words.{RunWords};
ghost use Rattle.restoring.specs.Rules.{RestoreActs, one_restored, class_restored};

use crate::heads::Head;
use crate::holding;
use dump::Reader;
use model::Class;
use numbers::spans;
use taking::OneRegister;

// The generation that comes next. Returns whether all of it is held.
fn restore_at(run: &mut [u64], on: &OneRegister, class: Class, reader: &mut Reader<'_>) -> bool
    requires { RunWords on.now.s run.old × (next_at (words_of reader.old.bytes.now) reader.old.at ≤ length reader.old.bytes.now / 8) }
    ensures acts { RunWords on.now.s run.new × RestoreActs on.now.s on.now.r (one_restored on.now.s on.now.r class (dumped_at (words_of reader.old.bytes.now) reader.old.at)) run.old run.new result }
    ensures same_bytes { reader.new.bytes ≡ reader.old.bytes }
    ensures next { reader.new.at ≡ next_at (words_of reader.old.bytes.now) reader.old.at }
{
    let found = reader.generation();
    let h = Head {
        class,
        bucket: found.bucket,
        newest: found.newest,
        second: spans::second_of(found.bucket, on.extent.u.bucket),
    };
    // A copy of the reader: a generation that fails is read in part, and passed as a whole.
    let whole = holding::restore_generation(run, on, h, *reader, found.length);
    reader.skip(found.length);
    whole
}

// The class that comes next. Returns whether all of it is held, and all before it.
pub fn restore_class(
    run: &mut [u64],
    on: &OneRegister,
    class: Class,
    reader: &mut Reader<'_>,
    before: bool,
) -> bool
    requires { RunWords on.now.s run.old × ClassWalks reader.old.bytes.now reader.old.at (class_end (words_of reader.old.bytes.now) reader.old.at) }
    ensures acts { let ds = class_dumped (words_of reader.old.bytes.now) reader.old.at in
        RunWords on.now.s run.new × RestoreActs on.now.s on.now.r (class_restored on.now.s on.now.r class ds before) run.old run.new result }
    ensures same_bytes { reader.new.bytes ≡ reader.old.bytes }
    ensures next { reader.new.at ≡ class_end (words_of reader.old.bytes.now) reader.old.at }
{
    // Copies that nothing else can alter: what they say need not be read and stored again for each fingerprint.
    let on = *on;
    let mut here = *reader;
    let mut whole = before;
    for _generation in 0..here.word() {
        whole = restore_at(run, &on, class, &mut here) & whole;
    }
    *reader = here;
    whole
}
