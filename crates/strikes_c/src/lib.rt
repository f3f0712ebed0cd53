// The calls for C, each under its own name. A slice is a pointer and a length, and an out number a pointer. Each returns 0, or the refusal
// number, and a refusal alters no word, no byte and no out number. Nothing needs to be vetted before a call. include/strikes.h declares them.
// Kinds, classes, verdicts and flags are numbers here, and a ticket is six of them side by side: so C passes them.
#![tactic(auto, unfolding(model::specs::Codes::answer_number, model::specs::Codes::answer_values, crate::specs::Out::value_out))]

ghost use Rattle.std.specs.Prelude.{◌≡◌, [], ◌∷◌};
ghost use Rattle.model.specs.declared.Manner.TheVariants.{Judged, JudgedBatch, Taken, TakenBatch};
ghost use Rattle.model.specs.RegisterWords.{floor_flag, floor_word};
ghost use Rattle.model.specs.Calls.{On, Ticket, Open, Expire, Close, SetLimits, HeldBy, ClassTotals, Begin, Sweep, ContainsHash, DumpTo, Restore, Resume, Floor, Pending, SweptBucket, ViewRegister, ViewDeliverer};
ghost use Rattle.strikes.specs.Calls.{handed, asking, explaining, seeking};
ghost use Rattle.strikes.specs.Admitted.{told_number};
ghost use Rattle.strikes_c.specs.Out.{Returned, Read, Written, NeedsWords, needed_status, needed_out, told_out, whole_flag, bytes_read};

use model::{DelivererCode, Manner, Refusal, Verdict};
use numbers::codes;
use strikes::{Asking, Restored};

// What a call returns: 0, or the refusal number.
fn status<T: Drop>(told: Result<T, Refusal>) -> u64
    ensures { result ≡ told_number told }
{
    match told {
        Ok(_) => 0,
        Err(refusal) => u64::from(refusal),
    }
}

// Stores what a call tells, and returns 0; a refusal stores nothing, and its number is returned. strikes_explain, strikes_swept and
// strikes_class store their own numbers: no other call has as many, or has them from such a struct.
fn store(told: Result<u64, Refusal>, out: &mut u64) -> u64
    ensures number { result ≡ told_number told }
    ensures out_after { out.new ≡ told_out (λ n. n) told out.old }
{
    if let Ok(value) = told {
        *out = value;
    }
    status(told)
}

// As store, for a number that may be none: whether there is one, and the number, 0 where there is none.
fn store_option(told: Result<Option<u64>, Refusal>, present: &mut u64, value: &mut u64) -> u64
    ensures number { result ≡ told_number told }
    ensures present_after { present.new ≡ told_out floor_flag told present.old }
    ensures value_after { value.new ≡ told_out floor_word told value.old }
{
    if let Ok(found) = told {
        *present = u64::from(found.is_some());
        *value = found.unwrap_or(0);
    }
    status(told)
}

// As store, for what was read back: 1 where all of it came in, else 0, and the bytes that were read.
fn store_restored(told: Result<Restored, Refusal>, whole: &mut u64, read: &mut u64) -> u64
    ensures number { result ≡ told_number told }
    ensures whole_after { whole.new ≡ told_out whole_flag told whole.old }
    ensures read_after { read.new ≡ told_out bytes_read told read.old }
{
    match told {
        Ok(Restored::Whole(length)) => {
            *whole = 1;
            *read = length;
        }
        Ok(Restored::Partly(length)) => {
            *whole = 0;
            *read = length;
        }
        Err(_) => {}
    }
    status(told)
}

// How many words the settings need, or the refusal of unfit ones.
fn words_needed(settings: &[u64]) -> Result<u64, Refusal>
    ensures { NeedsWords settings.now result }
{
    let entry = vet::settings_entry(settings)?;
    Ok(entry.need as u64)
}

// The words that the settings need, or 1 where they are unfit.
#[tactic(auto, using(crate::proofs::Needed::number_needed, crate::proofs::Needed::value_needed))]
#[unsafe(no_mangle)]
pub extern "C" fn strikes_words_needed(settings: &[u64], needed: &mut u64) -> u64
    ensures value { result ≡ needed_status settings.now }
    ensures needed_after { needed.new ≡ needed_out settings.now needed.old }
{
    store(words_needed(settings), needed)
}

// Opens the words: an empty book with these limits, and each register at its start.
#[unsafe(no_mangle)]
pub extern "C" fn strikes_open(
    settings: &[u64],
    limits: &[u64],
    starts: &[u64],
    words: &mut [u64],
) -> u64
    ensures { Returned settings.now words.old (Open limits.now starts.now) result words.new [] [] }
{
    status(strikes::open(settings, limits, starts, words))
}

// Asks about a ticket, and stores its verdict. It is inlined as strikes::ticket is.
#[inline(always)]
fn ticket(
    settings: &[u64],
    words: &mut [u64],
    register: u64,
    manner: Manner,
    asking: Asking,
    verdict: &mut u64,
) -> u64
    ensures { Returned settings.now words.old (On register (Ticket manner (handed asking))) result words.new (verdict.old ∷ []) (verdict.new ∷ []) }
{
    store(
        strikes::ticket(settings, words, register, manner, asking).map(u64::from),
        verdict,
    )
}

// What a ticket is. Nothing of it is remembered.
// This, strikes_judge_batch, strikes_take and strikes_take_batch are four functions, since C has a name for each manner.
#[unsafe(no_mangle)]
pub extern "C" fn strikes_judge(
    settings: &[u64],
    words: &mut [u64],
    register: u64,
    fp: u64,
    stamp: u64,
    reading: u64,
    flag: u64,
    kind: u64,
    number: u64,
    verdict: &mut u64,
) -> u64
    ensures { Returned settings.now words.old (asking Judged register fp stamp reading flag kind number) result words.new (verdict.old ∷ []) (verdict.new ∷ []) }
{
    let asking = Asking {
        fp,
        stamp,
        reading,
        flag,
        who: DelivererCode { kind, number },
    };
    ticket(settings, words, register, Manner::Judged, asking, verdict)
}

// As strikes_judge, for a batch: a Late ticket past the window's front is Ahead.
#[unsafe(no_mangle)]
pub extern "C" fn strikes_judge_batch(
    settings: &[u64],
    words: &mut [u64],
    register: u64,
    fp: u64,
    stamp: u64,
    reading: u64,
    flag: u64,
    kind: u64,
    number: u64,
    verdict: &mut u64,
) -> u64
    ensures { Returned settings.now words.old (asking JudgedBatch register fp stamp reading flag kind number) result words.new (verdict.old ∷ []) (verdict.new ∷ []) }
{
    let asking = Asking {
        fp,
        stamp,
        reading,
        flag,
        who: DelivererCode { kind, number },
    };
    ticket(
        settings,
        words,
        register,
        Manner::JudgedBatch,
        asking,
        verdict,
    )
}

// As strikes_judge, and a new ticket is remembered.
#[unsafe(no_mangle)]
pub extern "C" fn strikes_take(
    settings: &[u64],
    words: &mut [u64],
    register: u64,
    fp: u64,
    stamp: u64,
    reading: u64,
    flag: u64,
    kind: u64,
    number: u64,
    verdict: &mut u64,
) -> u64
    ensures { Returned settings.now words.old (asking Taken register fp stamp reading flag kind number) result words.new (verdict.old ∷ []) (verdict.new ∷ []) }
{
    let asking = Asking {
        fp,
        stamp,
        reading,
        flag,
        who: DelivererCode { kind, number },
    };
    ticket(settings, words, register, Manner::Taken, asking, verdict)
}

// As strikes_take, for a batch: judged as strikes_judge_batch judges it.
#[unsafe(no_mangle)]
pub extern "C" fn strikes_take_batch(
    settings: &[u64],
    words: &mut [u64],
    register: u64,
    fp: u64,
    stamp: u64,
    reading: u64,
    flag: u64,
    kind: u64,
    number: u64,
    verdict: &mut u64,
) -> u64
    ensures { Returned settings.now words.old (asking TakenBatch register fp stamp reading flag kind number) result words.new (verdict.old ∷ []) (verdict.new ∷ []) }
{
    let asking = Asking {
        fp,
        stamp,
        reading,
        flag,
        who: DelivererCode { kind, number },
    };
    ticket(
        settings,
        words,
        register,
        Manner::TakenBatch,
        asking,
        verdict,
    )
}

// The rule that gives strikes_take's verdict, the class that it names, and that verdict. The words are only read.
#[unsafe(no_mangle)]
pub extern "C" fn strikes_explain(
    settings: &[u64],
    words: &[u64],
    register: u64,
    fp: u64,
    stamp: u64,
    reading: u64,
    flag: u64,
    kind: u64,
    number: u64,
    rule: &mut u64,
    class: &mut u64,
    verdict: &mut u64,
) -> u64
    ensures { Read settings.now words.now (explaining register fp stamp reading flag kind number) result (rule.old ∷ class.old ∷ verdict.old ∷ []) (rule.new ∷ class.new ∷ verdict.new ∷ []) }
{
    let asking = Asking {
        fp,
        stamp,
        reading,
        flag,
        who: DelivererCode { kind, number },
    };
    let told = strikes::explain(settings, words, register, asking);
    if let Ok(reason) = told {
        *rule = u64::from(reason);
        *class = codes::reason_class(reason);
        *verdict = u64::from(Verdict::from(reason));
    }
    status(told)
}

// The smallest stamp for which strikes_take_batch would give the wanted verdict, or none. The words are only read.
#[unsafe(no_mangle)]
pub extern "C" fn strikes_stamp_for(
    settings: &[u64],
    words: &[u64],
    register: u64,
    fp: u64,
    reading: u64,
    flag: u64,
    kind: u64,
    number: u64,
    wanted: u64,
    found: &mut u64,
    stamp: &mut u64,
) -> u64
    ensures { Read settings.now words.now (seeking register fp reading flag kind number wanted) result (found.old ∷ stamp.old ∷ []) (found.new ∷ stamp.new ∷ []) }
{
    let asking = Asking {
        fp,
        stamp: 0,
        reading,
        flag,
        who: DelivererCode { kind, number },
    };
    store_option(
        strikes::stamp_for(settings, words, register, asking, wanted),
        found,
        stamp,
    )
}

// Whether a fingerprint is held in any bucket of any class.
#[unsafe(no_mangle)]
pub extern "C" fn strikes_contains_hash(
    settings: &[u64],
    words: &[u64],
    register: u64,
    fp: u64,
    held: &mut u64,
) -> u64
    ensures { Read settings.now words.now (On register (ContainsHash fp)) result (held.old ∷ []) (held.new ∷ []) }
{
    store(
        strikes::contains_hash(settings, words, register, fp).map(u64::from),
        held,
    )
}

// Begins: 1 where a pending register's floor was raised to the host's number, 0 where it was not pending.
#[unsafe(no_mangle)]
pub extern "C" fn strikes_begin(
    settings: &[u64],
    words: &mut [u64],
    register: u64,
    number: u64,
    begun: &mut u64,
) -> u64
    ensures { Returned settings.now words.old (On register (Begin number)) result words.new (begun.old ∷ []) (begun.new ∷ []) }
{
    store(
        strikes::begin(settings, words, register, number).map(u64::from),
        begun,
    )
}

// Sweeps, as the host's tick does.
#[unsafe(no_mangle)]
pub extern "C" fn strikes_sweep(
    settings: &[u64],
    words: &mut [u64],
    register: u64,
    reading: u64,
) -> u64
    ensures { Returned settings.now words.old (On register (Sweep reading)) result words.new [] [] }
{
    status(strikes::sweep(settings, words, register, reading))
}

// Frees the entries of seconds that the reading and every register's sweep have passed.
#[unsafe(no_mangle)]
pub extern "C" fn strikes_expire(settings: &[u64], words: &mut [u64], reading: u64) -> u64
    ensures { Returned settings.now words.old (Expire reading) result words.new [] [] }
{
    status(strikes::expire(settings, words, reading))
}

// Sets the five limits anew.
#[unsafe(no_mangle)]
pub extern "C" fn strikes_set_limits(settings: &[u64], words: &mut [u64], limits: &[u64]) -> u64
    ensures { Returned settings.now words.old (SetLimits limits.now) result words.new [] [] }
{
    status(strikes::set_limits(settings, words, limits))
}

// Closes the share book.
#[unsafe(no_mangle)]
pub extern "C" fn strikes_close(settings: &[u64], words: &mut [u64]) -> u64
    ensures { Returned settings.now words.old Close result words.new [] [] }
{
    status(strikes::close(settings, words))
}

// Writes a register's dump at the start of an output, and leaves what lies behind it: the bytes written.
// This and strikes_view_register are two functions, since C has a name for each, and each names its own call in its contract.
#[unsafe(no_mangle)]
pub extern "C" fn strikes_dump(
    settings: &[u64],
    words: &[u64],
    register: u64,
    out: &mut [u8],
    written: &mut u64,
) -> u64
    ensures { Written settings.now words.now (On register (DumpTo out.old)) result out.new (written.old ∷ []) (written.new ∷ []) }
{
    store(
        strikes::dump(settings, words, register, out).map(|length| length as u64),
        written,
    )
}

// Writes a register's view at the start of an output, and leaves what lies behind it: the words written.
#[unsafe(no_mangle)]
pub extern "C" fn strikes_view_register(
    settings: &[u64],
    words: &[u64],
    register: u64,
    out: &mut [u64],
    written: &mut u64,
) -> u64
    ensures { Written settings.now words.now (On register (ViewRegister out.old)) result out.new (written.old ∷ []) (written.new ∷ []) }
{
    store(
        strikes::view_register(settings, words, register, out).map(|length| length as u64),
        written,
    )
}

// Writes a deliverer's view at the start of an output, and leaves what lies behind it: the words written.
#[unsafe(no_mangle)]
pub extern "C" fn strikes_view_deliverer(
    settings: &[u64],
    words: &[u64],
    kind: u64,
    number: u64,
    out: &mut [u64],
    written: &mut u64,
) -> u64
    ensures { Written settings.now words.now (ViewDeliverer kind number out.old) result out.new (written.old ∷ []) (written.new ∷ []) }
{
    store(
        strikes::view_deliverer(settings, words, DelivererCode { kind, number }, out).map(
            |length| length as u64,
        ),
        written,
    )
}

// Reads a dump back into a register: 1 where all of it came in, else 0, and the bytes that it has.
#[unsafe(no_mangle)]
pub extern "C" fn strikes_restore(
    settings: &[u64],
    words: &mut [u64],
    register: u64,
    bytes: &[u8],
    whole: &mut u64,
    read: &mut u64,
) -> u64
    ensures { Returned settings.now words.old (On register (Restore bytes.now)) result words.new (whole.old ∷ read.old ∷ []) (whole.new ∷ read.new ∷ []) }
{
    store_restored(
        strikes::restore(settings, words, register, bytes),
        whole,
        read,
    )
}

// As strikes_restore, but the register's own floor is forgotten first. `flag` is 1 where a floor is proven, to which it is raised after.
#[unsafe(no_mangle)]
pub extern "C" fn strikes_resume(
    settings: &[u64],
    words: &mut [u64],
    register: u64,
    bytes: &[u8],
    flag: u64,
    floor: u64,
    whole: &mut u64,
    read: &mut u64,
) -> u64
    ensures { Returned settings.now words.old (On register (Resume bytes.now flag floor)) result words.new (whole.old ∷ read.old ∷ []) (whole.new ∷ read.new ∷ []) }
{
    store_restored(
        strikes::resume(settings, words, register, bytes, flag, floor),
        whole,
        read,
    )
}

// Whether there is a floor, and the floor, 0 where there is none.
#[unsafe(no_mangle)]
pub extern "C" fn strikes_floor(
    settings: &[u64],
    words: &[u64],
    register: u64,
    present: &mut u64,
    floor: &mut u64,
) -> u64
    ensures { Read settings.now words.now (On register Floor) result (present.old ∷ floor.old ∷ []) (present.new ∷ floor.new ∷ []) }
{
    store_option(strikes::floor(settings, words, register), present, floor)
}

// Whether the register waits for the host's number.
#[unsafe(no_mangle)]
pub extern "C" fn strikes_pending(
    settings: &[u64],
    words: &[u64],
    register: u64,
    pending: &mut u64,
) -> u64
    ensures { Read settings.now words.now (On register Pending) result (pending.old ∷ []) (pending.new ∷ []) }
{
    store(
        strikes::pending(settings, words, register).map(u64::from),
        pending,
    )
}

// The bucket up to which the register is swept, and the published sweep in milliseconds.
#[unsafe(no_mangle)]
pub extern "C" fn strikes_swept(
    settings: &[u64],
    words: &[u64],
    register: u64,
    bucket: &mut u64,
    published: &mut u64,
) -> u64
    ensures { Read settings.now words.now (On register SweptBucket) result (bucket.old ∷ published.old ∷ []) (bucket.new ∷ published.new ∷ []) }
{
    let told = strikes::swept(settings, words, register);
    if let Ok(swept) = told {
        *bucket = swept.bucket.0;
        *published = swept.published.0;
    }
    status(told)
}

// The entries that a deliverer holds.
#[unsafe(no_mangle)]
pub extern "C" fn strikes_held(
    settings: &[u64],
    words: &[u64],
    kind: u64,
    number: u64,
    entries: &mut u64,
) -> u64
    ensures { Read settings.now words.now (HeldBy kind number) result (entries.old ∷ []) (entries.new ∷ []) }
{
    store(
        strikes::held(settings, words, DelivererCode { kind, number }),
        entries,
    )
}

// A class's entries, holders, units and expired second.
#[unsafe(no_mangle)]
pub extern "C" fn strikes_class(
    settings: &[u64],
    words: &[u64],
    class: u64,
    entries: &mut u64,
    holders: &mut u64,
    units: &mut u64,
    expired: &mut u64,
) -> u64
    ensures { Read settings.now words.now (ClassTotals class) result (entries.old ∷ holders.old ∷ units.old ∷ expired.old ∷ []) (entries.new ∷ holders.new ∷ units.new ∷ expired.new ∷ []) }
{
    let told = strikes::class_totals(settings, words, class);
    if let Ok(totals) = told {
        *entries = totals.entries;
        *holders = totals.holders;
        *units = totals.units;
        *expired = totals.expired;
    }
    status(told)
}
