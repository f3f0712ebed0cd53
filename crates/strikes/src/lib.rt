// The public calls. Each brings its settings as 29 words and the words that it may use. A call tries its refusals in their order,
// 1, 2, 3, 4, 8, 6, 5, 7, and a refusal alters nothing; otherwise it does what the rules say, and leaves what lies past the needed words.
// A code that is not listed is refused with 1, as unfit settings are, so which of the two is tried first tells nothing.
// Kinds, classes, verdicts and flags come as numbers, as the C interface passes them, and are read here. Settings and words are parameters
// and no struct: a call that writes is lent the words to be written, any other to be read, so there would be two structs, each taken apart
// at once.
#![tactic(auto)]

ghost use Rattle.std.specs.Prelude.{◌≡◌, ◌*◌, ◌≤◌, length};
ghost use Rattle.model.specs.Answer.{Said, Because, Entries, Dumped, Viewed};
ghost use Rattle.model.specs.Calls.{On, Ticket, Explain, Open, Close, Expire, SetLimits, HeldBy, ClassTotals, Begin, Sweep, ContainsHash, DumpTo, Restore, Resume, Floor, Pending, SweptBucket, ViewRegister, ViewDeliverer, floor_answer, stamp_answer, yes_no, reply};
ghost use Rattle.register.specs.Words.{RegisterWords};
ghost use Rattle.strikes.specs.Admitted.{DumpTried, told_number};
ghost use Rattle.strikes.specs.Calls.{handed, seeking, Told, ToldOutput, heard, done, begun_or_already, swept_heard, totals_heard, restored_heard, restore_answer};
ghost use Rattle.strikes.specs.Entries.{Admits, FindsRegister, FindsClass, AsksOf};

use book::totals::Totals;
use dump::Dump;
use model::{
    Class, Deliverer, DelivererCode, Judged, Manner, Reason, Refusal, Shares, Usable, Verdict,
};
use numbers::starts::RegisterExtent;
use numbers::{codes, layout, starts};
use register::Ask;
use register::heading::SweptTo;
use std::ops::Range;
use taking::OneRegister;
use vet::Vetted;

// Where a call finds a class of the share book: its words, in all words.
#[derive(Drop)]
struct ClassExtent {
    shares: Shares,
    words: Range<usize>,
}

// A ticket as a host asks about it, its codes not yet read: the reading with its judging flag, and who delivers it.
#[derive(Clone, Copy, Debug, PartialEq, Eq)]
pub struct Asking {
    pub fp: u64,
    pub stamp: u64,
    pub reading: u64,
    pub flag: u64,
    pub who: DelivererCode,
}

impl TryFrom<Asking> for Ask {
    type Error = Refusal;

    ghost try_from_gives = { λ asking ask. AsksOf (handed asking) ask };

    fn try_from(asking: Asking) -> Result<Ask, Refusal> {
        let judging = codes::flag(asking.flag)?;
        let who = Deliverer::try_from(asking.who)?;
        Ok(Ask {
            fp: asking.fp,
            stamp: asking.stamp,
            now: Judged(asking.reading),
            judging,
            who,
        })
    }
}

// What a restore brought in, with the bytes that it read. The enum and its names are the Rust's.
#[derive(Clone, Copy, Debug, PartialEq, Eq)]
pub enum Restored {
    // All of the dump.
    Whole(u64),
    // A part: some of it was late or had no room, and raised the floor.
    Partly(u64),
}

// The register that a call is on; or the first of the refusals 1 to 4.
fn admit(settings: &[u64], words: &[u64], register: u64) -> Result<OneRegister, Refusal>
    ensures { Admits settings.now words.now register result }
{
    let Vetted { s, need } = vet::vet(settings, words)?;
    if s.registers <= register {
        return Err(Refusal::NoSuchRegister);
    }
    let r = register as usize;
    let extent = starts::register_extent(s, r);
    Ok(OneRegister { s, need, r, extent })
}

// Where the register lies that a call is on.
fn enter_register(settings: &[u64], words: &[u64], register: u64) -> Result<RegisterExtent, Refusal>
    ensures { FindsRegister settings.now words.now register result }
{
    let on = admit(settings, words, register)?;
    Ok(on.extent)
}

// Where a call on the book finds a class.
fn enter_class(settings: &[u64], words: &[u64], class: Class) -> Result<ClassExtent, Refusal>
    ensures { FindsClass settings.now words.now class result }
{
    let vetted = vet::vet(settings, words)?;
    let words = starts::class_extent(vetted.s, class);
    Ok(ClassExtent {
        shares: vetted.s.shares,
        words,
    })
}

// What a ticket is. Where the manner takes, a new one is remembered: it draws on its deliverer's share, and is struck.
// It is inlined, so that a caller which names the manner is compiled for it alone: a judge without what a take needs.
#[inline(always)]
pub fn ticket(
    settings: &[u64],
    words: &mut [u64],
    register: u64,
    manner: Manner,
    asking: Asking,
) -> Result<Verdict, Refusal>
    ensures { Told settings.now words.old (On register (Ticket manner (handed asking))) (heard Said result) words.new }
{
    let ask = Ask::try_from(asking)?;
    let on = admit(settings, words, register)?;
    Ok(taking::ask(&mut words[0..on.need], &on, manner, ask))
}

// Begins: a pending register's floor is raised to the host's number. Says whether it was pending, and so began.
pub fn begin(
    settings: &[u64],
    words: &mut [u64],
    register: u64,
    number: u64,
) -> Result<bool, Refusal>
    ensures { Told settings.now words.old (On register (Begin number)) (heard begun_or_already result) words.new }
{
    let at = enter_register(settings, words, register)?;
    Ok(register::heading::begin(&mut words[at.words()], number))
}

// Sweeps, as the host's tick does: what the clock has passed is dropped, and raises the floor.
pub fn sweep(
    settings: &[u64],
    words: &mut [u64],
    register: u64,
    reading: u64,
) -> Result<(), Refusal>
    ensures { Told settings.now words.old (On register (Sweep reading)) (heard done result) words.new }
{
    let at = enter_register(settings, words, register)?;
    register::sweep(&mut words[at.words()], at.u, Judged(reading));
    Ok(())
}

// Whether a fingerprint is held in any bucket of any class.
pub fn contains_hash(
    settings: &[u64],
    words: &[u64],
    register: u64,
    fp: u64,
) -> Result<bool, Refusal>
    ensures { heard yes_no result ≡ reply settings.now words.now (On register (ContainsHash fp)) }
{
    let at = enter_register(settings, words, register)?;
    Ok(register::contains_hash(&words[at.words()], at.u, fp))
}

// The floor, if there is one.
pub fn floor(settings: &[u64], words: &[u64], register: u64) -> Result<Option<u64>, Refusal>
    ensures { heard floor_answer result ≡ reply settings.now words.now (On register Floor) }
{
    let at = enter_register(settings, words, register)?;
    Ok(register::heading::floor(&words[at.words()]))
}

// Whether the register waits for the host's number.
pub fn pending(settings: &[u64], words: &[u64], register: u64) -> Result<bool, Refusal>
    ensures { heard yes_no result ≡ reply settings.now words.now (On register Pending) }
{
    let at = enter_register(settings, words, register)?;
    Ok(register::heading::is_pending(&words[at.words()]))
}

// The bucket up to which the register is swept, and that in milliseconds, as the share book reads it.
pub fn swept(settings: &[u64], words: &[u64], register: u64) -> Result<SweptTo, Refusal>
    ensures { heard swept_heard result ≡ reply settings.now words.now (On register SweptBucket) }
{
    let at = enter_register(settings, words, register)?;
    Ok(register::heading::swept(&words[at.words()]))
}

// The rule that gives the verdict of a take of this ticket, after the sweep that judge would make. The words are only read.
pub fn explain(
    settings: &[u64],
    words: &[u64],
    register: u64,
    asking: Asking,
) -> Result<Reason, Refusal>
    ensures { heard Because result ≡ reply settings.now words.now (On register (Explain (handed asking))) }
{
    let ask = Ask::try_from(asking)?;
    let on = admit(settings, words, register)?;
    Ok(taking::explain(&words[0..on.need], &on, ask))
}

// The smallest stamp for which take_batch would give the verdict with the wanted number, or none. The asking's stamp is not read. The words
// are only read.
pub fn stamp_for(
    settings: &[u64],
    words: &[u64],
    register: u64,
    asking: Asking,
    wanted: u64,
) -> Result<Option<u64>, Refusal>
    ensures { heard stamp_answer result ≡ reply settings.now words.now (seeking register asking.fp asking.reading asking.flag asking.who.kind asking.who.number wanted) }
{
    let ask = Ask::try_from(Asking { stamp: 0, ..asking })?;
    let verdict = Verdict::try_from(wanted)?;
    let on = admit(settings, words, register)?;
    Ok(seeking::stamp_for(&words[0..on.need], on, ask, verdict))
}

// Closes the share book: every draw from now on is refused.
pub fn close(settings: &[u64], words: &mut [u64]) -> Result<(), Refusal>
    ensures { Told settings.now words.old Close (heard done result) words.new }
{
    vet::vet(settings, words)?;
    book::front::close(&mut words[0..layout::FRONT]);
    Ok(())
}

// Gives back to the deliverers what the clock and every register's sweep have passed.
pub fn expire(settings: &[u64], words: &mut [u64], reading: u64) -> Result<(), Refusal>
    ensures { Told settings.now words.old (Expire reading) (heard done result) words.new }
{
    let Vetted { s, need } = vet::vet(settings, words)?;
    expiring::expire(&mut words[0..need], s, Judged(reading));
    Ok(())
}

// Sets the five limits anew. Nothing that is held is freed by it.
pub fn set_limits(settings: &[u64], words: &mut [u64], limits: &[u64]) -> Result<(), Refusal>
    ensures { Told settings.now words.old (SetLimits limits.now) (heard done result) words.new }
{
    let wanted = vet::limits_of(limits)?;
    vet::vet(settings, words)?;
    book::front::set_limits(&mut words[0..layout::FRONT], wanted);
    Ok(())
}

// Opens the words: an empty book with these limits, and each register at its start. It overwrites the words and reads none, so of the
// refusals it tries 1 and 2 alone.
pub fn open(
    settings: &[u64],
    limits: &[u64],
    starts: &[u64],
    words: &mut [u64],
) -> Result<(), Refusal>
    ensures { Told settings.now words.old (Open limits.now starts.now) (heard done result) words.new }
{
    let Vetted { s, need } = vet::settings_entry(settings)?;
    let wanted = vet::limits_of(limits)?;
    let started = vet::starts_of(s, starts)?;
    let room = words.len();
    if room < need {
        return Err(Refusal::TooFewWords);
    }
    opening::open(&mut words[0..need], s, wanted, &started);
    Ok(())
}

// The entries that a deliverer holds.
pub fn held(settings: &[u64], words: &[u64], who: DelivererCode) -> Result<u64, Refusal>
    ensures { heard Entries result ≡ reply settings.now words.now (HeldBy who.kind who.number) }
{
    let who = Deliverer::try_from(who)?;
    let at = enter_class(settings, words, Class::from(who))?;
    Ok(book::held_by(&words[at.words], at.shares, who))
}

// A class's entries, holders, units and expired second.
pub fn class_totals(settings: &[u64], words: &[u64], class: u64) -> Result<Totals, Refusal>
    ensures { heard totals_heard result ≡ reply settings.now words.now (ClassTotals class) }
{
    let named = Class::try_from(class)?;
    let at = enter_class(settings, words, named)?;
    Ok(book::held_of(&words[at.words]))
}

// The refusals of a dump that come after 4: first 6, of a register that is pending, and then 5.
fn may_dump(part: &[u64], u: Usable, room: usize) -> Result<(), Refusal>
    requires { RegisterWords u part.now }
    ensures { DumpTried u room part.now (told_number result) }
{
    let pending = register::heading::is_pending(part);
    let long = dump::dump_length(part, u);
    if pending {
        return Err(Refusal::Pending);
    }
    if room < long {
        return Err(Refusal::OutputTooShort);
    }
    Ok(())
}

// Writes a register's dump at the start of an output, and leaves what lies behind it. The words are only read.
pub fn dump(
    settings: &[u64],
    words: &[u64],
    register: u64,
    out: &mut [u8],
) -> Result<usize, Refusal>
    ensures { ToldOutput settings.now words.now (On register (DumpTo out.old)) (heard Dumped result) out.new }
{
    let at = enter_register(settings, words, register)?;
    let part = &words[at.words()];
    may_dump(part, at.u, out.len())?;
    Ok(dump::dump(out, part, at.u))
}

// Writes a register's view at the start of an output, and leaves what lies behind it: of each held generation, in dump sequence, its
// bucket, oldest stamp, newest stamp and number held. The words are only read.
pub fn view_register(
    settings: &[u64],
    words: &[u64],
    register: u64,
    out: &mut [u64],
) -> Result<usize, Refusal>
    ensures { ToldOutput settings.now words.now (On register (ViewRegister out.old)) (heard Viewed result) out.new }
{
    let at = enter_register(settings, words, register)?;
    let part = &words[at.words()];
    let long = register_view::view_length(part, at.u);
    if out.len() < long {
        return Err(Refusal::ViewTooShort);
    }
    Ok(register_view::view(out, part, at.u))
}

// Writes a deliverer's view at the start of an output, and leaves what lies behind it: its pairs of second and count, seconds rising, and
// then its entries; 0 alone where it has no place. The words are only read.
pub fn view_deliverer(
    settings: &[u64],
    words: &[u64],
    who: DelivererCode,
    out: &mut [u64],
) -> Result<usize, Refusal>
    ensures { ToldOutput settings.now words.now (ViewDeliverer who.kind who.number out.old) (heard Viewed result) out.new }
{
    let who = Deliverer::try_from(who)?;
    let at = enter_class(settings, words, Class::from(who))?;
    let part = &words[at.words];
    let long = book_view::view_length(part, at.shares, who);
    if out.len() < long {
        return Err(Refusal::ViewTooShort);
    }
    Ok(book_view::view(out, part, at.shares, who))
}

// What a restore of a dump returns: how many bytes it read, and whether all is held. It refuses nothing, since words are written by then.
#[tactic(auto, using(dump::proofs::Walks::within_bytes))]
fn told_restored(whole: bool, dump: &Dump) -> Result<Restored, Refusal>
    ensures { heard restored_heard result ≡ restore_answer (8 * dump.now.words) whole }
{
    let read = 8 * (dump.words as u64);
    if whole {
        Ok(Restored::Whole(read))
    } else {
        Ok(Restored::Partly(read))
    }
}

// Reads a dump back into a register. What lies behind the dump is not looked at, and one that is cut short is refused.
pub fn restore(
    settings: &[u64],
    words: &mut [u64],
    register: u64,
    bytes: &[u8],
) -> Result<Restored, Refusal>
    ensures { Told settings.now words.old (On register (Restore bytes.now)) (heard restored_heard result) words.new }
{
    let on = admit(settings, words, register)?;
    let dump = dump::read_lengths(bytes).ok_or(Refusal::CutShort)?;
    let whole = restoring::restore(&mut words[0..on.need], &on, &dump);
    told_restored(whole, &dump)
}

// As restore, but the register's own floor is forgotten first. `flag` is 1 where a floor is proven, to which it is raised after.
pub fn resume(
    settings: &[u64],
    words: &mut [u64],
    register: u64,
    bytes: &[u8],
    flag: u64,
    floor: u64,
) -> Result<Restored, Refusal>
    ensures { Told settings.now words.old (On register (Resume bytes.now flag floor)) (heard restored_heard result) words.new }
{
    let proven = codes::flag(flag)?.then_some(floor);
    let on = admit(settings, words, register)?;
    let dump = dump::read_lengths(bytes).ok_or(Refusal::CutShort)?;
    let whole = restoring::resume(&mut words[0..on.need], &on, &dump, proven);
    told_restored(whole, &dump)
}
