// Opening: every needed word follows from the settings, the limits and the starts. No word is read. The settings come by themselves, with
// `settings_fit` in contracts: the type that says so, `vet::Vetted`, stands in a crate that this one does not use.
#![tactic(auto)]

ghost use Rattle.std.specs.Prelude.{◌≡◌, true, ◌<◌, length};
ghost use Rattle.model.specs.Settings.{settings_fit, words_needed};
ghost use Rattle.model.specs.Words.{encode_front, state_form};
ghost use Rattle.model.specs.RegisterWords.{floor_flag, floor_word, flag_word, encode_heading};
ghost use Rattle.opening.specs.Opened.{opened_with, start_floor, start_pending, heading_at, front_at, with_heading, with_headings};

use model::{Limits, Settings, Start, Usable};
use numbers::layout;

// The front of the words: the kept settings of the book, and the limits. The book is open.
fn write_front(front: &mut [u64], s: Settings, limits: Limits)
    requires { length front.old ≡ 20 }
    ensures { front.new ≡ encode_front s (front_at limits) }
{
    front.fill(0);
    front[..10].copy_from_slice(&[
        s.registers,
        s.shares.places,
        s.shares.pairs,
        s.shares.feeder,
        s.shares.peer,
        limits.feeder,
        limits.feeders,
        limits.peer,
        limits.peers,
        limits.relay,
    ]);
}

// The floor that a start sets, if it sets one.
fn start_floor(start: Start) -> Option<u64>
    ensures { result ≡ start_floor start }
{
    match start {
        Start::Empty | Start::Fallback => None,
        Start::At(floor) => Some(floor),
    }
}

// A register's own words: its kept settings, no sweep yet, and its start.
#[tactic(auto, using(crate::proofs::Blank::none_published))]
fn write_heading(own: &mut [u64], u: Usable, start: Start)
    requires { length own.old ≡ 24 }
    ensures { own.new ≡ encode_heading u (heading_at start) }
{
    let floor = start_floor(start);
    let pending = start == Start::Fallback;
    own.fill(0);
    own[..11].copy_from_slice(&[
        u.origin.behind,
        u.origin.ahead,
        u.copy.behind,
        u.copy.ahead,
        u.bucket,
        u.slots,
        0,
        0,
        u64::from(floor.is_some()),
        floor.unwrap_or(0),
        u64::from(pending),
    ]);
}

// The own words of register r, at its place. What was there is written over, and nothing else.
#[tactic(auto, using(crate::proofs::Steps::register_words))]
fn write_register(run: &mut [u64], s: Settings, starts: &[Start; 4], r: usize)
    requires { (settings_fit s ≡ true) × (length run.old ≡ words_needed s) × (r < s.registers) × (r < 4) }
    ensures { run.new ≡ with_heading s starts.now r run.old }
{
    let a = numbers::starts::register_start(s, r);
    write_heading(&mut run[a..a + layout::HEADING], s.usable[r], starts[r]);
}

// The own words of every register.
#[tactic(auto, using(crate::proofs::Steps::headed_none, crate::proofs::Steps::headed_more, crate::proofs::Steps::headed_all, numbers::proofs::Needed::few_registers))]
fn write_registers(run: &mut [u64], s: Settings, starts: &[Start; 4])
    requires { (settings_fit s ≡ true) × (length run.old ≡ words_needed s) }
    ensures { run.new ≡ with_headings s starts.now 0 s.registers run.old }
{
    for r in 0..s.registers as usize {
        write_register(run, s, starts, r);
    }
}

// All the words that the settings need: an empty book with these limits, and empty registers with these starts.
#[tactic(auto, using(crate::proofs::Laid::front_within))]
pub fn open(run: &mut [u64], s: Settings, limits: Limits, starts: &[Start; 4])
    requires { (settings_fit s ≡ true) × (length run.old ≡ words_needed s) }
    ensures { run.new ≡ (state_form s).enc (opened_with s limits starts.now) }
{
    run.fill(0);
    write_front(&mut run[..layout::FRONT], s, limits);
    write_registers(run, s, starts);
}
