// Settings and limits: read from the words that a host hands in, tested against their bounds, and the words that they need.
ghost use Rattle.std.specs.List.{list_all};
ghost use Rattle.std.specs.Prelude.{◌≡◌, true, cond, ◌<◌, ◌≤◌, length};
ghost use Rattle.model.specs.Settings.{usable_below as usable_read, settings_of as settings_in, limits_of as limits_in, power_of_two, window_fit as window_within, usable_fit as usable_within, shares_fit as shares_within, limits_fit as limits_within, settings_fit as settings_within, register_words, book_words as places_words, words_needed as needed};
ghost use Rattle.model.specs.Most.{rings_most, book_most};
ghost use Rattle.numbers.specs.Readers.{usable_said, shares_said};

use crate::{spans, starts};
use model::{Limits, Settings, Shares, Usable, Window};

// The words of settings, and of limits.
pub const SETTINGS: usize = 29;

pub const LIMITS: usize = 5;

const SPAN: u64 = 3_600_000;

const MOST: u64 = 1_000_000;

// The most entries of a place, and of a class.
pub const MOST_ENTRIES: u64 = 2_000_000;

// The settings of a register, as six words say them: of settings, and at the start of the register's own words.
pub fn usable_of(words: &[u64]) -> Usable
    requires { length words.now ≡ 6 }
    ensures { result ≡ usable_said words.now }
{
    Usable {
        origin: Window {
            behind: words[0],
            ahead: words[1],
        },
        copy: Window {
            behind: words[2],
            ahead: words[3],
        },
        bucket: words[4],
        slots: words[5],
    }
}

// Those of the share book, as four words say them: of settings, and of the front.
pub fn shares_of(words: &[u64]) -> Shares
    requires { length words.now ≡ 4 }
    ensures { result ≡ shares_said words.now }
{
    Shares {
        places: words[0],
        pairs: words[1],
        feeder: words[2],
        peer: words[3],
    }
}

// The settings of a register, of all words of settings, or none where there is no such register.
#[tactic(auto, using(crate::proofs::Readers::usable_part))]
fn usable_below(st: &[u64], r: usize) -> Usable
    requires { (r < 4) × (length st.now ≡ 29) }
    ensures { result ≡ usable_read st.now r }
{
    if (r as u64) < st[0] {
        usable_of(&st[5 + 6 * r..][..6])
    } else {
        Usable::default()
    }
}

// The settings that all their words say. Not by `array::from_fn` over the registers: tried, and that its elements are the list of the rules did
// not close. Its contract says of each element only that a call of the closure returned it, and no lemma of the library makes a list of that.
#[tactic(auto, using(crate::proofs::Readers::shares_part))]
pub fn settings_of(st: &[u64]) -> Settings
    requires { length st.now ≡ 29 }
    ensures { result ≡ settings_in st.now }
{
    Settings {
        registers: st[0],
        shares: shares_of(&st[1..5]),
        usable: [
            usable_below(st, 0),
            usable_below(st, 1),
            usable_below(st, 2),
            usable_below(st, 3),
        ],
    }
}

pub fn limits_of(ls: &[u64]) -> Limits
    requires { length ls.now ≡ 5 }
    ensures { result ≡ limits_in ls.now }
{
    Limits {
        feeder: ls[0],
        feeders: ls[1],
        peer: ls[2],
        peers: ls[3],
        relay: ls[4],
    }
}

// A power of two from 2 to 1,024, by its ten values, as the rules list them. The library's `is_power_of_two` would need both bounds beside it,
// and a law that the two agree.
#[tactic(auto, unfolding(model::specs::Settings::power_of_two))]
pub fn is_power_of_two(n: u64) -> bool
    ensures { result ≡ power_of_two n }
{
    matches!(n, 2 | 4 | 8 | 16 | 32 | 64 | 128 | 256 | 512 | 1024)
}

#[tactic(auto, unfolding(model::specs::Settings::window_fit))]
fn window_fit(w: Window) -> bool
    ensures { result ≡ window_within w }
{
    w.behind <= SPAN && w.ahead <= SPAN
}

#[tactic(auto, unfolding(model::specs::Settings::usable_fit))]
pub fn usable_fit(u: Usable) -> bool
    ensures { result ≡ usable_within u }
{
    window_fit(u.origin)
        && window_fit(u.copy)
        && matches!(u.bucket, 1..=60_000)
        && is_power_of_two(u.slots)
        && spans::ring_of(u) <= 256
}

#[tactic(auto, unfolding(model::specs::Settings::shares_fit))]
pub fn shares_fit(b: Shares) -> bool
    ensures { result ≡ shares_within b }
{
    matches!(b.places, 1..=64) && matches!(b.pairs, 2..=512) && b.feeder <= 4_096 && b.peer <= 4_096
}

#[tactic(auto, unfolding(model::specs::Settings::limits_fit))]
pub fn limits_fit(l: Limits) -> bool
    ensures { result ≡ limits_within l }
{
    l.feeder <= MOST && l.feeders <= MOST && l.peer <= MOST && l.peers <= MOST && l.relay <= MOST
}

// All these registers' settings are in bounds.
fn all_fit(usable: &[Usable]) -> bool
    ensures { result ≡ list_all usable_within usable.now }
{
    usable.iter().all(|u| usable_fit(*u))
}

// All settings are in bounds, those of the registers that there are among them.
#[tactic(auto, using(crate::proofs::Needed::fit_listed), unfolding(model::specs::Settings::settings_fit))]
pub fn settings_fit(s: Settings) -> bool
    ensures { result ≡ settings_within s }
{
    match s.registers {
        1..=4 => shares_fit(s.shares) && all_fit(&s.usable[..s.registers as usize]),
        _ => false,
    }
}

// The words of one register's rings. The bound keeps the sums below from wrapping.
#[tactic(auto, using(crate::proofs::Needed::usable_few, crate::proofs::Placing::register_is))]
fn register_words(u: Usable) -> u64
    requires { usable_within u ≡ true }
    ensures { (result ≡ register_words u) × (result ≤ rings_most) }
{
    3 * starts::ring_width(u) as u64
}

// The words of the share book's places.
fn book_words(b: Shares) -> u64
    requires { shares_within b ≡ true }
    ensures { (result ≡ places_words b) × (result ≤ book_most) }
{
    3 * b.places * starts::place_width(b) as u64
}

// The words that settings in bounds need, for whoever has tested them.
#[tactic(auto, using(crate::proofs::Needed::few_registers, crate::proofs::Needed::rings_none, model::proofs::Bounds::fit_shares))]
pub fn words_in_bounds(s: Settings) -> u64
    requires { settings_within s ≡ true }
    ensures { result ≡ needed s }
{
    let mut rings = 0;
    for u in &s.usable[..s.registers as usize] {
        rings += register_words(*u);
    }
    rings + book_words(s.shares) + 128
}

// The words that any settings need: 0 where they are out of bounds, since no words serve those.
pub fn words_needed(s: Settings) -> u64
    ensures { result ≡ cond (settings_within s) (needed s) 0 }
{
    if !settings_fit(s) {
        return 0;
    }
    words_in_bounds(s)
}
