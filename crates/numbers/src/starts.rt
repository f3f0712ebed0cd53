// Where each part of the words starts, and how many words it has, under settings that are in bounds. `settings_fit` is a fact in contracts
// and no type here: callers that hold a run have it from the run's own words, and would make such a type anew for each call. Those that
// vet the settings first have it in `vet::Vetted`.
ghost use Rattle.std.specs.Prelude.{◌≡◌, true, ◌+◌, ◌*◌, ◌<◌, ◌≤◌};
ghost use Rattle.model.specs.Widths.{class_head, place_width as place_words};
ghost use Rattle.model.specs.Settings.{settings_fit, shares_fit, usable_fit, usable_at, words_needed};
ghost use Rattle.model.specs.Words.{class_width as class_words, class_start as class_from, ring_width as ring_words, register_width as register_words, register_start as register_from};
ghost use Rattle.model.specs.Most.{ring_most, register_most, place_most, class_most};
ghost use Rattle.numbers.specs.RegisterAt.{RegisterAt};

use crate::{bounds, layout, spans};
use model::{Class, Settings, Shares, Usable};
use std::ops::Range;

// A register's settings, and where its words lie: two ends and no `Range`, which is not `Copy`.
#[derive(Clone, Copy)]
pub struct RegisterExtent {
    pub u: Usable,
    pub start: usize,
    pub end: usize,
}

impl RegisterExtent {
    // The register's words, in all words.
    pub fn words(self) -> Range<usize>
        ensures start { result.start ≡ self.start }
        ensures end { result.end ≡ self.end }
    {
        self.start..self.end
    }
}

// The words that the settings need.
pub fn needed(s: Settings) -> usize
    requires { settings_fit s ≡ true }
    ensures { result ≡ words_needed s }
{
    bounds::words_in_bounds(s) as usize
}

// The words of a place in the book: its kind, number, entries and how many pairs it has, then E pairs of two words each.
pub fn place_width(b: Shares) -> usize
    requires { b.pairs ≤ 512 }
    ensures { (result ≡ place_words b.pairs) × (result ≤ place_most) }
{
    2 * b.pairs as usize + layout::PLACE_HEAD
}

// Where place i of a class starts in the class's words, after those of totals.
pub fn place_start(b: Shares, i: usize) -> usize
    requires { (b.pairs ≤ 512) × (i ≤ 64) }
    ensures { (result ≡ class_head + i * place_words b.pairs) × (result ≤ class_most) }
{
    layout::CLASS_HEAD + i * place_width(b)
}

// The words of place i of a class, in the class's words.
pub fn place_extent(b: Shares, i: usize) -> Range<usize>
    requires { (b.pairs ≤ 512) × (i ≤ 64) }
    ensures start { result.start ≡ class_head + i * place_words b.pairs }
    ensures end { result.end ≡ result.start + place_words b.pairs }
{
    let start = place_start(b, i);
    start..start + place_width(b)
}

// The words of a class in the book: its totals, and P places.
pub fn class_width(b: Shares) -> usize
    requires { shares_fit b ≡ true }
    ensures { (result ≡ class_words b) × (result ≤ class_most) }
{
    layout::CLASS_HEAD + b.places as usize * place_width(b)
}

// Where a class starts.
fn class_start(s: Settings, class: Class) -> usize
    requires { settings_fit s ≡ true }
    ensures { (result ≡ class_from s class) × (result + class_words s.shares ≤ words_needed s) }
{
    layout::FRONT + u64::from(class) as usize * class_width(s.shares)
}

// The words of a class, in all words. It is inlined, so that the settings are not copied for it.
#[inline(always)]
pub fn class_extent(s: Settings, class: Class) -> Range<usize>
    requires { settings_fit s ≡ true }
    ensures start { result.start ≡ class_from s class }
    ensures end { result.end ≡ result.start + class_words s.shares }
    ensures within { result.end ≤ words_needed s }
{
    let start = class_start(s, class);
    start..start + class_width(s.shares)
}

// The words of one class's ring. ring's `Shape` says the same product of a ring by itself: `ring` stands above this crate.
#[tactic(auto, using(crate::proofs::Needed::usable_few, crate::proofs::Placing::ring_few))]
pub fn ring_width(u: Usable) -> usize
    requires { usable_fit u ≡ true }
    ensures { (result ≡ ring_words u) × (result ≤ ring_most) }
{
    spans::ring_of(u) as usize * (u.slots as usize + layout::GENERATION_HEAD)
}

// The words of a register: its own, and three rings.
pub fn register_width(u: Usable) -> usize
    requires { usable_fit u ≡ true }
    ensures { (result ≡ register_words u) × (result ≤ register_most) }
{
    layout::HEADING + 3 * ring_width(u)
}

// Where a register starts: after the front, the book, and the registers before it.
#[tactic(auto, using(crate::proofs::Needed::few_registers, model::proofs::Bounds::fit_shares))]
pub fn register_start(s: Settings, register: usize) -> usize
    requires { (settings_fit s ≡ true) × (register < s.registers) }
    ensures { (result ≡ register_from s register) × (result + register_words (usable_at s register) ≤ words_needed s) }
{
    let mut start = layout::FRONT + 3 * class_width(s.shares);
    for u in &s.usable[..register] {
        start += register_width(*u);
    }
    start
}

// Where a register lies.
pub fn register_extent(s: Settings, r: usize) -> RegisterExtent
    requires { (settings_fit s ≡ true) × (r < s.registers) }
    ensures { RegisterAt s r result }
{
    let u = s.usable[r];
    let start = register_start(s, r);
    RegisterExtent {
        u,
        start,
        end: start + register_width(u),
    }
}
