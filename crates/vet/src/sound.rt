// The soundness test of all words that the settings need, whatever they hold: one pass, part by part.
ghost use Rattle.std.specs.Prelude.{◌≡◌, true, ◌+◌, ◌*◌, ◌≤◌, length};
ghost use Rattle.runs.specs.Combine.{both, free};
ghost use Rattle.model.specs.Settings.{settings_fit, usable_fit};
ghost use Rattle.model.specs.RegisterWords.{each_form, ring_form, register_form, heading_sound as heading_rule};
ghost use Rattle.model.specs.Words.{front_sound as front_rule, book_form, registers_form, unused_width, class_width, ring_width, register_width};
ghost use Rattle.model.specs.Calls.{sound};

use crate::Vetted;
use model::{Bucket, Class, Settings, Usable};
use numbers::{bounds, layout, spans, starts};
use ring::Shape;

// The front: it keeps the settings that the call brings, its limits are in bounds, and the closed flag is a flag.
fn front_sound(s: Settings, front: &[u64]) -> bool
    requires { length front.now ≡ 20 }
    ensures { result ≡ front_rule s front.now }
{
    let limits = bounds::limits_fit(bounds::limits_of(
        &front[layout::FEEDER_LIMIT..layout::CLOSED],
    ));
    let shares = bounds::shares_of(&front[layout::PLACES..layout::FEEDER_LIMIT]);
    let kept = (front[layout::REGISTERS] == s.registers) & (shares == s.shares);
    kept & (limits & (front[layout::CLOSED] <= 1))
}

// A register's own words: it keeps the settings that the call brings, its published sweep is that of its swept bucket, its flags
// are flags, and an absent floor is 0.
fn heading_sound(u: Usable, heading: &[u64]) -> bool
    requires { length heading.now ≡ 24 }
    ensures { result ≡ heading_rule u heading.now }
{
    let published = spans::published(u, Bucket(heading[layout::SWEPT]));
    let kept = bounds::usable_of(&heading[0..layout::SWEPT]) == u;
    let floor = (heading[layout::HAS_FLOOR] <= 1)
        & ((heading[layout::HAS_FLOOR] == 1) | (heading[layout::FLOOR] == 0));
    kept & ((heading[layout::PUBLISHED] == published.0) & (floor & (heading[layout::PENDING] <= 1)))
}

// A register's three rings, one after the other. A flag and no chain with `all`: what is known of chunks goes by their positions, and a
// chain would need lemmas that state them as one list.
fn rings_sound(u: Usable, rings: &[u64]) -> bool
    requires { (usable_fit u ≡ true) × (length rings.now ≡ 3 * ring_width u) }
    ensures { result ≡ (each_form (λ c. ring_form u)).test rings.now }
{
    let shape = Shape::of(u);
    let mut all = true;
    for ring in rings.chunks_exact(shape.words()) {
        all &= ring::is_sound(ring, shape);
    }
    all
}

// One register: its own words, then its rings.
fn register_sound(u: Usable, register: &[u64]) -> bool
    requires { (usable_fit u ≡ true) × (length register.now ≡ register_width u) }
    ensures { result ≡ (register_form u).test register.now }
{
    heading_sound(u, &register[0..layout::HEADING]) && rings_sound(u, &register[layout::HEADING..])
}

// All registers, each of its own width, one after the other; the unused words behind them are free. The answer is kept to the end, as the
// rules take it: sound words, which a call nearly always brings, are looked through to the end in any case. The place goes on by each
// register's width: a rest that is split off would take as many lines.
// The settings are passed by value: of an array in a struct that is lent the check does not know the length.
#[tactic(auto, using(numbers::proofs::Needed::few_registers))]
fn registers_sound(s: Settings, words: &[u64]) -> bool
    requires { (settings_fit s ≡ true) × ((registers_form s).wide ≤ length words.now) }
    ensures { result ≡ (both (registers_form s) (free (unused_width s))).test words.now }
{
    let mut all = true;
    let mut a = 0;
    for u in &s.usable[..s.registers as usize] {
        let e = a + starts::register_width(*u);
        all &= register_sound(*u, &words[a..e]);
        a = e;
    }
    all
}

// The book's three classes, one after the other, as the rules test them. A loop would go over classes and parts side by side, and its
// invariant would say which classes the parts left are of.
fn book_sound(vetted: &Vetted, book: &[u64]) -> bool
    requires { length book.now ≡ 3 * class_width vetted.now.s.shares }
    ensures { result ≡ (book_form vetted.now.s).test book.now }
{
    let shares = vetted.s.shares;
    let a = starts::class_width(shares);
    let b = 2 * a;
    let feeders = book_sound::class_sound(&book[0..a], shares, Class::Feeders);
    let peers = book_sound::class_sound(&book[a..b], shares, Class::Peers);
    let own = book_sound::class_sound(&book[b..], shares, Class::Own);
    feeders & (peers & own)
}

// What stands behind the front: the book, then the registers.
fn body_sound(vetted: &Vetted, body: &[u64]) -> bool
    requires { (book_form vetted.now.s).wide + (registers_form vetted.now.s).wide ≤ length body.now }
    ensures { result ≡ (both (book_form vetted.now.s) (both (registers_form vetted.now.s) (free (unused_width vetted.now.s)))).test body.now }
{
    let a = 3 * starts::class_width(vetted.s.shares);
    book_sound(vetted, &body[0..a]) && registers_sound(vetted.s, &body[a..])
}

// All words that the settings need are sound.
pub fn words_sound(vetted: &Vetted, words: &[u64]) -> bool
    requires { vetted.now.need ≤ length words.now }
    ensures { result ≡ sound vetted.now.s words.now }
{
    front_sound(vetted.s, &words[0..layout::FRONT])
        && body_sound(vetted, &words[layout::FRONT..vetted.need])
}
