// The share book of one class, in its own part of the lent words: entries, holders, units and `expired`, then P places, each its
// head and E pairs, in order of arrival. A draw is a search, a reading test that says why not, and a step that enters. `ClassIs` is a
// fact in contracts and no type: draws and returns change the words, so a type would have to say it before and after each of them.
#![tactic(auto)]

pub mod decide;
pub mod front;
pub mod place;
pub mod totals;

ghost use Rattle.std.specs.Prelude.{◌+◌, ◌≤◌, ◌<◌, ◌≡◌, true, length};
ghost use Rattle.model.specs.declared.Shares.{Shares};
ghost use Rattle.model.specs.declared.Class.{Class};
ghost use Rattle.model.specs.Widths.{class_head};
ghost use Rattle.model.specs.Settings.{limits_fit};
ghost use Rattle.model.specs.Class.{class_of};
ghost use Rattle.model.specs.Book.{draw_test, enter, give_back, entries_of};
ghost use Rattle.book.specs.Sums.{totals_in, totals_of};
ghost use Rattle.book.specs.ClassRules.{ClassIs, ClassReads, ClassTurns, place_of, spot_of, Found, Roomy, Listed, BodyTurns, entered, drawn_class, returned};

use front::Terms;
use model::{Class, Deliverer, Draw, Second, Shares};
use numbers::{layout, starts};
use place::Seen;
use runs::moves;
use totals::Totals;

// What a class holds of one deliverer and one second: the deliverer's place (the first unused one where it has none), and what
// that place says of the second. The place is a bare index and no Result: a step takes the index in either case, and a return, whose
// deliverer has a place, would meet an `Err` that cannot be. What the rules ask for is the entries, 0 where there is no place.
#[derive(Clone, Copy)]
pub struct Spot {
    pub second: u64,
    pub place: usize,
    pub seen: Seen,
}

// The place of a deliverer, where it has one: one walk over the places in use.
pub fn find_place(part: &[u64], shares: Shares, who: Deliverer) -> Option<usize>
    requires { ClassIs shares (class_of who) part.now }
    ensures { ClassReads shares (class_of who) (λ h. place_of who h.places) part.now result }
{
    let used = starts::place_start(shares, part[layout::CLASS_HOLDERS] as usize);
    part[layout::CLASS_HEAD..used]
        .chunks_exact(starts::place_width(shares))
        .position(|place| place::names(who, place::code_of(place)))
}

// Looks a deliverer and a second up: one walk over the class's places, and one over the pairs of the deliverer's place.
pub fn find(part: &[u64], shares: Shares, who: Deliverer, second: Second) -> Spot
    requires { ClassIs shares (class_of who) part.now }
    ensures { ClassReads shares (class_of who) (λ h. spot_of who second.0 h.places) part.now result }
{
    let Some(at) = find_place(part, shares, who) else {
        return Spot {
            second: second.0,
            place: part[layout::CLASS_HOLDERS] as usize,
            seen: place::NOTHING,
        };
    };
    let place = &part[starts::place_extent(shares, at)];
    Spot {
        second: second.0,
        place: at,
        seen: place::look(place, second.0),
    }
}

// May the deliverer draw? The first rule that stands against it, or Granted.
pub fn draw(part: &[u64], shares: Shares, terms: Terms, who: Deliverer, spot: Spot) -> Draw
    requires { Found shares who part.now spot × (limits_fit terms.limits ≡ true) }
    ensures { ClassReads shares (class_of who) (λ h. draw_test shares terms.limits terms.closed who spot.second h.places) part.now result }
{
    let held = spot.seen.entries;
    let place = decide::place_units(shares, who);
    let mut totals = Totals::read(part);
    let room = decide::room(shares, spot.seen, totals.holders);
    // From here on they are what the draw would leave.
    totals.take((held == 0).then_some(place));
    decide::judge(terms, who, held, held + 1 + place, totals, room)
}

// A draw's entry in the words of the places: in the deliverer's place, or in a new one after the others.
fn enter_place(part: &mut [u64], shares: Shares, who: Deliverer, spot: Spot)
    requires { Roomy shares who part.old spot }
    ensures { BodyTurns shares (class_of who) (enter shares who spot.second) part.old part.new }
{
    let place = &mut part[starts::place_extent(shares, spot.place)];
    if spot.seen.entries == 0 {
        place::open(place, who, spot.second);
        return;
    }
    match spot.seen.pair {
        Ok(k) => place::raise(place, k),
        Err(k) => place::insert(place, k, spot.second),
    }
}

// Enters a draw at its second, in the deliverer's place or in a new one after the others.
pub fn enter(part: &mut [u64], shares: Shares, who: Deliverer, spot: Spot)
    requires { Roomy shares who part.old spot }
    ensures { ClassTurns shares (class_of who) (entered shares who spot.second) (λ h. tt {0}) part.old part.new (tt {0}) }
{
    let place = decide::place_units(shares, who);
    let mut totals = Totals::read(part);
    totals.take((spot.seen.entries == 0).then_some(place));
    enter_place(part, shares, who, spot);
    totals.write(part);
}

// A draw: looked up once, tested, and entered where it is granted.
pub fn take(part: &mut [u64], shares: Shares, terms: Terms, who: Deliverer, second: Second) -> Draw
    requires { ClassIs shares (class_of who) part.old × (limits_fit terms.limits ≡ true) }
    ensures { ClassTurns shares (class_of who) (drawn_class shares terms.limits terms.closed who second.0)
        (λ h. draw_test shares terms.limits terms.closed who second.0 h.places) part.old part.new result }
{
    let spot = find(part, shares, who, second);
    let answer = draw(part, shares, terms, who, spot);
    if let Draw::Granted = answer {
        enter(part, shares, who, spot);
    }
    answer
}

// The entries that a deliverer holds.
pub fn held_by(part: &[u64], shares: Shares, who: Deliverer) -> u64
    requires { ClassIs shares (class_of who) part.now }
    ensures { ClassReads shares (class_of who) (λ h. entries_of who h.places) part.now result }
{
    match find_place(part, shares, who) {
        Some(at) => part[starts::place_start(shares, at) + layout::PLACE_ENTRIES],
        None => 0,
    }
}

// The totals of a class: entries, holders, units and `expired`. It is `Totals::read` with the rules' reading beside it.
pub fn held_of(part: &[u64]) -> Totals
    requires { class_head ≤ length part.now }
    ensures value { result ≡ totals_in part.now }
    ensures class_reads { (b : Shares) (c : Class) → ClassReads b c (totals_of b) part.now result }
{
    Totals::read(part)
}

// A return of pair k in the words of the places: the deliverer's last entry takes its place along, and later places close up.
fn return_place(part: &mut [u64], shares: Shares, who: Deliverer, spot: Spot, k: usize)
    requires { Listed shares who part.old spot k }
    ensures { BodyTurns shares (class_of who) (give_back who spot.second) part.old part.new }
{
    let here = starts::place_extent(shares, spot.place);
    if spot.seen.entries == 1 {
        let used = starts::place_start(shares, part[layout::CLASS_HOLDERS] as usize);
        moves::close_up(&mut part[here.start..used], starts::place_width(shares));
        return;
    }
    let place = &mut part[here];
    if place::count(place, k) == 1 {
        place::remove(place, k);
    } else {
        place::lower(place, k);
    }
}

// Gives a draw back: its pair is lowered, a pair at 0 goes, and so does an empty place.
pub fn untake(part: &mut [u64], shares: Shares, who: Deliverer, second: Second)
    requires { ClassIs shares (class_of who) part.old }
    ensures { ClassTurns shares (class_of who) (returned who second.0) (λ h. tt {0}) part.old part.new (tt {0}) }
{
    let spot = find(part, shares, who, second);
    let Ok(k) = spot.seen.pair else {
        return;
    };
    let place = decide::place_units(shares, who);
    let mut totals = Totals::read(part);
    totals.untake((spot.seen.entries == 1).then_some(place));
    return_place(part, shares, who, spot, k);
    totals.write(part);
}
