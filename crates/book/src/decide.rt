// The rules of a draw on numbers.
ghost use Rattle.std.specs.Prelude.{◌≡◌, ◌≤◌, is_ok};
ghost use Rattle.model.specs.Class.{class_of};
ghost use Rattle.model.specs.Book.{place_units, together, below_share, fair};
ghost use Rattle.book.specs.Rules.{room_by, decided};

use crate::front::Terms;
use crate::place::Seen;
use crate::totals::Totals;
use model::{Class, Deliverer, Draw, Limits, Shares};

// The units that a deliverer's place costs.
#[tactic(auto, unfolding(model::specs::Book::place_units))]
pub fn place_units(shares: Shares, who: Deliverer) -> u64
    ensures { result ≡ place_units shares who }
{
    match who {
        Deliverer::Feeder(_) => shares.feeder,
        Deliverer::Peer(_) | Deliverer::Restored(_) => shares.peer,
        Deliverer::Relay => 0,
    }
}

// The limit of a class.
#[tactic(auto, unfolding(model::specs::Book::together))]
fn class_limit(limits: Limits, class: Class) -> u64
    ensures { result ≡ together limits class }
{
    match class {
        Class::Feeders => limits.feeders,
        Class::Peers => limits.peers,
        Class::Own => limits.relay,
    }
}

// Whether a deliverer that holds n entries is below its own share.
#[tactic(auto, unfolding(model::specs::Book::below_share))]
fn below_share(limits: Limits, who: Deliverer, n: u64) -> bool
    ensures { result ≡ below_share limits who n }
{
    match who {
        Deliverer::Feeder(_) => n < limits.feeder,
        Deliverer::Peer(_) => n < limits.peer,
        Deliverer::Relay => n < limits.relay,
        Deliverer::Restored(_) => true,
    }
}

// Whether a deliverer may pass the class limit up to its equal part.
#[tactic(auto, unfolding(model::specs::Book::fair))]
fn is_fair(who: Deliverer) -> bool
    ensures { result ≡ fair who }
{
    matches!(who, Deliverer::Feeder(_) | Deliverer::Peer(_))
}

// Is a place free, and a pair? The answer is the model's `Draw`, whose rules name it, and no Result beside it.
#[tactic(auto, unfolding(crate::specs::Rules::room_by))]
pub fn room(shares: Shares, seen: Seen, holders: u64) -> Draw
    ensures { result ≡ room_by seen.entries holders shares.places (is_ok seen.pair) seen.pairs shares.pairs }
{
    if seen.entries == 0 && shares.places <= holders {
        Draw::Places
    } else if seen.pair.is_err() && shares.pairs <= seen.pairs {
        Draw::Pairs
    } else {
        Draw::Granted
    }
}

// The draw's rules in their order, for a deliverer that holds `held` entries. `own`, its units, and `after`, the class's totals, are
// counted with the draw.
#[tactic(auto, unfolding(crate::specs::Rules::decided))]
pub fn judge(terms: Terms, who: Deliverer, held: u64, own: u64, after: Totals, room: Draw) -> Draw
    requires { (1 ≤ after.holders) × (together terms.limits (class_of who) ≤ 1_000_000) }
    ensures { result ≡ decided terms.limits terms.closed who held own after.holders after.units room }
{
    if terms.closed {
        return Draw::Closed;
    }
    if !below_share(terms.limits, who, held) {
        return Draw::OwnShare;
    }
    let t = class_limit(terms.limits, Class::from(who));
    if after.units <= t {
        return room;
    }
    if !is_fair(who) {
        return Draw::ClassLimit;
    }
    if t / after.holders < own {
        return Draw::EqualPart;
    }
    if 2 * t < after.units {
        return Draw::TwiceLimit;
    }
    room
}
