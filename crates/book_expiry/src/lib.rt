// The expiry of one class of the share book, in the class's own part of the lent words: pairs with seconds before a given one
// go, a place that has none left goes too, and later places close up behind those kept.
#![tactic(auto)]

ghost use Rattle.std.specs.Prelude.{◌≤◌, get_or};
ghost use Rattle.model.specs.Numbers.{top32};
ghost use Rattle.model.specs.Book.{expire_class};
ghost use Rattle.book.specs.ClassRules.{ClassIs, ClassTurns};
ghost use Rattle.book_expiry.specs.Walks.{Standing, Steps, Walking, freed_to};

use book::place;
use book::totals::Totals;
use model::{Class, Second, Shares};
use numbers::units::Sums;
use numbers::{layout, starts};

// Drops the pairs before t from place i, and moves the place down behind those kept, if it still has pairs. Returns the sums of those
// kept from then on.
fn expire_place(
    part: &mut [u64],
    shares: Shares,
    class: Class,
    t: u64,
    i: usize,
    kept: Sums,
) -> Sums
    requires { Standing shares class t i kept part.old }
    ensures { Steps shares class t i kept part.old part.new result }
{
    let here = starts::place_extent(shares, i);
    let place = &mut part[here.start..here.end];
    if place::expire(place, t).pairs == 0 {
        return kept;
    }
    let more = kept.with_place(
        shares,
        class,
        place[layout::PLACE_ENTRIES],
        place[layout::PLACE_KIND],
    );
    let free = starts::place_start(shares, kept.holders as usize);
    part[free..here.end].copy_within(here.start - free.., 0);
    more
}

// Walks over the places in use, each once, and returns the sums of those kept. It goes by index: places move as it goes, over those that
// were seen, so that no iterator can lend them.
fn expire_places(part: &mut [u64], shares: Shares, class: Class, t: u64) -> Sums
    requires { ClassIs shares class part.old }
    ensures { Walking shares class t part.old (get_or part.old 1 0) result part.new }
{
    let mut kept = Sums::NONE;
    for i in 0..part[layout::CLASS_HOLDERS] as usize {
        kept = expire_place(part, shares, class, t, i, kept);
    }
    kept
}

// All places: what lies between those kept and the end of those in use is cleared, and the totals lose what is not kept.
// They are altered by `Totals::expire` alone, as a rule of the project asks.
fn expire_pairs(part: &mut [u64], shares: Shares, class: Class, t: u64)
    requires { ClassIs shares class part.old }
    ensures { ClassTurns shares class (freed_to t) (λ h. tt {0}) part.old part.new (tt {0}) }
{
    let mut totals = Totals::read(part);
    let kept = expire_places(part, shares, class, t);
    let start = starts::place_start(shares, kept.holders as usize);
    let end = starts::place_start(shares, totals.holders as usize);
    part[start..end].fill(0);
    let gone = Sums {
        entries: totals.entries - kept.entries,
        holders: totals.holders - kept.holders,
        units: totals.units - kept.units,
    };
    totals.expire(gone, t);
    totals.write(part);
}

// Expires a class up to a second. Where the clock stepped back by more than two seconds the class only takes note of it, and
// nothing is freed; where it has not moved on nothing happens; else the pairs before the second go.
pub fn expire(part: &mut [u64], shares: Shares, class: Class, t: Second)
    requires { ClassIs shares class part.old × (t.0 ≤ top32) }
    ensures { ClassTurns shares class (expire_class t.0) (λ h. tt {0}) part.old part.new (tt {0}) }
{
    let through = t.0;
    let mut totals = Totals::read(part);
    if (through + 2).min(Second::LAST) < totals.expired {
        totals.expire(Sums::NONE, through);
        totals.write(part);
    } else if totals.expired < through {
        expire_pairs(part, shares, class, through);
    }
}
