// A deliverer's view, from its class's own part of the lent words: of each of its pairs, seconds rising, the second and the count,
// and then its entries. A deliverer without a place has no pairs and 0 entries. How pairs lie in words is for `pairs` to know.
#![tactic(auto)]

ghost use Rattle.std.specs.Prelude.{◌≡◌, ◌+◌, ◌*◌, ◌≤◌, length, get_or};
ghost use Rattle.model.specs.Class.{class_of};
ghost use Rattle.book.specs.PlaceRules.{Wide};
ghost use Rattle.book.specs.ClassRules.{ClassIs, ClassReads};
ghost use Rattle.book_view.specs.Views.{places_view, place_view, Writes, HoldsView, ViewsPlaces};

use model::{Deliverer, Shares};
use numbers::{layout, starts};

// The words that one pair takes.
const EACH: usize = 2;

// How many words a place's view has.
#[tactic(auto, using(crate::proofs::Viewed::place_counted))]
fn place_length(place: &[u64]) -> usize
    requires { Wide place.now }
    ensures { result ≡ length (place_view place.now) }
{
    EACH * (place[layout::PLACE_PAIRS] as usize) + 1
}

// A place by its own words: its pairs, and behind them its entries.
fn put_place(out: &mut [u64], place: &[u64]) -> usize
    requires { Wide place.now × (2 * get_or place.now 3 0 + 1 ≤ length out.old) }
    ensures { Writes (place_view place.now) out.old out.new result }
{
    let n = place[layout::PLACE_PAIRS] as usize;
    pairs::list(&place[layout::PLACE_HEAD..], n, out);
    let end = EACH * n;
    out[end] = place[layout::PLACE_ENTRIES];
    end + 1
}

// How many words the view has.
pub fn view_length(part: &[u64], shares: Shares, who: Deliverer) -> usize
    requires { ClassIs shares (class_of who) part.now }
    ensures { ClassReads shares (class_of who) (λ h. length (places_view who h.places)) part.now result }
{
    let Some(at) = book::find_place(part, shares, who) else {
        return 1;
    };
    place_length(&part[starts::place_extent(shares, at)])
}

// Writes it at the start of an output that is long enough, leaves what lies behind it, and answers how many words it has.
pub fn view(out: &mut [u64], part: &[u64], shares: Shares, who: Deliverer) -> usize
    requires { ClassIs shares (class_of who) part.now × HoldsView shares who part.now out.old }
    ensures { ViewsPlaces shares who part.now out.old out.new result }
{
    let Some(at) = book::find_place(part, shares, who) else {
        out[0] = 0;
        return 1;
    };
    put_place(out, &part[starts::place_extent(shares, at)])
}
