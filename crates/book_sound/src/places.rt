// The places of a class, tested and added up in one pass.
ghost use Rattle.std.specs.Prelude.{◌≡◌, ◌&&◌};
ghost use Rattle.runs.specs.Words.{zeros};
ghost use Rattle.numbers.specs.Sums.{no_sums};
ghost use Rattle.book_sound.specs.PlaceAt.{Within, places_in, test_in, agreeing, totals_rule};

use crate::place;
use model::{Class, Shares};
use numbers::bounds::MOST_ENTRIES;
use numbers::units::Sums;
use numbers::{layout, starts};

// What is left is 0, and the sums are in bounds and are the totals.
fn agree(left: &[u64], sums: Sums, totals: Sums) -> bool
    ensures { result ≡ (zeros left.now && agreeing totals sums) }
{
    runs::zeros_only(left) && (sums.entries <= MOST_ENTRIES && totals == sums)
}

// Used places come first and are sound, unused ones are 0, and the three totals are the sums. A place that passed has at most
// 2,000,000 entries, so that no sum of 64 places wraps.
pub fn places_sound(body: &[u64], shares: Shares, class: Class, totals: Sums) -> bool
    requires { Within shares body.now }
    ensures { result ≡ (test_in shares class body.now && totals_rule shares totals no_sums (places_in shares class body.now)) }
{
    let width = starts::place_width(shares);
    let mut sums = Sums::NONE;
    // The words that the iterator has left, which it does not lend.
    let mut left = body;
    for place in body.chunks_exact(width) {
        if !place::in_use(place) {
            return agree(left, sums, totals);
        }
        if !place::place_sound(place, shares.pairs, class) {
            return false;
        }
        sums = sums.with_place(
            shares,
            class,
            place[layout::PLACE_ENTRIES],
            place[layout::PLACE_KIND],
        );
        left = &left[width..];
    }
    agree(left, sums, totals)
}
