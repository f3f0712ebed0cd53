// Deliverers of a class are distinct.
ghost use Rattle.std.specs.Prelude.{◌≡◌};
ghost use Rattle.model.specs.BookWords.{read_who, has_place, distinct as distinct_rule};
ghost use Rattle.book_sound.specs.PlaceAt.{Few, places_in};

use crate::place;
use model::{Class, DelivererCode, Shares};
use numbers::{layout, starts};

// Whether one of the used places has that deliverer, a code as it lies in the words.
fn has_who(places: &[u64], shares: Shares, class: Class, code: DelivererCode) -> bool
    requires { Few shares }
    ensures { result ≡ has_place (read_who class code.kind code.number) (places_in shares class places.now) }
{
    for other in places.chunks_exact(starts::place_width(shares)) {
        if !place::in_use(other) {
            return false;
        }
        if place::same_who(class, code, other) {
            return true;
        }
    }
    false
}

// Each used place has a deliverer that no later one has.
pub fn distinct(body: &[u64], shares: Shares, class: Class) -> bool
    requires { Few shares }
    ensures { result ≡ distinct_rule (places_in shares class body.now) }
{
    let width = starts::place_width(shares);
    // The words that the iterator has left, which it does not lend.
    let mut later = body;
    for place in body.chunks_exact(width) {
        later = &later[width..];
        if !place::in_use(place) {
            return true;
        }
        let code = DelivererCode {
            kind: place[layout::PLACE_KIND],
            number: place[layout::PLACE_NUMBER],
        };
        if has_who(later, shares, class, code) {
            return false;
        }
    }
    true
}
