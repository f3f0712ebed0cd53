// One place: a deliverer, its entries and its pairs.
ghost use Rattle.std.specs.Prelude.{◌≡◌, ◌≤◌, length, get_or};
ghost use Rattle.model.specs.Widths.{place_head, place_width};
ghost use Rattle.model.specs.Class.{same_deliverer};
ghost use Rattle.model.specs.BookWords.{kind_sound as kind_rule, place_sound as place_rule, read_who, used_place};

use model::{Class, DelivererCode};
use numbers::bounds::MOST_ENTRIES;
use numbers::layout;

// A deliverer of that class, or a restored one, by its kind. It is the number in the words: until it has passed it may be no kind.
fn kind_sound(class: Class, kind: u64) -> bool
    ensures { result ≡ kind_rule class kind }
{
    kind == DelivererCode::RESTORED || kind == u64::from(class)
}

// A used place is sound: the cells of its pairs lie within it before they are read.
#[tactic(auto, using(crate::proofs::Placed::kind_bad, crate::proofs::Placed::pairs_none, crate::proofs::Placed::pairs_many, crate::proofs::Placed::place_room, crate::proofs::Placed::place_good, crate::proofs::Placed::place_bad))]
pub fn place_sound(place: &[u64], pairs: u64, class: Class) -> bool
    requires { (pairs ≤ 512) × (length place.now ≡ place_width pairs) }
    ensures { result ≡ place_rule class pairs place.now }
{
    if !kind_sound(class, place[layout::PLACE_KIND]) {
        return false;
    }
    let n = place[layout::PLACE_PAIRS];
    if n < 1 || pairs < n {
        return false;
    }
    let entries = place[layout::PLACE_ENTRIES];
    pairs::are_sound(&place[layout::PLACE_HEAD..], n as usize, entries) && entries <= MOST_ENTRIES
}

// A place is used if it has pairs.
#[tactic(auto, unfolding(model::specs::BookWords::used_place))]
pub fn in_use(place: &[u64]) -> bool
    requires { place_head ≤ length place.now }
    ensures { result ≡ used_place place.now }
{
    place[layout::PLACE_PAIRS] != 0
}

// Whether a place of a class has the deliverer of that code, which is read once for all places. A restored one has no number, nor has the
// class Own: so no derived `==` is it.
#[tactic(auto, using(crate::proofs::Whose::who_restored, crate::proofs::Whose::who_other, crate::proofs::Whose::who_numbered, crate::proofs::Whose::who_own))]
pub fn same_who(class: Class, code: DelivererCode, other: &[u64]) -> bool
    requires { place_head ≤ length other.now }
    ensures { result ≡ same_deliverer (read_who class code.kind code.number) (read_who class (get_or other.now 0 0) (get_or other.now 1 0)) }
{
    let other_kind = other[layout::PLACE_KIND];
    if code.kind == DelivererCode::RESTORED || other_kind == DelivererCode::RESTORED {
        return code.kind == other_kind;
    }
    match class {
        Class::Feeders | Class::Peers => code.number == other[layout::PLACE_NUMBER],
        Class::Own => true,
    }
}
