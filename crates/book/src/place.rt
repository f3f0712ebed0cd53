// One place: the kind and number of its deliverer, its entries, how many pairs it has, then the cells of E pairs. `Wide` is a fact in
// contracts and no type: most functions here change the words, and a type for the readers alone would be a second form beside theirs.
ghost use Rattle.std.specs.Prelude.{◌+◌, ◌≤◌, ◌<◌, ◌≡◌, length, get_or};
ghost use Rattle.runs.specs.Turns.{Is, Turns};
ghost use Rattle.model.specs.Widths.{place_head, place_width};
ghost use Rattle.model.specs.Class.{kind_of};
ghost use Rattle.model.specs.Book.{total};
ghost use Rattle.model.specs.BookWords.{number_word, encode_place, most_entries};
ghost use Rattle.pairs.specs.Pairs.{count_at};
ghost use Rattle.book.specs.Rules.{names_by};
ghost use Rattle.book.specs.PlaceRules.{Wide, pairs_in, seen_in, Has, Single, Fits, Summed, raised_place, lowered_place, shorter_place, longer_place, later_place, left_of, opened_words};

use model::{Deliverer, DelivererCode};
use numbers::layout;

// The code of a place's deliverer.
pub(crate) fn code_of(place: &[u64]) -> DelivererCode
    requires { place_head ≤ length place.now }
    ensures { result ≡ record { kind = get_or place.now 0 0; number = get_or place.now 1 0 } }
{
    DelivererCode {
        kind: place[layout::PLACE_KIND],
        number: place[layout::PLACE_NUMBER],
    }
}

// Whether the code in a place is that of a deliverer of its class: Relay and Restored have one place each. It is compared as it lies in
// the words, where it may be of no deliverer at all.
pub fn names(who: Deliverer, code: DelivererCode) -> bool
    ensures { result ≡ names_by who code.kind code.number }
{
    let DelivererCode { kind, number } = code;
    match who {
        Deliverer::Feeder(id) => kind == DelivererCode::FEEDER && number == id,
        Deliverer::Peer(id) => kind == DelivererCode::PEER && number == id,
        Deliverer::Relay => kind == DelivererCode::RELAY,
        Deliverer::Restored(_) => kind == DelivererCode::RESTORED,
    }
}

// The code of a deliverer in a new place: the number is 0 where the deliverer has none. A host's code of a restored one has its class there.
#[tactic(auto, unfolding(model::specs::Class::kind_of))]
fn new_code(who: Deliverer) -> DelivererCode
    ensures { result ≡ record { kind = kind_of who; number = number_word who 0 } }
{
    let (kind, number) = match who {
        Deliverer::Feeder(id) => (DelivererCode::FEEDER, id),
        Deliverer::Peer(id) => (DelivererCode::PEER, id),
        Deliverer::Relay => (DelivererCode::RELAY, 0),
        Deliverer::Restored(_) => (DelivererCode::RESTORED, 0),
    };
    DelivererCode { kind, number }
}

// What a place says of a second: its entries and pairs, and the pair of the second, `Ok` of its index where it is listed, or `Err`
// of where it would come.
#[derive(Clone, Copy)]
pub struct Seen {
    pub entries: u64,
    pub pairs: u64,
    pub pair: Result<usize, usize>,
}

// What there is to see where a deliverer has no place.
pub const NOTHING: Seen = Seen {
    entries: 0,
    pairs: 0,
    pair: Err(0),
};

// Looks a second up: one walk over the pairs.
pub fn look(place: &[u64], second: u64) -> Seen
    requires { Wide place.now }
    ensures { result ≡ seen_in second place.now }
{
    let n = place[layout::PLACE_PAIRS] as usize;
    let passed = pairs::earlier(&place[layout::PLACE_HEAD..], n, second);
    let k = passed.pairs;
    let listed = pairs::has_second(&place[layout::PLACE_HEAD..], n, k, second);
    Seen {
        entries: place[layout::PLACE_ENTRIES],
        pairs: place[layout::PLACE_PAIRS],
        pair: if listed { Ok(k) } else { Err(k) },
    }
}

// A new place: one entry at its second.
pub fn open(place: &mut [u64], who: Deliverer, second: u64)
    requires { place_width 1 ≤ length place.old }
    ensures { place.new ≡ opened_words who second place.old }
{
    let code = new_code(who);
    place[layout::PLACE_KIND] = code.kind;
    place[layout::PLACE_NUMBER] = code.number;
    place[layout::PLACE_ENTRIES] = 1;
    place[layout::PLACE_PAIRS] = 1;
    pairs::insert(&mut place[layout::PLACE_HEAD..], 0, 0, second);
}

// One entry more at pair k.
#[tactic(auto, using(crate::proofs::PlaceTurns::place_raises, crate::proofs::PlaceTurns::count_word))]
pub fn raise(place: &mut [u64], k: usize)
    requires { Wide place.old × (k < get_or place.old 3 0) × (count_at k (pairs_in place.old) ≤ most_entries) × Is encode_place (Has k) place.old }
    ensures { Turns encode_place (Has k) (raised_place k) (λ p. tt {0}) place.old place.new (tt {0}) }
{
    pairs::raise(&mut place[layout::PLACE_HEAD..], k);
    place[layout::PLACE_ENTRIES] += 1;
}

// A pair of one entry comes before pair k.
pub fn insert(place: &mut [u64], k: usize, second: u64)
    requires { Wide place.old × (k ≤ get_or place.old 3 0) × (place_width (get_or place.old 3 0 + 1) ≤ length place.old) × Is encode_place (Fits k) place.old }
    ensures { Turns encode_place (Fits k) (longer_place k second) (λ p. tt {0}) place.old place.new (tt {0}) }
{
    let n = place[layout::PLACE_PAIRS] as usize;
    pairs::insert(&mut place[layout::PLACE_HEAD..], n, k, second);
    place[layout::PLACE_ENTRIES] += 1;
    place[layout::PLACE_PAIRS] += 1;
}

// The count of pair k.
pub fn count(place: &[u64], k: usize) -> u64
    requires { Wide place.now × (k < get_or place.now 3 0) }
    ensures { result ≡ count_at k (pairs_in place.now) }
{
    pairs::count(&place[layout::PLACE_HEAD..], k)
}

// One entry less at pair k.
#[tactic(auto, using(crate::proofs::PlaceTurns::place_lowers, crate::proofs::PlaceTurns::count_word))]
pub fn lower(place: &mut [u64], k: usize)
    requires { Wide place.old × (k < get_or place.old 3 0) × (1 ≤ count_at k (pairs_in place.old)) × (1 ≤ get_or place.old 2 0) × Is encode_place (Has k) place.old }
    ensures { Turns encode_place (Has k) (lowered_place k) (λ p. tt {0}) place.old place.new (tt {0}) }
{
    pairs::lower(&mut place[layout::PLACE_HEAD..], k);
    place[layout::PLACE_ENTRIES] -= 1;
}

// Pair k, of one entry, goes.
#[tactic(auto, using(crate::proofs::PlaceTurns::place_removes, crate::proofs::PlaceTurns::pairs_kept, crate::proofs::PlaceTurns::entries_kept))]
pub fn remove(place: &mut [u64], k: usize)
    requires { Wide place.old × (k < get_or place.old 3 0) × (1 ≤ get_or place.old 2 0) × Is encode_place (Single k) place.old }
    ensures { Turns encode_place (Single k) (shorter_place k) (λ p. tt {0}) place.old place.new (tt {0}) }
{
    let n = place[layout::PLACE_PAIRS] as usize;
    pairs::remove(&mut place[layout::PLACE_HEAD..], n, k, 1);
    place[layout::PLACE_ENTRIES] -= 1;
    place[layout::PLACE_PAIRS] -= 1;
}

// What an expiry leaves of a place, and the entries that went, which is a promise of `expire`. No pairs is a count as any other, and no
// refusal.
#[derive(Clone, Copy)]
pub struct Left {
    pub pairs: usize,
    pub gone: u64,
}

// The pairs before a second go: one walk over the pairs that go, and the others move down.
#[tactic(auto, using(crate::proofs::PlaceTurns::place_expires, crate::proofs::PlaceTurns::entries_kept, crate::proofs::PlaceTurns::tail_long, crate::proofs::PlaceTurns::went))]
pub fn expire(place: &mut [u64], t: u64) -> Left
    requires { Wide place.old × (total (pairs_in place.old) ≡ get_or place.old 2 0) × Is encode_place Summed place.old }
    ensures { Turns encode_place Summed (later_place t) (left_of t) place.old place.new result }
{
    let n = place[layout::PLACE_PAIRS] as usize;
    let passed = pairs::earlier(&place[layout::PLACE_HEAD..], n, t);
    pairs::remove(&mut place[layout::PLACE_HEAD..], n, 0, passed.pairs);
    let left = n - passed.pairs;
    place[layout::PLACE_ENTRIES] -= passed.entries;
    place[layout::PLACE_PAIRS] = left as u64;
    Left {
        pairs: left,
        gone: passed.entries,
    }
}
