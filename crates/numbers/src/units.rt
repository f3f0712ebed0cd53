// The units that the limits of the share book count: one for each entry, and some for each place. And what places add up to.
ghost use Rattle.std.specs.Prelude.{◌≡◌, ℕ, ◌≤◌};
ghost use Rattle.model.specs.Book.{place_units};
ghost use Rattle.model.specs.BookWords.{most_entries, read_who};
ghost use Rattle.numbers.specs.Sums.{with_place};

use model::{Class, DelivererCode, Shares};

// The units that a place costs, by its class and its kind word, as it lies in the place: a deliverer would have to be read first.
// The deliverer's number has no part in it.
#[tactic(auto, unfolding(model::specs::Book::place_units))]
fn units_of(shares: Shares, class: Class, kind: u64) -> u64
    requires { (shares.feeder ≤ 4_096) × (shares.peer ≤ 4_096) }
    ensures { (result ≤ 4_096) × ((number : ℕ) → result ≡ place_units shares (read_who class kind number)) }
{
    match class {
        _ if kind == DelivererCode::RESTORED => shares.peer,
        Class::Feeders => shares.feeder,
        Class::Peers => shares.peer,
        Class::Own => 0,
    }
}

// What places of a class add up to: their entries, how many they are, and their units.
#[derive(Clone, Copy, PartialEq, Eq)]
pub struct Sums {
    pub entries: u64,
    pub holders: u64,
    pub units: u64,
}

impl Sums {
    // The sums of no places: a constant and no `Default`, so that a loop which starts with it is known to start with zeros.
    pub const NONE: Sums = Sums {
        entries: 0,
        holders: 0,
        units: 0,
    };

    // Returns the sums with one place more, by its entries and its kind word: the place itself would need a clause on its length.
    // The bounds are those of 64 places of the most entries.
    pub fn with_place(self, shares: Shares, class: Class, entries: u64, kind: u64) -> Sums
        requires { (shares.feeder ≤ 4_096) × (shares.peer ≤ 4_096) × (entries ≤ most_entries) × (self.entries ≤ 128_000_000) × (self.holders ≤ 64) × (self.units ≤ 128_262_144) }
        ensures { (number : ℕ) → result ≡ with_place shares (read_who class kind number) entries self }
    {
        Sums {
            entries: self.entries + entries,
            holders: self.holders + 1,
            units: self.units + entries + units_of(shares, class, kind),
        }
    }
}
