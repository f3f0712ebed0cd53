// A class's totals: the first words of the class's part. A draw, a return and an expiry alter them by `take`, `untake` and `expire`,
// to which they are lent: a rule of the project names this form.
ghost use Rattle.std.specs.Prelude.{◌≡◌, ◌≤◌, ◌∷◌, length, drop};
ghost use Rattle.book.specs.Sums.{totals_in, taken, taken_with, untaken, untaken_with, expired_to, CanTake, CanTakeWith, CanUntake, CanUntakeWith, CanExpire};
ghost use Rattle.model.specs.Widths.{class_head};

use numbers::layout;
use numbers::units::Sums;

// The first three are the sums of the places; as fields here, since callers read them one by one.
#[derive(Clone, Copy)]
pub struct Totals {
    pub entries: u64,
    pub holders: u64,
    pub units: u64,
    pub expired: u64,
}

impl Totals {
    // The totals of a class.
    pub fn read(part: &[u64]) -> Totals
        requires { class_head ≤ length part.now }
        ensures { result ≡ totals_in part.now }
    {
        Totals {
            entries: part[layout::CLASS_ENTRIES],
            holders: part[layout::CLASS_HOLDERS],
            units: part[layout::CLASS_UNITS],
            expired: part[layout::CLASS_EXPIRED],
        }
    }

    // Stores the totals of a class.
    pub fn write(self, part: &mut [u64])
        requires { class_head ≤ length part.old }
        ensures { part.new ≡ self.entries ∷ self.holders ∷ self.units ∷ self.expired ∷ drop class_head part.old }
    {
        part[layout::CLASS_ENTRIES] = self.entries;
        part[layout::CLASS_HOLDERS] = self.holders;
        part[layout::CLASS_UNITS] = self.units;
        part[layout::CLASS_EXPIRED] = self.expired;
    }

    // A draw's entry is added, with so many places that open, one at most, and their units.
    pub fn take_with(&mut self, first: u64, place: u64)
        requires { CanTakeWith self.old first place }
        ensures { self.new ≡ taken_with self.old first place }
    {
        self.entries += 1;
        self.holders += first;
        self.units += 1 + place;
    }

    // The same, and its deliverer's place where that opens: `opened` has the place's units.
    pub fn take(&mut self, opened: Option<u64>)
        requires { CanTake self.old opened }
        ensures { self.new ≡ taken self.old opened }
    {
        match opened {
            Some(place) => self.take_with(1, place),
            None => self.take_with(0, 0),
        }
    }

    // An entry that is given back is taken off, with so many places that close, and their units.
    pub fn untake_with(&mut self, gone: u64, place: u64)
        requires { CanUntakeWith self.old gone place }
        ensures { self.new ≡ untaken_with self.old gone place }
    {
        self.entries -= 1;
        self.holders -= gone;
        self.units -= 1;
        self.units -= place;
    }

    // The same, and its deliverer's place where that closes: `closed` has the place's units.
    pub fn untake(&mut self, closed: Option<u64>)
        requires { CanUntake self.old closed }
        ensures { self.new ≡ untaken self.old closed }
    {
        match closed {
            Some(place) => self.untake_with(1, place),
            None => self.untake_with(0, 0),
        }
    }

    // What has expired up to a second is taken off.
    pub fn expire(&mut self, gone: Sums, through: u64)
        requires { CanExpire self.old gone }
        ensures { self.new ≡ expired_to self.old gone through }
    {
        self.entries -= gone.entries;
        self.holders -= gone.holders;
        self.units -= gone.units;
        self.expired = through;
    }
}
