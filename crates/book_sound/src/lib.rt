// The soundness test of one class of the share book, for any content. A class is its totals and P places;
// nothing is believed of them before it is tested, and no sum can wrap.
#![tactic(auto)]

ghost use Rattle.std.specs.Prelude.{◌≡◌, true, length};
ghost use Rattle.model.specs.Settings.{shares_fit};
ghost use Rattle.model.specs.BookWords.{class_form};
ghost use Rattle.model.specs.Words.{class_width};

use model::{Class, Second, Shares};
use numbers::layout;
use numbers::units::Sums;

mod apart;
mod place;
mod places;

// The words of a class are sound: used places first and each sound, zeros after them, deliverers distinct, `expired` 32-bit, and
// the three totals are the sums.
#[tactic(auto, using(crate::proofs::Classes::few_of, crate::proofs::Classes::body_within, crate::proofs::Classes::class_unsummed, crate::proofs::Classes::class_twice, crate::proofs::Classes::class_summed))]
pub fn class_sound(part: &[u64], shares: Shares, class: Class) -> bool
    requires { (shares_fit shares ≡ true) × (length part.now ≡ class_width shares) }
    ensures { result ≡ (class_form shares class).test part.now }
{
    let totals = Sums {
        entries: part[layout::CLASS_ENTRIES],
        holders: part[layout::CLASS_HOLDERS],
        units: part[layout::CLASS_UNITS],
    };
    let body = &part[layout::CLASS_HEAD..];
    places::places_sound(body, shares, class, totals)
        && (apart::distinct(body, shares, class) && part[layout::CLASS_EXPIRED] <= Second::LAST)
}
