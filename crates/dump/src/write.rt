// Writing a dump.
ghost use Rattle.std.specs.Prelude.{◌≡◌, ℕ, List};
ghost use Rattle.model.specs.Widths.{generation_width};
ghost use Rattle.dump.specs.Bytes.{Fits, Puts};
ghost use Rattle.dump.specs.Parts.{part_words, part_length, count_before, register_words, register_long};

use crate::held::{Counted, Generations, Held, Rings, Shown, add_up};
use crate::output::{Element, Output};
use generation::Generation;
use numbers::layout;
use register::heading;

// What a dump holds of a register: before a class's generations how many are held, and of each its bucket, its newest stamp, how
// many fingerprints it holds, and those.
pub struct Dumped;

impl Shown for Dumped {
    ghost head = { count_before };

    ghost of_part = { part_words };

    fn put_head<E: Element>(out: &mut Output<'_, E>, ring: Generations<'_>) {
        out.put(add_up::<Held>(ring) as u64);
    }

    fn put_generation<E: Element>(out: &mut Output<'_, E>, part: &[u64]) {
        let head = Generation::of(part);
        if head.held == 0 {
            return;
        }
        out.put_all(&[head.bucket, head.newest, head.held]);
        let end = (head.slots as usize) + Generation::HEAD;
        out.put_prints(&part[Generation::HEAD..end]);
    }
}

// How many words a generation takes.
impl Counted for Dumped {
    ghost counted = { part_length };

    #[tactic(auto, unfolding(crate::specs::Parts::part_length))]
    fn count(part: &[u64]) -> usize {
        let held = part[Generation::HELD] as usize;
        if held == 0 { 0 } else { held + 3 }
    }
}

// How many bytes the dump of a register has.
#[tactic(auto, unfolding(crate::specs::Parts::register_long))]
pub fn dump_length(rings: Rings<'_>) -> usize
    ensures { result ≡ register_long (generation_width rings.entry.shape.slots) rings.entry.words.now }
{
    let all = Generations {
        words: &rings.words[layout::HEADING..],
        shape: rings.shape,
    };
    8 * (4 + add_up::<Dumped>(all))
}

// Writes the dump of a register. The word that tells the floor is 0 where there is none, else one more than it, at most 2^64 − 1.
pub fn put_dump(out: &mut Output<'_, u8>, rings: Rings<'_>)
    requires { Fits out.old.at (register_words (generation_width rings.shape.slots) rings.shape.ring rings.words.now) out.old.out.now }
    ensures same { out.new.out.ghost_name ≡ out.old.out.ghost_name }
    ensures puts { Puts out.old.at (register_words (generation_width rings.entry.shape.slots) rings.entry.shape.ring rings.entry.words.now) out.old.out.now out.new.out.now out.new.at }
{
    out.put(heading::floor(rings.words).map_or(0, |floor| floor.saturating_add(1)));
    rings.show::<Dumped, u8>(out);
}
