// The soundness test of one generation's words, whatever they are.
ghost use Rattle.std.specs.Prelude.{◌≡◌, cond, ◌-◌, ◌≤◌, ◌<◌, eqb, length, get_or};
ghost use Rattle.std.specs.Int.Bits.{bit_and};
ghost use Rattle.model.specs.Widths.{generation_head};
ghost use Rattle.model.specs.Generation.{next};
ghost use Rattle.model.specs.GenerationWords.{slots_sound, filled_sound, generation_sound};
ghost use Rattle.model.specs.Most.{generation_most};
ghost use Rattle.generation.specs.Reach.{near};

use crate::slots::masked_slot;
use crate::{Generation, crowded, live};
use numbers::bounds;

// 1 for a number that is not 0, as of a slot that is held or of how many a generation holds, else 0.
pub fn one_if_held(word: u64) -> u64
    ensures { result ≡ cond (eqb word 0) 0 1 }
{
    u64::from(word != 0)
}

// The slot after i, round the end.
fn next_slot(i: usize, n: usize) -> usize
    requires { i < n }
    ensures { result ≡ next n i }
{
    if i + 1 == n { 0 } else { i + 1 }
}

// Slot i, whose word this is, is empty, or probing for its fingerprint ends there within so many steps. Slots are compared by their
// numbers: most fingerprints lie where probing for them starts, and are known to without a look at another slot. It counts round the
// end: as two ranges, like those of `find`, it would count its steps twice.
fn is_near(slots: &[u64], i: usize, word: u64, steps: usize) -> bool
    requires { (i < length slots.now) × ((word ≡ get_or slots.now i 0) × (bit_and (length slots.now) (length slots.now - 1) ≡ 0)) }
    ensures { result ≡ near slots.now i word steps }
{
    if word == 0 {
        return true;
    }
    let n = slots.len();
    let mut j = masked_slot(word, n);
    for _ in 0..steps {
        if j == i {
            return true;
        }
        let other = slots[j];
        if (other == word) | (other == 0) {
            return false;
        }
        j = next_slot(j, n);
    }
    false
}

// The steps that probing for one fingerprint may take. With hashes they are nearly always enough: of generations that hold three
// quarters of 1,024 slots one or two in a thousand have a fingerprint that lies further on.
const STEPS: usize = 128;

// Every slot is reached, and as many are held as the generation says. Probing shows it where each slot is near. Where one is not,
// as with fingerprints that were chosen to start at one slot, all slots are tested in another way: to follow the probing for each
// to its end would take steps by the square of the slots. So are slots that are no power of two, of which a sound generation has
// none: then the first slot of each is a mask. The power of two is tested by the mask itself, as in `first_slot`.
fn slots_sound(slots: &[u64], held: u64) -> bool
    requires { (0 < length slots.now) × (length slots.now ≤ 1024) }
    ensures { result ≡ slots_sound slots.now held }
{
    let size = slots.len() as u64;
    let last = size - 1;
    if size & last != 0 {
        return crowded::slots_sound(slots, held);
    }
    let steps = slots.len().min(STEPS);
    let mut n = 0u64;
    for (i, word) in slots.iter().enumerate() {
        if !is_near(slots, i, *word, steps) {
            return crowded::slots_sound(slots, held);
        }
        n += one_if_held(*word);
    }
    n == held
}

// The numbers that lead a generation with slots, at position `at` of a ring.
fn filled_sound(head: Generation, ring: u64, at: u64) -> bool
    requires { (0 < ring) × (head.slots ≤ 1024) }
    ensures { result ≡ filled_sound ring at head.slots head.held head.bucket }
{
    let power = bounds::is_power_of_two(head.slots);
    power & ((1 <= head.held) & ((head.held <= 3 * head.slots / 4) & (head.bucket % ring == at)))
}

// The words of a generation at position `at` of a ring are sound.
pub fn is_sound(part: &[u64], ring: u64, at: u64) -> bool
    requires { (0 < ring) × ((generation_head ≤ length part.now) × (length part.now ≤ generation_most)) }
    ensures { result ≡ generation_sound ring at part.now }
{
    let n = part[Generation::SLOTS];
    let most = (part.len() - Generation::HEAD) as u64;
    if most < n {
        return false;
    }
    let live = live(n);
    if !runs::zeros_only(&part[live.end..]) {
        return false;
    }
    // Read no earlier: five words that are kept meanwhile take a tenth more of the test of small generations.
    let head = Generation::of(part);
    if head.newest < head.oldest {
        return false;
    }
    if head.slots == 0 {
        return (head.held == 0) & (head.newest == 0);
    }
    if !filled_sound(head, ring, at) {
        return false;
    }
    slots_sound(&part[live], head.held)
}
