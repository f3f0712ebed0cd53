// The soundness test of slots by other means than probing, for those that are not near: n slots take some n × log n steps,
// whatever they hold. All are reached exactly when no fingerprint lies twice, which sorting shows, and when probing for none of
// them passes an empty slot, which the run of held slots before each shows.
ghost use Rattle.std.specs.Prelude.{◌≡◌, cond, ◌&&◌, ◌+◌, ◌≤◌, ◌<◌, length, eqb};
ghost use Rattle.model.specs.Generation.{count};
ghost use Rattle.model.specs.GenerationWords.{slots_sound};
ghost use Rattle.generation.specs.Reach.{passed_to, Run, unbroken};

use crate::slots::first_slot;

// How many slots probing for a fingerprint passes before it comes to slot i of n, where it lies: for an empty slot none.
fn passed_to(n: usize, i: usize, word: u64) -> usize
    requires { (i < n) × (n ≤ 1024) }
    ensures { result ≡ passed_to n i word }
{
    if word == 0 {
        return 0;
    }
    let first = first_slot(word, n);
    if first <= i { i - first } else { i + n - first }
}

// The length of the run of held slots that ends with this slot, where one of that length ended before it.
fn run_with(run: usize, word: u64) -> usize
    requires { run ≤ 2048 }
    ensures { result ≡ cond (eqb word 0) 0 (run + 1) }
{
    if word == 0 { 0 } else { run + 1 }
}

// How many of the last slots are held, one after the other.
fn run_at_end(slots: &[u64]) -> usize
    ensures { Run slots.now 0 result (length slots.now) }
{
    slots.iter().rev().take_while(|word| **word != 0).count()
}

// Whether probing for each fingerprint passes held slots only before it comes to where it lies. Slot 0 comes after the last. The answer
// is kept to the end: sound slots are looked through to the end in any case. The run goes on from slot to slot: a chain with `all` would
// need a closure that changes it.
fn no_gaps(slots: &[u64]) -> bool
    requires { length slots.now ≤ 1024 }
    ensures { result ≡ unbroken slots.now }
{
    let n = slots.len();
    let mut run = run_at_end(slots);
    let mut all = true;
    for (i, word) in slots.iter().enumerate() {
        let passed = passed_to(n, i, *word);
        all &= passed <= run;
        run = run_with(run, *word);
    }
    all
}

// How many slots are held.
fn held_in(slots: &[u64]) -> u64
    ensures { result ≡ count slots.now }
{
    slots.iter().filter(|word| **word != 0).count() as u64
}

// Every slot is reached, and as many are held as the generation says.
pub fn slots_sound(slots: &[u64], held: u64) -> bool
    requires { length slots.now ≤ 1024 }
    ensures { result ≡ slots_sound slots.now held }
{
    let gapless = no_gaps(slots);
    let alone = distinct::are_distinct(slots);
    let n = held_in(slots);
    (gapless & alone) & (n == held)
}
