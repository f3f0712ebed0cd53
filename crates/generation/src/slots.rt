// The slots of a generation by themselves: each is a fingerprint, or 0 where it is empty.
ghost use Rattle.std.specs.Prelude.{◌≡◌, false, ◌++◌, ◌+◌, ◌-◌, ◌*◌, ◌%◌, ◌≤◌, ◌<◌, length, take, drop, replicate};
ghost use Rattle.std.specs.Int.Bits.{bit_and};
ghost use Rattle.model.specs.Generation.{probe_from, probe, refill, grown};
ghost use Rattle.generation.specs.Slots.{slots_after, put_again, Puts};

use crate::Generation;
use model::{Fingerprint, Probe};
use std::ops::Range;

// The slot that probing starts at, the remainder, where slots are a power of two: a mask and no division.
pub fn masked_slot(fp: u64, n: usize) -> usize
    requires { (0 < n) × (bit_and n (n - 1) ≡ 0) }
    ensures { result ≡ fp % n }
{
    let last = n as u64 - 1;
    (fp & last) as usize
}

// The same for any number of slots. The power of two is tested by the mask itself: the law of `masked_slot` is of this test.
pub fn first_slot(fp: u64, n: usize) -> usize
    requires { 0 < n }
    ensures { result ≡ fp % n }
{
    let slots = n as u64;
    let last = slots - 1;
    if slots & last == 0 {
        masked_slot(fp, n)
    } else {
        (fp % slots) as usize
    }
}

// Where probing for a fingerprint ends among the slots of a range.
fn find_in(slots: &[u64], range: Range<usize>, fp: u64) -> Probe
    requires { range.end ≤ length slots.now }
    ensures { result ≡ probe_from slots.now fp (range.end - range.start) range.start }
{
    for i in range {
        let word = slots[i];
        if word == fp {
            return Probe::Held(i);
        }
        if word == 0 {
            return Probe::Free(i);
        }
    }
    Probe::Nowhere
}

// Where probing for a fingerprint ends: from the slot that it starts at up to the last, and then from slot 0 on.
pub fn find(slots: &[u64], fp: u64) -> Probe
    ensures { result ≡ probe slots.now fp }
{
    let n = slots.len();
    if n == 0 {
        return Probe::Nowhere;
    }
    let first = first_slot(fp, n);
    match find_in(slots, first..n, fp) {
        Probe::Nowhere => find_in(slots, 0..first, fp),
        end => end,
    }
}

// Puts a fingerprint where probing for it ends at an empty slot. Answers how many that adds to those held.
pub fn put(slots: &mut [u64], fp: Fingerprint) -> u64
    ensures { Puts fp.word slots.old slots.new result }
{
    if let Probe::Free(i) = find(slots, fp.word) {
        slots[i] = fp.word;
        1
    } else {
        0
    }
}

// Puts an old slot's word into new slots, unless it is empty.
fn put_again(slots: &mut [u64], word: u64)
    ensures { slots.new ≡ put_again slots.old word }
{
    if word != 0 {
        put(slots, Fingerprint { word });
    }
}

// Puts what old slots hold into new ones, in the old order.
fn refill_from(slots: &mut [u64], old: &[u64])
    ensures { slots.new ≡ refill old.now slots.old }
{
    for word in old {
        put_again(slots, *word);
    }
}

// The same, into slots that are emptied first.
fn rebuild(slots: &mut [u64], old: &[u64])
    ensures { slots.new ≡ refill old.now (replicate (length slots.old) 0) }
{
    slots.fill(0);
    refill_from(slots, old);
}

// The first n slots become `wanted`, and hold what they held. `old` keeps them meanwhile.
fn rebuild_through(slots: &mut [u64], old: &mut [u64], n: usize, wanted: usize)
    requires { ((n ≤ wanted) × (wanted ≤ length slots.old)) × (n ≤ length old.old) }
    ensures slots_after { slots.new ≡ refill (take n slots.old) (replicate wanted 0) ++ drop wanted slots.old }
    ensures after { old.new ≡ take n slots.old ++ drop n old.old }
{
    old[..n].copy_from_slice(&slots[..n]);
    rebuild(&mut slots[..wanted], &old[..n]);
}

// The same, with room of its own for at most N old slots: a fixed array, since nothing here allocates. It is filled with zeros each
// time, so a small N is cheaper.
fn rebuild_within<const N: usize>(slots: &mut [u64], n: usize, wanted: usize)
    requires { ((n ≤ wanted) × (wanted ≤ length slots.old)) × ((n ≤ N) × (N ≤ 1024)) }
    ensures { slots.new ≡ refill (take n slots.old) (replicate wanted 0) ++ drop wanted slots.old }
{
    let mut old = [0u64; N];
    rebuild_through(slots, &mut old, n, wanted);
}

// The first n slots become `wanted`, unless they are as many already.
pub fn regrow(slots: &mut [u64], n: usize, wanted: usize)
    requires { ((n ≤ wanted) × (wanted ≤ length slots.old)) × (wanted ≤ 1024) }
    ensures { slots.new ≡ grown wanted (take n slots.old) ++ drop wanted slots.old }
{
    if wanted == n {
        return;
    }
    if n <= 64 {
        rebuild_within::<64>(slots, n, wanted);
    } else {
        rebuild_within::<1024>(slots, n, wanted);
    }
}

impl Generation {
    // The slots that there are once a new fingerprint is inserted: doubled from the present number until those held and it are at most
    // three quarters.
    fn doubled_slots(self) -> u64
        requires { (self.slots ≤ 1024) × (self.held ≤ 1024) }
        ensures { result ≡ slots_after false self.slots self.held }
    {
        let most = 4 * (self.held + 1);
        // Doubling goes on from the present number, which need be no power of two: so no method for powers of two says this.
        let mut n = self.slots.max(Generation::LEAST);
        while 3 * n < most {
            n = 2 * n;
        }
        n
    }

    // The slots that there are once a fingerprint is inserted. `known`: it is held already, and there are as many as before.
    #[tactic(auto, unfolding(crate::specs::Slots::slots_after))]
    pub(crate) fn slots_for(self, known: bool) -> u64
        requires { (self.slots ≤ 1024) × (self.held ≤ 1024) }
        ensures { result ≡ slots_after known self.slots self.held }
    {
        if known {
            self.slots
        } else {
            self.doubled_slots()
        }
    }
}
