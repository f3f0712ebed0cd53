// The generations that a register holds, class by class, and the writing of whatever is shown of them: a dump's words or a view's.
ghost use Rattle.std.specs.Prelude.{◌≡◌, ℕ, ◌/◌, ◌≤◌, List, length};
ghost use Rattle.model.specs.Settings.{ring_of};
ghost use Rattle.register.specs.Words.{RegisterWords};
ghost use Rattle.model.specs.Widths.{generation_width};
ghost use Rattle.runs.specs.Over.{Fits, Puts};
ghost use Rattle.generation.specs.Words.{Bounded};
ghost use Rattle.dump.specs.Parts.{Each, bounded_prop, LaidOut, laid_out_prop, one_held, total, held_parts, ring_shown, register_shown};

use crate::output::{Element, Output};
use generation::Generation;
use model::Usable;
use numbers::layout;
use ring::Shape;

// A register's words, lent: its own, and then three rings of this shape.
#[derive(Clone, Copy)]
pub struct Rings<'a> {
    pub words: &'a [u64],
    pub shape: Shape,
    pub ghost laid: { LaidOut (generation_width shape.slots) shape.ring words.now } by { laid_out_prop (generation_width shape.slots) shape.ring words.now },
}

// Generations of one width, lent: those of a class, or of a register. The words are only read, so what is so of them is said once.
#[derive(Clone, Copy)]
pub struct Generations<'a> {
    pub words: &'a [u64],
    pub shape: Shape,
    pub ghost few: { length words.now / generation_width shape.slots ≤ 768 },
    pub ghost bounded: { Each Bounded (generation_width shape.slots) words.now } by { bounded_prop (generation_width shape.slots) words.now },
}

// ---- numbers of generations, added up

// A number that a generation has by its words. A trait and no closure: its law and its bound are said once, and not at each call.
pub(crate) trait Counted {
    ghost counted: { List ℕ → ℕ };

    fn count(part: &[u64]) -> usize
        requires { Bounded part.now }
        ensures value { result ≡ counted part.now }
        ensures few { result ≤ 1_027 };
}

// Adds it up over generations of one width. A chain `.map(C::count).sum()` is no plainer: what is known of the chunks in a chain goes by
// their positions, and would need lemmas of its own beside those of the loops below.
pub(crate) fn add_up<C: Counted>(all: Generations<'_>) -> usize
    ensures value { result ≡ total C.counted (generation_width all.entry.shape.slots) all.entry.words.now }
    ensures few { result ≤ 788_736 }
{
    let mut n = 0;
    for part in all.words.chunks_exact(all.shape.width()) {
        n += C::count(part);
    }
    n
}

// 1 for a generation that holds something, otherwise 0.
pub(crate) struct Held;

impl Counted for Held {
    ghost counted = { one_held };

    #[tactic(auto, unfolding(crate::specs::Parts::one_held))]
    fn count(part: &[u64]) -> usize {
        usize::from(part[Generation::HELD] != 0)
    }
}

// ---- what is shown, written

// What is shown of a register: words before the generations of a class, and of each generation that it holds.
pub trait Shown {
    ghost head: { ℕ → List ℕ → List ℕ };

    ghost of_part: { List ℕ → List ℕ };

    // What stands before a class's generations.
    fn put_head<E: Element>(out: &mut Output<'_, E>, ring: Generations<'_>)
        requires { Fits E.width out.old.at (head (generation_width ring.shape.slots) ring.words.now) (E.numbers out.old.out.now) }
        ensures same { out.new.out.ghost_name ≡ out.old.out.ghost_name }
        ensures puts { Puts E.encoded E.width out.old.at (head (generation_width ring.entry.shape.slots) ring.entry.words.now) (E.numbers out.old.out.now) (E.numbers out.new.out.now) out.new.at };

    // A generation by its own words: nothing where it holds nothing.
    fn put_generation<E: Element>(out: &mut Output<'_, E>, part: &[u64])
        requires bounded { Bounded part.now }
        requires fits { Fits E.width out.old.at (of_part part.now) (E.numbers out.old.out.now) }
        ensures same { out.new.out.ghost_name ≡ out.old.out.ghost_name }
        ensures puts { Puts E.encoded E.width out.old.at (of_part part.now) (E.numbers out.old.out.now) (E.numbers out.new.out.now) out.new.at };
}

// Writes what is shown of a class.
fn put_ring<S: Shown, E: Element>(out: &mut Output<'_, E>, ring: Generations<'_>)
    requires { Fits E.width out.old.at (ring_shown S.head S.of_part (generation_width ring.shape.slots) ring.words.now) (E.numbers out.old.out.now) }
    ensures same { out.new.out.ghost_name ≡ out.old.out.ghost_name }
    ensures puts { let all = ring_shown S.head S.of_part (generation_width ring.entry.shape.slots) ring.entry.words.now in
        Puts E.encoded E.width out.old.at all (E.numbers out.old.out.now) (E.numbers out.new.out.now) out.new.at }
{
    S::put_head(out, ring);
    for part in ring.words.chunks_exact(ring.shape.width()) {
        S::put_generation(out, part);
    }
}

// ---- a register

impl<'a> Rings<'a> {
    // The rings in a register's words.
    pub fn of(words: &'a [u64], u: Usable) -> Rings<'a>
        requires { RegisterWords u words.now }
        ensures words { result.words.now ≡ words.now }
        ensures slots { result.shape.slots ≡ u.slots }
        ensures ring { result.shape.ring ≡ ring_of u }
    {
        let shape = Shape::of(u);
        Rings { words, shape }
    }

    // How many generations are held.
    #[tactic(auto, using(crate::proofs::Turns::held_few))]
    pub fn held(self) -> u64
        ensures value { result ≡ held_parts (generation_width self.entry.shape.slots) self.entry.words.now }
        ensures upper_bound { result ≤ 768 }
    {
        add_up::<Held>(Generations {
            words: &self.words[layout::HEADING..],
            shape: self.shape,
        }) as u64
    }

    // Writes what is shown of the three classes.
    pub fn show<S: Shown, E: Element>(self, out: &mut Output<'_, E>)
        requires { Fits E.width out.old.at (register_shown S.head S.of_part (generation_width self.shape.slots) self.shape.ring self.words.now) (E.numbers out.old.out.now) }
        ensures same { out.new.out.ghost_name ≡ out.old.out.ghost_name }
        ensures puts { let shape = self.entry.shape in
            let all = register_shown S.head S.of_part (generation_width shape.slots) shape.ring self.entry.words.now in
            Puts E.encoded E.width out.old.at all (E.numbers out.old.out.now) (E.numbers out.new.out.now) out.new.at }
    {
        let shape = self.shape;
        for words in self.words[layout::HEADING..].chunks_exact(shape.words()) {
            put_ring::<S, E>(out, Generations { words, shape });
        }
    }
}
