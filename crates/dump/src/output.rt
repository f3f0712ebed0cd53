// What an output is made of: bytes, eight for each word, or words. Words are written one after the other.
ghost use Rattle.std.specs.Prelude.{◌≡◌, ℕ, List, [], ◌∷◌, length, refl};
ghost use Rattle.runs.specs.Over.{Fits, Puts, itself};
ghost use Rattle.model.specs.Dump.{word_bytes, fingerprints};
ghost use Rattle.dump.specs.Bytes.{word_wide};

use crate::octets;

// Each word takes `width` elements, and `encoded` says which. `numbers` are the elements as numbers.
pub trait Element: Sized {
    ghost width: { ℕ };

    ghost encoded: { ℕ → List ℕ };

    ghost numbers: { List Self → List ℕ };

    // Writes a word from a position on, and answers the position after it.
    fn put(out: &mut [Self], at: usize, word: u64) -> usize
        requires { Fits width at (word ∷ []) (numbers out.old) }
        ensures { Puts encoded width at (word ∷ []) (numbers out.old) (numbers out.new) result };

    ghost encoded_long: { (n : ℕ) → length (encoded n) ≡ width };
}

impl Element for u8 {
    ghost width = { 8 };

    ghost encoded = { word_bytes };

    ghost numbers = { λ xs. xs };

    fn put(out: &mut [u8], at: usize, word: u64) -> usize {
        octets::put_word(out, at, word);
        at + 8
    }

    ghost encoded_long = { word_wide };
}

impl Element for u64 {
    ghost width = { 1 };

    ghost encoded = { itself };

    ghost numbers = { λ xs. xs };

    fn put(out: &mut [u64], at: usize, word: u64) -> usize {
        out[at] = word;
        at + 1
    }

    ghost encoded_long = { λ n. refl };
}

// The elements that are lent for an output, and the position of what is written next. What there is room for is asked at each call:
// it is no ghost field, since the elements and the position change.
#[derive(Drop)]
pub struct Output<'a, E> {
    pub out: &'a mut [E],
    pub at: usize,
}

impl<E: Element> Output<'_, E> {
    // Writes a word.
    pub fn put(&mut self, word: u64)
        requires { Fits E.width self.old.at (word ∷ []) (E.numbers self.old.out.now) }
        ensures same { self.new.out.ghost_name ≡ self.old.out.ghost_name }
        ensures puts { Puts E.encoded E.width self.old.at (word ∷ []) (E.numbers self.old.out.now) (E.numbers self.new.out.now) self.new.at }
    {
        self.at = E::put(self.out, self.at, word);
    }

    // Writes words.
    pub fn put_all(&mut self, words: &[u64])
        requires { Fits E.width self.old.at words.now (E.numbers self.old.out.now) }
        ensures same { self.new.out.ghost_name ≡ self.old.out.ghost_name }
        ensures puts { Puts E.encoded E.width self.old.at words.now (E.numbers self.old.out.now) (E.numbers self.new.out.now) self.new.at }
    {
        for &word in words {
            self.put(word);
        }
    }

    // Writes the fingerprints of slots, in their order.
    pub(crate) fn put_prints(&mut self, slots: &[u64])
        requires { Fits E.width self.old.at (fingerprints slots.now) (E.numbers self.old.out.now) }
        ensures same { self.new.out.ghost_name ≡ self.old.out.ghost_name }
        ensures puts { Puts E.encoded E.width self.old.at (fingerprints slots.now) (E.numbers self.old.out.now) (E.numbers self.new.out.now) self.new.at }
    {
        for &slot in slots {
            if slot != 0 {
                self.put(slot);
            }
        }
    }
}
