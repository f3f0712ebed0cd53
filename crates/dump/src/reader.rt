// A dump reader: the lent bytes of a dump, and the position of the word that comes next. A rule of the project names this form.
ghost use Rattle.std.specs.Prelude.{◌≡◌, ◌+◌, ◌-◌, ◌/◌, ◌≤◌, ◌<◌, length, get_or};
ghost use Rattle.model.specs.Dump.{words_of};

use crate::octets;

#[derive(Clone, Copy)]
pub struct Reader<'a> {
    pub bytes: &'a [u8],
    pub at: usize,
}

impl<'a> Reader<'a> {
    // How many words are left.
    pub(crate) fn left(&self) -> usize
        ensures { result ≡ length self.now.bytes.now / 8 - self.now.at }
    {
        (self.bytes.len() / 8).saturating_sub(self.at)
    }

    // Reads the next word.
    #[tactic(auto, using(crate::proofs::Reading::word_is))]
    pub fn word(&mut self) -> u64
        requires { self.old.at < length self.old.bytes.now / 8 }
        ensures value { result ≡ get_or (words_of self.old.bytes.now) self.old.at 0 }
        ensures same_bytes { self.new.bytes ≡ self.old.bytes }
        ensures next { self.new.at ≡ self.old.at + 1 }
    {
        let word = octets::word_at(self.bytes, 8 * self.at);
        self.at += 1;
        word
    }

    // Passes so many words.
    pub fn skip(&mut self, words: u64)
        requires { self.old.at + words ≤ length self.old.bytes.now / 8 }
        ensures same_bytes { self.new.bytes ≡ self.old.bytes }
        ensures next { self.new.at ≡ self.old.at + words }
    {
        self.at += words as usize;
    }
}
