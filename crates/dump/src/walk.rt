// The walk over what a dump holds: a floor, then for each class a count and so many generations, each of three words (bucket,
// newest, length) and its fingerprints.
ghost use Rattle.std.specs.Option.{MatchOption};
ghost use Rattle.std.specs.Prelude.{None, ◌≡◌, ◌+◌, ◌/◌, ◌≤◌, ◌<◌, length, get_or};
ghost use Rattle.model.specs.Dump.{words_of, read_dump};
ghost use Rattle.dump.specs.Walk.{told_by, next_at, end_from, class_end, Passes, FoundAt, Whole};

use crate::reader::Reader;
use model::Bucket;

// What leads a generation in a dump: its fingerprints come next.
#[derive(Clone, Copy)]
pub struct Found {
    pub bucket: Bucket,
    pub newest: u64,
    pub length: u64,
}

// A dump whose lengths have been read: its bytes, which others may follow, and how many words it has.
#[derive(Clone, Copy)]
pub struct Dump<'a> {
    pub bytes: &'a [u8],
    pub words: usize,
    pub ghost whole: { Whole bytes.now words },
}

impl<'a> Reader<'a> {
    // Reads the floor, if there is one: the word that tells it is 0 where there is none, else one more than it.
    #[tactic(auto, using(crate::proofs::Walking::told_is))]
    pub fn told_floor(&mut self) -> Option<u64>
        requires { self.old.at < length self.old.bytes.now / 8 }
        ensures value { result ≡ told_by (get_or (words_of self.old.bytes.now) self.old.at 0) }
        ensures same_bytes { self.new.bytes ≡ self.old.bytes }
        ensures next { self.new.at ≡ self.old.at + 1 }
    {
        self.word().checked_sub(1)
    }

    // Reads what leads a generation.
    pub fn generation(&mut self) -> Found
        requires { self.old.at + 3 ≤ length self.old.bytes.now / 8 }
        ensures found { FoundAt (words_of self.old.bytes.now) self.old.at result }
        ensures same_bytes { self.new.bytes ≡ self.old.bytes }
        ensures next { self.new.at ≡ self.old.at + 3 }
    {
        let bucket = Bucket(self.word());
        let newest = self.word();
        let length = self.word();
        Found {
            bucket,
            newest,
            length,
        }
    }

    // Passes a generation, if all that its length says is there.
    fn pass_generation(&mut self) -> Option<()>
        requires { self.old.at ≤ length self.old.bytes.now / 8 }
        ensures same_bytes { self.new.bytes ≡ self.old.bytes }
        ensures passes { Passes (next_at (words_of self.old.bytes.now) self.old.at) (length self.old.bytes.now / 8) self.new.at result }
    {
        if self.left() < 3 {
            return None;
        }
        // Its bucket and its newest stamp are not read yet.
        self.skip(2);
        let length = self.word();
        if (self.left() as u64) < length {
            return None;
        }
        self.skip(length);
        Some(())
    }

    // Passes n generations.
    fn pass_generations(&mut self, n: u64) -> Option<()>
        requires { self.old.at ≤ length self.old.bytes.now / 8 }
        ensures same_bytes { self.new.bytes ≡ self.old.bytes }
        ensures passes { Passes (end_from (words_of self.old.bytes.now) self.old.at n) (length self.old.bytes.now / 8) self.new.at result }
    {
        for _ in 0..n {
            self.pass_generation()?;
        }
        Some(())
    }

    // Passes a class: its count, and as many generations.
    fn pass_class(&mut self) -> Option<()>
        ensures same_bytes { self.new.bytes ≡ self.old.bytes }
        ensures passes { Passes (class_end (words_of self.old.bytes.now) self.old.at) (length self.old.bytes.now / 8) self.new.at result }
    {
        if self.left() == 0 {
            return None;
        }
        let n = self.word();
        self.pass_generations(n)
    }
}

// Reads the lengths of a dump, of whatever bytes, and none where it is cut short. Bytes behind it are not looked at. Three calls and no
// loop: the invariant of one would say how many classes are passed.
pub fn read_lengths(bytes: &[u8]) -> Option<Dump<'_>>
    ensures { MatchOption result (read_dump bytes.now ≡ None) (λ d. d.bytes.now ≡ bytes.now) }
{
    let mut reader = Reader { bytes, at: 1 };
    reader.pass_class()?; // feeders
    reader.pass_class()?; // peers
    reader.pass_class()?; // own
    Some(Dump {
        bytes,
        words: reader.at,
    })
}
