// Runs the call of a line.
ghost use Rattle.std.specs.Prelude.{◌≤◌};

use crate::answer::Line;
use crate::line::Call;
use model::{DelivererCode, Manner};
use std::alloc::{AllocError, Global};
use strikes::Asking;

// The words that can be lent.
const WORDS: usize = 100000;

// The bytes that a call can bring, or a dump write: 8 for each word, more than any dump of a register in so many words.
pub(crate) const BYTES: usize = 800000;

// The words that a view can write.
const VIEW: usize = 3072;

// The code of each call, under the name that it has in docs/CALLS.md, and of the lines that set the stage. tests/replay_stdin takes the
// codes from here. They are constants and no enum: each names one arm of one match, and an enum would need a second match of as many arms,
// from numbers to variants.
const OPEN: u64 = 1;

const JUDGE: u64 = 2;

const TAKE: u64 = 3;

const JUDGE_BATCH: u64 = 4;

const TAKE_BATCH: u64 = 5;

const CONTAINS_HASH: u64 = 6;

const BEGIN: u64 = 7;

const EXPIRE: u64 = 8;

const SWEEP: u64 = 9;

const LIMITS: u64 = 10;

const CLOSE: u64 = 11;

const DUMP: u64 = 12;

const RESTORE: u64 = 13;

const RESUME: u64 = 14;

const FLOOR: u64 = 15;

const PENDING: u64 = 16;

const SWEPT: u64 = 17;

const HELD: u64 = 18;

const CLASS: u64 = 19;

const VIEW_REGISTER: u64 = 20;

const VIEW_DELIVERER: u64 = 21;

const EXPLAIN: u64 = 22;

const STAMP_FOR: u64 = 23;

const LEND: u64 = 101;

const SETTINGS: u64 = 102;

const POKE: u64 = 103;

// A register: its words, of which as many are lent as `lent` says, if there are so many; the settings of the last opening that went
// through; and those that the next call brings. Settings have 29 words, whatever they say, so they are arrays and no `Vec`. All of them are
// 0 before the first opening, which every call refuses. Dumps are written to `dump`, and views to `view`. `words` are all that can be
// lent, and no `Vec` that is cut to `lent`: words past those lent stay, and may be lent again.
#[derive(Drop)]
pub struct Register {
    words: Vec<u64>,
    lent: usize,
    kept: [u64; 29],
    next: [u64; 29],
    dump: Vec<u8>,
    view: Vec<u64>,
}

impl Register {
    pub(crate) fn new(alloc: Global) -> Result<Register, AllocError> {
        Ok(Register {
            words: vec![in alloc; 0; WORDS]?,
            lent: WORDS,
            kept: [0; 29],
            next: [0; 29],
            dump: vec![in alloc; 0; BYTES]?,
            view: vec![in alloc; 0; VIEW]?,
        })
    }

    // Runs a call, and returns the line of its answer.
    pub(crate) fn run(&mut self, alloc: Global, call: &Call<'_>) -> Result<Line, AllocError> {
        let a = &call.arguments;
        match call.code {
            LEND => {
                self.lent = a[0] as usize;
                Line::told(alloc, Ok(()))
            }
            SETTINGS => {
                self.next = settings_of(a);
                Line::told(alloc, Ok(()))
            }
            POKE => self.poke(alloc, a[0] as usize, a[1]),
            OPEN => self.open(alloc, a),
            _ => {
                let line = self.call(alloc, call)?;
                self.next = self.kept;
                Ok(line)
            }
        }
    }

    // Alters a word; there is none past those that can be lent.
    fn poke(&mut self, alloc: Global, place: usize, value: u64) -> Result<Line, AllocError> {
        match self.words.get_mut(place) {
            Some(word) => {
                *word = value;
                Line::told(alloc, Ok(()))
            }
            None => Line::unread(alloc),
        }
    }

    // Keeps the settings of an opening that goes through; brings the kept ones again after any other.
    fn open(&mut self, alloc: Global, a: &[u64; 64]) -> Result<Line, AllocError> {
        let settings = settings_of(a);
        let answer = strikes::open(
            &settings,
            &a[5..10],
            &starts_of(a),
            lent(&mut self.words, self.lent),
        );
        if answer.is_ok() {
            self.kept = settings;
        }
        self.next = self.kept;
        Line::told(alloc, answer)
    }

    // Calls what a code names: an arm for each call.
    fn call(&mut self, alloc: Global, call: &Call<'_>) -> Result<Line, AllocError> {
        let Call {
            code,
            arguments: a,
            bytes,
        } = *call;
        let s = &self.next;
        let words = lent(&mut self.words, self.lent);
        match code {
            JUDGE => Line::told(
                alloc,
                strikes::ticket(s, words, a[0], Manner::Judged, asking(&a)),
            ),
            TAKE => Line::told(
                alloc,
                strikes::ticket(s, words, a[0], Manner::Taken, asking(&a)),
            ),
            JUDGE_BATCH => Line::told(
                alloc,
                strikes::ticket(s, words, a[0], Manner::JudgedBatch, asking(&a)),
            ),
            TAKE_BATCH => Line::told(
                alloc,
                strikes::ticket(s, words, a[0], Manner::TakenBatch, asking(&a)),
            ),
            CONTAINS_HASH => Line::told(alloc, strikes::contains_hash(s, words, a[0], a[1])),
            BEGIN => Line::told(alloc, strikes::begin(s, words, a[0], a[1])),
            EXPIRE => Line::told(alloc, strikes::expire(s, words, a[0])),
            SWEEP => Line::told(alloc, strikes::sweep(s, words, a[0], a[1])),
            LIMITS => Line::told(alloc, strikes::set_limits(s, words, &a[..5])),
            CLOSE => Line::told(alloc, strikes::close(s, words)),
            DUMP => {
                let n = output_length(length_given(a[1], a[2]), self.dump.len());
                let out = &mut self.dump[..n];
                let answer = strikes::dump(s, words, a[0], out);
                Line::told_with(alloc, answer, out)
            }
            RESTORE => Line::told(alloc, strikes::restore(s, words, a[0], bytes)),
            RESUME => Line::told(alloc, strikes::resume(s, words, a[0], bytes, a[1], a[2])),
            FLOOR => Line::told(alloc, strikes::floor(s, words, a[0])),
            PENDING => Line::told(alloc, strikes::pending(s, words, a[0])),
            SWEPT => Line::told(alloc, strikes::swept(s, words, a[0])),
            HELD => Line::told(alloc, strikes::held(s, words, deliverer_code(a[0], a[1]))),
            CLASS => Line::told(alloc, strikes::class_totals(s, words, a[0])),
            VIEW_REGISTER => {
                let n = output_length(length_given(a[1], a[2]), self.view.len());
                let out = &mut self.view[..n];
                let answer = strikes::view_register(s, words, a[0], out);
                Line::told_with(alloc, answer, out)
            }
            VIEW_DELIVERER => {
                let n = output_length(length_given(a[2], a[3]), self.view.len());
                let out = &mut self.view[..n];
                let answer = strikes::view_deliverer(s, words, deliverer_code(a[0], a[1]), out);
                Line::told_with(alloc, answer, out)
            }
            EXPLAIN => Line::told(alloc, strikes::explain(s, words, a[0], asking(&a))),
            STAMP_FOR => {
                let asking = Asking {
                    fp: a[1],
                    stamp: 0,
                    reading: a[2],
                    flag: a[3],
                    who: deliverer_code(a[4], a[5]),
                };
                Line::told(alloc, strikes::stamp_for(s, words, a[0], asking, a[6]))
            }
            _ => Line::unread(alloc),
        }
    }
}

// The words that are lent: as many of all as `lent` says, if there are so many.
fn lent(words: &mut [u64], lent: usize) -> &mut [u64] {
    let n = lent.min(words.len());
    &mut words[..n]
}

// The settings that the arguments name: behind R, P, E, FU and PU come 5 limits, and each register has 6 numbers and a start of 2.
fn settings_of(a: &[u64; 64]) -> [u64; 29] {
    let mut settings = [0; 29];
    settings[..5].copy_from_slice(&a[..5]);
    let (registers, _) = a[10..].as_chunks::<8>();
    for (to, from) in settings[5..].chunks_exact_mut(6).zip(registers) {
        to.copy_from_slice(&from[..6]);
    }
    settings
}

// The starts that they name: of each register, the last 2 of its 8 arguments.
fn starts_of(a: &[u64; 64]) -> [u64; 8] {
    let mut starts = [0; 8];
    let (registers, _) = a[10..].as_chunks::<8>();
    for (to, from) in starts.chunks_exact_mut(2).zip(registers) {
        to.copy_from_slice(&from[6..]);
    }
    starts
}

// The ticket that a call asks about: the arguments behind its register.
fn asking(a: &[u64; 64]) -> Asking {
    Asking {
        fp: a[1],
        stamp: a[2],
        reading: a[3],
        flag: a[4],
        who: deliverer_code(a[5], a[6]),
    }
}

// A deliverer, by two arguments.
fn deliverer_code(kind: u64, number: u64) -> DelivererCode {
    DelivererCode { kind, number }
}

// The length of an output, by two arguments: the second where the first is not 0, else none.
fn length_given(given: u64, length: u64) -> Option<usize> {
    (given != 0).then_some(length as usize)
}

// The length of an output: that which is given, else all of it. An output longer than that takes nothing that all of it does not.
fn output_length(given: Option<usize>, all: usize) -> usize
    ensures { result ≤ all }
{
    given.map_or(all, |length| all.min(length))
}
