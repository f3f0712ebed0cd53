// Where a ring's words lie: its shape, and the position of a bucket.
ghost use Rattle.std.specs.Prelude.{◌≡◌, true, ◌*◌, ◌≤◌, ◌<◌};
ghost use Rattle.model.specs.Settings.{ring_of, usable_fit};
ghost use Rattle.model.specs.Widths.{generation_width};
ghost use Rattle.ring.specs.Ring.{PositionOf, PlaceAt};

use generation::Generation;
use model::{Bucket, Usable};
use numbers::spans;
use std::ops::Range;

// The shape of a ring: the most slots of a generation, and the number of its positions. There are some positions and few, and few slots.
#[derive(Clone, Copy)]
pub struct Shape {
    pub slots: usize,
    pub ring: usize,
    pub ghost some: { 0 < ring },
    pub ghost few: { ring ≤ 256 },
    pub ghost small: { slots ≤ 1024 },
}

// The position of a bucket, in a ring of this shape. It takes a division, so whoever looks at several rings of one shape computes it
// once.
#[derive(Clone, Copy)]
pub struct Position {
    pub shape: Shape,
    pub bucket: Bucket,
    pub at: usize,
    pub ghost is: { PositionOf bucket.0 shape.ring at },
}

impl Shape {
    // The shape of the rings of a register with these settings.
    #[tactic(auto, using(numbers::proofs::Needed::usable_few, model::proofs::Bounds::ring_positive))]
    pub fn of(u: Usable) -> Shape
        requires { usable_fit u ≡ true }
        ensures slots { result.slots ≡ u.slots }
        ensures ring { result.ring ≡ ring_of u }
    {
        Shape {
            slots: u.slots as usize,
            ring: spans::ring_of(u) as usize,
        }
    }

    // The words of a position.
    pub fn width(self) -> usize
        ensures { result ≡ generation_width self.slots }
    {
        self.slots + Generation::HEAD
    }

    // The words of the ring.
    pub fn words(self) -> usize
        ensures { result ≡ self.ring * generation_width self.slots }
    {
        self.ring * self.width()
    }

    // A position's words, in those of the ring.
    pub(crate) fn place(self, i: usize) -> Range<usize>
        requires { i < self.ring }
        ensures { PlaceAt self.slots self.ring i result.start result.end }
    {
        let width = self.width();
        let start = i * width;
        start..start + width
    }

    // The position of a bucket.
    pub fn position_of(self, bucket: Bucket) -> Position
        ensures shape { result.shape ≡ self }
        ensures bucket { result.bucket ≡ bucket }
        ensures is { PositionOf bucket.0 self.ring result.at }
    {
        Position {
            shape: self,
            bucket,
            at: (bucket.0 % (self.ring as u64)) as usize,
        }
    }
}
