// Where a class's ring lies in its register's words.
ghost use Rattle.std.specs.Prelude.{◌≡◌, true};
ghost use Rattle.model.specs.Settings.{usable_fit};
ghost use Rattle.register.specs.Words.{RingsOf, RingAt};

use model::{Class, Usable};
use numbers::layout;
use ring::Shape;
use std::ops::Range;

// A register's rings: its settings, the shape of each ring, and the words of each.
#[derive(Clone, Copy)]
pub struct Rings {
    pub u: Usable,
    pub shape: Shape,
    pub width: usize,
    pub ghost sizes: { RingsOf u shape.slots shape.ring width },
}

impl Rings {
    // Whoever looks at more than one class computes this once, since the number of positions takes a division.
    pub fn of(u: Usable) -> Rings
        requires { usable_fit u ≡ true }
        ensures { result.u ≡ u }
    {
        let shape = Shape::of(u);
        Rings {
            u,
            shape,
            width: shape.words(),
        }
    }

    // The words of a class's ring.
    pub fn words(self, class: Class) -> Range<usize>
        ensures { RingAt self.u class self.shape.slots self.shape.ring result.start result.end }
    {
        let number = u64::from(class) as usize;
        let start = layout::HEADING + number * self.width;
        start..start + self.width
    }
}
