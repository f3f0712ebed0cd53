// A register's view, from its own part of the lent words: of each held generation, in dump sequence, its bucket, its oldest stamp, its
// newest stamp and how many fingerprints it holds.
#![tactic(auto)]

ghost use Rattle.std.specs.Prelude.{◌≡◌, ℕ, List, length};
ghost use Rattle.model.specs.RawViews.{register_view};
ghost use Rattle.runs.specs.Over.{Fits, Puts};
ghost use Rattle.register.specs.Words.{RegisterWords, RegisterReads};
ghost use Rattle.dump.specs.Outputs.{Holds, Outputs};
ghost use Rattle.register_view.specs.Views.{nothing_before, part_view};

use dump::{Element, Generations, Output, Rings, Shown};
use generation::Generation;
use model::Usable;

// The words that one generation takes.
const EACH: usize = 4;

// What a view holds of a register: nothing before a class's generations, and of each its four words.
struct Viewed;

impl Shown for Viewed {
    ghost head = { nothing_before };

    ghost of_part = { part_view };

    fn put_head<E: Element>(_out: &mut Output<'_, E>, _ring: Generations<'_>) {}

    fn put_generation<E: Element>(out: &mut Output<'_, E>, part: &[u64]) {
        let head = Generation::of(part);
        if head.held != 0 {
            out.put_all(&[head.bucket, head.oldest, head.newest, head.held]);
        }
    }
}

// How many words the view has.
pub fn view_length(part: &[u64], u: Usable) -> usize
    requires { RegisterWords u part.now }
    ensures { RegisterReads u (λ reg. length (register_view reg)) part.now result }
{
    EACH * (Rings::of(part, u).held() as usize)
}

// Writes it at the start of an output that is long enough, leaves what lies behind it, and answers how many words it has.
pub fn view(out: &mut [u64], part: &[u64], u: Usable) -> usize
    requires { RegisterWords u part.now × Holds register_view u part.now out.old }
    ensures { Outputs register_view u part.now out.old out.new result }
{
    let mut to = Output { out, at: 0 };
    Rings::of(part, u).show::<Viewed, u64>(&mut to);
    to.at
}
