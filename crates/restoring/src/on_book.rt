// What a restore asks of the share book, in the whole run: its draws, and draws given back.
ghost use Rattle.runs.specs.Turns.{silent};
ghost use Rattle.model.specs.declared.Deliverer.TheVariants.{Restored};
ghost use Rattle.model.specs.Book.{undrawn};
ghost use Rattle.taking.specs.Words.{RunWords};
ghost use Rattle.restoring.specs.Rules.{Suits, may_draw, drawn_if};
ghost use Rattle.restoring.specs.Words.{Acts};

use crate::heads::Head;
use book::front::Terms;
use model::{Deliverer, Draw};
use numbers::{layout, starts};
use taking::OneRegister;

// A draw as a restored deliverer of the generation's class.
pub fn draw(run: &mut [u64], on: &OneRegister, h: Head) -> bool
    requires { RunWords on.now.s run.old × Suits on.now.s on.now.r h }
    ensures { RunWords on.now.s run.new × Acts on.now.s on.now.r (λ reg k. reg) (λ reg k. drawn_if on.now.s.shares h k) (λ reg k. may_draw on.now.s.shares h k) run.old run.new result }
{
    let terms = Terms::read(&run[0..layout::FRONT]);
    let who = Deliverer::Restored(h.class);
    let class = starts::class_extent(on.s, h.class);
    let answer = book::take(&mut run[class], on.s.shares, terms, who, h.second);
    matches!(answer, Draw::Granted)
}

// Such a draw is given back.
pub fn give_back(run: &mut [u64], on: &OneRegister, h: Head)
    requires { RunWords on.now.s run.old }
    ensures { RunWords on.now.s run.new × Acts on.now.s on.now.r (λ reg k. reg) (λ reg k. undrawn (Restored h.class) h.second.0 k) (λ reg. silent) run.old run.new (tt {0}) }
{
    let who = Deliverer::Restored(h.class);
    let class = starts::class_extent(on.s, h.class);
    book::untake(&mut run[class], on.s.shares, who, h.second);
}
