// A ticket's share, in the words of its class's share book.
ghost use Rattle.std.specs.Prelude.{◌≡◌, true};
ghost use Rattle.runs.specs.Turns.{silent};
ghost use Rattle.model.specs.Settings.{limits_fit};
ghost use Rattle.model.specs.Class.{class_of};
ghost use Rattle.book.specs.ClassRules.{ClassIs, ClassReads};
ghost use Rattle.taking.specs.Rules.{Granted, share_in, share_for, drawn_by};
ghost use Rattle.taking.specs.Words.{RunWords, StateReads, StateTurns};

use crate::one_register::OneRegister;
use crate::tickets::Ticket;
use book::Spot;
use book::front::Terms;
use model::{Deliverer, Draw, Second, Shares};
use numbers::{layout, starts};

// Where a draw may be entered in a class's own words, or the rule that stands against it.
fn look(part: &[u64], b: Shares, terms: Terms, who: Deliverer, second: Second) -> Result<Spot, Draw>
    requires { ClassIs b (class_of who) part.now × (limits_fit terms.limits ≡ true) }
    ensures { ClassReads b (class_of who) (λ h. share_in b terms.limits terms.closed who second.0 h.places) part.now result }
{
    let spot = book::find(part, b, who, second);
    match book::draw(part, b, terms, who, spot) {
        Draw::Granted => Ok(spot),
        against => Err(against),
    }
}

// The same in the whole run: what the front says of draws is read first. The register is lent for its settings, which would be copied.
pub fn look_up(run: &[u64], on: &OneRegister, ticket: Ticket) -> Result<Spot, Draw>
    requires { RunWords on.now.s run.now }
    ensures { StateReads on.now.s (share_for on.now.s ticket) run.now result }
{
    let terms = Terms::read(&run[0..layout::FRONT]);
    let class = starts::class_extent(on.s, ticket.class());
    look(&run[class], on.s.shares, terms, ticket.who, ticket.second)
}

// A granted draw is entered.
pub fn enter(run: &mut [u64], on: &OneRegister, ticket: Ticket, spot: Spot)
    requires { RunWords on.now.s run.old × Granted on.now.s ticket run.old spot }
    ensures { RunWords on.now.s run.new × StateTurns on.now.s (drawn_by on.now.s ticket) silent run.old run.new (tt {0}) }
{
    let class = starts::class_extent(on.s, ticket.class());
    book::enter(&mut run[class], on.s.shares, ticket.who, spot);
}
