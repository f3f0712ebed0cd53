// Expiry: what the clock has passed is given back to its deliverers, in the whole run of words that the settings need. `RunWords` is a fact
// in contracts here as in taking, whose functions this calls.
#![tactic(auto)]

mod least;

ghost use Rattle.std.specs.Prelude.{◌≤◌};
ghost use Rattle.runs.specs.Turns.{silent};
ghost use Rattle.model.specs.Numbers.{top32};
ghost use Rattle.model.specs.Calls.{step, Expire};
ghost use Rattle.taking.specs.Words.{RunWords, StateTurns};
ghost use Rattle.expiring.specs.Rules.{class_expired};

use model::{Class, Judged, Second, Settings};
use numbers::starts;

// One class, up to a second.
fn expire_class(run: &mut [u64], s: Settings, class: Class, t: Second)
    requires { RunWords s run.old × (t.0 ≤ top32) }
    ensures { RunWords s run.new × StateTurns s (class_expired class t.0) silent run.old run.new (tt {0}) }
{
    book_expiry::expire(&mut run[starts::class_extent(s, class)], s.shares, class, t);
}

// All three classes, up to the least of the reading and every register's published sweep, in seconds rounded up.
pub fn expire(run: &mut [u64], s: Settings, reading: Judged)
    requires { RunWords s run.old }
    ensures { StateTurns s (λ t. (step s (Expire reading.0) t).state) silent run.old run.new (tt {0}) }
{
    let least = least::least_published(run, s, reading);
    let t = Second::from(least);
    for class in Class::ALL {
        expire_class(run, s, class, t);
    }
}
