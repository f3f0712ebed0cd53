// The ticket of a question.
ghost use Rattle.register.specs.Rules.{asked_by};
ghost use Rattle.taking.specs.Rules.{Suits};

use crate::tickets::Ticket;
use model::{Fingerprint, Usable};
use numbers::spans;
use register::Ask;

impl Ticket {
    pub fn of(u: Usable, ask: Ask) -> Ticket
        ensures { Suits u (asked_by ask) result }
    {
        let bucket = spans::bucket_of(u, ask.stamp);
        Ticket {
            who: ask.who,
            fp: Fingerprint::from(ask.fp),
            stamp: ask.stamp,
            bucket,
            second: spans::second_of(bucket, u.bucket),
        }
    }
}
