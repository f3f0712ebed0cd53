// A quest: what a stamp is sought for.
ghost use Rattle.taking.specs.Reasons.{SeenAt};

use model::Verdict;
use register::{Ask, Seen};
use taking::OneRegister;

// A register, what its sweep would do, a ticket, and the verdict that is wanted. The ticket's stamp is not read.
#[derive(Clone, Copy)]
pub struct Quest {
    pub on: OneRegister,
    pub seen: Seen,
    pub ask: Ask,
    pub wanted: Verdict,
    pub ghost fits: { SeenAt on.s on.r seen },
}
