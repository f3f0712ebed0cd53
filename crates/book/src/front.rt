// The book's words in the front of the lent words: the five limits and the closed flag. A contract says first what becomes of any
// words, and then what that is of the words of a well-formed front.
ghost use Rattle.std.specs.Prelude.{◌≡◌, ◌≤◌, length};
ghost use Rattle.runs.specs.Turns.{Turns, Reads};
ghost use Rattle.model.specs.declared.Settings.{Settings};
ghost use Rattle.model.specs.Words.{encode_front, read_front, FrontOk};
ghost use Rattle.book.specs.FrontRules.{limited, shut, limits_stored, closed_stored, terms_of};

use model::Limits;
use numbers::{bounds, layout};

// Sets the five limits.
pub fn set_limits(front: &mut [u64], limits: Limits)
    requires { 11 ≤ length front.old }
    ensures front_after { front.new ≡ limits_stored limits front.old }
    ensures turns { (s : Settings) → Turns (encode_front s) FrontOk (limited limits) (λ f. tt {0}) front.old front.new (tt {0}) }
{
    front[layout::FEEDER_LIMIT] = limits.feeder;
    front[layout::FEEDERS_LIMIT] = limits.feeders;
    front[layout::PEER_LIMIT] = limits.peer;
    front[layout::PEERS_LIMIT] = limits.peers;
    front[layout::RELAY_LIMIT] = limits.relay;
}

// Closes the book: every draw from now on is refused.
pub fn close(front: &mut [u64])
    requires { 11 ≤ length front.old }
    ensures front_after { front.new ≡ closed_stored front.old }
    ensures turns { (s : Settings) → Turns (encode_front s) FrontOk shut (λ f. tt {0}) front.old front.new (tt {0}) }
{
    front[layout::CLOSED] = 1;
}

// What the front says of draws: the limits that are kept, and whether the book is closed. A closed book keeps its limits, so the two
// are no Option.
#[derive(Clone, Copy)]
pub struct Terms {
    pub limits: Limits,
    pub closed: bool,
}

impl Terms {
    // Reads what the front says of draws.
    #[tactic(auto, using(numbers::proofs::Readers::limits_first))]
    pub fn read(front: &[u64]) -> Terms
        requires { 11 ≤ length front.now }
        ensures value { result ≡ terms_of (read_front front.now) }
        ensures reads { (s : Settings) → Reads (encode_front s) FrontOk terms_of front.now result }
    {
        Terms {
            limits: bounds::limits_of(&front[layout::FEEDER_LIMIT..layout::CLOSED]),
            closed: front[layout::CLOSED] == 1,
        }
    }
}
