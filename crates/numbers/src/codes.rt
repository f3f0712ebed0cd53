// Codes that a host passes and that no type is read from alone, and the number of a class that a rule names.
ghost use Rattle.std.specs.Prelude.{◌≡◌};
ghost use Rattle.model.specs.Codes.{flag_fits, flag_of, start_fits, start_of, reason_class as class_of_reason};
ghost use Rattle.model.specs.Listed.{listed};

use model::{Reason, Refusal, Start};

// A flag that a call brings.
pub fn flag(code: u64) -> Result<bool, Refusal>
    ensures { result ≡ listed (flag_fits code) (flag_of code) }
{
    match code {
        0 => Ok(false),
        1 => Ok(true),
        _ => Err(Refusal::Unfit),
    }
}

// A start that an opening brings. The floor is read for At alone.
#[tactic(auto, unfolding(model::specs::Codes::start_of))]
pub fn start(code: u64, floor: u64) -> Result<Start, Refusal>
    ensures { result ≡ listed (start_fits code) (start_of code floor) }
{
    match code {
        0 => Ok(Start::Empty),
        1 => Ok(Start::Fallback),
        2 => Ok(Start::At(floor)),
        _ => Err(Refusal::Unfit),
    }
}

// The number of the class that holds the ticket; 0 where another rule is named. One number, as include/strikes.h has it: a host reads it
// where the rule is `Held`.
#[tactic(auto, unfolding(model::specs::Codes::reason_class))]
pub fn reason_class(reason: Reason) -> u64
    ensures { result ≡ class_of_reason reason }
{
    if let Reason::Held(class) = reason {
        u64::from(class)
    } else {
        0
    }
}
