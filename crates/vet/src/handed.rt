// What a call hands in: settings, limits and starts as words of any number.
ghost use Rattle.std.specs.Prelude.{◌≡◌, ◌<◌, length};
ghost use Rattle.model.specs.Calls.{limits_words_fit, start_fits_at, starts_fit};
ghost use Rattle.model.specs.Listed.{listed};
ghost use Rattle.model.specs.Settings.{limits_of as limits_in};
ghost use Rattle.vet.specs.Starts.{start_read, starts_read};

use model::{Limits, Refusal, Settings, Start};
use numbers::{bounds, codes};

// The limits that a call brings: 5 words, each in its bounds.
#[tactic(auto, unfolding(model::specs::Calls::limits_words_fit))]
pub fn limits_of(words: &[u64]) -> Result<Limits, Refusal>
    ensures { result ≡ listed (limits_words_fit words.now) (limits_in words.now) }
{
    if words.len() != bounds::LIMITS {
        return Err(Refusal::Unfit);
    }
    let limits = bounds::limits_of(words);
    if !bounds::limits_fit(limits) {
        return Err(Refusal::Unfit);
    }
    Ok(limits)
}

// The start of a register. The code of a register that there is not may be any.
#[tactic(auto, unfolding(model::specs::Calls::start_fits_at, crate::specs::Starts::start_read))]
fn start_at(s: Settings, starts: &[u64], register: usize) -> Result<Start, Refusal>
    requires { (register < 4) × (length starts.now ≡ 8) }
    ensures { result ≡ listed (start_fits_at s starts.now register) (start_read s starts.now register) }
{
    if s.registers <= register as u64 {
        return Ok(Start::Empty);
    }
    codes::start(starts[2 * register], starts[2 * register + 1])
}

// The starts that an opening brings: 8 words, a code and a floor for each of four registers.
// Four calls, each with `?`: a loop would first need an array of starts that are none.
#[tactic(auto, unfolding(model::specs::Calls::starts_fit))]
pub fn starts_of(s: Settings, starts: &[u64]) -> Result<[Start; 4], Refusal>
    ensures { result ≡ listed (starts_fit s starts.now) (starts_read s starts.now) }
{
    if starts.len() != 8 {
        return Err(Refusal::Unfit);
    }
    Ok([
        start_at(s, starts, 0)?,
        start_at(s, starts, 1)?,
        start_at(s, starts, 2)?,
        start_at(s, starts, 3)?,
    ])
}
