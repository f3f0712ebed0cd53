// What may be refused before a call does anything: a function for each stage, in the order in which refusals are tried. Settings (1)
// and words enough (2) here, limits and starts (1) in `handed`, words sound (3) in `sound`.
// None writes, and nothing above this crate tests settings or soundness again.
#![tactic(auto)]

ghost use Rattle.vet.specs.Vetted.{unfit_alone, vetted};
ghost use Rattle.vet.specs.Entries.{Enters, EntersWithin};

use model::Refusal;
use numbers::{bounds, starts};

mod handed;
mod sound;
mod vetted;

pub use handed::{limits_of, starts_of};
pub use vetted::Vetted;

// Settings of 29 words, each in its bounds, or 1. It is never inlined: what it computes with would lie on the stack while the words are
// tested, which takes the most of it.
#[inline(never)]
#[tactic(auto, unfolding(crate::specs::Vetted::unfit_alone, model::specs::Calls::first_met, model::specs::Calls::settings_words_fit))]
pub fn settings_entry(settings: &[u64]) -> Result<Vetted, Refusal>
    ensures { Enters settings.now (unfit_alone settings.now) result }
{
    if settings.len() != bounds::SETTINGS {
        return Err(Refusal::Unfit);
    }
    let s = bounds::settings_of(settings);
    if !bounds::settings_fit(s) {
        return Err(Refusal::Unfit);
    }
    let need = starts::needed(s);
    Ok(Vetted { s, need })
}

// The settings with the words that they need, or the first refusal that the settings and the words cause, 1, 2 or 3. A call tests its
// own codes before it.
pub fn vet(settings: &[u64], words: &[u64]) -> Result<Vetted, Refusal>
    ensures { EntersWithin settings.now words.now (vetted settings.now words.now) result }
{
    let entry = settings_entry(settings)?;
    if words.len() < entry.need {
        return Err(Refusal::TooFewWords);
    }
    if !sound::words_sound(&entry, words) {
        return Err(Refusal::UnsoundWords);
    }
    Ok(entry)
}
