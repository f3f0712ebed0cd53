// Runs of words that mean nothing by themselves.
#![tactic(auto)]

pub mod moves;

ghost use Rattle.std.specs.Prelude.{◌≡◌};
ghost use Rattle.runs.specs.Words.{zeros};

// Whether every word is 0, that is, whether no word has a bit. All words are gathered in one, with no branch and no way out early:
// so the compiler makes vector instructions of it. One instruction gathers two words; comparing two words with 0 takes four.
#[tactic(auto, using(crate::proofs::Words::zeros_gathered))]
pub fn zeros_only(words: &[u64]) -> bool
    ensures { result ≡ zeros words.now }
{
    words.iter().fold(0, |any, word| any | word) == 0
}
