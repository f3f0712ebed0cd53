// The register that a call is about.
ghost use Rattle.std.specs.Prelude.{◌≡◌};
ghost use Rattle.model.specs.Settings.{words_needed};
ghost use Rattle.numbers.specs.RegisterAt.{RegisterAt};

use model::Settings;
use numbers::starts::RegisterExtent;
use std::ops::Range;

// A register by its number, where it lies under the settings, and how many words these need.
#[derive(Clone, Copy)]
pub struct OneRegister {
    pub s: Settings,
    pub need: usize,
    pub r: usize,
    pub extent: RegisterExtent,
    pub ghost needed: { need ≡ words_needed s },
    pub ghost at: { RegisterAt s r extent },
}

impl OneRegister {
    // The register's words, in all words that the settings need.
    pub fn words(&self) -> Range<usize>
        ensures start { result.start ≡ self.now.extent.start }
        ensures end { result.end ≡ self.now.extent.end }
    {
        self.extent.words()
    }
}
