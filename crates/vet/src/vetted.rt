// Settings that are in bounds.
ghost use Rattle.std.specs.Prelude.{◌≡◌, true};
ghost use Rattle.model.specs.Settings.{settings_fit, words_needed};

use model::Settings;

// Settings that are in bounds, and how many words they need.
#[derive(Clone, Copy)]
pub struct Vetted {
    pub s: Settings,
    pub need: usize,
    pub ghost fit: { settings_fit s ≡ true },
    pub ghost needed: { need ≡ words_needed s },
}
