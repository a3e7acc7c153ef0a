// Rules of which what holds of all rules is known.
ghost use Rattle.std.specs.Prelude.{◌≡◌};
ghost use Rattle.rules_file.specs.Rules.{IsRules};

use rules_file::Rules;
use std::marker::Model;

// Rules as a file says them: a struct that keeps them need not be told that they are.
#[derive(Drop)]
pub(crate) struct SoundRules<'a> {
    rules: &'a Rules,
}

impl<'a> Model for SoundRules<'a> {
    ghost use Rattle.rules_file.specs.Rules.{IsRules};
    ghost use Rattle.rules_file.specs.declared.rules.Rules.{Rules};

    ghost Value = { Rules };

    ghost view = { λ sound. sound.rules.now };

    ghost invariant = { λ sound. IsRules sound.rules.now };
}

impl<'a> SoundRules<'a> {
    pub(crate) fn new(rules: &'a Rules) -> SoundRules<'a>
        requires { IsRules rules.now }
        ensures { result ≡ rules.now }
    {
        SoundRules { rules }
    }

    pub(crate) fn get(&self) -> &Rules
        ensures value { result.now ≡ self.now }
        ensures sound { IsRules result.now }
    {
        self.rules
    }
}
