//! The laws of names. The functions do nothing: their contracts are the laws.
ghost use Rattle.std.specs.Prelude.{ℕ};
ghost use Rattle.pcode.specs.Instructions.{Code};
ghost use Rattle.pcode.specs.Machine.{Config, machine, step};
ghost use Rattle.pcode.specs.WellFormed.{WellFormed};
ghost use Rattle.object_lives.specs.Lives.{HasPlainDefaults};
ghost use Rattle.object_names.specs.Ended.{SameFin};
ghost use Rattle.object_names.specs.Renamed.{SameConfig, SameMove};

/// Where two places of the machine are the same but for the names of the objects, a step of a well-formed code does the
/// same from both but for the names.
pub fn steps_are_blind_to_names()
    ensures { (code : Code) (r : ℕ → ℕ) (c : Config) (e : Config) → WellFormed code → HasPlainDefaults code.declared → SameConfig r c e → SameMove r (step code c) (step code e) }
{}

/// So does a run that goes on from both, with a bound on turns, for so many steps.
pub fn runs_are_blind_to_names()
    ensures { (code : Code) (r : ℕ → ℕ) (turns : ℕ) (steps : ℕ) (c : Config) (e : Config) → WellFormed code → HasPlainDefaults code.declared → SameConfig r c e → SameFin r (machine code turns steps c) (machine code turns steps e) }
{}
