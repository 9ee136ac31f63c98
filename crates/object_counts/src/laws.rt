//! The laws of reference counts. The functions do nothing: their contracts are the laws.
ghost use Rattle.std.specs.Prelude.{ℕ, List};
ghost use Rattle.sheet_host.specs.Books.{Sheets};
ghost use Rattle.pcode.specs.Instructions.{Code};
ghost use Rattle.pcode.specs.Machine.{Config};
ghost use Rattle.object_counts.specs.Balance.{Balanced, StepCounts, RunCounts};

/// For each code, book, bound on turns and number of steps the machine that counts comes to what the machine that looks
/// comes to, with the same ending, state and events; and wherever it is, each stored count is how often its object
/// stands in all live values.
pub fn runs_are_counted()
    ensures { (code : Code) (book : Sheets) (turns : ℕ) (steps : ℕ) → RunCounts code book turns steps }
{}

/// The same of one step of a configuration whose counts are right.
pub fn steps_are_counted()
    ensures { (code : Code) (turns : ℕ) (counts : List ℕ) (c : Config) → Balanced counts c.state.memory → StepCounts code turns counts c }
{}
