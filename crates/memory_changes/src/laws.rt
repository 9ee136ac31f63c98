//! The laws of changes. The functions do nothing: their contracts are the laws.
ghost use Rattle.std.specs.Prelude.{ℕ};
ghost use Rattle.sheet_host.specs.Books.{Sheets};
ghost use Rattle.bound_project.specs.Project.{Project};
ghost use Rattle.pcode.specs.Instructions.{Code};
ghost use Rattle.pcode.specs.Machine.{Choices, Config};
ghost use Rattle.memory_changes.specs.Reached.{StepRows, RunRow, MeantRow};

/// Each step of each code leads from a memory by a row of changes to each memory to which it leads.
pub fn steps_are_rows_of_changes()
    ensures { (code : Code) (by : Choices) (c : Config) → StepRows code by c }
{}

/// So does a run of a code over a book, with a bound on turns, from the memory with which it begins to that with which
/// it ends, or in which it still is going.
pub fn runs_are_rows_of_changes()
    ensures { (code : Code) (book : Sheets) (turns : ℕ) (steps : ℕ) → RunRow code book turns steps }
{}

/// So does what a project means.
pub fn meant_runs_are_rows_of_changes()
    ensures { (pr : Project) (book : Sheets) (turns : ℕ) → MeantRow pr book turns }
{}
