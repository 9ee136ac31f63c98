//! The laws of objects. The functions do nothing: their contracts are the laws.
ghost use Rattle.std.specs.Prelude.{ℕ};
ghost use Rattle.sheet_host.specs.Books.{Sheets};
ghost use Rattle.bound_project.specs.Project.{Project};
ghost use Rattle.bound_project.specs.Whole.{IsWhole};
ghost use Rattle.vba_meaning.specs.Meaning.{meaning};
ghost use Rattle.pcode.specs.Instructions.{Code};
ghost use Rattle.pcode.specs.WellFormed.{WellFormed};
ghost use Rattle.object_counts.specs.Counting.{run_counted};
ghost use Rattle.object_lives.specs.Lives.{Alive, AliveAt, HasPlainDefaults};
ghost use Rattle.object_lives.specs.Meant.{CountsMean};
ghost use Rattle.object_lives.specs.Once.{ToldOnce};
ghost use Rattle.object_lives.specs.Referred.{ReferredAt};

/// For each project, book and bound on turns the run of its code by the machine that stores counts ends with the ending,
/// the last state and the events that the project means, and each stored count is right there.
pub fn counted_runs_are_meant()
    ensures { (pr : Project) (book : Sheets) (turns : ℕ) → CountsMean pr book turns }
{}

/// A run tells at most once that an object of a number was made, and at most once that it ends.
pub fn once_law()
    ensures { (pr : Project) (book : Sheets) (turns : ℕ) (number : ℕ) → ToldOnce number (meaning pr book turns).events }
{}

/// At each step of a well-formed code, and at every ending, each reference leads to an object that is there.
pub fn references_lead_to_objects()
    ensures { (code : Code) (book : Sheets) (turns : ℕ) (steps : ℕ) → WellFormed code → HasPlainDefaults code.declared → AliveAt (run_counted code book turns steps) }
{}

/// So it does in the state with which a run ends that a whole project means.
pub fn meant_references_lead_to_objects()
    ensures { (pr : Project) (book : Sheets) (turns : ℕ) → IsWhole pr → HasPlainDefaults pr.declared → Alive (meaning pr book turns).state.memory }
{}

/// At each step of a well-formed code an object whose stored count is 0 has ended; at an ending one may be about to.
pub fn objects_without_references_have_ended()
    ensures { (code : Code) (book : Sheets) (turns : ℕ) (steps : ℕ) → WellFormed code → HasPlainDefaults code.declared → ReferredAt (run_counted code book turns steps) }
{}
