//! The laws of runs. The functions do nothing: their contracts are the laws.
ghost use Rattle.std.specs.Prelude.{ℕ, ◌≤◌};
ghost use Rattle.sheet_host.specs.Books.{Sheets};
ghost use Rattle.bound_project.specs.Project.{Project};
ghost use Rattle.vba_meaning.specs.Meaning.{meaning};
ghost use Rattle.pcode.specs.Layout.{code_of};
ghost use Rattle.simulation.specs.Meant.{Begins, Means};

/// For each project, book and bound on turns the run of its code ends, and with the ending, the last state and the
/// events that the project means; it never lacks an operand or an instruction.
pub fn runs_are_meant()
    ensures { (pr : Project) (book : Sheets) (turns : ℕ) → Means pr book turns (code_of pr) }
{}

/// What a run of at most so many turns tells begins what a run of more turns tells.
pub fn prefix_law()
    ensures { (pr : Project) (book : Sheets) (turns : ℕ) (more : ℕ) → turns ≤ more → Begins (meaning pr book turns).events (meaning pr book more).events }
{}
