//! The laws of paths. The functions do nothing: their contracts are the laws.
ghost use Rattle.std.specs.Prelude.{ℕ};
ghost use Rattle.sheet_host.specs.Books.{Sheets};
ghost use Rattle.bound_project.specs.Project.{Project};
ghost use Rattle.bound_project.specs.Whole.{IsWhole};
ghost use Rattle.vba_meaning.specs.Meaning.{meaning};
ghost use Rattle.pcode.specs.Layout.{code_of};
ghost use Rattle.object_counts.specs.Counting.{run_counted};
ghost use Rattle.object_lives.specs.Lives.{HasPlainDefaults};
ghost use Rattle.object_paths.specs.Blocks.{BlocksKeepOwn};
ghost use Rattle.object_paths.specs.Leads.{AllLead, LeadAt};

/// At each step of the code of a project whose With blocks keep no place in a variable of an object that an expression
/// gives, and at every ending, each path leads to an object that is there.
pub fn paths_lead_to_objects()
    ensures { (pr : Project) (book : Sheets) (turns : ℕ) (steps : ℕ) → IsWhole pr → HasPlainDefaults pr.declared → BlocksKeepOwn pr → LeadAt (run_counted (code_of pr) book turns steps) }
{}

/// So does each path of a frame in the state with which a run ends that such a project means, or in which it is going
/// when its turns are over.
pub fn meant_paths_lead_to_objects()
    ensures { (pr : Project) (book : Sheets) (turns : ℕ) → IsWhole pr → HasPlainDefaults pr.declared → BlocksKeepOwn pr → AllLead (meaning pr book turns).state.memory }
{}
