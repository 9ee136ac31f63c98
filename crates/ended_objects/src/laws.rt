//! The law of objects that have ended. The function does nothing: its contract is the law.
ghost use Rattle.std.specs.Prelude.{ℕ};
ghost use Rattle.sheet_host.specs.Books.{Sheets};
ghost use Rattle.bound_project.specs.Project.{Project};
ghost use Rattle.bound_project.specs.Whole.{IsWhole};
ghost use Rattle.pcode.specs.Layout.{code_of};
ghost use Rattle.object_counts.specs.Counting.{run_counted};
ghost use Rattle.object_lives.specs.Lives.{HasPlainDefaults};
ghost use Rattle.object_paths.specs.Blocks.{BlocksKeepOwn};
ghost use Rattle.ended_objects.specs.Alike.{AlikeAt};

/// At each step of the code of a project whose With blocks keep no place in a variable of an object that an expression
/// gives, and at every ending, nothing names an object that has ended, but for links that a raise has still to ask.
pub fn ended_objects_are_named_nowhere()
    ensures { (pr : Project) (book : Sheets) (turns : ℕ) (steps : ℕ) → IsWhole pr → HasPlainDefaults pr.declared → BlocksKeepOwn pr → AlikeAt (run_counted (code_of pr) book turns steps) }
{}
