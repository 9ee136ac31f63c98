//! The laws of locks. The functions do nothing: their contracts are the laws.
ghost use Rattle.std.specs.Prelude.{◌≡◌, ℕ, ◌==◌, not};
ghost use Rattle.sheet_host.specs.Books.{Sheets};
ghost use Rattle.bound_project.specs.Project.{Declarations, Project};
ghost use Rattle.vba_meaning.specs.Paths.{Path};
ghost use Rattle.vba_meaning.specs.Memory.{Memory, is_locked};
ghost use Rattle.array_locks.specs.Stored.{locked, AreFound, AreMeant};

/// Lock counts that are stored and follow each change of the memory, from the beginning of a run on, are at each place
/// as great as there are paths in the frames that lead through an array there, wherever the run comes.
pub fn stored_locks_are_found()
    ensures { (d : Declarations) (book : Sheets) → AreFound d book }
{}

/// So it is in the state with which a run ends that a project means, or in which it is going when its turns are over.
pub fn meant_locks_are_stored()
    ensures { (pr : Project) (book : Sheets) (turns : ℕ) → AreMeant pr book turns }
{}

/// What is at a place is locked, as the meaning asks, where that count isn't 0.
pub fn locks_are_asked()
    ensures { (m : Memory) (q : Path) → is_locked m q ≡ not (locked m q == 0) }
{}
