//! The laws of links. The functions do nothing: their contracts are the laws.
ghost use Rattle.std.specs.Prelude.{ℕ};
ghost use Rattle.sheet_host.specs.Books.{Sheets};
ghost use Rattle.bound_project.specs.Project.{Declarations, Project};
ghost use Rattle.object_links.specs.Stored.{NamesOnce, AreFound, AreMeant};

/// Links that are stored and follow each change of the memory, from the beginning of a run on, are those that looking
/// over all objects finds, in the same order and with the same next number, wherever the run comes.
pub fn stored_links_are_found()
    ensures { (d : Declarations) (book : Sheets) → NamesOnce d → AreFound d book }
{}

/// So it is in the state with which a run ends that a project means, or in which it is going when its turns are over.
pub fn meant_links_are_stored()
    ensures { (pr : Project) (book : Sheets) (turns : ℕ) → NamesOnce pr.declared → AreMeant pr book turns }
{}
