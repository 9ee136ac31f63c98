//! The laws of ids. The functions do nothing: their contracts are the laws.
ghost use Rattle.std.specs.Prelude.{ℕ, List};
ghost use Rattle.sheet_host.specs.Books.{Sheets};
ghost use Rattle.bound_project.specs.Project.{Declarations, Project};
ghost use Rattle.object_ids.specs.Stored.{GivesFree, AreFound, AreMeant};

/// Whichever id that isn't in use a new object takes, and though ids are given again: wherever a run comes, the objects
/// that are there have an id each, no others have one, and no two have the same.
pub fn ids_tell_objects_apart()
    ensures { (d : Declarations) (book : Sheets) (pick : List ℕ → ℕ) → GivesFree pick → AreFound d book pick }
{}

/// So it is in the state with which a run ends that a project means, or in which it is going when its turns are over.
pub fn meant_ids_tell_objects_apart()
    ensures { (pr : Project) (book : Sheets) (turns : ℕ) (pick : List ℕ → ℕ) → GivesFree pick → AreMeant pr book turns pick }
{}
