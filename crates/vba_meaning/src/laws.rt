ghost use Rattle.std.specs.Prelude.{◌≡◌, ℕ, []};
ghost use Rattle.sheet_host.specs.Books.{Sheets};
ghost use Rattle.bound_project.specs.Project.{Project};
ghost use Rattle.vba_meaning.specs.Memory.{Going};
ghost use Rattle.vba_meaning.specs.Meaning.{meaning};

/// A run that may begin no turn is going and tells nothing, since entering the startup macro is one. It holds of the
/// meaning alone, and changes nothing.
pub fn runs_without_turns_tell_nothing()
    ensures ending { (pr : Project) (book : Sheets) → (meaning pr book 0).ending ≡ Going }
    ensures events { (pr : Project) (book : Sheets) → (meaning pr book 0).events ≡ [] }
{}
