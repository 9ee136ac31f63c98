ghost use Rattle.std.specs.Prelude.{◌≡◌, List, Some};
ghost use Rattle.vba_words.specs.declared.identifier.Identifier.{Identifier};
ghost use Rattle.binder.specs.Sources.{Source};
ghost use Rattle.binder.specs.Scopes.{Outside, Scope, Use, Meant, in_procedure, declares};
ghost use Rattle.binder.specs.Violations.{project_violations, verdict, IsFirstBroken};

/// The verdict on S15 to S22 is the least refusal, by place and rule, of the first module that breaks one of them, and
/// there is none exactly where no module does. It holds of the definitions alone, and changes nothing.
#[tactic(auto, using(crate::proofs::FirstBroken::first_broken_least))]
pub fn verdicts_name_the_least()
    ensures { (outside : Outside) (sources : List Source)
        → IsFirstBroken (project_violations outside sources) (verdict outside sources) }
{}

/// What a procedure declares is found before all else ([MS-VBAL] 5.6.10). It holds of the definitions alone, and changes
/// nothing.
pub fn names_of_procedures_come_first()
    ensures { (how : Use) (scope : Scope) (x : Identifier) (meant : Meant)
        → in_procedure how scope x ≡ Some meant → declares how scope x ≡ Some meant }
{}
