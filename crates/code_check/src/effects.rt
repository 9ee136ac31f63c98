// What each instruction does to the kinds of operands.
ghost use Rattle.std.specs.Prelude.{◌≡◌, List, [], None, length};
ghost use Rattle.bound_project.specs.Pieces.{Tables, flags_in};
ghost use Rattle.pcode.specs.View.{instr_view};
ghost use Rattle.pcode.specs.WellFormed.{Kind, along, brings, brings_value, no_way, taken_off};
ghost use Rattle.code_check.specs.Effects.{begun_by, behind_effect, values_off};

use bound_project::LateName;
use pcode::Instr;

/// What an instruction takes off the stack, the last operand first: values, operands of any kind, and paths.
#[derive(Clone, Copy)]
pub enum Takes {
    Values(u32),
    PathAndValues(u32),
    CountedAndValues(u32, u32),
    CountedPathAndValues(u32, u32),
    PathAndCounted(u32),
    ValueAndPath,
}

/// What it puts there; at a statement's end nothing may be left.
#[derive(Clone, Copy)]
pub enum Gives {
    Nothing,
    Value,
    Path,
    TwoValues,
    PathAndTwoValues,
    End,
}

/// A statement begins, a procedure ends, arguments are put in order or above the value below them, or operands are taken
/// and given.
#[derive(Clone, Copy)]
pub enum Effect {
    Begins,
    Leaves,
    Reorders { order: u32, arguments: u32 },
    Lifts { arguments: u32 },
    Does(Takes, Gives),
}

// The effect of what is done with a late-bound member, whose arguments stand above so many values.
fn late_effect(member: LateName, values: u32) -> Effect
    ensures without { begun_by result ≡ None }
    ensures with { (t : Tables) (ks : List Kind) → taken_off (length (flags_in t member)) ks [] (λ xs js. values_off values js brings_value) ≡ behind_effect t result ks }
{
    Effect::Does(
        Takes::CountedAndValues(member.arguments, values),
        Gives::Value,
    )
}

// The effect of each instruction.
pub fn effect_of(instr: Instr) -> Effect
    ensures without { (t : Tables) → along (instr_view t instr) no_way ≡ begun_by result }
    ensures with { (t : Tables) (ks : List Kind) → along (instr_view t instr) (brings ks) ≡ behind_effect t result ks }
{
    match instr {
        Instr::Begin { .. } => Effect::Begins,
        Instr::Leave => Effect::Leaves,
        Instr::Reorder { order, arguments } => Effect::Reorders { order, arguments },
        Instr::Lift { arguments } => Effect::Lifts { arguments },
        Instr::Push { .. }
        | Instr::PushHost(_)
        | Instr::LoadErr(_)
        | Instr::FirstSheet
        | Instr::PushThis
        | Instr::NextRound { .. }
        | Instr::NextItem { .. }
        | Instr::Selected { .. } => Effect::Does(Takes::Values(0), Gives::Value),
        Instr::PathOf(_) | Instr::Dot { .. } => Effect::Does(Takes::Values(0), Gives::Path),
        Instr::PartOf { .. }
        | Instr::OperateAlone { .. }
        | Instr::Plain
        | Instr::PlainIfAny
        | Instr::Enumerate
        | Instr::BindValue { .. }
        | Instr::ObjectThere
        | Instr::IsType(_)
        | Instr::Fit(_)
        | Instr::FitObject(_)
        | Instr::ShowText => Effect::Does(Takes::Values(1), Gives::Value),
        Instr::New { .. } => Effect::Does(Takes::Values(0), Gives::TwoValues),
        Instr::FieldIn { .. } | Instr::LateField { .. } | Instr::PlaceOf => Effect::Does(
            Takes::Values(1),
            Gives::Path,
        ),
        Instr::MakeThere => Effect::Does(Takes::PathAndValues(0), Gives::PathAndTwoValues),
        Instr::StoreMade => Effect::Does(Takes::ValueAndPath, Gives::Path),
        Instr::MemberThere { .. } | Instr::NamedThere { .. } | Instr::FindLate { .. } => {
            Effect::Does(Takes::Values(1), Gives::TwoValues)
        }
        Instr::Operate { .. } | Instr::Same | Instr::WriteThrough => Effect::Does(
            Takes::Values(2),
            Gives::Value,
        ),
        Instr::LoopOn { .. } => Effect::Does(Takes::Values(3), Gives::Value),
        Instr::Drop | Instr::Keep { .. } | Instr::EachOn { .. } => Effect::Does(
            Takes::Values(1),
            Gives::Nothing,
        ),
        Instr::StoreDefault | Instr::SetMember | Instr::IfFits { .. } => Effect::Does(
            Takes::Values(2),
            Gives::Nothing,
        ),
        Instr::IfBetween { .. } => Effect::Does(Takes::Values(3), Gives::Nothing),
        Instr::LoopOff { .. }
        | Instr::EachOff { .. }
        | Instr::DropKept { .. }
        | Instr::PutReturn { .. }
        | Instr::SetPolicy(_)
        | Instr::HandlerOff
        | Instr::ErrOff
        | Instr::StopHere => Effect::Does(Takes::Values(0), Gives::Nothing),
        Instr::ReadThrough | Instr::BoundAt { .. } => Effect::Does(
            Takes::PathAndValues(0),
            Gives::Value,
        ),
        Instr::FieldOf { .. } | Instr::AsNew { .. } | Instr::Lend | Instr::BindPlace { .. } => {
            Effect::Does(Takes::PathAndValues(0), Gives::Path)
        }
        Instr::EraseAt | Instr::KeepPath { .. } => Effect::Does(
            Takes::PathAndValues(0),
            Gives::Nothing,
        ),
        Instr::Store | Instr::SetAt => Effect::Does(Takes::PathAndValues(1), Gives::Nothing),
        Instr::ElementOf { numbers } => Effect::Does(Takes::PathAndCounted(numbers), Gives::Path),
        Instr::ElementIn { numbers } => Effect::Does(
            Takes::CountedPathAndValues(numbers, 0),
            Gives::Path,
        ),
        Instr::ElementAlong { arguments } => Effect::Does(
            Takes::CountedPathAndValues(arguments, 0),
            Gives::Path,
        ),
        Instr::LetElement { numbers } | Instr::SetElement { numbers } => Effect::Does(
            Takes::CountedPathAndValues(numbers, 1),
            Gives::Value,
        ),
        Instr::Redim { bounds, .. } => Effect::Does(
            Takes::CountedPathAndValues(bounds, 0),
            Gives::Nothing,
        ),
        Instr::Pack { arguments }
        | Instr::Call { arguments, .. }
        | Instr::Library { arguments, .. } => Effect::Does(
            Takes::CountedAndValues(arguments, 0),
            Gives::Value,
        ),
        Instr::Index { numbers } => Effect::Does(Takes::CountedAndValues(numbers, 1), Gives::Value),
        Instr::CallOf { arguments, .. } | Instr::ItemAlong { arguments } => Effect::Does(
            Takes::CountedAndValues(arguments, 1),
            Gives::Value,
        ),
        Instr::CallLate(member) => late_effect(member, 2),
        Instr::LetLate(member) | Instr::SetLate(member) => late_effect(member, 3),
        Instr::MemberOf { arguments, .. } | Instr::NamedOf { arguments, .. } => Effect::Does(
            Takes::CountedAndValues(arguments, 2),
            Gives::Value,
        ),
        Instr::StoreItem { numbers } => Effect::Does(
            Takes::CountedAndValues(numbers, 2),
            Gives::Nothing,
        ),
        Instr::StoreMember { arguments, .. } => Effect::Does(
            Takes::CountedAndValues(arguments, 3),
            Gives::Nothing,
        ),
        Instr::RaiseEvent { arguments, .. } => Effect::Does(
            Takes::CountedAndValues(arguments, 0),
            Gives::Nothing,
        ),
        Instr::Show { items, .. } => Effect::Does(
            Takes::CountedAndValues(items, 0),
            Gives::Nothing,
        ),
        Instr::Throw { arguments } => Effect::Does(
            Takes::CountedAndValues(arguments, 0),
            Gives::End,
        ),
        Instr::Branch { .. } => Effect::Does(Takes::Values(1), Gives::End),
        Instr::TakeReturn { .. }
        | Instr::Again { .. }
        | Instr::Behind { .. }
        | Instr::Resumes { .. }
        | Instr::Finish { .. }
        | Instr::Halt => Effect::Does(Takes::Values(0), Gives::End),
    }
}
