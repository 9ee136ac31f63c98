//! What an object is, where that is known before the run.

ghost use Rattle.std.specs.Prelude.{◌≡◌, IfSome, MatchBool, false, option_map, true};
ghost use Rattle.bound_project.specs.DraftView.{draft_view};
ghost use Rattle.bound_project.specs.View.{declared_view};
ghost use Rattle.bound_calls.specs.bound_forms.specs.Operands.{kind_by_type, kind_of_object};
ghost use Rattle.bound_calls.specs.References.{IsFoundLate, is_typed_kind};
ghost use Rattle.bound_members.specs.Kinds.{EndingOfKind, kind_view};

use bound_calls::{Ending, is_found_late, is_typed_kind};
use bound_project::{DeclaredType, Draft, ElementType, NodeKind};
use vba_values::HostRef;

/// What an object is: Application, the workbook, its sheets, a sheet, a range, a Collection, or what the run decides.
#[derive(Clone, Copy)]
pub enum HostKind {
    Application,
    Workbook,
    Sheets,
    Sheet,
    Area,
    Collection,
    AnyObject,
}

/// What an object of a declared type is; none where the type has no members of its own. What a Variant has the run decides.
pub fn kind_of_type(of: DeclaredType) -> Option<HostKind>
    ensures { option_map kind_view result ≡ kind_by_type (declared_view of) }
{
    match of {
        DeclaredType::Plain(ElementType::Collection) => Some(HostKind::Collection),
        DeclaredType::Plain(ElementType::Worksheet) => Some(HostKind::Sheet),
        DeclaredType::Plain(ElementType::Range) => Some(HostKind::Area),
        DeclaredType::Plain(ElementType::Object) => Some(HostKind::AnyObject),
        DeclaredType::Plain(ElementType::Variant) => Some(HostKind::AnyObject),
        _ => None,
    }
}

fn kind_of_object(reference: HostRef) -> Option<HostKind>
    ensures { option_map kind_view result ≡ kind_of_object reference }
{
    match reference {
        HostRef::Application => Some(HostKind::Application),
        HostRef::Workbook => Some(HostKind::Workbook),
        HostRef::Sheets => Some(HostKind::Sheets),
        _ => None,
    }
}

/// What the object is that a value gives by its type.
fn kind_by_type(ending: Ending) -> Option<HostKind>
    requires { is_typed_kind ending.kind ≡ true }
    ensures { IfSome result (λ kind. EndingOfKind ending kind) }
{
    kind_of_type(ending.of)
}

/// What the object is that a value gives whose last node isn't pushed yet.
pub fn kind_of_ending(ending: Ending) -> Option<HostKind>
    ensures { IfSome result (λ kind. EndingOfKind ending kind) }
{
    if is_typed_kind(ending.kind) {
        return kind_by_type(ending);
    }
    match ending.kind {
        NodeKind::HostObject(reference) => kind_of_object(reference),
        _ => None,
    }
}

/// Does the run find the members of a value whose last node isn't pushed yet? What isn't known is left open.
pub fn is_known_late(has_class: bool, draft: &Draft, ending: Ending) -> bool
    ensures { MatchBool result (IsFoundLate has_class (draft_view draft.now).tables ending true) (Unit {0}) }
{
    match is_found_late(has_class, draft, ending) {
        Some(is_late) => is_late,
        None => false,
    }
}

/// Is it known that it doesn't?
pub fn is_known_early(has_class: bool, draft: &Draft, ending: Ending) -> bool
    ensures { MatchBool result (IsFoundLate has_class (draft_view draft.now).tables ending false) (Unit {0}) }
{
    match is_found_late(has_class, draft, ending) {
        Some(is_late) => !is_late,
        None => false,
    }
}
