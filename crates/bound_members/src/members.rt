//! The members of objects, by their folded names.

ghost use Rattle.std.specs.Prelude.{◌≡◌, IfOk, Some, bytes_eq, map, option_map};
ghost use Rattle.bound_project.specs.DraftView.{draft_view};
ghost use Rattle.vba_values.specs.Val.{text};
ghost use Rattle.vba_values.specs.View.{view};
ghost use Rattle.bound_project.specs.Pieces.{Tables};
ghost use Rattle.bound_project.specs.View.{declared_view};
ghost use Rattle.bound_calls.specs.bound_forms.specs.Members as members_bound;
ghost use Rattle.bound_calls.specs.bound_forms.specs.ExpressionsBound as bound;
ghost use Rattle.bound_members.specs.Kinds.{kind_view};
ghost use Rattle.bound_members.specs.declared.kinds.HostKind as declared;
ghost use Rattle.bound_members.specs.Members.{Finds, FindsLate, FindsMember, entry_member, found_member, is_workbook, listed};
ghost use Rattle.bound_calls.specs.Standing.{member_is};

use crate::kinds::HostKind;
use bound_calls::bound_declarations::NotYet;
use bound_calls::{HostMember, constant_number};
use bound_project::{DeclaredType, Draft, ElementType};
use vba_base::{NoMemory, OrMemory, Units};
use vba_values::Value;

/// A member: the type of what it gives, and the least and, where it is known, the greatest number of its arguments.
#[derive(Clone, Copy)]
pub struct Known {
    pub of: ElementType,
    pub least: u32,
    pub greatest: Option<u32>,
}

/// Members under their folded names.
type Members = &'static [(&'static [u8], Known)];

const MARKS: Members = &[
    (
        b"enableevents",
        Known {
            of: ElementType::Boolean,
            least: 0,
            greatest: Some(0),
        },
    ),
    (
        b"screenupdating",
        Known {
            of: ElementType::Boolean,
            least: 0,
            greatest: Some(0),
        },
    ),
    (
        b"displayalerts",
        Known {
            of: ElementType::Boolean,
            least: 0,
            greatest: Some(0),
        },
    ),
];

const SHEETS: Members = &[
    (
        b"count",
        Known {
            of: ElementType::Long,
            least: 0,
            greatest: Some(0),
        },
    ),
    (
        b"item",
        Known {
            of: ElementType::Worksheet,
            least: 1,
            greatest: Some(1),
        },
    ),
];

const SHEET: Members = &[
    (
        b"name",
        Known {
            of: ElementType::Text,
            least: 0,
            greatest: Some(0),
        },
    ),
    (
        b"index",
        Known {
            of: ElementType::Long,
            least: 0,
            greatest: Some(0),
        },
    ),
    (
        b"cells",
        Known {
            of: ElementType::Range,
            least: 0,
            greatest: Some(2),
        },
    ),
    (
        b"range",
        Known {
            of: ElementType::Range,
            least: 1,
            greatest: Some(2),
        },
    ),
    (
        b"usedrange",
        Known {
            of: ElementType::Range,
            least: 0,
            greatest: Some(0),
        },
    ),
];

const AREA: Members = &[
    (
        b"value",
        Known {
            of: ElementType::Variant,
            least: 0,
            greatest: Some(0),
        },
    ),
    (
        b"address",
        Known {
            of: ElementType::Text,
            least: 0,
            greatest: Some(0),
        },
    ),
    (
        b"row",
        Known {
            of: ElementType::Long,
            least: 0,
            greatest: Some(0),
        },
    ),
    (
        b"column",
        Known {
            of: ElementType::Long,
            least: 0,
            greatest: Some(0),
        },
    ),
    (
        b"count",
        Known {
            of: ElementType::Long,
            least: 0,
            greatest: Some(0),
        },
    ),
    (
        b"rows",
        Known {
            of: ElementType::Object,
            least: 0,
            greatest: Some(0),
        },
    ),
    (
        b"columns",
        Known {
            of: ElementType::Object,
            least: 0,
            greatest: Some(0),
        },
    ),
    (
        b"cells",
        Known {
            of: ElementType::Range,
            least: 0,
            greatest: Some(2),
        },
    ),
    (
        b"item",
        Known {
            of: ElementType::Range,
            least: 2,
            greatest: Some(2),
        },
    ),
    (
        b"offset",
        Known {
            of: ElementType::Range,
            least: 2,
            greatest: Some(2),
        },
    ),
    (
        b"resize",
        Known {
            of: ElementType::Range,
            least: 2,
            greatest: Some(2),
        },
    ),
    (
        b"clearcontents",
        Known {
            of: ElementType::Variant,
            least: 0,
            greatest: Some(0),
        },
    ),
    (
        b"worksheet",
        Known {
            of: ElementType::Worksheet,
            least: 0,
            greatest: Some(0),
        },
    ),
    (
        b"parent",
        Known {
            of: ElementType::Worksheet,
            least: 0,
            greatest: Some(0),
        },
    ),
];

const COLLECTION: Members = &[
    (
        b"add",
        Known {
            of: ElementType::Variant,
            least: 1,
            greatest: Some(4),
        },
    ),
    (
        b"count",
        Known {
            of: ElementType::Long,
            least: 0,
            greatest: Some(0),
        },
    ),
    (
        b"item",
        Known {
            of: ElementType::Variant,
            least: 1,
            greatest: Some(1),
        },
    ),
    (
        b"remove",
        Known {
            of: ElementType::Variant,
            least: 1,
            greatest: Some(1),
        },
    ),
    (
        b"_newenum",
        Known {
            of: ElementType::Collection,
            least: 0,
            greatest: Some(0),
        },
    ),
];

fn members_of(kind: HostKind) -> Members
    ensures { map (λ m. entry_member (m.0.now, m.1)) result.now ≡ listed (kind_view kind) }
{
    match kind {
        HostKind::Application => MARKS,
        HostKind::Workbook => &[],
        HostKind::Sheets => SHEETS,
        HostKind::Sheet => SHEET,
        HostKind::Area => AREA,
        HostKind::Collection => COLLECTION,
        HostKind::AnyObject => &[],
    }
}

/// Has a text these ASCII characters?
pub fn is_word(text: &[u16], word: &[u8]) -> bool
    ensures { result ≡ bytes_eq text.now word.now }
{
    match text {
        [] => word.is_empty(),
        [unit, text @ ..] => match word {
            [] => false,
            [character, word @ ..] => *unit == u16::from(*character) && is_word(text, word),
        },
    }
}

fn first_named(name: &[u16], members: Members) -> Option<Known>
    ensures { option_map (found_member name.now) result ≡ members_bound.listed_member (map (λ m. entry_member (m.0.now, m.1)) members.now) name.now }
{
    for (own, known) in members {
        if is_word(name, own) {
            return Some(*known);
        }
    }
    None
}

/// The member with a name of a kind of objects; of an object of an unknown kind the run decides.
fn known_member(kind: HostKind, name: &[u16]) -> Option<Known>
    ensures { option_map (found_member name.now) result ≡ members_bound.member_in (kind_view kind) name.now }
{
    match kind {
        HostKind::AnyObject => Some(Known {
            of: ElementType::Variant,
            least: 0,
            greatest: None,
        }),
        _ => first_named(name, members_of(kind)),
    }
}

fn text_value(units: Units) -> Value
    ensures { view result ≡ text units }
{
    Value::Text(units)
}

/// Is it the workbook, whose sheets are found in another way?
fn is_workbook(kind: HostKind) -> bool
    ensures { result ≡ is_workbook (kind_view kind) }
{
    match kind {
        HostKind::Workbook => true,
        _ => false,
    }
}

/// A member of which this is known, by its folded name, which becomes a constant.
fn named_member(draft: &mut Draft, known: Known, name: Units) -> Result<HostMember, NoMemory>
    ensures { IfOk result (λ member. (kind : declared.HostKind) → members_bound.member_in (kind_view kind) name ≡ Some (found_member name known)
        → FindsMember kind name (draft_view draft.old) (draft_view draft.new) member) }
{
    let constant = constant_number(draft, text_value(name))?;
    Ok(HostMember {
        name: constant,
        of: DeclaredType::Plain(known.of),
        least: known.least,
        greatest: known.greatest,
        is_late: false,
    })
}

/// A member that the run finds among those of classes too, by its folded name, which becomes a constant.
pub fn found_late(draft: &mut Draft, name: Units) -> Result<HostMember, NoMemory>
    ensures { IfOk result (λ member. FindsLate name (draft_view draft.old) (draft_view draft.new) member) }
{
    let constant = constant_number(draft, text_value(name))?;
    Ok(HostMember {
        name: constant,
        of: DeclaredType::Plain(ElementType::Variant),
        least: 0,
        greatest: None,
        is_late: true,
    })
}

/// A member of an object of a kind, by its folded name, which becomes a constant; none where there is none. The sheets of
/// the workbook are found in another way.
pub fn find_member(
    draft: &mut Draft,
    kind: HostKind,
    name: Units,
) -> Result<Option<HostMember>, OrMemory<NotYet>>
    ensures { IfOk result (λ found. Finds kind name (draft_view draft.old) (draft_view draft.new) found) }
{
    if is_workbook(kind) {
        return Err(OrMemory::Fault(NotYet));
    }
    match known_member(kind, name.units()) {
        None => Ok(None),
        Some(known) => {
            let member = named_member(draft, known, name)?;
            Ok(Some(member))
        }
    }
}

/// Is a range, or another object, indexed by so many numbers behind a member that takes none?
fn takes_behind(of: DeclaredType, count: u32) -> bool
    ensures { result ≡ bound.takes_behind (declared_view of) count }
{
    match of {
        DeclaredType::Plain(ElementType::Variant) => true,
        DeclaredType::Plain(ElementType::Range) => count == 2,
        _ => false,
    }
}

/// Does a member take so many arguments? One that takes two or none doesn't take one.
pub fn takes_arguments(member: HostMember, count: u32) -> bool
    ensures { (t : Tables) → result ≡ bound.takes_arguments (member_is t member) count }
{
    match member.greatest {
        None => true,
        Some(0) => takes_behind(member.of, count),
        Some(greatest) => {
            let is_half = member.least == 0 && count == 1;
            member.least <= count && (count <= greatest && !is_half)
        }
    }
}

/// Is a member Add of a Collection? No other one takes four arguments.
pub fn is_add(member: HostMember) -> bool
    ensures { (t : Tables) → result ≡ bound.is_add (member_is t member) }
{
    match member.greatest {
        None => false,
        Some(greatest) => greatest == 4,
    }
}
