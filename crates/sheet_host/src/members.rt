ghost use Rattle.std.specs.Prelude.{◌≡◌, map, bytes_eq};
ghost use Rattle.sheet_host.specs.Members.{entry_of, first_named, member_of, members_of};

use vba_base::Name;
use vba_values::{Bad, HostRef};

/// How a member of a host object is used: it is read, read and written, or called. The number tells it from the other
/// members of its object.
#[derive(Clone, Copy, Debug, PartialEq, Eq)]
pub enum HostMember {
    Read(u16),
    Write(u16),
    Call(u16),
}

/// Members under their folded names.
type Members = &'static [(&'static [u8], HostMember)];

const APPLICATION: Members = &[
    (b"enableevents", HostMember::Write(0)),
    (b"screenupdating", HostMember::Write(1)),
    (b"displayalerts", HostMember::Write(2)),
];

const WORKBOOK: Members = &[
    (b"worksheets", HostMember::Read(0)),
    (b"sheets", HostMember::Read(1)),
];

const SHEETS: Members = &[
    (b"count", HostMember::Read(0)),
    (b"item", HostMember::Read(1)),
];

const ERR_OBJECT: Members = &[
    (b"number", HostMember::Read(0)),
    (b"source", HostMember::Read(1)),
    (b"description", HostMember::Read(2)),
    (b"clear", HostMember::Call(3)),
    (b"raise", HostMember::Call(4)),
];

const SHEET: Members = &[
    (b"name", HostMember::Read(0)),
    (b"index", HostMember::Read(1)),
    (b"cells", HostMember::Read(2)),
    (b"range", HostMember::Read(3)),
    (b"usedrange", HostMember::Read(4)),
];

const AREA: Members = &[
    (b"value", HostMember::Write(0)),
    (b"address", HostMember::Read(1)),
    (b"row", HostMember::Read(2)),
    (b"column", HostMember::Read(3)),
    (b"count", HostMember::Read(4)),
    (b"rows", HostMember::Read(5)),
    (b"columns", HostMember::Read(6)),
    (b"cells", HostMember::Read(7)),
    (b"item", HostMember::Read(8)),
    (b"offset", HostMember::Read(9)),
    (b"resize", HostMember::Read(10)),
    (b"clearcontents", HostMember::Call(11)),
    (b"worksheet", HostMember::Read(12)),
    (b"parent", HostMember::Read(13)),
];

const ROWS_OR_COLUMNS: Members = &[(b"count", HostMember::Read(0))];

/// The member of an object with this name, in any case. 438 exactly where there is none.
pub fn member(of: &HostRef, name: &Name) -> Result<HostMember, Bad>
    ensures { result ≡ member_of of.now name.now }
{
    member_named(of, name.units())
}

/// The member of an object with these units as its folded name. 438 exactly where there is none.
pub fn member_named(of: &HostRef, name: &[u16]) -> Result<HostMember, Bad>
    ensures { result ≡ member_of of.now name.now }
{
    first_named(name, members_of(of))
}

fn members_of(of: &HostRef) -> Members
    ensures { map (λ m. (m.0.now, m.1)) result.now ≡ map entry_of (members_of of.now) }
{
    match of {
        HostRef::Application => APPLICATION,
        HostRef::Workbook => WORKBOOK,
        HostRef::Sheets => SHEETS,
        HostRef::ErrObject => ERR_OBJECT,
        HostRef::Sheet { .. } => SHEET,
        HostRef::Area { .. } => AREA,
        HostRef::RowsOf { .. } | HostRef::ColumnsOf { .. } => ROWS_OR_COLUMNS,
    }
}

fn first_named(name: &[u16], members: Members) -> Result<HostMember, Bad>
    ensures { result ≡ first_named name.now (map (λ m. (m.0.now, m.1)) members.now) }
{
    for (own, how) in members {
        if is_word(name, own) {
            return Ok(*how);
        }
    }
    Err(Bad::Raise(438))
}

/// Whether these are the units of an ASCII word.
fn is_word(name: &[u16], word: &[u8]) -> bool
    ensures { result ≡ bytes_eq name.now word.now }
{
    match (name, word) {
        ([], []) => true,
        ([unit, units @ ..], [byte, bytes @ ..]) => *unit == u16::from(*byte)
            && is_word(units, bytes),
        _ => false,
    }
}
