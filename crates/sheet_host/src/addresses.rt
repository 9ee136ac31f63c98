ghost use Rattle.std.specs.Prelude.{◌≡◌, min, max, ◌-◌, ◌+◌, ◌≤◌, IfSome, IfOk, IfErr};
ghost use Rattle.std.specs.Option.{option_map};
ghost use Rattle.sheet_host.specs.Address.{IsAddress, area_between};
ghost use Rattle.sheet_host.specs.Area.{host_error};
ghost use Rattle.sheet_host.specs.Size.{IsAreaInside, IsInside};
ghost use Rattle.sheet_host.specs.AddressText.{area_of_text, last_corner};
ghost use Rattle.sheet_host.specs.declared.area.Area.{Area};

use crate::area::{Area, SheetId};
use crate::corner::{Corner, read_corner};
use crate::moving::HOST_ERROR;
use vba_values::Bad;

pub const COLON: u16 = 0x3a;

/// The area that a text is the address of: `[$]letters[$]digits`, or two such with `:` between them, in any ASCII case.
/// Corners are put in order, and zeros may stand before a row's digits. 1004 exactly for an address of another form or a
/// place outside the sheet.
pub fn area_of_text(sheet: SheetId, text: &[u16]) -> Result<Area, Bad>
    ensures area { result ≡ area_of_text sheet text.now }
    ensures address { IfOk result (λ area. IsAddress text.now area) }
    ensures inside { IfOk result (λ area. IsAreaInside area) }
    ensures other { IfErr result (λ bad. (bad ≡ host_error) × ((area : Area) → area.sheet ≡ sheet → ¬ (IsAddress text.now area))) }
{
    read_area(sheet, text)
}

fn read_area(sheet: SheetId, text: &[u16]) -> Result<Area, Bad>
    ensures area { result ≡ area_of_text sheet text.now }
    ensures inside { IfOk result (λ area. IsAreaInside area) }
{
    let Some((first, rest)) = read_corner(text) else {
        return Err(HOST_ERROR);
    };
    match last_corner(first, rest) {
        Some(last) => Ok(area_between(sheet, first, last)),
        None => Err(HOST_ERROR),
    }
}

/// The last cell, from what stands behind the first one.
fn last_corner(first: Corner, rest: &[u16]) -> Option<Corner>
    requires { IsInside first.row first.column }
    ensures corner { result ≡ last_corner first rest.now }
    ensures inside { IfSome result (λ c. IsInside c.row c.column) }
{
    match rest {
        [] => Some(first),
        [COLON, rest @ ..] => match read_corner(rest) {
            Some((last, [])) => Some(last),
            _ => None,
        },
        _ => None,
    }
}

/// The smallest area that holds both cells.
fn area_between(sheet: SheetId, first: Corner, last: Corner) -> Area
    requires first { IsInside first.row first.column }
    requires last { IsInside last.row last.column }
    ensures area { result ≡ area_between sheet first last }
    ensures inside { IsAreaInside result }
{
    let top = first.row.min(last.row);
    let left = first.column.min(last.column);
    Area {
        sheet,
        top,
        left,
        rows: first.row.max(last.row) - top + 1,
        columns: first.column.max(last.column) - left + 1,
    }
}
