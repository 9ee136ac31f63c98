// How many arguments members may have.
ghost use Rattle.std.specs.Prelude.{◌≡◌};
ghost use Rattle.vba_values.specs.declared.object.HostRef.TheVariants as host;
ghost use Rattle.sheet_host.specs.Members.{number_of};
ghost use Rattle.vba_meaning.specs.Memory.{Memory as PlainMemory};
ghost use Rattle.vba_meaning.specs.Host.{are_places, fits_in, takes};
ghost use Rattle.run_memory.specs.Acts.{Acts};
ghost use Rattle.run_host.specs.Members.{takes_none};

use sheet_host::HostMember;
use vba_base::OrMemory;
use vba_values::{Bad, HostRef};

const NONE: &[u32] = &[0];

const ONE: &[u32] = &[1];

const TWO: &[u32] = &[2];

const NONE_OR_TWO: &[u32] = &[0, 2];

const ONE_OR_TWO: &[u32] = &[1, 2];

const ONE_TO_THREE: &[u32] = &[1, 2, 3];

/// How many arguments a member may have, by its number.
pub fn takes(of: &HostRef, number: u16) -> &'static [u32]
    ensures { result.now ≡ takes of.now number }
{
    match of {
        HostRef::ErrObject => err_takes(number),
        HostRef::Sheets => sheets_take(number),
        HostRef::Sheet { sheet: _ } => sheet_takes(number),
        HostRef::Area {
            sheet: _,
            top: _,
            left: _,
            rows: _,
            columns: _,
        } => area_takes(number),
        HostRef::Application
        | HostRef::Workbook
        | HostRef::RowsOf { count: _ }
        | HostRef::ColumnsOf { count: _ } => NONE,
    }
}

fn err_takes(number: u16) -> &'static [u32]
    ensures { result.now ≡ takes host.ErrObject number }
{
    match number {
        4 => ONE_TO_THREE,
        _ => NONE,
    }
}

fn sheets_take(number: u16) -> &'static [u32]
    ensures { result.now ≡ takes host.Sheets number }
{
    match number {
        1 => ONE,
        _ => NONE,
    }
}

fn sheet_takes(number: u16) -> &'static [u32]
    ensures { result.now ≡ takes (host.Sheet 0) number }
{
    match number {
        2 => NONE_OR_TWO,
        3 => ONE_OR_TWO,
        _ => NONE,
    }
}

fn area_takes(number: u16) -> &'static [u32]
    ensures { result.now ≡ takes (host.Area 0 0 0 0 0) number }
{
    match number {
        7 => NONE_OR_TWO,
        8 | 9 | 10 => TWO,
        _ => NONE,
    }
}

/// Whether so many arguments are taken: 449 where one that there must be is lacking, 450 where there are too many.
pub fn fits_in(takes: &[u32], given: u32) -> Result<(), OrMemory<Bad>>
    ensures { (m : PlainMemory) → Acts (λ done. done) result m (fits_in takes.now given m) }
{
    match takes {
        [] => Err(OrMemory::Fault(Bad::Raise(450))),
        [count, others @ ..] => {
            if *count == given {
                return Ok(());
            }
            if given < *count {
                return Err(OrMemory::Fault(Bad::Raise(449)));
            }
            fits_in(others, given)
        }
    }
}

/// The number of a member.
pub fn number_of(how: HostMember) -> u16
    ensures { result ≡ number_of how }
{
    match how {
        HostMember::Read(number) | HostMember::Write(number) | HostMember::Call(number) => number,
    }
}

/// Whether arguments index the value of a member, which takes none itself.
pub fn are_places(of: &HostRef, how: HostMember, given: usize) -> bool
    ensures { result ≡ are_places of.now how given }
{
    if given == 0 {
        return false;
    }
    match how {
        HostMember::Read(number) | HostMember::Write(number) => takes_none(takes(of, number)),
        HostMember::Call(_) => false,
    }
}

fn takes_none(counts: &[u32]) -> bool
    ensures { result ≡ takes_none counts.now }
{
    matches!(counts, [0])
}
