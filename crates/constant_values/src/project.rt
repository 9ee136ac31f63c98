//! The values of the entries of a project, round by round.

ghost use Rattle.std.specs.Prelude.{◌≡◌, [], IfOk, map};
ghost use Rattle.declared_names.specs.binder.specs.Constants.{all_entries};
ghost use Rattle.declared_names.specs.Outside.{the_outside};
ghost use Rattle.declared_names.specs.View.{space_view};
ghost use Rattle.constant_values.specs.Names as plain;
ghost use Rattle.constant_values.specs.Rounds.{AreNumbered};
ghost use Rattle.constant_values.specs.Tables.{AreProjectValues};
ghost use Rattle.constant_values.specs.View.{tables_view};

use crate::known::Known;
use crate::names::Names;
use crate::slots::are_same_tables;
use crate::tables::entries_by;
use declared_names::Space;
use std::alloc::Global;
use std::mem::replace;
use vba_base::NoMemory;

/// The values of the entries of all modules: through no constant, through one and so on. Where a round changes nothing
/// the values have come to rest; else (a length that isn't known counts as 0, so that they may alternate) there are as
/// many rounds as entries.
#[derive(Drop)]
pub struct ProjectValues {
    pub(crate) earlier: Vec<Vec<Vec<Option<Known>>>>,
    pub(crate) last: Vec<Vec<Option<Known>>>,
    pub(crate) is_settled: bool,
}

/// How many entries modules have.
pub fn all_entries(spaces: &[Space]) -> Result<usize, NoMemory>
    ensures { IfOk result (λ count. count ≡ all_entries (map space_view spaces.now)) }
{
    let mut count: usize = 0;
    let mut left = spaces;
    while let [space, rest @ ..] = left {
        count = count.checked_add(space.entries.len()).ok_or(NoMemory)?;
        left = rest;
    }
    Ok(count)
}

/// The values of the entries of all modules through one constant more.
pub fn next_entries<'a>(
    alloc: Global,
    spaces: &'a [Space<'a>],
    last: &[Vec<Option<Known>>],
) -> Result<Vec<Vec<Option<Known>>>, NoMemory>
    ensures { IfOk result (λ tables. tables_view tables.items ≡ plain.entries_by (plain.values (tables_view last.now) []) the_outside (map space_view spaces.now)) }
{
    let names = Names::Values {
        entries: last,
        own: &[],
    };
    entries_by(alloc, names, spaces)
}

/// The values of the entries of all modules. Each round gives the values through one constant more, by those of the
/// round before it: so many rounds as the longest chain of constants, and one that changes nothing.
#[tactic(auto, using(crate::proofs::Kept::rounds_all))]
pub fn project_values<'a>(alloc: Global, spaces: &'a [Space<'a>]) -> Result<ProjectValues, NoMemory>
    requires { AreNumbered (map space_view spaces.now) }
    ensures { IfOk result (λ project. AreProjectValues project (map space_view spaces.now)) }
{
    let most = all_entries(spaces)?;
    let mut earlier = Vec::new(alloc);
    let mut last = entries_by(alloc, Names::Nothing, spaces)?;
    let mut left = most;
    while left > 0 {
        let next = next_entries(alloc, spaces, last.as_slice())?;
        if are_same_tables(next.as_slice(), last.as_slice()) {
            return Ok(ProjectValues {
                earlier,
                last,
                is_settled: true,
            });
        }
        earlier.push(replace(&mut last, next))?;
        left -= 1;
    }
    Ok(ProjectValues {
        earlier,
        last,
        is_settled: false,
    })
}
