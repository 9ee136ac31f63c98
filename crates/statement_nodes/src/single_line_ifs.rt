//! Where the statements of single-line Ifs stand.

ghost use Rattle.std.specs.Prelude.{◌≡◌, ◌+◌, ℕ, IfOk, map};
ghost use Rattle.bound_calls.specs.bound_forms.specs.StatementsBound as plain;
ghost use Rattle.statement_numbers.specs.Counts.{next_counts};
ghost use Rattle.vba_tree.specs.View.{next_view};

use statement_numbers::{count_next, plus};
use vba_base::NoMemory;
use vba_tree::NextStatement;

/// Where statements stand: the number of the first, the number behind the last, and what runs behind them.
#[derive(Clone, Copy)]
pub struct Numbers {
    pub number: u32,
    pub end: u32,
    pub behind: u32,
}

/// The first of these statements, or what runs behind them where there are none.
#[tactic(auto, using(crate::proofs::Lists::first_none, crate::proofs::Lists::first_some))]
pub fn first_of(numbers: Numbers) -> u32
    ensures { (k : ℕ) → numbers.end ≡ numbers.number + k → result ≡ plain.first_or k numbers.number numbers.behind }
{
    if numbers.number == numbers.end {
        numbers.behind
    } else {
        numbers.number
    }
}

/// How many statements stand behind colons.
pub fn count_others(others: &Vec<NextStatement>) -> Result<u32, NoMemory>
    ensures { IfOk result (λ n. n ≡ next_counts (map next_view others.now.items)) }
{
    let mut counted = 0;
    for next in others {
        counted = plus(counted, count_next(next)?)?;
    }
    Ok(counted)
}
