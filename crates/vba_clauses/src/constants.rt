//! Constants ([MS-VBAL] 5.2.3.2).

ghost use Rattle.std.specs.Prelude.{◌≡◌, IfOk, option_map};
ghost use Rattle.vba_tree.specs.Tree as tree;
ghost use Rattle.vba_tree.specs.View.{listed_view, constant_view};
ghost use Rattle.vba_grammar.specs.Front.{commas_at};
ghost use Rattle.vba_grammar.specs.Clauses.{constant_at};
ghost use Rattle.vba_clauses.specs.Seen.{valued_view, with_value};

use crate::front::read_name;
use crate::part::{Part, read_commas};
use crate::values::{Valued, read_constant_value};
use std::alloc::Global;
use vba_base::NoMemory;
use vba_tree::{Constant, DefaultValue, Listed};
use vba_words::{Identifier, ReadToken};

/// `name [As type] = value` at the front, and the tokens behind it.
pub fn read_constant(
    alloc: Global,
    tokens: &[ReadToken],
) -> Result<Option<(Constant, &[ReadToken])>, NoMemory>
    ensures { IfOk result (λ found. option_map (λ f. (constant_view f.0, f.1.now)) found ≡ constant_at tokens.now) }
{
    let Some((name, rest)) = read_name(alloc, tokens)? else {
        return Ok(None);
    };
    let Some((valued, behind)) = read_constant_value(alloc, rest)? else {
        return Ok(None);
    };
    match with_value(name, valued) {
        Some(constant) => Ok(Some((constant, behind))),
        None => Ok(None),
    }
}

/// A constant, where its value is written.
fn with_value(name: Identifier, valued: Valued) -> Option<Constant>
    ensures { option_map constant_view result ≡ with_value name (valued_view valued) }
{
    let Valued {
        type_clause,
        default,
    } = valued;
    match default {
        Some(DefaultValue { equal, value }) => Some(Constant {
            name,
            type_clause,
            equal,
            value,
        }),
        None => None,
    }
}

/// Constants with commas between them, and the tokens behind them.
pub fn read_constants(
    alloc: Global,
    tokens: &[ReadToken],
) -> Result<Option<(Listed<Constant>, &[ReadToken])>, NoMemory>
    ensures { IfOk result (λ found. option_map (λ f. (listed_view constant_view f.0, f.1.now)) found ≡ commas_at constant_at tokens.now) }
{
    read_commas::<ConstantPart>(alloc, tokens)
}

/// A constant.
pub struct ConstantPart;

impl Part for ConstantPart {
    type Tree = Constant;

    ghost Plain = { tree.Constant };

    ghost plain_of = { constant_view };

    ghost part_at = { constant_at };

    fn read(
        alloc: Global,
        tokens: &[ReadToken],
    ) -> Result<Option<(Constant, &[ReadToken])>, NoMemory> {
        read_constant(alloc, tokens)
    }
}
