//! S14 at the bounds of arrays that are declared: at most sixty. A ReDim may have more.

ghost use Rattle.std.specs.Prelude.{◌≡◌, option_map};
ghost use Rattle.module_rules.specs.Found.{noted};
ghost use Rattle.vba_module.specs.Headers as headers;
ghost use Rattle.vba_tree.specs.Tree.{simple};
ghost use Rattle.vba_tree.specs.View.{dim_view, dims_view, listed_view, simple_view, variable_view};

use crate::noting::note_place;
use module_parts::dim_place;
use vba_base::Refusal;
use vba_tree::{Dim, Dims, Listed, SimpleStatement, Variable};

/// How many bounds an array may have behind the first.
const MOST_OTHER_BOUNDS: usize = 59;

/// Notes bounds that are too many.
#[tactic(auto, using(crate::proofs::Listing::length_items))]
fn note_many(dims: &Listed<Dim>, least: &mut Option<Refusal>)
    ensures { least.new ≡ noted 14 least.old (headers.many (headers.all_of (listed_view dim_view dims.now))) }
{
    let is_too_many = dims.others.len() > MOST_OTHER_BOUNDS;
    note_place(least, is_too_many, 14, dim_place(&dims.first));
}

/// The same of the bounds behind a name, where they are written.
pub fn note_bounds(dims: &Option<Dims>, least: &mut Option<Refusal>)
    ensures { least.new ≡ noted 14 least.old (headers.dims_faults (option_map dims_view dims.now)) }
{
    if let Some(
        Dims {
            dims: Some(list),
            ..
        },
    ) = dims
    {
        note_many(list, least);
    }
}

/// The same of variables.
#[tactic(auto, using(crate::proofs::Noted::noted_append, std::proofs::lemmas::List::drop_more))]
fn note_bounds_of_variables(variables: &Listed<Variable>, least: &mut Option<Refusal>)
    ensures { least.new ≡ noted 14 least.old (headers.variables_faults (headers.all_of (listed_view variable_view variables.now))) }
{
    note_bounds(&variables.first.dims, least);
    for next in &variables.others {
        note_bounds(&next.item.dims, least);
    }
}

/// The same of a statement that is no single-line If.
pub fn note_bounds_in(statement: &SimpleStatement, least: &mut Option<Refusal>)
    ensures { least.new ≡ noted 14 least.old (headers.statement_faults (simple (simple_view statement.now))) }
{
    match statement {
        SimpleStatement::Variables(variables) => {
            note_bounds_of_variables(&variables.variables, least);
        }
        _ => {}
    }
}
