//! S20 at the bounds of arrays.

ghost use Rattle.std.specs.Prelude.{◌≡◌, flat_map, map, OnOk, option_map};
ghost use Rattle.refusal_order.specs.Least.{least_of};
ghost use Rattle.vba_expression.specs.View.{view};
ghost use Rattle.vba_module.specs.Headers.{all_of, items_of};
ghost use Rattle.vba_module.specs.Verdict.{broken};
ghost use Rattle.vba_tree.specs.View.{dim_view, dims_view, listed_view};
ghost use Rattle.declared_names.specs.binder.specs.Constants as plain;
ghost use Rattle.declared_names.specs.View.{scope_view};
ghost use Rattle.constant_values.specs.Tables.{AreConstants};
ghost use Rattle.constant_values.specs.Bounds.{first_expression};

use crate::bounds::{all_bounds, are_too_many, known_bound, long_value};
use crate::faults::note_place;
use crate::own::Constants;
use declared_names::module_parts::expression_place;
use std::alloc::Global;
use vba_base::{NoMemory, Place, Refusal};
use vba_expression::Expression;
use vba_tree::{Dim, Dims, Listed, Next};
use vba_values::Bound;

/// Notes an expression that is no Long.
#[tactic(auto, using(crate::proofs::Noting::unless_place))]
fn note_long(
    alloc: Global,
    constants: Constants,
    expression: &Expression,
    least: &mut Option<Refusal>,
) -> Result<(), NoMemory>
    requires { AreConstants constants }
    ensures { OnOk result (least.new ≡ least_of least.old (broken 20 (plain.unless (plain.long_of (plain.known_value (scope_view constants.entry.scope) (view expression.now))) (plain.place_of_expression (view expression.now))))) }
{
    let number = long_value(alloc, constants, expression)?;
    note_place(least, number.is_none(), expression_place(expression));
    Ok(())
}

/// Notes a high bound below its low bound.
#[tactic(auto, using(crate::proofs::Noting::order_place))]
fn note_order(least: &mut Option<Refusal>, bound: Option<Bound>, place: Place)
    ensures { least.new ≡ least_of least.old (broken 20 (plain.order_fault bound place)) }
{
    if let Some(bound) = bound {
        note_place(least, !(bound.low <= bound.high), place);
    }
}

/// Notes S20 at a bound.
#[tactic(auto, using(crate::proofs::Noting::noted_append))]
fn note_dim(
    alloc: Global,
    constants: Constants,
    dim: &Dim,
    least: &mut Option<Refusal>,
) -> Result<(), NoMemory>
    requires { AreConstants constants }
    ensures { OnOk result (least.new ≡ least_of least.old (broken 20 (plain.dim_faults (scope_view constants.entry.scope) (dim_view dim.now)))) }
{
    let bound = known_bound(alloc, constants, dim)?;
    match dim {
        Dim::Upper(upper) => {
            note_long(alloc, constants, upper, least)?;
            note_order(least, bound, expression_place(upper));
        }
        Dim::Range { lower, upper, .. } => {
            note_long(alloc, constants, lower, least)?;
            note_long(alloc, constants, upper, least)?;
            note_order(least, bound, expression_place(upper));
        }
    }
    Ok(())
}

/// Notes S20 at the bounds behind the first one.
fn note_others(
    alloc: Global,
    constants: Constants,
    others: &[Next<Dim>],
    least: &mut Option<Refusal>,
) -> Result<(), NoMemory>
    requires { AreConstants constants }
    ensures { OnOk result (least.new ≡ least_of least.old (broken 20 (flat_map (plain.dim_faults (scope_view constants.entry.scope)) (items_of (map (λ next. (next.mark, dim_view next.item)) others.now))))) }
{
    let mut left = others;
    while let [next, rest @ ..] = left {
        note_dim(alloc, constants, &next.item, least)?;
        left = rest;
    }
    Ok(())
}

/// Notes S20 at each bound.
fn note_each(
    alloc: Global,
    constants: Constants,
    list: &Listed<Dim>,
    least: &mut Option<Refusal>,
) -> Result<(), NoMemory>
    requires { AreConstants constants }
    ensures { OnOk result (least.new ≡ least_of least.old (broken 20 (flat_map (plain.dim_faults (scope_view constants.entry.scope)) (all_of (listed_view dim_view list.now))))) }
{
    note_dim(alloc, constants, &list.first, least)?;
    note_others(alloc, constants, list.others.as_slice(), least)?;
    Ok(())
}

/// The place of the first expression of a bound.
fn first_place(dim: &Dim) -> Place
    ensures { result ≡ plain.place_of_expression (first_expression (dim_view dim.now)) }
{
    match dim {
        Dim::Upper(upper) => expression_place(upper),
        Dim::Range { lower, .. } => expression_place(lower),
    }
}

/// Notes more elements than an array can have.
#[tactic(auto, using(crate::proofs::Noting::many_place))]
fn note_many(least: &mut Option<Refusal>, list: &Listed<Dim>, bounds: &Option<Vec<Bound>>)
    ensures { least.new ≡ least_of least.old (broken 20 (plain.many_elements (all_of (listed_view dim_view list.now)) (option_map (λ v. v.items) bounds.now))) }
{
    if let Some(bounds) = bounds {
        note_place(
            least,
            are_too_many(bounds.as_slice()),
            first_place(&list.first),
        );
    }
}

/// Notes S20 at the bounds behind a name.
#[tactic(auto, using(crate::proofs::Noting::noted_append))]
pub fn note_dims_faults(
    alloc: Global,
    constants: Constants,
    dims: &Option<Dims>,
    least: &mut Option<Refusal>,
) -> Result<(), NoMemory>
    requires { AreConstants constants }
    ensures { OnOk result (least.new ≡ least_of least.old (broken 20 (plain.dims_faults (scope_view constants.entry.scope) (option_map dims_view dims.now)))) }
{
    let Some(
        Dims {
            dims: Some(list),
            ..
        },
    ) = dims
    else {
        return Ok(());
    };
    note_each(alloc, constants, list, least)?;
    let bounds = all_bounds(alloc, constants, list)?;
    note_many(least, list, &bounds);
    Ok(())
}
