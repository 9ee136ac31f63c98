//! The names of a procedure, by where they are kept.

ghost use Rattle.std.specs.Prelude.{◌≡◌, ◌+◌, IfOk, map, take};
ghost use Rattle.constant_values.specs.declared_names.specs.binder.specs.Types.{counted};
ghost use Rattle.bound_declarations.specs.Kept.{is_kept};
ghost use Rattle.constant_values.specs.declared_names.specs.View.{local_view};

use constant_values::declared_names::{Local, Own};
use vba_base::NoMemory;

/// Which names of a procedure: its own variables that are of its frame, those that are static, or its parameters.
#[derive(Clone, Copy, Debug, PartialEq, Eq)]
pub enum Kept {
    Framed,
    Static,
    Parameters,
}

/// Is a name one of these?
pub fn is_kept(which: Kept, local: &Local) -> bool
    ensures { result ≡ is_kept which (local_view local.now) }
{
    match local.own {
        Own::Parameter(_) => matches!(which, Kept::Parameters),
        Own::Variable { is_static, .. }
        | Own::Array { is_static, .. }
        | Own::Undeclared { is_static } => match which {
            Kept::Framed => !is_static,
            Kept::Static => is_static,
            Kept::Parameters => false,
        },
        Own::Result(_) | Own::Constant(_) => false,
    }
}

/// The sum of two numbers.
pub fn sum(one: u32, other: u32) -> Result<u32, NoMemory>
    ensures { IfOk result (λ sum. sum ≡ one + other) }
{
    one.checked_add(other).ok_or(NoMemory)
}

/// How many names are these.
#[tactic(auto, using(std::proofs::lemmas::List::drop_more))]
pub fn count_kept(which: Kept, locals: &[Local]) -> Result<u32, NoMemory>
    ensures { IfOk result (λ count. count ≡ counted (is_kept which) (map local_view locals.now)) }
{
    let mut count = 0;
    for local in locals {
        if is_kept(which, local) {
            count = sum(count, 1)?;
        }
    }
    Ok(count)
}

/// The names before a number.
#[tactic(auto, using(std::proofs::lemmas::List::take_min))]
pub fn first_locals<'a>(locals: &'a [Local<'a>], number: usize) -> &'a [Local<'a>]
    ensures { result.now ≡ take number locals.now }
{
    &locals[..number.min(locals.len())]
}

/// How many names before a number are these.
#[tactic(auto, using(crate::proofs::Taken::take_map))]
pub fn count_before(which: Kept, locals: &[Local], number: usize) -> Result<u32, NoMemory>
    ensures { IfOk result (λ count. count ≡ counted (is_kept which) (take number (map local_view locals.now))) }
{
    count_kept(which, first_locals(locals, number))
}
