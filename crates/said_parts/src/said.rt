//! What can be said.

ghost use Rattle.std.specs.Prelude.{◌≡◌, ◌++◌, OnOk};
ghost use Rattle.said_parts.specs.View.{all_said, said_view};

use vba_base::NoMemory;
use vba_expression::{Arguments, Expression, TypeName};
use vba_tree::{Constant, LabelName, TypeClause, Variable};
use vba_words::Identifier;

/// What a part says, in the order of the text.
#[derive(Clone, Copy)]
pub enum Said<'a> {
    Declares {
        variable: &'a Variable,
        is_static: bool,
    },
    DeclaresConstant(&'a Constant),
    TypeNamed(&'a TypeName),
    /// A type behind `As New`.
    NewNamed(&'a TypeName),
    ConstantExpression(&'a Expression),
    /// An expression that is evaluated, or a place that is written.
    Expression(&'a Expression),
    /// The variable of a loop.
    Counter(&'a Identifier),
    /// Arguments, each an expression that is evaluated.
    Arguments(&'a Arguments),
    /// What a statement calls, without its arguments.
    Called(&'a Expression),
    Redimmed {
        place: &'a Expression,
        type_clause: &'a Option<TypeClause>,
    },
    GoesTo(&'a LabelName),
    Raises(&'a Identifier),
}

/// Adds what is said next.
#[tactic(auto, using(crate::proofs::Pushed::said_more))]
pub fn push_said<'a>(said: &mut Vec<Said<'a>>, next: Said<'a>) -> Result<(), NoMemory>
    ensures { OnOk result (all_said said.new.items ≡ all_said said.old.items ++ said_view next.entry) }
{
    Ok(said.push(next)?)
}
