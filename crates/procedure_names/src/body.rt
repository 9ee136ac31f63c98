//! The names of a procedure: those of its header, and those that its body declares or uses.

ghost use Rattle.std.specs.Prelude.{◌≡◌, ◌++◌, flat_map, map, IfOk, OnOk};
ghost use Rattle.declared_names.specs.module_parts.specs.View.{parts_view};
ghost use Rattle.declared_names.specs.binder.specs.Names as names;
ghost use Rattle.declared_names.specs.binder.specs.Said as plain;
ghost use Rattle.declared_names.specs.View.{local_view, scope_view, written_view};
ghost use Rattle.said_parts.specs.View.{all_said, said_view};
ghost use Rattle.procedure_names.specs.Own.{own_names};
ghost use Rattle.procedure_names.specs.Using.{using_view};

use crate::arranging::{arrange, push_declared};
use crate::item::Used;
use crate::using::{Using, push_arguments, push_called, push_expression, push_redim, push_using};
use declared_names::module_parts::Part;
use declared_names::{Local, Own, Scope, Use, Written, header_names};
use said_parts::{Said, push_part};
use std::alloc::Global;
use vba_base::NoMemory;

/// What parts of a procedure say, which is Static or not.
#[tactic(auto, using(std::proofs::lemmas::List::drop_more))]
fn said_in(alloc: Global, parts: &[Part], is_static: bool) -> Result<Vec<Said<'_>>, NoMemory>
    ensures { IfOk result (λ said. all_said said.items ≡ flat_map (plain.said_in_part is_static) (parts_view parts.now)) }
{
    let mut said = Vec::new(alloc);
    for part in parts {
        push_part(&mut said, part, is_static)?;
    }
    Ok(said)
}

/// Adds the names that something said declares or uses.
fn push_usings<'a>(
    alloc: Global,
    usings: &mut Vec<Using<'a>>,
    said: Said<'a>,
) -> Result<(), NoMemory>
    ensures { OnOk result (map using_view usings.new.items ≡ map using_view usings.old.items ++ flat_map names.usings (said_view said.entry)) }
{
    match said {
        Said::Declares {
            variable,
            is_static,
        } => {
            let name = &variable.name;
            let own = Own::Variable {
                variable,
                is_static,
            };
            push_using(usings, Using::Declaration(Local { name, own }))
        }
        Said::DeclaresConstant(constant) => {
            let name = &constant.name;
            let own = Own::Constant(constant);
            push_using(usings, Using::Declaration(Local { name, own }))
        }
        Said::Expression(expression) => push_expression(alloc, usings, expression),
        Said::Counter(name) => {
            let how = Use::Plainly;
            push_using(usings, Using::Use(Used { how, name }))
        }
        Said::Arguments(arguments) => push_arguments(alloc, usings, arguments),
        Said::Called(expression) => push_called(alloc, usings, expression),
        Said::Redimmed { place, type_clause } => push_redim(alloc, usings, place, type_clause),
        Said::TypeNamed(_)
        | Said::NewNamed(_)
        | Said::ConstantExpression(_)
        | Said::GoesTo(_)
        | Said::Raises(_) => Ok(()),
    }
}

/// The names that what is said declares or uses, in text order.
#[tactic(auto, using(std::proofs::lemmas::List::drop_more, crate::proofs::Usings::said_append))]
fn usings_of<'a>(alloc: Global, said: &[Said<'a>]) -> Result<Vec<Using<'a>>, NoMemory>
    ensures { IfOk result (λ usings. map using_view usings.items ≡ flat_map names.usings (all_said said.now)) }
{
    let mut usings = Vec::new(alloc);
    for next in said {
        push_usings(alloc, &mut usings, *next)?;
    }
    Ok(usings)
}

/// The names that a body declares or uses, in text order.
fn usings_in_body<'a>(alloc: Global, written: Written<'a>) -> Result<Vec<Using<'a>>, NoMemory>
    ensures { IfOk result (λ usings. map using_view usings.items ≡ flat_map names.usings (plain.said_in_body (written_view written.entry))) }
{
    let is_static = written.header.static_word.is_some();
    let said = said_in(alloc, written.body.slice(), is_static)?;
    usings_of(alloc, said.as_slice())
}

/// The names of a body, where those of the header and those that the body declares are known.
fn own_names<'a>(
    alloc: Global,
    scope: Scope<'a>,
    written: Written<'a>,
    usings: &[Using<'a>],
) -> Result<Vec<Local<'a>>, NoMemory>
    ensures { IfOk result (λ locals. map local_view locals.items
        ≡ own_names (scope_view scope.entry) (written_view written.entry) (map using_view usings.now)) }
{
    let mut known = header_names(alloc, written)?;
    push_declared(&mut known, usings)?;
    let inside = Scope {
        spaces: scope.spaces,
        here: scope.here,
        locals: known.as_slice(),
    };
    arrange(alloc, inside, written.header.static_word.is_some(), usings)
}

/// All names of a procedure of a module: its result, its parameters, its own variables and constants, and those that
/// are declared nowhere.
///
/// It fails only for want of memory.
#[tactic(auto, using(std::proofs::lemmas::Grind::common_steps))]
pub fn locals_of<'a>(
    alloc: Global,
    scope: Scope<'a>,
    written: Written<'a>,
) -> Result<Vec<Local<'a>>, NoMemory>
    ensures { IfOk result (λ locals. map local_view locals.items ≡ names.locals_of (scope_view scope.entry) (written_view written.entry)) }
{
    let usings = usings_in_body(alloc, written)?;
    let own = own_names(alloc, scope, written, usings.as_slice())?;
    let mut locals = header_names(alloc, written)?;
    locals.extend_from_slice(own.as_slice())?;
    Ok(locals)
}
