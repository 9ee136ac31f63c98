//! The names that the header of a procedure declares.

ghost use Rattle.std.specs.Prelude.{◌≡◌, [], ◌∷◌, ◌++◌, map, option_map, IfOk, OnOk};
ghost use Rattle.vba_module.specs.Headers.{all_of, parameters_of};
ghost use Rattle.vba_tree.specs.View.{listed_view, parameter_view, parameters_view};
ghost use Rattle.binder.specs.Declarations as declarations;
ghost use Rattle.declared_names.specs.Names.{parameter_names};
ghost use Rattle.declared_names.specs.View.{local_view, written_view};

use crate::entry::Written;
use crate::local::{Local, Own};
use std::alloc::Global;
use vba_base::NoMemory;
use vba_tree::{Listed, Parameter, Parameters, ProcedureWords};

/// Has a procedure a variable of its own name? A Function and a Property Get have one.
fn has_result(words: ProcedureWords) -> bool
    ensures { result ≡ declarations.has_result words }
{
    match words {
        ProcedureWords::Function(_) | ProcedureWords::PropertyGet { .. } => true,
        ProcedureWords::Sub(_)
        | ProcedureWords::PropertyLet { .. }
        | ProcedureWords::PropertySet { .. } => false,
    }
}

/// Adds a name.
#[tactic(auto, using(crate::proofs::Pushes::locals_push))]
fn push_local<'a>(locals: &mut Vec<Local<'a>>, local: Local<'a>) -> Result<(), NoMemory>
    ensures { OnOk result (map local_view locals.new.items ≡ map local_view locals.old.items ++ local_view local.entry ∷ []) }
{
    Ok(locals.push(local)?)
}

/// Adds a parameter.
fn push_parameter<'a>(locals: &mut Vec<Local<'a>>, parameter: &'a Parameter) -> Result<(), NoMemory>
    ensures { OnOk result (map local_view locals.new.items ≡ map local_view locals.old.items ++ parameter_names (parameter_view parameter.now ∷ [])) }
{
    let local = Local {
        name: &parameter.name,
        own: Own::Parameter(parameter),
    };
    push_local(locals, local)
}

/// Adds parameters.
fn push_parameters<'a>(
    locals: &mut Vec<Local<'a>>,
    parameters: &'a Listed<Parameter>,
) -> Result<(), NoMemory>
    ensures { OnOk result (map local_view locals.new.items
        ≡ map local_view locals.old.items ++ parameter_names (all_of (listed_view parameter_view parameters.now))) }
{
    push_parameter(locals, &parameters.first)?;
    let mut left = parameters.others.as_slice();
    'parameters: while let [next, behind @ ..] = left {
        push_parameter(locals, &next.item)?;
        left = behind;
    }
    Ok(())
}

/// Adds the parameters of a header.
fn push_all_parameters<'a>(
    locals: &mut Vec<Local<'a>>,
    parameters: &'a Option<Parameters>,
) -> Result<(), NoMemory>
    ensures { OnOk result (map local_view locals.new.items
        ≡ map local_view locals.old.items ++ parameter_names (parameters_of (option_map parameters_view parameters.now))) }
{
    match parameters {
        Some(
            Parameters {
                parameters: Some(list),
                ..
            },
        ) => push_parameters(locals, list),
        _ => Ok(()),
    }
}

/// The names that the header of a procedure declares: its result's, then its parameters'.
///
/// It fails only for want of memory.
pub fn header_names<'a>(alloc: Global, written: Written<'a>) -> Result<Vec<Local<'a>>, NoMemory>
    ensures { IfOk result (λ locals. map local_view locals.items ≡ declarations.header_names (written_view written.entry)) }
{
    let header = written.header;
    let mut locals = Vec::new(alloc);
    if has_result(header.words) {
        let local = Local {
            name: &header.name,
            own: Own::Result(written),
        };
        push_local(&mut locals, local)?;
    }
    push_all_parameters(&mut locals, &header.parameters)?;
    Ok(locals)
}
