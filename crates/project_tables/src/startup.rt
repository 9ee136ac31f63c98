//! The macro to begin with.

ghost use Rattle.std.specs.Prelude.{◌≡◌, IfOk, bytes_eq, map, option_map};
ghost use Rattle.std.specs.List.{list_any};
ghost use Rattle.bound_declarations.specs.constant_values.specs.declared_names.specs.binder.specs.Projects as projects;
ghost use Rattle.bound_declarations.specs.constant_values.specs.declared_names.specs.binder.specs.Names.{scope_of};
ghost use Rattle.bound_declarations.specs.constant_values.specs.declared_names.specs.Outside.{the_outside};
ghost use Rattle.bound_declarations.specs.constant_values.specs.declared_names.specs.View.{scope_view, space_view, written_view};
ghost use Rattle.project_tables.specs.Startups.{startup_view};
ghost use Rattle.vba_module.specs.Headers as headers;
ghost use Rattle.vba_tree.specs.View.{listed_view, parameter_view, parameters_view};

use bound_declarations::constant_values::declared_names::{Scope, Space, What, Written};
use bound_declarations::procedure_number;
use vba_base::{Name, NoMemory};
use vba_tree::{Listed, Parameter, Parameters, ProcedureWords};

/// The macro to begin with, by the folds of its module's name and its own.
#[derive(Clone, Copy)]
pub struct Startup<'a> {
    pub module_fold: &'a [u16],
    pub sub_fold: &'a [u16],
}

/// Has a name this fold?
fn has_fold(name: &Name, fold: &[u16]) -> bool
    ensures { result ≡ bytes_eq name.now fold.now }
{
    name.units() == fold
}

/// Must a call give a parameter: is it neither Optional nor a ParamArray?
fn is_required(parameter: &Parameter) -> bool
    ensures { result ≡ headers.is_required (parameter_view parameter.now) }
{
    parameter.optional_word.is_none() && parameter.param_array_word.is_none()
}

/// Must a call give one of these parameters?
fn requires_one(parameters: &Listed<Parameter>) -> bool
    ensures { result ≡ list_any headers.is_required (headers.all_of (listed_view parameter_view parameters.now)) }
{
    if is_required(&parameters.first) {
        return true;
    }
    let mut left = parameters.others.as_slice();
    'parameters: while let [next, behind @ ..] = left {
        if is_required(&next.item) {
            return true;
        }
        left = behind;
    }
    false
}

/// Must a call give one of the parameters of a header?
fn requires_any(parameters: &Option<Parameters>) -> bool
    ensures { result ≡ list_any headers.is_required (headers.parameters_of (option_map parameters_view parameters.now)) }
{
    match parameters {
        Some(
            Parameters {
                parameters: Some(list),
                ..
            },
        ) => requires_one(list),
        _ => false,
    }
}

/// Is a procedure the macro to begin with? It is a Sub of that name that can be called without an argument.
fn is_startup(startup: Startup, written: Written) -> bool
    ensures { result ≡ projects.is_startup (startup_view startup.entry) (written_view written.entry) }
{
    match written.header.words {
        ProcedureWords::Sub(_) => {
            has_fold(&written.header.name.name, startup.sub_fold)
                && !requires_any(&written.header.parameters)
        }
        _ => false,
    }
}

/// The number of the first procedure of a module that is the macro to begin with.
#[tactic(auto, using(std::proofs::lemmas::List::drop_more))]
fn startup_in(scope: Scope, startup: Startup) -> Result<Option<u32>, NoMemory>
    ensures { IfOk result (λ found. found
        ≡ projects.startup_in (scope_view scope.entry) (startup_view startup.entry) (projects.numbered 0 (space_view scope.entry.here.now).entries)) }
{
    for (number, entry) in scope.here.entries.iter().enumerate() {
        if let What::Procedure(written) = entry.what {
            if is_startup(startup, written) {
                return Ok(Some(procedure_number(scope, scope.here, number)?));
            }
        }
    }
    Ok(None)
}

/// The number of the macro to begin with, where it is there, in a standard module.
///
/// It fails only where numbers of procedures outgrow their type.
#[tactic(auto, using(std::proofs::lemmas::List::drop_more))]
pub fn startup_number<'a>(
    spaces: &'a [Space<'a>],
    startup: Startup,
) -> Result<Option<u32>, NoMemory>
    ensures { IfOk result (λ found. found
        ≡ projects.startup_number (scope_of the_outside (map space_view spaces.now) projects.no_space) (startup_view startup.entry) (map space_view spaces.now)) }
{
    for space in spaces {
        if has_fold(&space.name.fold, startup.module_fold) && !space.source.is_class {
            let scope = Scope {
                spaces,
                here: space,
                locals: &[],
            };
            return startup_in(scope, startup);
        }
    }
    Ok(None)
}
