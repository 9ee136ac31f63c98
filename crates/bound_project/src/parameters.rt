// Parameters of procedures.
ghost use Rattle.std.specs.Prelude.{◌≡◌, map};
ghost use Rattle.bound_project.specs.Parameters.{any_must, has_parameters, last_type, must_be_given, without_last};
ghost use Rattle.bound_project.specs.View.{declared_view, parameter_view};

use crate::declarations::Parameter;
use crate::declared_type::{DeclaredType, ElementType};

/// Whether there are parameters.
pub fn has_parameters(parameters: &[Parameter]) -> bool
    ensures { result ≡ has_parameters (map parameter_view parameters.now) }
{
    match parameters {
        [] => false,
        [_first, _parameters @ ..] => true,
    }
}

/// Whether something must be given to a parameter.
pub fn must_be_given(parameter: &Parameter) -> bool
    ensures { result ≡ must_be_given (parameter_view parameter.now) }
{
    !parameter.is_param_array && parameter.default.is_none()
}

/// Whether something must be given to one of these.
pub fn any_must(parameters: &[Parameter]) -> bool
    ensures { result ≡ any_must (map parameter_view parameters.now) }
{
    match parameters {
        [] => false,
        [first, parameters @ ..] => must_be_given(first) || any_must(parameters),
    }
}

/// All parameters but the last one, which takes the value of a Property Let or Set.
#[tactic(auto, using(crate::proofs::ByNumber::without_last_map))]
pub fn without_last(parameters: &[Parameter]) -> &[Parameter]
    ensures { map parameter_view result.now ≡ without_last (map parameter_view parameters.now) }
{
    match parameters {
        [] => &[],
        [before @ .., _last] => before,
    }
}

/// The declared type of the value that a Property Let is given.
pub fn last_type(parameters: &[Parameter]) -> DeclaredType
    ensures { declared_view result ≡ last_type (map parameter_view parameters.now) }
{
    match parameters {
        [] => DeclaredType::Plain(ElementType::Variant),
        [last] => last.of,
        [_first, parameters @ ..] => last_type(parameters),
    }
}
