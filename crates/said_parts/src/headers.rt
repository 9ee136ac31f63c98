//! What the headers of procedures and of events, and the fields of Types say.

ghost use Rattle.std.specs.Prelude.{◌≡◌, ◌++◌, OnOk, map, flat_map, option_map};
ghost use Rattle.binder.specs.Said as plain;
ghost use Rattle.said_parts.specs.View.{all_said, field_view};
ghost use Rattle.vba_module.specs.Headers.{parameters_of};
ghost use Rattle.vba_tree.specs.View.{parameters_view, result_type_view};

use crate::declarations::{push_field, push_parameters, push_result};
use crate::said::Said;
use vba_base::NoMemory;
use vba_tree::{ProcedureHeader, TypeMember};

/// Adds what the fields of a Type say: their bounds and types.
pub fn push_fields<'a>(said: &mut Vec<Said<'a>>, fields: &[&'a TypeMember]) -> Result<(), NoMemory>
    ensures { OnOk result (all_said said.new.items ≡ all_said said.old.items
        ++ flat_map plain.field_said (map (λ f. field_view f.now) fields.now)) }
{
    for field in fields {
        push_field(said, *field)?;
    }
    Ok(())
}

/// Adds what the header of a procedure says: the types and defaults of its parameters, and the type of its result.
pub fn push_header<'a>(
    said: &mut Vec<Said<'a>>,
    header: &'a ProcedureHeader,
) -> Result<(), NoMemory>
    ensures { OnOk result (all_said said.new.items ≡ all_said said.old.items
        ++ (flat_map plain.parameter_said (parameters_of (option_map parameters_view header.now.parameters))
        ++ plain.result_said (option_map result_type_view header.now.result_type))) }
{
    push_parameters(said, &header.parameters)?;
    push_result(said, &header.result_type)
}
