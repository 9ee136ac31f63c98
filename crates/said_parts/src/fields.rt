//! The fields of Types.

ghost use Rattle.std.specs.Prelude.{◌≡◌, map, IfOk};
ghost use Rattle.binder.specs.Declarations.{fields_in};
ghost use Rattle.module_parts.specs.View.{parts_view};
ghost use Rattle.said_parts.specs.View.{field_view};

use module_parts::Part;
use std::alloc::Global;
use vba_base::NoMemory;
use vba_tree::{LineTree, TypeMember};

/// The fields of a Type, by the parts behind its header: the members up to its end.
pub fn fields_of<'a>(alloc: Global, parts: &'a [Part]) -> Result<Vec<&'a TypeMember>, NoMemory>
    ensures { IfOk result (λ fields. map (λ f. field_view f.now) fields.items ≡ fields_in (parts_view parts.now)) }
{
    let mut fields = Vec::new(alloc);
    for part in parts {
        match part {
            Part::WholeLine(LineTree::TypeMember(member)) => fields.push(member)?,
            Part::WholeLine(LineTree::TypeEnd { .. }) => return Ok(fields),
            _ => {}
        }
    }
    Ok(fields)
}
