//! Functions of the library: how many arguments they take, and the types of what they give.

ghost use Rattle.std.specs.Prelude.{◌≡◌, IfOk};
ghost use Rattle.vba_lib.specs.Library.{declared_of};
ghost use Rattle.vba_values.specs.Types.{declared};
ghost use Rattle.bound_project.specs.View.{element_view, declared_view};
ghost use Rattle.bound_forms.specs.Operands as operands;

use bound_project::{DeclaredType, ElementType};
use std::alloc::Global;
use vba_base::NoMemory;
use vba_lib::{LibraryFunction, arity, declared_type};
use vba_values::VType;

/// A type that is no array's, as declarations have it.
pub fn element_type(of: VType) -> Result<ElementType, NoMemory>
    ensures { IfOk result (λ element. element_view element ≡ declared of) }
{
    Ok(match of {
        VType::Boolean => ElementType::Boolean,
        VType::Byte => ElementType::Byte,
        VType::Integer => ElementType::Integer,
        VType::Long => ElementType::Long,
        VType::LongLong => ElementType::LongLong,
        VType::Currency => ElementType::Currency,
        VType::Text => ElementType::Text,
        VType::FixedText(size) => ElementType::FixedText(size),
        VType::Object => ElementType::Object,
        VType::Class(number) => ElementType::Class(number),
        VType::Collection => ElementType::Collection,
        VType::Worksheet => ElementType::Worksheet,
        VType::Range => ElementType::Range,
        VType::Variant => ElementType::Variant,
        VType::Udt(place) => ElementType::UserType(place),
        VType::ArrayOf(_of) => return Err(NoMemory),
    })
}

/// Does a function take so many arguments? 255 is no limit.
pub fn takes_count(function: LibraryFunction, count: u32) -> bool
    ensures { result ≡ operands.takes_count function count }
{
    let (least, greatest) = arity(function);
    u32::from(least) <= count && (greatest == 255 || count <= u32::from(greatest))
}

/// Has InStr, where it has no start, its first argument?
pub fn has_start(function: LibraryFunction, count: u32, first: bool) -> bool
    ensures { result ≡ operands.has_start function count first }
{
    match function {
        LibraryFunction::InStr => first || 3 <= count,
        _ => true,
    }
}

/// The declared type of a use.
pub fn answer_type(
    alloc: Global,
    function: LibraryFunction,
    is_text_form: bool,
) -> Result<DeclaredType, NoMemory>
    ensures { IfOk result (λ of. declared_view of ≡ declared_of function is_text_form) }
{
    if is_text_form {
        return Ok(DeclaredType::Plain(ElementType::Text));
    }
    match function {
        LibraryFunction::Split => Ok(DeclaredType::ArrayOf(ElementType::Text)),
        _ => {
            let of = declared_type(alloc, function, false)?;
            Ok(DeclaredType::Plain(element_type(of)?))
        }
    }
}
