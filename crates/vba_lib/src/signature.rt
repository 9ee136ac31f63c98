// What each function of the library takes, and what a use of it is declared as.
ghost use Rattle.std.specs.Prelude.{◌≡◌, IfOk};
ghost use Rattle.vba_lib.specs.Library.{arity_of, declared_of, element_type, has_text_form};
ghost use Rattle.vba_values.specs.Types.{declared};

use crate::function::LibraryFunction;
use std::alloc::Global;
use vba_base::NoMemory;
use vba_values::VType;

/// Whether the function has a form with `$`.
pub fn has_text_form(function: LibraryFunction) -> bool
    ensures { result ≡ has_text_form function }
{
    matches!(
        function,
        LibraryFunction::Left
            | LibraryFunction::Right
            | LibraryFunction::Mid
            | LibraryFunction::UCase
            | LibraryFunction::LCase
            | LibraryFunction::Trim
            | LibraryFunction::LTrim
            | LibraryFunction::RTrim
            | LibraryFunction::Space
            | LibraryFunction::String
            | LibraryFunction::ChrW
            | LibraryFunction::Chr
            | LibraryFunction::Replace
            | LibraryFunction::Join
            | LibraryFunction::StrReverse
            | LibraryFunction::Hex
            | LibraryFunction::Oct
            | LibraryFunction::TypeName
            | LibraryFunction::CStr
    )
}

/// The least and the greatest number of arguments. 255 is no limit.
pub fn arity(function: LibraryFunction) -> (u8, u8)
    ensures { result ≡ arity_of function }
{
    match function {
        LibraryFunction::Array => (0, 255),
        LibraryFunction::InStr => (2, 4),
        LibraryFunction::Mid | LibraryFunction::StrComp => (2, 3),
        LibraryFunction::Replace | LibraryFunction::IIf => (3, 3),
        LibraryFunction::Left | LibraryFunction::Right | LibraryFunction::String => (2, 2),
        LibraryFunction::Split
        | LibraryFunction::Join
        | LibraryFunction::UBound
        | LibraryFunction::LBound => (1, 2),
        _ => (1, 1),
    }
}

/// The declared type of a use, with or without `$`.
pub fn declared_type(
    alloc: Global,
    function: LibraryFunction,
    text_form: bool,
) -> Result<VType, NoMemory>
    ensures { IfOk result (λ of. declared of ≡ declared_of function text_form) }
{
    if text_form {
        return Ok(VType::Text);
    }
    match function {
        LibraryFunction::Split => Ok(VType::ArrayOf(Box::new(alloc, VType::Text)?)),
        _ => Ok(answer_type(function)),
    }
}

/// The declared type of a use without `$`, but for an array that of its elements.
fn answer_type(function: LibraryFunction) -> VType
    ensures { declared result ≡ element_type function }
{
    match function {
        LibraryFunction::UBound | LibraryFunction::LBound | LibraryFunction::VarType => VType::Long,
        LibraryFunction::Asc | LibraryFunction::AscW | LibraryFunction::Sgn => VType::Integer,
        LibraryFunction::IsEmpty
        | LibraryFunction::IsNull
        | LibraryFunction::IsObject
        | LibraryFunction::IsArray
        | LibraryFunction::IsMissing
        | LibraryFunction::CBool => VType::Boolean,
        LibraryFunction::TypeName
        | LibraryFunction::Replace
        | LibraryFunction::Split
        | LibraryFunction::CStr => VType::Text,
        LibraryFunction::CByte => VType::Byte,
        LibraryFunction::CInt => VType::Integer,
        LibraryFunction::CLng => VType::Long,
        LibraryFunction::CLngLng => VType::LongLong,
        LibraryFunction::CCur => VType::Currency,
        _ => VType::Variant,
    }
}
