// The functions of the library: what each answers.
ghost use Rattle.std.specs.Prelude.{◌≡◌, ◌≤ℤ◌, pos, map};
ghost use Rattle.std.specs.List.{list_any};
ghost use Rattle.vba_base.specs.Answer.{Gives};
ghost use Rattle.vba_lib.specs.Library.{gives_null, i_if, kept, library_of, of_arguments, of_four, of_kind, of_null, of_one, of_three, of_two, takes_null};
ghost use Rattle.vba_values.specs.Operands.{is_null};
ghost use Rattle.vba_values.specs.View.{view};

use crate::arguments::{Answer, WRONG_NUMBER, long_argument, text_answer};
use crate::arrays::{array, join, join_with, l_bound, split, split_at, u_bound};
use crate::characters::{asc, asc_w, chr, chr_w, string};
use crate::kinds::{type_name, var_type};
use crate::numbers::{abs, fix, hex, int, oct, sgn};
use crate::parts::replace;
use crate::searching::{in_str, in_str_by, in_str_from, str_comp, str_comp_by};
use crate::texts::{
    l_case, l_trim, left, len, mid, mid_of_length, r_trim, right, space, str_reverse, trim, u_case,
};
use std::alloc::Global;
use vba_base::OrMemory;
use vba_lib::LibraryFunction;
use vba_values::{Bad, Compare, VType, Value, coerce, copy_value};

/// A function of the library, of its arguments in order: Null first, then the coercions in order, then what the function
/// says. `text_form` is whether its name is written with `$`, `compare` the module's way to compare texts, and `base`, which
/// is 0 or 1, the lower bound that `Array` gives. [MS-VBAL] 6.1.2.
///
/// Another number of arguments than `arity` tells raises 450. A text of more than 16777216 units, but of a coercion, and
/// an array of more than 1048576 elements stop the run.
pub fn library(
    alloc: Global,
    function: LibraryFunction,
    text_form: bool,
    arguments: &[Value],
    compare: Compare,
    base: i32,
) -> Answer
    requires least { pos 0 ≤ℤ base }
    requires greatest { base ≤ℤ pos 1 }
    ensures { Gives view result (library_of function text_form (map view arguments.now) compare base) }
{
    if !takes_null(function) && has_null(arguments) {
        return of_null(function, text_form);
    }
    if matches!(function, LibraryFunction::Array) {
        return array(alloc, base, arguments);
    }
    of_arguments(alloc, function, compare, arguments)
}

fn has_null(arguments: &[Value]) -> bool
    ensures { result ≡ list_any is_null (map view arguments.now) }
{
    let mut rest = arguments;
    while let [argument, behind @ ..] = rest {
        if is_null(argument) {
            return true;
        }
        rest = behind;
    }
    false
}

fn is_null(value: &Value) -> bool
    ensures { result ≡ is_null (view value.now) }
{
    matches!(value, Value::Null)
}

/// Whether Null is a value like any other for the function, or its coercions say what comes of it.
fn takes_null(function: LibraryFunction) -> bool
    ensures { result ≡ takes_null function }
{
    matches!(
        function,
        LibraryFunction::UBound
            | LibraryFunction::LBound
            | LibraryFunction::IsEmpty
            | LibraryFunction::IsNull
            | LibraryFunction::IsObject
            | LibraryFunction::IsArray
            | LibraryFunction::IsMissing
            | LibraryFunction::TypeName
            | LibraryFunction::VarType
            | LibraryFunction::Array
            | LibraryFunction::IIf
            | LibraryFunction::CByte
            | LibraryFunction::CInt
            | LibraryFunction::CLng
            | LibraryFunction::CLngLng
            | LibraryFunction::CCur
            | LibraryFunction::CBool
            | LibraryFunction::CStr
            | LibraryFunction::CVar
    )
}

/// What comes of Null for the other functions.
fn of_null(function: LibraryFunction, text_form: bool) -> Answer
    ensures { Gives view result (of_null function text_form) }
{
    if gives_null(function) && !text_form {
        Ok(Value::Null)
    } else {
        Err(OrMemory::Fault(Bad::INVALID_NULL))
    }
}

fn gives_null(function: LibraryFunction) -> bool
    ensures { result ≡ gives_null function }
{
    matches!(
        function,
        LibraryFunction::Len
            | LibraryFunction::Left
            | LibraryFunction::Right
            | LibraryFunction::Mid
            | LibraryFunction::InStr
            | LibraryFunction::UCase
            | LibraryFunction::LCase
            | LibraryFunction::Trim
            | LibraryFunction::LTrim
            | LibraryFunction::RTrim
            | LibraryFunction::Abs
            | LibraryFunction::Int
            | LibraryFunction::Fix
            | LibraryFunction::Hex
            | LibraryFunction::Oct
            | LibraryFunction::StrComp
    )
}

/// A function by its number of arguments.
#[tactic(auto, using(crate::proofs::Counts::more_than_four))]
fn of_arguments(
    alloc: Global,
    function: LibraryFunction,
    compare: Compare,
    arguments: &[Value],
) -> Answer
    ensures { Gives view result (of_arguments function compare (map view arguments.now)) }
{
    match arguments {
        [] => Err(WRONG_NUMBER),
        [first] => of_one(alloc, function, first),
        [first, second] => of_two(alloc, function, compare, first, second),
        [first, second, third] => of_three(alloc, function, compare, first, second, third),
        [first, second, third, fourth] => {
            of_four(alloc, function, compare, first, second, third, fourth)
        }
        [_, _, _, _, _, ..] => Err(WRONG_NUMBER),
    }
}

fn of_one(alloc: Global, function: LibraryFunction, value: &Value) -> Answer
    ensures { Gives view result (of_one function (view value.now)) }
{
    match function {
        LibraryFunction::Len => len(alloc, value),
        LibraryFunction::UCase => u_case(alloc, value),
        LibraryFunction::LCase => l_case(alloc, value),
        LibraryFunction::Trim => trim(alloc, value),
        LibraryFunction::LTrim => l_trim(alloc, value),
        LibraryFunction::RTrim => r_trim(alloc, value),
        LibraryFunction::Space => space(alloc, value),
        LibraryFunction::StrReverse => str_reverse(alloc, value),
        LibraryFunction::ChrW => chr_w(alloc, value),
        LibraryFunction::AscW => asc_w(alloc, value),
        LibraryFunction::Chr => chr(alloc, value),
        LibraryFunction::Asc => asc(alloc, value),
        LibraryFunction::Split => split(alloc, value),
        LibraryFunction::Join => join(alloc, value),
        LibraryFunction::UBound => u_bound(value, 1),
        LibraryFunction::LBound => l_bound(value, 1),
        LibraryFunction::Abs => abs(alloc, value),
        LibraryFunction::Int => int(alloc, value),
        LibraryFunction::Fix => fix(alloc, value),
        LibraryFunction::Sgn => sgn(alloc, value),
        LibraryFunction::Hex => hex(alloc, value),
        LibraryFunction::Oct => oct(alloc, value),
        _ => of_kind(alloc, function, value),
    }
}

/// The functions that tell an argument's kind, and coercions.
fn of_kind(alloc: Global, function: LibraryFunction, value: &Value) -> Answer
    ensures { Gives view result (of_kind function (view value.now)) }
{
    match function {
        LibraryFunction::IsEmpty => Ok(Value::Boolean(matches!(value, Value::Empty))),
        LibraryFunction::IsNull => Ok(Value::Boolean(matches!(value, Value::Null))),
        LibraryFunction::IsObject => Ok(Value::Boolean(matches!(value, Value::Object(_)))),
        LibraryFunction::IsArray => Ok(Value::Boolean(matches!(value, Value::Array(_)))),
        LibraryFunction::IsMissing => Ok(Value::Boolean(matches!(value, Value::Missing))),
        LibraryFunction::TypeName => Ok(Value::Text(type_name(alloc, value)?)),
        LibraryFunction::VarType => Ok(Value::Long(var_type(value))),
        LibraryFunction::CByte => coerce(alloc, value, &VType::Byte),
        LibraryFunction::CInt => coerce(alloc, value, &VType::Integer),
        LibraryFunction::CLng => coerce(alloc, value, &VType::Long),
        LibraryFunction::CLngLng => coerce(alloc, value, &VType::LongLong),
        LibraryFunction::CCur => coerce(alloc, value, &VType::Currency),
        LibraryFunction::CBool => coerce(alloc, value, &VType::Boolean),
        LibraryFunction::CStr => coerce(alloc, value, &VType::Text),
        LibraryFunction::CVar => coerce(alloc, value, &VType::Variant),
        _ => Err(WRONG_NUMBER),
    }
}

fn of_two(
    alloc: Global,
    function: LibraryFunction,
    compare: Compare,
    first: &Value,
    second: &Value,
) -> Answer
    ensures { Gives view result (of_two function compare (view first.now) (view second.now)) }
{
    match function {
        LibraryFunction::Left => left(alloc, first, second),
        LibraryFunction::Right => right(alloc, first, second),
        LibraryFunction::Mid => mid(alloc, first, second),
        LibraryFunction::InStr => in_str(alloc, compare, first, second),
        LibraryFunction::String => string(alloc, first, second),
        LibraryFunction::Split => split_at(alloc, first, second),
        LibraryFunction::Join => join_with(alloc, first, second),
        LibraryFunction::UBound => u_bound(first, long_argument(alloc, second)?),
        LibraryFunction::LBound => l_bound(first, long_argument(alloc, second)?),
        LibraryFunction::StrComp => str_comp(alloc, compare, first, second),
        _ => Err(WRONG_NUMBER),
    }
}

fn of_three(
    alloc: Global,
    function: LibraryFunction,
    compare: Compare,
    first: &Value,
    second: &Value,
    third: &Value,
) -> Answer
    ensures { Gives view result (of_three function compare (view first.now) (view second.now) (view third.now)) }
{
    match function {
        LibraryFunction::Mid => mid_of_length(alloc, first, second, third),
        LibraryFunction::InStr => in_str_from(alloc, compare, first, second, third),
        LibraryFunction::Replace => replace(alloc, first, second, third),
        LibraryFunction::StrComp => str_comp_by(alloc, compare, first, second, third),
        LibraryFunction::IIf => i_if(alloc, first, second, third),
        _ => Err(WRONG_NUMBER),
    }
}

fn of_four(
    alloc: Global,
    function: LibraryFunction,
    compare: Compare,
    first: &Value,
    second: &Value,
    third: &Value,
    fourth: &Value,
) -> Answer
    ensures { Gives view result (of_four function compare (view first.now) (view second.now) (view third.now) (view fourth.now)) }
{
    match function {
        LibraryFunction::InStr => in_str_by(alloc, compare, first, second, third, fourth),
        _ => Err(WRONG_NUMBER),
    }
}

/// The second argument where the first one is True, and else the third.
fn i_if(alloc: Global, test: &Value, first: &Value, second: &Value) -> Answer
    ensures { Gives view result (i_if (view test.now) (view first.now) (view second.now)) }
{
    match coerce(alloc, test, &VType::Boolean)? {
        Value::Boolean(true) => kept(alloc, first),
        _ => kept(alloc, second),
    }
}

/// A copy of a value, but of no text that is too long.
fn kept(alloc: Global, value: &Value) -> Answer
    ensures { Gives view result (kept (view value.now)) }
{
    match value {
        Value::Text(text) => text_answer(alloc, text.units()),
        _ => Ok(copy_value(alloc, value)?),
    }
}
