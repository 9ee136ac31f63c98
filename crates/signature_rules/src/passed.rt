//! How arguments are passed, and where signatures are the same ([MS-VBAL] 5.3.1.5).

ghost use Rattle.std.specs.Prelude.{◌≡◌};
ghost use Rattle.bound_project.specs.View.{declared_view};
ghost use Rattle.signature_rules.specs.Signatures.{same_passed, same_signature, value_passed};
ghost use Rattle.signature_rules.specs.View.{passed_view, signature_view};
ghost use Rattle.vba_values.specs.Coerce.{is_same_type};

use bound_project::DeclaredType;
use vba_values::is_same_type;

/// How an argument is passed: its declared type, with whether that is the type of an array's elements, and whether it
/// is ByVal, Optional and a ParamArray.
#[derive(Clone, Copy)]
pub struct Passed {
    pub of: DeclaredType,
    pub is_array: bool,
    pub is_by_value: bool,
    pub is_optional: bool,
    pub is_param_array: bool,
}

/// What a property gives or is given, where the type alone counts.
pub fn value_passed(of: DeclaredType, is_array: bool) -> Passed
    ensures { passed_view result ≡ value_passed (declared_view of) is_array }
{
    Passed {
        of,
        is_array,
        is_by_value: false,
        is_optional: false,
        is_param_array: false,
    }
}

/// Are two declared types the same?
fn is_same_of(one: DeclaredType, other: DeclaredType) -> bool
    ensures { result ≡ is_same_type (declared_view one) (declared_view other) }
{
    match (one, other) {
        (DeclaredType::Plain(one), DeclaredType::Plain(other)) => {
            is_same_type(&one.value_type(), &other.value_type())
        }
        (DeclaredType::ArrayOf(one), DeclaredType::ArrayOf(other)) => {
            is_same_type(&one.value_type(), &other.value_type())
        }
        _ => false,
    }
}

/// Are arguments passed the same way?
fn is_same_passed(one: Passed, other: Passed) -> bool
    ensures { result ≡ same_passed (passed_view one) (passed_view other) }
{
    is_same_of(one.of, other.of)
        && one.is_array == other.is_array
        && one.is_by_value == other.is_by_value
        && one.is_optional == other.is_optional
        && one.is_param_array == other.is_param_array
}

/// Are two signatures the same: as many arguments, and each passed the same way?
pub fn is_same_signature(mut ones: &[Passed], mut others: &[Passed]) -> bool
    ensures { result ≡ same_signature (signature_view ones.entry.now) (signature_view others.entry.now) }
{
    while let [one, rest @ ..] = ones {
        let [other, left @ ..] = others else {
            return false;
        };
        if !is_same_passed(*one, *other) {
            return false;
        }
        ones = rest;
        others = left;
    }
    others.is_empty()
}
