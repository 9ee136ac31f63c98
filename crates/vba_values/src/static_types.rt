// The type that an operator's result has by the declared types of its operands.
ghost use Rattle.std.specs.Prelude.{◌≡◌, option_map};
ghost use Rattle.vba_values.specs.StaticTypes.{arithmetic_type, comparison_type, declared_kind, division_type, is_boolean, is_currency, is_open, join_type, kind_type, logic_type, long_beside, minus_type, not_type, number_type, static_of, sum_type, whole_kind};
ghost use Rattle.vba_values.specs.Types.{declared};

use crate::comparison::{is_number, is_string};
use crate::operands::{Work, wider};
use crate::types::{OpKind, VType, WholeKind};

/// The type of an operator's result, and None where it would be a Double. For Neg and Not the left type is the operand's.
pub fn static_type(op: OpKind, left: &VType, right: &VType) -> Option<VType>
    ensures { option_map declared result ≡ static_of op (declared left.now) (declared right.now) }
{
    match op {
        OpKind::Add | OpKind::Sub | OpKind::Mul => arithmetic_type(op, left, right),
        OpKind::IntDiv | OpKind::Mod => division_type(left, right),
        OpKind::Divide | OpKind::Power => None,
        OpKind::Join => join_type(left, right),
        OpKind::And | OpKind::Or | OpKind::Xor | OpKind::Eqv | OpKind::Imp => {
            logic_type(left, right)
        }
        OpKind::Eq | OpKind::Ne | OpKind::Lt | OpKind::Le | OpKind::Gt | OpKind::Ge => {
            comparison_type(left, right)
        }
        OpKind::Neg => minus_type(left),
        OpKind::Not => not_type(left),
    }
}

/// Whether only the value says what an operator makes of it: neither a number nor a String.
fn is_open(of: &VType) -> bool
    ensures { result ≡ is_open (declared of.now) }
{
    !(is_number(of) || is_string(of))
}

fn is_currency(of: &VType) -> bool
    ensures { result ≡ is_currency (declared of.now) }
{
    matches!(of, VType::Currency)
}

fn is_boolean(of: &VType) -> bool
    ensures { result ≡ is_boolean (declared of.now) }
{
    matches!(of, VType::Boolean)
}

/// The kind of a declared number. A Boolean counts as Integer.
fn declared_kind(of: &VType) -> Work
    ensures { result ≡ declared_kind (declared of.now) }
{
    match of {
        VType::Byte => Work::Whole(WholeKind::Byte),
        VType::Long => Work::Whole(WholeKind::Long),
        VType::LongLong => Work::Whole(WholeKind::LongLong),
        VType::Currency => Work::Currency,
        _ => Work::Whole(WholeKind::Integer),
    }
}

/// The type of a kind.
fn kind_type(work: Work) -> VType
    ensures { declared result ≡ kind_type work }
{
    match work {
        Work::Whole(WholeKind::Byte) => VType::Byte,
        Work::Whole(WholeKind::Integer) => VType::Integer,
        Work::Whole(WholeKind::Long) => VType::Long,
        Work::Whole(WholeKind::LongLong) => VType::LongLong,
        Work::Currency => VType::Currency,
    }
}

/// The type of two numbers.
fn number_type(left: &VType, right: &VType) -> VType
    ensures { declared result ≡ number_type (declared left.now) (declared right.now) }
{
    kind_type(wider(declared_kind(left), declared_kind(right)))
}

/// A String beside a String or a number.
fn sum_type(op: OpKind, left: &VType, right: &VType) -> Option<VType>
    ensures { option_map declared result ≡ sum_type op (declared left.now) (declared right.now) }
{
    match op {
        OpKind::Add if is_string(left) && is_string(right) => Some(VType::Text),
        OpKind::Add | OpKind::Sub if is_currency(left) || is_currency(right) => {
            Some(VType::Currency)
        }
        _ => None,
    }
}

/// + - *
fn arithmetic_type(op: OpKind, left: &VType, right: &VType) -> Option<VType>
    ensures { option_map declared result ≡ arithmetic_type op (declared left.now) (declared right.now) }
{
    if is_open(left) || is_open(right) {
        Some(VType::Variant)
    } else if is_string(left) || is_string(right) {
        sum_type(op, left, right)
    } else {
        Some(number_type(left, right))
    }
}

/// What Currency and String count as under the operators on whole numbers.
fn long_beside(other: &VType) -> Work
    ensures { result ≡ long_beside (declared other.now) }
{
    match other {
        VType::LongLong => Work::Whole(WholeKind::LongLong),
        _ => Work::Whole(WholeKind::Long),
    }
}

/// The kind of an operand of the operators on whole numbers.
fn whole_kind(of: &VType, other: &VType) -> Work
    ensures { result ≡ whole_kind (declared of.now) (declared other.now) }
{
    if is_string(of) || is_currency(of) {
        long_beside(other)
    } else {
        declared_kind(of)
    }
}

/// `\` and Mod.
fn division_type(left: &VType, right: &VType) -> Option<VType>
    ensures { option_map declared result ≡ division_type (declared left.now) (declared right.now) }
{
    if is_open(left) || is_open(right) {
        return Some(VType::Variant);
    }
    Some(kind_type(wider(whole_kind(left, right), whole_kind(right, left))))
}

/// And Or Xor Eqv Imp.
fn logic_type(left: &VType, right: &VType) -> Option<VType>
    ensures { option_map declared result ≡ logic_type (declared left.now) (declared right.now) }
{
    if is_boolean(left) && is_boolean(right) {
        Some(VType::Boolean)
    } else {
        division_type(left, right)
    }
}

/// `&`.
fn join_type(left: &VType, right: &VType) -> Option<VType>
    ensures { option_map declared result ≡ join_type (declared left.now) (declared right.now) }
{
    if is_open(left) || is_open(right) {
        Some(VType::Variant)
    } else {
        Some(VType::Text)
    }
}

/// A comparison.
fn comparison_type(left: &VType, right: &VType) -> Option<VType>
    ensures { option_map declared result ≡ comparison_type (declared left.now) (declared right.now) }
{
    if is_open(left) || is_open(right) {
        Some(VType::Variant)
    } else if (is_string(left) && is_number(right)) || (is_number(left) && is_string(right)) {
        None
    } else {
        Some(VType::Boolean)
    }
}

/// Unary minus.
fn minus_type(of: &VType) -> Option<VType>
    ensures { option_map declared result ≡ minus_type (declared of.now) }
{
    if is_open(of) {
        Some(VType::Variant)
    } else if is_string(of) {
        None
    } else {
        Some(number_type(of, &VType::Boolean))
    }
}

/// Not.
fn not_type(of: &VType) -> Option<VType>
    ensures { option_map declared result ≡ not_type (declared of.now) }
{
    if is_open(of) {
        Some(VType::Variant)
    } else if is_boolean(of) {
        Some(VType::Boolean)
    } else {
        Some(kind_type(whole_kind(of, &VType::Boolean)))
    }
}
