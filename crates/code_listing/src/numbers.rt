//! The numbers by which a listing names what an instruction says.

ghost use Rattle.std.specs.Prelude.{◌≡◌, ◌≤◌};
ghost use Rattle.vba_values.specs.View.{view};
ghost use Rattle.bound_project.specs.View.{declared_view, element_view, member_view, variable_view};
ghost use Rattle.code_listing.specs.Numbers as numbers;

use bound_project::{DeclaredType, ElementType, ErrMember, Storage, Variable};
use error_frames::Policy;
use vba_lib::LibraryFunction;
use vba_values::{Compare, HostRef, OpKind, Value};

/// 1 for true.
pub fn bit_of(bit: bool) -> u64
    ensures { result ≡ numbers.bit_of bit }
{
    u64::from(bit)
}

pub fn operator_number(operator: OpKind) -> u64
    ensures { result ≡ numbers.operator_number operator }
{
    match operator {
        OpKind::Add => 0,
        OpKind::Sub => 1,
        OpKind::Mul => 2,
        OpKind::IntDiv => 3,
        OpKind::Mod => 4,
        OpKind::Join => 5,
        OpKind::Eq => 6,
        OpKind::Ne => 7,
        OpKind::Lt => 8,
        OpKind::Le => 9,
        OpKind::Gt => 10,
        OpKind::Ge => 11,
        OpKind::And => 12,
        OpKind::Or => 13,
        OpKind::Xor => 14,
        OpKind::Eqv => 15,
        OpKind::Imp => 16,
        OpKind::Neg => 17,
        OpKind::Not => 18,
        OpKind::Divide => 19,
        OpKind::Power => 20,
    }
}

/// How texts are compared.
pub fn compare_number(compare: Compare) -> u64
    ensures { result ≡ numbers.compare_number compare }
{
    match compare {
        Compare::Binary => 0,
        Compare::Folded => 1,
    }
}

/// What Err tells.
pub fn member_number(member: ErrMember) -> u64
    ensures { result ≡ numbers.member_number (member_view member) }
{
    match member {
        ErrMember::Number => 0,
        ErrMember::Source => 1,
        ErrMember::Description => 2,
    }
}

/// What a frame does with errors.
pub fn policy_number(policy: Policy) -> u64
    ensures { result ≡ numbers.policy_number policy }
{
    match policy {
        Policy::Default => 0,
        Policy::Handler(_) => 1,
        Policy::ResumeNext => 2,
    }
}

/// The statement of a frame's handler.
pub fn handler_number(policy: Policy) -> u64
    ensures { result ≡ numbers.handler_number policy }
{
    match policy {
        Policy::Default => 0,
        Policy::Handler(at) => at.0,
        Policy::ResumeNext => 0,
    }
}

/// The number of a variable.
pub fn variable_number(variable: Variable) -> u64
    ensures { result ≡ numbers.variable_number (variable_view variable).storage }
{
    match variable.storage {
        Storage::Local(number) => u64::from(number),
        Storage::Shared(number) => u64::from(number),
        Storage::Own(number) => u64::from(number),
    }
}

/// Where a variable is kept.
pub fn storage_number(variable: Variable) -> u64
    ensures { result ≡ numbers.storage_number (variable_view variable).storage }
{
    match variable.storage {
        Storage::Local(_) => 0,
        Storage::Shared(_) => 1,
        Storage::Own(_) => 2,
    }
}

/// An object of the host.
pub fn host_number(reference: HostRef) -> u64
    ensures { result ≡ numbers.host_number reference }
{
    match reference {
        HostRef::Application => 0,
        HostRef::Workbook => 1,
        HostRef::Sheets => 2,
        HostRef::ErrObject => 3,
        HostRef::Sheet { .. } => 4,
        HostRef::Area { .. } => 5,
        HostRef::RowsOf { .. } => 6,
        HostRef::ColumnsOf { .. } => 7,
    }
}

/// The number that an object of the host has or counts.
pub fn host_detail(reference: HostRef) -> u64
    ensures { result ≡ numbers.host_detail reference }
{
    match reference {
        HostRef::Application => 0,
        HostRef::Workbook => 0,
        HostRef::Sheets => 0,
        HostRef::ErrObject => 0,
        HostRef::Sheet { sheet } => u64::from(sheet),
        HostRef::Area { sheet, .. } => u64::from(sheet),
        HostRef::RowsOf { count } => u64::from(count),
        HostRef::ColumnsOf { count } => u64::from(count),
    }
}

/// The kind of a value.
pub fn value_number(value: &Value) -> u64
    ensures { result ≡ numbers.value_number (view value.now) }
{
    match value {
        Value::Empty => 0,
        Value::Null => 1,
        Value::Missing => 10,
        Value::Boolean(_) => 11,
        Value::Byte(_) => 17,
        Value::Integer(_) => 2,
        Value::Long(_) => 3,
        Value::LongLong(_) => 20,
        Value::Currency(_) => 6,
        Value::Text(_) => 8,
        Value::Object(_) => 9,
        Value::Array(_) => 8192,
        Value::Udt(_) => 36,
    }
}

/// How large a value is: a number without its sign, a Currency's in ten-thousandths; how many units a text has.
pub fn value_size(value: &Value) -> u64
    ensures { result ≡ numbers.value_size (view value.now) }
{
    match value {
        Value::Boolean(bit) => bit_of(*bit),
        Value::Byte(whole) => u64::from(*whole),
        Value::Integer(whole) => u64::from(whole.unsigned_abs()),
        Value::Long(whole) => u64::from(whole.unsigned_abs()),
        Value::LongLong(whole) => whole.unsigned_abs(),
        Value::Currency(amount) => currency::count(*amount).unsigned_abs(),
        Value::Text(text) => text.units().len() as u64,
        Value::Empty => 0,
        Value::Null => 0,
        Value::Missing => 0,
        Value::Object(_) => 0,
        Value::Array(_) => 0,
        Value::Udt(_) => 0,
    }
}

/// A declared type.
pub fn type_number(of: DeclaredType) -> u64
    ensures { result ≡ numbers.type_number (declared_view of) }
{
    match of {
        DeclaredType::Plain(element) => element_number(element),
        DeclaredType::ArrayOf(element) => 16 + element_number(element),
    }
}

/// The number or size that a declared type has.
pub fn type_detail(of: DeclaredType) -> u64
    ensures { result ≡ numbers.type_detail (declared_view of) }
{
    match of {
        DeclaredType::Plain(element) => element_detail(element),
        DeclaredType::ArrayOf(element) => element_detail(element),
    }
}

// A declared type that is no array's.
fn element_number(of: ElementType) -> u64
    ensures number { result ≡ numbers.type_number (element_view of) }
    ensures small { result ≤ 14 }
{
    match of {
        ElementType::Boolean => 0,
        ElementType::Byte => 1,
        ElementType::Integer => 2,
        ElementType::Long => 3,
        ElementType::LongLong => 4,
        ElementType::Currency => 5,
        ElementType::Text => 6,
        ElementType::FixedText(_) => 7,
        ElementType::Object => 8,
        ElementType::Class(_) => 9,
        ElementType::Collection => 10,
        ElementType::Worksheet => 11,
        ElementType::Range => 12,
        ElementType::Variant => 13,
        ElementType::UserType(_) => 14,
    }
}

// The number or size that such a type has.
fn element_detail(of: ElementType) -> u64
    ensures { result ≡ numbers.type_detail (element_view of) }
{
    match of {
        ElementType::FixedText(size) => u64::from(size),
        ElementType::Class(number) => u64::from(number),
        ElementType::UserType(place) => u64::from(place),
        ElementType::Boolean => 0,
        ElementType::Byte => 0,
        ElementType::Integer => 0,
        ElementType::Long => 0,
        ElementType::LongLong => 0,
        ElementType::Currency => 0,
        ElementType::Text => 0,
        ElementType::Object => 0,
        ElementType::Collection => 0,
        ElementType::Worksheet => 0,
        ElementType::Range => 0,
        ElementType::Variant => 0,
    }
}

/// A function of the library.
pub fn function_number(function: LibraryFunction) -> u64
    ensures { result ≡ numbers.function_number function }
{
    match function {
        LibraryFunction::Len => 0,
        LibraryFunction::Left => 1,
        LibraryFunction::Right => 2,
        LibraryFunction::Mid => 3,
        LibraryFunction::InStr => 4,
        LibraryFunction::UCase => 5,
        LibraryFunction::LCase => 6,
        LibraryFunction::Trim => 7,
        LibraryFunction::LTrim => 8,
        LibraryFunction::RTrim => 9,
        LibraryFunction::Space => 10,
        LibraryFunction::String => 11,
        LibraryFunction::ChrW => 12,
        LibraryFunction::AscW => 13,
        LibraryFunction::Chr => 14,
        LibraryFunction::Asc => 15,
        LibraryFunction::Replace => 16,
        LibraryFunction::Split => 17,
        LibraryFunction::Join => 18,
        LibraryFunction::UBound => 19,
        LibraryFunction::LBound => 20,
        LibraryFunction::IsEmpty => 21,
        LibraryFunction::IsNull => 22,
        LibraryFunction::IsObject => 23,
        LibraryFunction::IsArray => 24,
        LibraryFunction::IsMissing => 25,
        LibraryFunction::TypeName => 26,
        LibraryFunction::VarType => 27,
        LibraryFunction::Abs => 28,
        LibraryFunction::Int => 29,
        LibraryFunction::Fix => 30,
        LibraryFunction::Sgn => 31,
        LibraryFunction::Hex => 32,
        LibraryFunction::Oct => 33,
        LibraryFunction::StrComp => 34,
        LibraryFunction::StrReverse => 35,
        LibraryFunction::Array => 36,
        LibraryFunction::IIf => 37,
        LibraryFunction::CByte => 38,
        LibraryFunction::CInt => 39,
        LibraryFunction::CLng => 40,
        LibraryFunction::CLngLng => 41,
        LibraryFunction::CCur => 42,
        LibraryFunction::CBool => 43,
        LibraryFunction::CStr => 44,
        LibraryFunction::CVar => 45,
    }
}
