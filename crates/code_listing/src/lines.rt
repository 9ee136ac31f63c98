ghost use Rattle.std.specs.Prelude.{◌≡◌, ◌<◌, ◌++◌, IfOk, length, string_bytes, if◌then◌else◌};
ghost use Rattle.std.specs.Fmt.{decimal};
ghost use Rattle.vba_values.specs.View.{view};
ghost use Rattle.bound_project.specs.Pieces.{constant_in, flags_in, name_in};
ghost use Rattle.bound_project.specs.View.{variable_view};
ghost use Rattle.pcode.specs.View.{code_view, instr_view, tables_of};
ghost use Rattle.code_listing.specs.Listing as lists;
ghost use Rattle.code_listing.specs.Numbers as numbers;
ghost use Rattle.code_listing.specs.View.{kind_of, line_view};

use crate::numbers::{
    bit_of, compare_number, function_number, handler_number, host_detail, host_number,
    member_number, operator_number, policy_number, storage_number, type_detail, type_number,
    value_number, value_size, variable_number,
};
use bound_project::{LateName, Variable};
use pcode::{Code, Instr};
use std::alloc::{AllocError, Global};
use vba_base::NoMemory;
use vba_values::Value;

/// An instruction as a line tells it: the number of its kind, and two numbers, which are 0 where it has none.
#[derive(Clone, Copy)]
struct Line {
    op: u32,
    first: u64,
    second: u64,
}

fn listed_as(op: u32, first: u64, second: u64) -> Line
    ensures { line_view result ≡ lists.listed_as op first second }
{
    Line { op, first, second }
}

// A number of 32 bits.
fn number(small: u32) -> u64
    ensures { result ≡ small }
{
    u64::from(small)
}

// The kind and the size of a constant of a code.
fn constant_line(op: u32, code: &Code, constant: u32) -> Line
    ensures { let value = constant_in (tables_of code.now) constant in line_view result ≡ lists.listed_as op (numbers.value_number value) (numbers.value_size value) }
{
    match code.constants.get(constant as usize) {
        Some(value) => value_line(op, value),
        None => value_line(op, &Value::Empty),
    }
}

// The kind and the size of a value.
fn value_line(op: u32, value: &Value) -> Line
    ensures { line_view result ≡ lists.listed_as op (numbers.value_number (view value.now)) (numbers.value_size (view value.now)) }
{
    listed_as(op, value_number(value), value_size(value))
}

// The length of a name of a code, and a number.
fn name_line(op: u32, code: &Code, name: u32, count: u32) -> Line
    ensures { line_view result ≡ lists.listed_as op (length (name_in (tables_of code.now) name)) count }
{
    listed_as(op, code.name(name).len() as u64, number(count))
}

// Where a branch leads for True, and for False.
fn branch_line(op: u32, sense: bool, to: u32, other: u32) -> Line
    ensures { line_view result ≡ lists.listed_as op (if sense then to else other) (if sense then other else to) }
{
    if sense {
        listed_as(op, number(to), number(other))
    } else {
        listed_as(op, number(other), number(to))
    }
}

// A variable, and a block.
fn variable_line(op: u32, variable: Variable, block: u32) -> Line
    ensures { line_view result ≡ lists.listed_as op (numbers.variable_number (variable_view variable).storage) block }
{
    listed_as(op, variable_number(variable), number(block))
}

// An instruction of a code as a line tells it; here those of the kinds up to 11: the beginning of a statement, values and
// places.
fn listed(code: &Code, instr: Instr) -> Line
    ensures { line_view result ≡ lists.listed (instr_view (tables_of code.now) instr) }
{
    match instr {
        Instr::Begin { statement } => listed_as(0, number(statement), 0),
        Instr::Push { constant } => constant_line(1, code, constant),
        Instr::PushHost(reference) => listed_as(2, host_number(reference), host_detail(reference)),
        Instr::LoadErr(member) => listed_as(3, member_number(member), 0),
        Instr::PathOf(variable) => listed_as(
            4,
            variable_number(variable),
            storage_number(variable),
        ),
        Instr::ReadThrough => listed_as(5, 0, 0),
        Instr::ElementOf { numbers } => listed_as(6, number(numbers), 0),
        Instr::ElementIn { numbers } => listed_as(7, number(numbers), 0),
        Instr::FieldOf {
            field,
            is_bounded,
            ..
        } => listed_as(8, number(field), bit_of(is_bounded)),
        Instr::Dot { block } => listed_as(9, number(block), 0),
        Instr::Index { numbers } => listed_as(10, number(numbers), 0),
        Instr::PartOf { field } => listed_as(11, number(field), 0),
        _ => operator_line(code, instr),
    }
}

// The same of the kinds from 12 on; here up to 24: operators, members of objects, functions and types.
fn operator_line(code: &Code, instr: Instr) -> Line
    requires { 11 < kind_of (tables_of code.now) instr }
    ensures { line_view result ≡ lists.listed (instr_view (tables_of code.now) instr) }
{
    match instr {
        Instr::Operate {
            operator,
            compare,
            ..
        } => listed_as(12, operator_number(operator), compare_number(compare)),
        Instr::OperateAlone { operator, .. } => listed_as(13, operator_number(operator), 0),
        Instr::Plain => listed_as(14, 0, 0),
        Instr::PlainIfAny => listed_as(15, 0, 0),
        Instr::FirstSheet => listed_as(16, 0, 0),
        Instr::MemberThere { name, given } => name_line(17, code, name, given),
        Instr::MemberOf { name, arguments } => name_line(18, code, name, arguments),
        Instr::Same => listed_as(19, 0, 0),
        Instr::IsType(of) => listed_as(20, type_number(of), type_detail(of)),
        Instr::Library {
            function,
            arguments,
            ..
        } => listed_as(21, function_number(function), number(arguments)),
        Instr::BoundAt {
            is_upper,
            dimension,
        } => listed_as(22, bit_of(is_upper), number(dimension.unsigned_abs())),
        Instr::Fit(of) => listed_as(23, type_number(of), type_detail(of)),
        Instr::FitObject(of) => listed_as(24, type_number(of), type_detail(of)),
        _ => call_line(code, instr),
    }
}

// The same of the kinds from 25 on; here up to 37: arguments, calls, assignments, and what is shown or raised.
fn call_line(code: &Code, instr: Instr) -> Line
    requires { 24 < kind_of (tables_of code.now) instr }
    ensures { line_view result ≡ lists.listed (instr_view (tables_of code.now) instr) }
{
    match instr {
        Instr::Drop => listed_as(25, 0, 0),
        Instr::Lend => listed_as(26, 0, 0),
        Instr::Pack { arguments } => listed_as(27, number(arguments), 0),
        Instr::Reorder { order, arguments } => listed_as(
            28,
            code.order(order).len() as u64,
            number(arguments),
        ),
        Instr::Lift { arguments } => listed_as(29, number(arguments), 0),
        Instr::Call {
            procedure,
            arguments,
        } => listed_as(30, number(procedure), number(arguments)),
        Instr::Store => listed_as(31, 0, 0),
        Instr::SetAt => listed_as(32, 0, 0),
        Instr::StoreDefault => listed_as(33, 0, 0),
        Instr::StoreMember { name, arguments } => name_line(34, code, name, arguments),
        Instr::ShowText => listed_as(35, 0, 0),
        Instr::Show { ends, items } => listed_as(36, number(items), bit_of(ends)),
        Instr::Throw { arguments } => listed_as(37, number(arguments), 0),
        _ => block_line(code, instr),
    }
}

// The same of the kinds from 38 on; here up to 51: loops, and what else a block keeps and tests.
fn block_line(code: &Code, instr: Instr) -> Line
    requires { 37 < kind_of (tables_of code.now) instr }
    ensures { line_view result ≡ lists.listed (instr_view (tables_of code.now) instr) }
{
    match instr {
        Instr::LoopOff { block } => listed_as(38, number(block), 0),
        Instr::LoopOn { counter, block, .. } => variable_line(39, counter, block),
        Instr::NextRound { counter, block } => variable_line(40, counter, block),
        Instr::EachOff { block } => listed_as(41, number(block), 0),
        Instr::EachOn { block } => listed_as(42, number(block), 0),
        Instr::NextItem { control, block } => variable_line(43, control, block),
        Instr::Keep { block } => listed_as(44, number(block), 0),
        Instr::Selected { block } => listed_as(45, number(block), 0),
        Instr::IfFits { operator, to, .. } => listed_as(46, operator_number(operator), number(to)),
        Instr::IfBetween { compare, to, .. } => listed_as(47, compare_number(compare), number(to)),
        Instr::Redim {
            preserve,
            bounds,
            ..
        } => listed_as(48, number(bounds), bit_of(preserve)),
        Instr::EraseAt => listed_as(49, 0, 0),
        Instr::KeepPath { block } => listed_as(50, number(block), 0),
        Instr::DropKept { block } => listed_as(51, number(block), 0),
        _ => control_line(code, instr),
    }
}

// The same of the kinds from 52 on; here up to 68: jumps, errors, ends, two assignments, and members whose last arguments
// have names.
fn control_line(code: &Code, instr: Instr) -> Line
    requires { 51 < kind_of (tables_of code.now) instr }
    ensures { line_view result ≡ lists.listed (instr_view (tables_of code.now) instr) }
{
    match instr {
        Instr::PutReturn { statement } => listed_as(52, number(statement), 0),
        Instr::TakeReturn { procedure } => listed_as(53, number(procedure), 0),
        Instr::SetPolicy(policy) => listed_as(54, policy_number(policy), handler_number(policy)),
        Instr::HandlerOff => listed_as(55, 0, 0),
        Instr::ErrOff => listed_as(56, 0, 0),
        Instr::Again { procedure } => listed_as(57, number(procedure), 0),
        Instr::Behind { procedure } => listed_as(58, number(procedure), 0),
        Instr::Resumes {
            procedure,
            statement,
        } => listed_as(59, number(procedure), number(statement)),
        Instr::Finish { to } => listed_as(60, number(to), 0),
        Instr::Branch { sense, to, other } => branch_line(61, sense, to, other),
        Instr::Halt => listed_as(62, 0, 0),
        Instr::StopHere => listed_as(63, 0, 0),
        Instr::Leave => listed_as(64, 0, 0),
        Instr::StoreItem { numbers } => listed_as(65, number(numbers), 0),
        Instr::SetMember => listed_as(66, 0, 0),
        Instr::NamedThere { name, given, .. } => name_line(67, code, name, given),
        Instr::NamedOf {
            name,
            arguments,
            ..
        } => name_line(68, code, name, arguments),
        _ => object_line(code, instr),
    }
}

// The length of the name of a late-bound member, and how many arguments it has.
fn late_line(op: u32, code: &Code, member: LateName) -> Line
    ensures { line_view result ≡ lists.listed_as op (length (name_in (tables_of code.now) member.name)) (length (flags_in (tables_of code.now) member)) }
{
    name_line(op, code, member.name, member.arguments)
}

// The same of the kinds from 69 on; here up to 76: objects of classes.
fn object_line(code: &Code, instr: Instr) -> Line
    requires { 68 < kind_of (tables_of code.now) instr }
    ensures { line_view result ≡ lists.listed (instr_view (tables_of code.now) instr) }
{
    match instr {
        Instr::PushThis => listed_as(69, 0, 0),
        Instr::New { class } => listed_as(70, number(class), 0),
        Instr::ObjectThere => listed_as(71, 0, 0),
        Instr::FieldIn {
            field,
            is_bounded,
            ..
        } => listed_as(72, number(field), bit_of(is_bounded)),
        Instr::CallOf {
            procedure,
            arguments,
        } => listed_as(73, number(procedure), number(arguments)),
        Instr::AsNew { class } => listed_as(74, number(class), 0),
        Instr::MakeThere => listed_as(75, 0, 0),
        Instr::StoreMade => listed_as(76, 0, 0),
        _ => late_bound_line(code, instr),
    }
}

// The same of the kinds from 77 on: late-bound members, what arguments lead to, and events.
fn late_bound_line(code: &Code, instr: Instr) -> Line
    requires { 76 < kind_of (tables_of code.now) instr }
    ensures { line_view result ≡ lists.listed (instr_view (tables_of code.now) instr) }
{
    match instr {
        Instr::FindLate { member, .. } => late_line(77, code, member),
        Instr::BindValue {
            member,
            argument,
            ..
        } => name_line(78, code, member.name, argument),
        Instr::BindPlace {
            member,
            argument,
            ..
        } => name_line(79, code, member.name, argument),
        Instr::CallLate(member) => late_line(80, code, member),
        Instr::LetLate(member) => late_line(81, code, member),
        Instr::SetLate(member) => late_line(82, code, member),
        Instr::ItemAlong { arguments } => listed_as(83, number(arguments), 0),
        Instr::WriteThrough => listed_as(84, 0, 0),
        Instr::LetElement { numbers } => listed_as(85, number(numbers), 0),
        Instr::RaiseEvent { event, arguments } => listed_as(86, number(event), number(arguments)),
        Instr::ElementAlong { arguments } => listed_as(87, number(arguments), 0),
        Instr::SetElement { numbers } => listed_as(88, number(numbers), 0),
        Instr::LateField { name } => name_line(89, code, name, 0),
        Instr::Enumerate => listed_as(90, 0, 0),
        // Only PlaceOf is left.
        _ => listed_as(91, 0, 0),
    }
}

// A number in decimal.
fn decimal_text(alloc: Global, number: u64) -> Result<String, AllocError>
    ensures { IfOk result (λ text. string_bytes text ≡ decimal number) }
{
    format!(in alloc; "{number}")
}

// Two texts with a third between them.
fn joined(alloc: Global, left: &str, between: &str, right: &str) -> Result<String, AllocError>
    ensures { IfOk result (λ text. string_bytes text ≡ left.now ++ between.now ++ right.now) }
{
    format!(in alloc; "{left}{between}{right}")
}

// Two numbers with a blank between them.
fn both(alloc: Global, left: u64, right: u64) -> Result<String, AllocError>
    ensures { IfOk result (λ text. string_bytes text ≡ lists.both left right) }
{
    let left = decimal_text(alloc, left)?;
    let right = decimal_text(alloc, right)?;
    joined(alloc, left.as_str(), " ", right.as_str())
}

// The text of a line.
fn line_text(alloc: Global, address: usize, line: Line) -> Result<String, AllocError>
    ensures { IfOk result (λ text. string_bytes text ≡ lists.line_of address (line_view line)) }
{
    let head = both(alloc, address as u64, u64::from(line.op))?;
    let tail = both(alloc, line.first, line.second)?;
    let mut text = joined(alloc, head.as_str(), " ", tail.as_str())?;
    text.push('\n')?;
    Ok(text)
}

/// The listing of a code: a line for each instruction, in the order of addresses, with its address, the number of its
/// kind and two numbers, all in decimal with a blank between two.
pub fn listing(alloc: Global, code: &Code) -> Result<Vec<u8>, NoMemory>
    ensures { IfOk result (λ bytes. bytes.items ≡ lists.listing_of (code_view code.now)) }
{
    let mut bytes = Vec::new(alloc);
    for (address, instr) in code.instrs.iter().enumerate() {
        let text = line_text(alloc, address, listed(code, *instr))?;
        bytes.extend_from_slice(text.as_bytes())?;
    }
    Ok(bytes)
}
