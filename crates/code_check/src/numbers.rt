// Whether the numbers of an instruction name what is there.
ghost use Rattle.std.specs.Prelude.{◌≡◌, ◌↔◌, ℕ, ◌<◌, IsTrue, MatchOption, Some, option_map, slice_get};
ghost use Rattle.vba_values.specs.View.{view};
ghost use Rattle.bound_project.specs.Pieces.{constant_in};
ghost use Rattle.bound_project.specs.View.{declarations_view, declared_view, element_view, storage_view, variable_view};
ghost use Rattle.bound_project.specs.Whole.{All, HasStorage, HasType, HasVariable, IfThere, IsConstant, variable_count};
ghost use Rattle.pcode.specs.Instructions.{Begin};
ghost use Rattle.pcode.specs.View.{code_view, instr_view, tables_of};
ghost use Rattle.pcode.specs.WellFormed.{HasPolicy, IsStatement, IsTarget, Leads, Sound};
ghost use Rattle.code_check.specs.Questions.{IsSound, PartIsSound, SoundAt, TablesBegin};

use crate::handlers::has_procedure;
use crate::tables::{addresses_of, entry_of, procedure_count, statement_count};
use bound_project::{DeclaredType, ElementType, Storage, Variable};
use error_frames::Policy;
use pcode::{Code, Instr};
use vba_values::{ObjRef, Value};

fn has_statement(code: &Code, procedure: usize, statement: u32) -> bool
    ensures { IsTrue result ↔ IsStatement (code_view code.now) procedure statement }
{
    (statement as usize) < statement_count(code, procedure)
}

fn has_target(code: &Code, procedure: usize, statement: u64) -> bool
    ensures { IsTrue result ↔ IsTarget (code_view code.now) procedure statement }
{
    statement <= statement_count(code, procedure) as u64
}

// The statement that begins at an address, if one does.
fn begun_at(code: &Code, address: usize) -> Option<u32>
    ensures { MatchOption result ((k : ℕ) → slice_get (code_view code.now).instrs address ≡ Some (Begin k) → ⊥) (λ own. slice_get (code_view code.now).instrs address ≡ Some (Begin own)) }
{
    let instr = code.instr_at(address)?;
    match instr {
        Instr::Begin { statement } => Some(statement),
        _ => None,
    }
}

// Whether an address is that of a statement of the procedure, or of its end.
fn leads(code: &Code, procedure: usize, to: u32) -> bool
    requires { TablesBegin (code_view code.now) }
    ensures { IsTrue result ↔ Leads (code_view code.now) procedure to }
{
    if to == 0 {
        return true;
    }
    match begun_at(code, to as usize) {
        Some(statement) => entry_of(code, procedure, statement as usize) == to as usize,
        None => false,
    }
}

fn is_constant_value(value: &Value) -> bool
    ensures { IsTrue result ↔ IsConstant (view value.now) }
{
    match value {
        Value::Empty
        | Value::Null
        | Value::Missing
        | Value::Boolean(_)
        | Value::Byte(_)
        | Value::Integer(_)
        | Value::Long(_)
        | Value::LongLong(_)
        | Value::Currency(_)
        | Value::Text(_)
        | Value::Object(ObjRef::Nothing) => true,
        Value::Object(ObjRef::Heap(_))
        | Value::Object(ObjRef::Host(_))
        | Value::Array(_)
        | Value::Udt(_) => false,
    }
}

// Past the last constant there is Empty.
fn is_constant(code: &Code, number: u32) -> bool
    ensures { IsTrue result ↔ IsConstant (constant_in (tables_of code.now) number) }
{
    match code.constants.get(number as usize) {
        Some(value) => is_constant_value(value),
        None => true,
    }
}

fn has_element(code: &Code, of: ElementType) -> bool
    ensures { IsTrue result ↔ HasType (declarations_view code.now.declared) (element_view of) }
{
    match of {
        ElementType::Class(number) => number as usize <= code.declared.classes.len(),
        ElementType::UserType(place) => (place as usize) < code.declared.types.len(),
        ElementType::Boolean
        | ElementType::Byte
        | ElementType::Integer
        | ElementType::Long
        | ElementType::LongLong
        | ElementType::Currency
        | ElementType::Text
        | ElementType::FixedText(_)
        | ElementType::Object
        | ElementType::Collection
        | ElementType::Worksheet
        | ElementType::Range
        | ElementType::Variant => true,
    }
}

fn has_type(code: &Code, of: DeclaredType) -> bool
    ensures { IsTrue result ↔ HasType (declarations_view code.now.declared) (declared_view of) }
{
    match of {
        DeclaredType::Plain(of) => has_element(code, of),
        DeclaredType::ArrayOf(of) => has_element(code, of),
    }
}

fn has_type_if_any(code: &Code, of: Option<DeclaredType>) -> bool
    ensures { IsTrue result ↔ IfThere (HasType (declarations_view code.now.declared)) (option_map declared_view of) }
{
    match of {
        Some(of) => has_type(code, of),
        None => true,
    }
}

fn has_local(code: &Code, procedure: usize, number: u32) -> bool
    ensures { IsTrue result ↔ (number < variable_count (declarations_view code.now.declared) procedure) }
{
    match code.declared.procedures.get(procedure) {
        Some(procedure) => (number as usize) <= procedure.locals.len() + procedure.parameters.len(),
        None => number == 0,
    }
}

fn has_storage(code: &Code, procedure: usize, storage: Storage) -> bool
    ensures { IsTrue result ↔ HasStorage (declarations_view code.now.declared) procedure (storage_view storage) }
{
    match storage {
        Storage::Local(number) => has_local(code, procedure, number),
        Storage::Shared(number) => (number as usize) < code.declared.shared.len(),
        Storage::Own(_) => true,
    }
}

fn has_variable(code: &Code, procedure: usize, variable: Variable) -> bool
    ensures { IsTrue result ↔ HasVariable (declarations_view code.now.declared) procedure (variable_view variable) }
{
    has_storage(code, procedure, variable.storage) && has_type(code, variable.of)
}

// The control variable of a loop, and its block.
fn has_counter(code: &Code, procedure: usize, counter: Variable, block: u32) -> bool
    ensures { IsTrue result ↔ (HasVariable (declarations_view code.now.declared) procedure (variable_view counter) × IsStatement (code_view code.now) procedure block) }
{
    has_variable(code, procedure, counter) && has_statement(code, procedure, block)
}

fn are_below(numbers: &[u32], end: u32) -> bool
    ensures { IsTrue result ↔ All (λ i. i < end) numbers.now }
{
    for number in numbers {
        if end <= *number {
            return false;
        }
    }
    true
}

fn has_policy(code: &Code, procedure: usize, policy: Policy) -> bool
    ensures { IsTrue result ↔ HasPolicy (code_view code.now) procedure policy }
{
    match policy {
        Policy::Handler(label) => has_target(code, procedure, label.0),
        Policy::Default | Policy::ResumeNext => true,
    }
}

fn resumes(code: &Code, procedure: usize, own: u32, statement: u32) -> bool
    ensures { IsTrue result ↔ ((own ≡ procedure) × IsTarget (code_view code.now) procedure statement) }
{
    own as usize == procedure && has_target(code, procedure, u64::from(statement))
}

fn lead_both(code: &Code, procedure: usize, to: u32, other: u32) -> bool
    requires { TablesBegin (code_view code.now) }
    ensures { IsTrue result ↔ (Leads (code_view code.now) procedure to × Leads (code_view code.now) procedure other) }
{
    leads(code, procedure, to) && leads(code, procedure, other)
}

// Whether the numbers of an instruction of a procedure name what is there.
fn is_sound(code: &Code, procedure: usize, instr: Instr) -> bool
    requires { TablesBegin (code_view code.now) }
    ensures { IsTrue result ↔ Sound (code_view code.now) procedure (instr_view (tables_of code.now) instr) }
{
    match instr {
        Instr::Begin { statement } => has_statement(code, procedure, statement),
        Instr::Dot { block }
        | Instr::LoopOff { block }
        | Instr::EachOff { block }
        | Instr::EachOn { block }
        | Instr::Keep { block }
        | Instr::Selected { block }
        | Instr::KeepPath { block }
        | Instr::DropKept { block } => has_statement(code, procedure, block),
        Instr::Push { constant } => is_constant(code, constant),
        Instr::PathOf(variable) => has_variable(code, procedure, variable),
        Instr::FieldOf { of, .. }
        | Instr::FieldIn { of, .. }
        | Instr::IsType(of)
        | Instr::Fit(of)
        | Instr::FitObject(of) => has_type(code, of),
        Instr::Reorder { order, arguments } => are_below(code.order(order), arguments),
        Instr::Call {
            procedure: called,
            arguments,
        }
        | Instr::CallOf {
            procedure: called,
            arguments,
        } => has_procedure(code, called, arguments as usize),
        Instr::LoopOn { counter, block, .. } | Instr::NextRound { counter, block } => has_counter(
            code, procedure, counter, block,
        ),
        Instr::NextItem { control, block } => has_counter(code, procedure, control, block),
        Instr::IfFits { to, .. } | Instr::IfBetween { to, .. } | Instr::Finish { to } => leads(
            code, procedure, to,
        ),
        Instr::Branch { to, other, .. } => lead_both(code, procedure, to, other),
        Instr::Redim { of, .. } => has_type_if_any(code, of),
        Instr::PutReturn { statement } => has_target(code, procedure, u64::from(statement)),
        Instr::TakeReturn { procedure: own }
        | Instr::Again { procedure: own }
        | Instr::Behind { procedure: own } => own as usize == procedure,
        Instr::SetPolicy(policy) => has_policy(code, procedure, policy),
        Instr::Resumes {
            procedure: own,
            statement,
        } => resumes(code, procedure, own, statement),
        Instr::Leave => false,
        Instr::PushHost(_)
        | Instr::PushThis
        | Instr::New { .. }
        | Instr::ObjectThere
        | Instr::AsNew { .. }
        | Instr::MakeThere
        | Instr::StoreMade
        | Instr::LoadErr(_)
        | Instr::ReadThrough
        | Instr::ElementOf { .. }
        | Instr::ElementIn { .. }
        | Instr::Index { .. }
        | Instr::PartOf { .. }
        | Instr::Operate { .. }
        | Instr::OperateAlone { .. }
        | Instr::Plain
        | Instr::PlainIfAny
        | Instr::Enumerate
        | Instr::FindLate { .. }
        | Instr::BindValue { .. }
        | Instr::BindPlace { .. }
        | Instr::CallLate(_)
        | Instr::LetLate(_)
        | Instr::SetLate(_)
        | Instr::ItemAlong { .. }
        | Instr::WriteThrough
        | Instr::LetElement { .. }
        | Instr::SetElement { .. }
        | Instr::ElementAlong { .. }
        | Instr::LateField { .. }
        | Instr::PlaceOf
        | Instr::FirstSheet
        | Instr::MemberThere { .. }
        | Instr::MemberOf { .. }
        | Instr::NamedThere { .. }
        | Instr::NamedOf { .. }
        | Instr::Same
        | Instr::Library { .. }
        | Instr::BoundAt { .. }
        | Instr::Drop
        | Instr::Lend
        | Instr::Pack { .. }
        | Instr::Lift { .. }
        | Instr::Store
        | Instr::SetAt
        | Instr::StoreDefault
        | Instr::StoreMember { .. }
        | Instr::StoreItem { .. }
        | Instr::SetMember
        | Instr::RaiseEvent { .. }
        | Instr::ShowText
        | Instr::Show { .. }
        | Instr::Throw { .. }
        | Instr::EraseAt
        | Instr::HandlerOff
        | Instr::ErrOff
        | Instr::Halt
        | Instr::StopHere => true,
    }
}

// Whether it is so at an address, if there is an instruction.
fn is_sound_at(code: &Code, procedure: usize, address: usize) -> bool
    requires { TablesBegin (code_view code.now) }
    ensures { IsTrue result ↔ SoundAt (code_view code.now) procedure address }
{
    match code.instr_at(address) {
        Some(instr) => is_sound(code, procedure, instr),
        None => true,
    }
}

fn part_is_sound(code: &Code, procedure: usize) -> bool
    requires { TablesBegin (code_view code.now) }
    ensures { IsTrue result ↔ PartIsSound (code_view code.now) procedure }
{
    let addresses = addresses_of(code, procedure);
    for address in addresses.first..addresses.end {
        if !is_sound_at(code, procedure, address) {
            return false;
        }
    }
    true
}

/// Whether the numbers of each instruction name what is there, where statements begin as the tables say.
pub fn numbers_are_sound(code: &Code) -> bool
    requires { TablesBegin (code_view code.now) }
    ensures { IsTrue result ↔ IsSound (code_view code.now) }
{
    let count = procedure_count(code);
    for procedure in 0..count {
        if !part_is_sound(code, procedure) {
            return false;
        }
    }
    true
}
