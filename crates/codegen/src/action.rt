ghost use Rattle.std.specs.Prelude.{◌≡◌, suc, [], ◌∷◌, ◌++◌, IfOk, OnOk, slice_index};
ghost use Rattle.codegen.specs.Emission.{action_instrs, around_of, assignment_along_instrs, assignment_instrs, before_instrs, control_instrs, end_instr, event_instrs, lists_of, loop_instrs, method_assignment_instrs, method_instrs, object_method_instrs, object_property_instrs, order_length, policy_in, property_assignment_instrs, property_instrs, work_instrs};

use crate::node::{Added, Around, constant_number, emit_nodes, order_length, put, put_two};
use bound_project::{ActionKind, DeclaredType, ElementType, Handling, Node, TooLong};
use error_frames::{At, Policy};
use pcode::Instr;
use vba_base::OrMemory;
use vba_values::Compare;

/// The numbers of a procedure, of one of its statements, and of the next statement.
#[derive(Clone, Copy)]
pub struct Numbers {
    pub procedure: u32,
    pub statement: u32,
    pub next: u32,
}

// The address of a statement, 0 past the last.
fn address_of(row: &[u32], statement: u32) -> u32
    ensures { result ≡ slice_index row.now statement }
{
    match row.get(statement as usize) {
        Some(address) => *address,
        None => 0,
    }
}

fn around_of(row: &[u32], action: ActionKind) -> Around
    ensures { result ≡ around_of row.now action }
{
    let mut around = Around {
        header: 0,
        of: DeclaredType::Plain(ElementType::Variant),
        compare: Compare::Binary,
        to: 0,
        preserve: false,
    };
    match action {
        ActionKind::Case {
            header,
            of,
            compare,
            first,
            ..
        } => Around {
            header,
            of,
            compare,
            to: address_of(row, first),
            preserve: false,
        },
        ActionKind::ReDim { preserve, .. } => {
            around.preserve = preserve;
            around
        }
        _ => around,
    }
}

fn put_before(
    code: &mut Vec<Instr>,
    statement: u32,
    action: ActionKind,
) -> Result<(), OrMemory<TooLong>>
    ensures { OnOk result (code.new.items ≡ code.old.items ++ before_instrs statement action) }
{
    let instr = match action {
        ActionKind::For { .. } => Instr::LoopOff { block: statement },
        ActionKind::ForEach { .. } => Instr::EachOff { block: statement },
        _ => return Ok(()),
    };
    put(code, instr)
}

fn policy_of(handling: Handling) -> Policy
    ensures { result ≡ policy_in handling }
{
    match handling {
        Handling::PassedOn => Policy::Default,
        Handling::Skipped => Policy::ResumeNext,
        Handling::HandledAt { statement } => Policy::Handler(At(u64::from(statement))),
    }
}

fn one_more(count: u32) -> Result<u32, OrMemory<TooLong>>
    ensures { IfOk result (λ n. n ≡ suc count) }
{
    match count.checked_add(1) {
        Some(more) => Ok(more),
        None => Err(OrMemory::Fault(TooLong)),
    }
}

// The call of a property whose arguments stand on the stack above the value.
fn put_property(
    code: &mut Vec<Instr>,
    procedure: u32,
    arguments: u32,
    of: DeclaredType,
) -> Result<(), OrMemory<TooLong>>
    ensures { OnOk result (code.new.items ≡ code.old.items ++ property_instrs procedure arguments of) }
{
    let all = one_more(arguments)?;
    code.extend_from_slice(&[
        Instr::Lift { arguments },
        Instr::Plain,
        Instr::Fit(of),
        Instr::Call {
            procedure,
            arguments: all,
        },
        Instr::Drop,
    ])?;
    Ok(())
}

// The same of a property that is given the object itself.
fn put_object_property(
    code: &mut Vec<Instr>,
    procedure: u32,
    arguments: u32,
    of: DeclaredType,
) -> Result<(), OrMemory<TooLong>>
    ensures { OnOk result (code.new.items ≡ code.old.items ++ object_property_instrs procedure arguments of) }
{
    let all = one_more(arguments)?;
    code.extend_from_slice(&[
        Instr::Lift { arguments },
        Instr::FitObject(of),
        Instr::Call {
            procedure,
            arguments: all,
        },
        Instr::Drop,
    ])?;
    Ok(())
}

// The same of an object: the property is one of the object below the arguments.
fn put_method(
    code: &mut Vec<Instr>,
    procedure: u32,
    arguments: u32,
    of: DeclaredType,
) -> Result<(), OrMemory<TooLong>>
    ensures { OnOk result (code.new.items ≡ code.old.items ++ method_instrs procedure arguments of) }
{
    let all = one_more(arguments)?;
    code.extend_from_slice(&[
        Instr::Lift { arguments: all },
        Instr::Plain,
        Instr::Fit(of),
        Instr::CallOf {
            procedure,
            arguments: all,
        },
        Instr::Drop,
    ])?;
    Ok(())
}

fn put_object_method(
    code: &mut Vec<Instr>,
    procedure: u32,
    arguments: u32,
    of: DeclaredType,
) -> Result<(), OrMemory<TooLong>>
    ensures { OnOk result (code.new.items ≡ code.old.items ++ object_method_instrs procedure arguments of) }
{
    let all = one_more(arguments)?;
    code.extend_from_slice(&[
        Instr::Lift { arguments: all },
        Instr::FitObject(of),
        Instr::CallOf {
            procedure,
            arguments: all,
        },
        Instr::Drop,
    ])?;
    Ok(())
}

// Arguments of a property of an object that have names are put in order first.
fn put_method_in_order(
    code: &mut Vec<Instr>,
    orders: &[Vec<u32>],
    procedure: u32,
    arguments: u32,
    order: u32,
    of: DeclaredType,
) -> Result<(), OrMemory<TooLong>>
    ensures { OnOk result (code.new.items ≡ code.old.items
        ++ Instr.Reorder order arguments ∷ method_instrs procedure (order_length (lists_of orders.now) order) of) }
{
    put(code, Instr::Reorder { order, arguments })?;
    let all = order_length(orders, order)?;
    put_method(code, procedure, all, of)
}

fn put_object_method_in_order(
    code: &mut Vec<Instr>,
    orders: &[Vec<u32>],
    procedure: u32,
    arguments: u32,
    order: u32,
    of: DeclaredType,
) -> Result<(), OrMemory<TooLong>>
    ensures { OnOk result (code.new.items ≡ code.old.items
        ++ Instr.Reorder order arguments ∷ object_method_instrs procedure (order_length (lists_of orders.now) order) of) }
{
    put(code, Instr::Reorder { order, arguments })?;
    let all = order_length(orders, order)?;
    put_object_method(code, procedure, all, of)
}

fn put_property_in_order(
    code: &mut Vec<Instr>,
    orders: &[Vec<u32>],
    procedure: u32,
    arguments: u32,
    order: u32,
    of: DeclaredType,
) -> Result<(), OrMemory<TooLong>>
    ensures { OnOk result (code.new.items ≡ code.old.items
        ++ Instr.Reorder order arguments ∷ property_instrs procedure (order_length (lists_of orders.now) order) of) }
{
    put(code, Instr::Reorder { order, arguments })?;
    let all = order_length(orders, order)?;
    put_property(code, procedure, all, of)
}

fn put_object_property_in_order(
    code: &mut Vec<Instr>,
    orders: &[Vec<u32>],
    procedure: u32,
    arguments: u32,
    order: u32,
    of: DeclaredType,
) -> Result<(), OrMemory<TooLong>>
    ensures { OnOk result (code.new.items ≡ code.old.items
        ++ Instr.Reorder order arguments ∷ object_property_instrs procedure (order_length (lists_of orders.now) order) of) }
{
    put(code, Instr::Reorder { order, arguments })?;
    let all = order_length(orders, order)?;
    put_object_property(code, procedure, all, of)
}

// A statement's work is of one of several sorts; for one of another sort each of these puts nothing.

// An assignment, or Set.
fn put_assignment(
    code: &mut Vec<Instr>,
    added: Added,
    action: ActionKind,
) -> Result<(), OrMemory<TooLong>>
    ensures { OnOk result (code.new.items ≡ code.old.items ++ assignment_instrs added action) }
{
    let instr = match action {
        ActionKind::Assign => Instr::Store,
        ActionKind::AssignItem { numbers } => Instr::StoreItem { numbers },
        ActionKind::Set => Instr::SetAt,
        ActionKind::AssignDefault => Instr::StoreDefault,
        ActionKind::AssignMember { name, arguments } => Instr::StoreMember {
            name: constant_number(added, name),
            arguments,
        },
        ActionKind::SetMember => Instr::SetMember,
        _ => return Ok(()),
    };
    put(code, instr)
}

// An assignment that gives a value of its own, as that of a procedure that it ends in: nothing uses it.
fn put_assignment_along(code: &mut Vec<Instr>, action: ActionKind) -> Result<(), OrMemory<TooLong>>
    ensures { OnOk result (code.new.items ≡ code.old.items ++ assignment_along_instrs action) }
{
    let instr = match action {
        ActionKind::AssignThrough => Instr::WriteThrough,
        ActionKind::AssignElement { numbers } => Instr::LetElement { numbers },
        ActionKind::SetElement { numbers } => Instr::SetElement { numbers },
        ActionKind::AssignLate(member) => Instr::LetLate(member),
        ActionKind::SetLate(member) => Instr::SetLate(member),
        _ => return Ok(()),
    };
    put_two(code, instr, Instr::Drop)
}

// An assignment to a property.
fn put_property_assignment(
    code: &mut Vec<Instr>,
    orders: &[Vec<u32>],
    action: ActionKind,
) -> Result<(), OrMemory<TooLong>>
    ensures { OnOk result (code.new.items ≡ code.old.items ++ property_assignment_instrs (lists_of orders.now) action) }
{
    match action {
        ActionKind::LetProperty {
            procedure,
            arguments,
            of,
        } => put_property(code, procedure, arguments, of),
        ActionKind::LetPropertyInOrder {
            procedure,
            arguments,
            order,
            of,
        } => put_property_in_order(code, orders, procedure, arguments, order, of),
        ActionKind::SetProperty {
            procedure,
            arguments,
            of,
        } => put_object_property(code, procedure, arguments, of),
        ActionKind::SetPropertyInOrder {
            procedure,
            arguments,
            order,
            of,
        } => put_object_property_in_order(code, orders, procedure, arguments, order, of),
        _ => Ok(()),
    }
}

// An assignment to a property of an object.
fn put_method_assignment(
    code: &mut Vec<Instr>,
    orders: &[Vec<u32>],
    action: ActionKind,
) -> Result<(), OrMemory<TooLong>>
    ensures { OnOk result (code.new.items ≡ code.old.items ++ method_assignment_instrs (lists_of orders.now) action) }
{
    match action {
        ActionKind::LetMethod {
            procedure,
            arguments,
            of,
        } => put_method(code, procedure, arguments, of),
        ActionKind::LetMethodInOrder {
            procedure,
            arguments,
            order,
            of,
        } => put_method_in_order(code, orders, procedure, arguments, order, of),
        ActionKind::SetMethod {
            procedure,
            arguments,
            of,
        } => put_object_method(code, procedure, arguments, of),
        ActionKind::SetMethodInOrder {
            procedure,
            arguments,
            order,
            of,
        } => put_object_method_in_order(code, orders, procedure, arguments, order, of),
        _ => Ok(()),
    }
}

// RaiseEvent: arguments that have names are put in order first.
fn put_event(
    code: &mut Vec<Instr>,
    orders: &[Vec<u32>],
    action: ActionKind,
) -> Result<(), OrMemory<TooLong>>
    ensures { OnOk result (code.new.items ≡ code.old.items ++ event_instrs (lists_of orders.now) action) }
{
    match action {
        ActionKind::RaiseEvent { event, arguments } => {
            put(code, Instr::RaiseEvent { event, arguments })
        }
        ActionKind::RaiseEventInOrder {
            event,
            arguments,
            order,
        } => {
            let all = order_length(orders, order)?;
            let raised = Instr::RaiseEvent {
                event,
                arguments: all,
            };
            put_two(code, Instr::Reorder { order, arguments }, raised)
        }
        _ => Ok(()),
    }
}

// The first or the last line of a loop.
fn put_loop(code: &mut Vec<Instr>, block: u32, action: ActionKind) -> Result<(), OrMemory<TooLong>>
    ensures { OnOk result (code.new.items ≡ code.old.items ++ loop_instrs block action) }
{
    let instr = match action {
        ActionKind::For {
            counter,
            compare,
            last,
            step,
            ..
        } => Instr::LoopOn {
            counter,
            block,
            compare,
            last,
            step,
        },
        ActionKind::Next {
            counter,
            header: block,
            ..
        } => Instr::NextRound { counter, block },
        ActionKind::ForEach { control, .. } => {
            let item = Instr::NextItem { control, block };
            return put_two(code, Instr::EachOn { block }, item);
        }
        ActionKind::NextEach {
            control,
            header: block,
            ..
        } => Instr::NextItem { control, block },
        _ => return Ok(()),
    };
    put(code, instr)
}

// What a block keeps, what handles errors, and what stands alone.
fn put_control(
    code: &mut Vec<Instr>,
    block: u32,
    next: u32,
    action: ActionKind,
) -> Result<(), OrMemory<TooLong>>
    ensures { OnOk result (code.new.items ≡ code.old.items ++ control_instrs block next action) }
{
    let instr = match action {
        ActionKind::Evaluate => Instr::Drop,
        ActionKind::Print { items, ends } => Instr::Show { ends, items },
        ActionKind::RaiseInOrder { arguments, order } => Instr::Reorder { order, arguments },
        ActionKind::Select { .. } | ActionKind::WithValue => Instr::Keep { block },
        ActionKind::WithPlace => Instr::KeepPath { block },
        ActionKind::EndWith { header } | ActionKind::ExitEach { header, .. } => {
            Instr::DropKept { block: header }
        }
        ActionKind::GoSub { .. } => Instr::PutReturn { statement: next },
        ActionKind::ExitTo { .. } | ActionKind::ClearErr => Instr::ErrOff,
        ActionKind::OnError(handling) => Instr::SetPolicy(policy_of(handling)),
        ActionKind::EndHandler => Instr::HandlerOff,
        ActionKind::Stop => Instr::StopHere,
        _ => return Ok(()),
    };
    put(code, instr)
}

fn put_work(
    code: &mut Vec<Instr>,
    added: Added,
    orders: &[Vec<u32>],
    statement: u32,
    next: u32,
    action: ActionKind,
) -> Result<(), OrMemory<TooLong>>
    ensures { OnOk result (code.new.items ≡ code.old.items ++ work_instrs added (lists_of orders.now) statement next action) }
{
    put_assignment(code, added, action)?;
    put_assignment_along(code, action)?;
    put_property_assignment(code, orders, action)?;
    put_method_assignment(code, orders, action)?;
    put_event(code, orders, action)?;
    put_loop(code, statement, action)?;
    put_control(code, statement, next, action)
}

fn branch_to(row: &[u32], sense: bool, to: u32, other: u32) -> Instr
    ensures { result ≡ Instr.Branch sense (slice_index row.now to) (slice_index row.now other) }
{
    Instr::Branch {
        sense,
        to: address_of(row, to),
        other: address_of(row, other),
    }
}

fn finish_at(row: &[u32], to: u32) -> Instr
    ensures { result ≡ Instr.Finish (slice_index row.now to) }
{
    Instr::Finish {
        to: address_of(row, to),
    }
}

fn throw_in_order(orders: &[Vec<u32>], order: u32) -> Result<Instr, OrMemory<TooLong>>
    ensures { IfOk result (λ end. end ≡ Instr.Throw (order_length (lists_of orders.now) order)) }
{
    let arguments = order_length(orders, order)?;
    Ok(Instr::Throw { arguments })
}

// Where a statement goes on.
fn put_end(
    code: &mut Vec<Instr>,
    orders: &[Vec<u32>],
    row: &[u32],
    numbers: Numbers,
    action: ActionKind,
) -> Result<(), OrMemory<TooLong>>
    ensures { OnOk result (code.new.items ≡ code.old.items ++ end_instr (lists_of orders.now) row.now numbers.procedure numbers.next action ∷ []) }
{
    let procedure = numbers.procedure;
    let end = match action {
        ActionKind::Raise { arguments } => Instr::Throw { arguments },
        ActionKind::RaiseInOrder { order, .. } => throw_in_order(orders, order)?,
        ActionKind::Test { sense, to, other } => branch_to(row, sense, to, other),
        ActionKind::GoTo { to } | ActionKind::GoSub { to } => finish_at(row, to),
        ActionKind::For { first, behind, .. } => branch_to(row, true, first, behind),
        ActionKind::Next { first, .. } => branch_to(row, true, first, numbers.next),
        ActionKind::ForEach { first, behind, .. } => branch_to(row, true, first, behind),
        ActionKind::NextEach { first, .. } => branch_to(row, true, first, numbers.next),
        ActionKind::ExitEach { to, .. } => finish_at(row, to),
        ActionKind::Select { first } => finish_at(row, first),
        ActionKind::Case { other, .. } => finish_at(row, other),
        ActionKind::Return => Instr::TakeReturn { procedure },
        ActionKind::ExitTo { end } => finish_at(row, end),
        ActionKind::ResumeAgain => Instr::Again { procedure },
        ActionKind::ResumeNext => Instr::Behind { procedure },
        ActionKind::ResumeAt { to } => Instr::Resumes {
            procedure,
            statement: to,
        },
        ActionKind::End => Instr::Halt,
        _ => finish_at(row, numbers.next),
    };
    put(code, end)
}

/// What a statement does with its nodes.
pub fn emit_action(
    code: &mut Vec<Instr>,
    added: Added,
    orders: &[Vec<u32>],
    row: &[u32],
    numbers: Numbers,
    action: ActionKind,
    nodes: &[Node],
) -> Result<(), OrMemory<TooLong>>
    ensures { OnOk result (code.new.items ≡ code.old.items
        ++ action_instrs added (lists_of orders.now) row.now numbers.procedure numbers.statement numbers.next action nodes.now) }
{
    put_before(code, numbers.statement, action)?;
    emit_nodes(code, added, orders, around_of(row, action), nodes)?;
    put_work(code, added, orders, numbers.statement, numbers.next, action)?;
    put_end(code, orders, row, numbers, action)
}
