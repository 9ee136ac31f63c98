ghost use Rattle.std.specs.Prelude.{◌≡◌, IfOk, length, OnOk};
ghost use Rattle.bound_project.specs.DraftView.{draft_view};
ghost use Rattle.bound_calls.specs.Calls.{EndsCall, PushesReceiver, call_kind};
ghost use Rattle.bound_calls.specs.Taking.{CallsRoutine};

use crate::arguments::{nowhere, pass_rest, sum};
use crate::take::push_node;
use crate::term::{Ending, Passed, Receiver, Routine};
use bound_declarations::NotYet;
use bound_project::{DeclaredType, Draft, NodeKind, Parameter};
use std::alloc::Global;
use vba_base::{NoMemory, OrMemory, Place};

/// How many parameters there are.
pub fn count_of(parameters: &[Parameter]) -> Result<u32, NoMemory>
    ensures { IfOk result (λ count. count ≡ length parameters.now) }
{
    match u32::try_from(parameters.len()) {
        Ok(count) => Ok(count),
        Err(_) => Err(NoMemory),
    }
}

/// Pushes the own object, of this type, and that it is one.
fn push_own(draft: &mut Draft, of: DeclaredType) -> Result<(), NoMemory>
    ensures { OnOk result (PushesReceiver (Receiver.Own of) (draft_view draft.old) (draft_view draft.new)) }
{
    push_node(draft, NodeKind::This, of, nowhere())?;
    push_node(draft, NodeKind::ObjectThere, of, nowhere())
}

/// Pushes that an object is there, which was pushed.
fn push_there(draft: &mut Draft, of: DeclaredType) -> Result<(), NoMemory>
    ensures { OnOk result (PushesReceiver (Receiver.Pushed of) (draft_view draft.old) (draft_view draft.new)) }
{
    push_node(draft, NodeKind::ObjectThere, of, nowhere())
}

/// Pushes what stands before the arguments of a call: of a procedure of an object that object, and that it is one.
pub fn push_receiver(draft: &mut Draft, receiver: Receiver) -> Result<(), NoMemory>
    ensures { OnOk result (PushesReceiver receiver (draft_view draft.old) (draft_view draft.new)) }
{
    match receiver {
        Receiver::Module => Ok(()),
        Receiver::Own(of) => push_own(draft, of),
        Receiver::Pushed(of) => push_there(draft, of),
    }
}

/// The last node of a call of a procedure, of an object or of none, behind so many arguments.
pub fn call_kind(receiver: Receiver, procedure: u32, arguments: u32) -> NodeKind
    ensures { result ≡ call_kind receiver procedure arguments }
{
    match receiver {
        Receiver::Module => NodeKind::Call {
            procedure,
            arguments,
        },
        Receiver::Own(_) | Receiver::Pushed(_) => NodeKind::Method {
            procedure,
            arguments,
        },
    }
}

/// A call whose written arguments were pushed, but for its last node.
pub fn call_ending<'a>(
    alloc: Global,
    draft: &mut Draft,
    routine: Routine<'a>,
    passed: Passed<'a>,
) -> Result<Ending, OrMemory<NotYet>>
    ensures { IfOk result (λ ending. EndsCall routine.entry passed.entry (draft_view draft.old) (draft_view draft.new) ending) }
{
    let left = count_of(passed.left)?;
    let arguments = sum(passed.count, left)?;
    pass_rest(alloc, draft, passed.left)?;
    Ok(Ending {
        kind: call_kind(routine.receiver, routine.procedure, arguments),
        of: routine.of,
    })
}

/// A call without arguments, but for its last node.
pub fn routine_ending<'a>(
    alloc: Global,
    draft: &mut Draft,
    routine: Routine<'a>,
) -> Result<Ending, OrMemory<NotYet>>
    ensures { IfOk result (λ ending. CallsRoutine routine.entry (draft_view draft.old) (draft_view draft.new) ending) }
{
    push_receiver(draft, routine.receiver)?;
    let passed = Passed {
        left: routine.parameters,
        count: 0,
    };
    call_ending(alloc, draft, routine, passed)
}
