// Which handler is due for a link.
ghost use Rattle.std.specs.Prelude.{◌≡◌, map, reverse};
ghost use Rattle.bound_project.specs.View.{declarations_view, handler_view};
ghost use Rattle.vba_meaning.specs.Events.{due, handler_in};
ghost use Rattle.run_events.specs.Sought.{due_from, found_with};
ghost use Rattle.run_memory.specs.View.{memory_view};

use crate::links::stands;
use bound_project::{Declarations, Handler, handlers_of};
use run_memory::Memory;
use vba_events::Linked;
use vba_values::{ObjId, ObjRef};

/// The handler that is due for a link: none where the variable was set again, or its class doesn't handle the event.
fn due(declared: &Declarations, event: u32, link: &Linked, memory: &Memory) -> Option<u32>
    ensures { result ≡ due (declarations_view declared.now) event link.now (memory_view memory.now) }
{
    if !stands(memory, link) {
        return None;
    }
    let class = memory.class_of(ObjRef::Heap(link.sink));
    handler_in(handlers_of(declared, class), link.field, event)
}

/// The object and the handler of the next link that has one. It and those before it are taken off the links, of which the
/// next one stands last.
#[tactic(auto, using(crate::proofs::Ordered::popped, crate::proofs::Ordered::popped_some))]
pub fn next_due(
    declared: &Declarations,
    event: u32,
    links: &mut Vec<Linked>,
    memory: &Memory,
) -> Option<(ObjId, u32)>
    ensures { found_with result (reverse links.new.items) ≡ due_from (declarations_view declared.now) event (reverse links.old.items) (memory_view memory.now) }
{
    while let Some(link) = links.pop() {
        if let Some(procedure) = due(declared, event, &link, memory) {
            return Some((link.sink, procedure));
        }
    }
    None
}

/// The procedure that handles an event of a variable.
fn handler_in(handlers: &[Handler], field: u32, event: u32) -> Option<u32>
    ensures { result ≡ handler_in (map handler_view handlers.now) field event }
{
    match handlers {
        [] => None,
        [first, handlers @ ..] => {
            if first.field == field && first.event == event {
                return Some(first.procedure);
            }
            handler_in(handlers, field, event)
        }
    }
}
