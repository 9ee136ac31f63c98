//! The least refusal that was found so far.

ghost use Rattle.std.specs.Prelude.{◌≡◌, [], ◌∷◌, Some};
ghost use Rattle.vba_lexer.specs.Order.{is_before, is_same_place, not_later};
ghost use Rattle.refusal_order.specs.Least as order;

use vba_base::{Place, Refusal};

fn is_before(first: Place, second: Place) -> bool
    ensures { result ≡ is_before first second }
{
    first.line < second.line || (first.line == second.line && first.column < second.column)
}

fn is_same_place(first: Place, second: Place) -> bool
    ensures { result ≡ is_same_place first second }
{
    first.line == second.line && first.column == second.column
}

fn not_later(first: Refusal, second: Refusal) -> bool
    ensures { result ≡ not_later first second }
{
    is_before(first.place, second.place)
        || (is_same_place(first.place, second.place) && first.rule <= second.rule)
}

/// Keeps the lesser of what was found and one more.
pub fn note(least: &mut Option<Refusal>, refusal: Refusal)
    ensures { least.new ≡ Some (order.lesser least.old refusal) }
{
    *least = match *least {
        Some(found) if not_later(found, refusal) => Some(found),
        _ => Some(refusal),
    };
}

/// The same of a rule that is broken at a place, or isn't.
pub fn note_if(least: &mut Option<Refusal>, broken: bool, rule: u8, place: Place)
    ensures { least.new ≡ order.least_of least.old (order.broken_if broken rule place) }
{
    if broken {
        note(least, Refusal { rule, place });
    }
}

/// The same of a line's fault.
pub fn note_fault(least: &mut Option<Refusal>, fault: Option<Refusal>)
    ensures { least.new ≡ order.least_of least.old (order.fault_list fault) }
{
    if let Some(fault) = fault {
        note(least, fault);
    }
}

/// The same of what was found elsewhere.
pub fn note_both(least: &mut Option<Refusal>, other: Option<Refusal>)
    ensures { least.new ≡ order.least_of_both least.old other }
{
    note_fault(least, other);
}
