//! The least refusal that was found so far.

ghost use Rattle.std.specs.Prelude.{◌≡◌};
ghost use Rattle.use_rules.specs.Found.{noted};
ghost use Rattle.refusal_order.specs.Least.{least_of_both};
ghost use Rattle.vba_module.specs.Misplaced.{place_if};

use refusal_order::{note_both, note_if};
use vba_base::{Place, Refusal};

/// Notes a rule that is broken at a place, or isn't.
#[tactic(auto, using(crate::proofs::Noted::noted_if))]
pub fn note_place(least: &mut Option<Refusal>, broken: bool, rule: u8, place: Place)
    ensures { least.new ≡ noted rule least.old (place_if broken place) }
{
    note_if(least, broken, rule, place);
}

/// The lesser of two, of which each may be missing.
pub fn lesser_of(first: Option<Refusal>, second: Option<Refusal>) -> Option<Refusal>
    ensures { result ≡ least_of_both first second }
{
    let mut least = first;
    note_both(&mut least, second);
    least
}
