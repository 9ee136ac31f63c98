//! Laws of the definitions of the least refusal. The functions do nothing: their contracts are the laws.

ghost use Rattle.std.specs.Prelude.{List, None};
ghost use Rattle.vba_base.specs.declared.place.Refusal.{Refusal};
ghost use Rattle.static_rules.specs.Broken.{IsLeastOf, least_of};

/// What is found of refusals, one after another, is the least of them by module, line, column and rule, and nothing
/// exactly where there are none.
#[tactic(auto, using(crate::proofs::LeastFound::least_of_least))]
pub fn least_refusals_are_found()
    ensures { (refusals : List Refusal) → IsLeastOf refusals (least_of None refusals) }
{}
