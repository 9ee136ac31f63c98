//! Laws of the definitions of the least refusal. The functions do nothing: their contracts are the laws.

ghost use Rattle.std.specs.Prelude.{◌≡◌, List, ◌++◌, Option, None};
ghost use Rattle.vba_base.specs.declared.place.Refusal.{Refusal};
ghost use Rattle.vba_lexer.specs.Order.{IsLeastOf};
ghost use Rattle.refusal_order.specs.Least.{least_of, least_of_both};

/// What is found of refusals, one after another, is the least of them, and nothing exactly where there are none. The least of two
/// lists is the lesser of what is found of each.
#[tactic(auto, using(crate::proofs::LeastFound::least_of_least, crate::proofs::LeastFound::least_of_two))]
pub fn least_refusals_are_found()
    ensures least { (refusals : List Refusal) → IsLeastOf refusals (least_of None refusals) }
    ensures both { (found : Option Refusal) (refusals others : List Refusal)
        → least_of found (refusals ++ others) ≡ least_of_both (least_of found refusals) (least_of None others) }
{}
