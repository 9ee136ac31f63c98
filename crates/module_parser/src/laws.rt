//! Laws of what is answered of the lines of a module. The functions do nothing: their contracts are the laws.

ghost use Rattle.std.specs.Prelude.{◌≡◌, Bool, List};
ghost use Rattle.vba_lexer.specs.Order.{IsLeastOf};
ghost use Rattle.vba_module.specs.Tree.{Nodes};
ghost use Rattle.vba_module.specs.Verdict.{module_violations};
ghost use Rattle.vba_words.specs.declared.reading.ReadToken.{ReadToken};
ghost use Rattle.module_parser.specs.Parsed.{verdict, IsModule};

/// A module is refused exactly where a rule is broken, by the least of its refusals, by place and then by rule.
#[tactic(auto, using(crate::proofs::Parses::verdict_least))]
pub fn modules_are_refused_by_the_least()
    ensures { (is_class : Bool) (lines : List (List ReadToken)) → IsLeastOf (module_violations is_class lines) (verdict is_class lines) }
{}

/// The lines of a module have one tree at most.
#[tactic(auto, using(crate::proofs::Parses::one_tree))]
pub fn modules_have_one_tree()
    ensures { (is_class : Bool) (lines : List (List ReadToken)) (nodes others : Nodes)
        → IsModule is_class lines nodes → IsModule is_class lines others → nodes ≡ others }
{}
