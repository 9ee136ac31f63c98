//! Laws of the definitions that modules are read by. The functions do nothing: their contracts are the laws.
ghost use Rattle.std.specs.Prelude.{◌≡◌, List, []};
ghost use Rattle.vba_module.specs.Blocks.{block_faults};
ghost use Rattle.vba_module.specs.Parts.{Part};
ghost use Rattle.vba_module.specs.Tree.{AreBracketed, Nodes, parts_of_nodes};

/// The parts of a module break S11 nowhere exactly where a tree brackets them, and no two trees bracket the same parts.
pub fn modules_are_bracketed()
    ensures unbroken { (nodes : Nodes) → AreBracketed [] nodes → block_faults [] (parts_of_nodes nodes) ≡ [] }
    ensures bracketed { (parts : List Part) → block_faults [] parts ≡ []
        → (nodes : Nodes) × AreBracketed [] nodes × (parts_of_nodes nodes ≡ parts) }
    ensures one { (nodes others : Nodes) → AreBracketed [] nodes → AreBracketed [] others → parts_of_nodes nodes ≡ parts_of_nodes others
        → nodes ≡ others }
{}
