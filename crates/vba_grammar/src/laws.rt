//! Laws of the definitions that lines are read by. The functions do nothing: their contracts are the laws.
ghost use Rattle.std.specs.Prelude.{◌≡◌, List, None, Some};
ghost use Rattle.vba_grammar.specs.Lines.{line_of};
ghost use Rattle.vba_tree.specs.Fitting.{IsReadAs};
ghost use Rattle.vba_tree.specs.Forms.{FormedLine};
ghost use Rattle.vba_tree.specs.Spelling.{spell};
ghost use Rattle.vba_tree.specs.Tree.{Line};
ghost use Rattle.vba_words.specs.declared.reading.ReadToken.{ReadToken};

/// The tree that is found for the tokens of a line has these tokens and fits; and each tree that has them and fits is found.
pub fn lines_are_read()
    ensures fits { (tokens : List ReadToken) (line : Line) → line_of tokens ≡ Some line → IsReadAs tokens line }
    ensures found { (tokens : List ReadToken) (line : Line) → IsReadAs tokens line → line_of tokens ≡ Some line }
{}

/// No two fitting trees have the same tokens.
pub fn lines_are_unique()
    ensures { (tokens : List ReadToken) (line other : Line) → IsReadAs tokens line → IsReadAs tokens other → line ≡ other }
{}

/// No tree is found only where no tree of the grammar's form has these tokens, whether it would fit or not.
pub fn lines_are_refused()
    ensures { (tokens : List ReadToken) (line : Line) → line_of tokens ≡ None → FormedLine line → spell line ≡ tokens → ⊥ }
{}
