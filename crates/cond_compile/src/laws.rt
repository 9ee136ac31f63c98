//! Laws of the definitions that `select_lines` is proved against. The functions do nothing: their contracts are the laws.

ghost use Rattle.std.specs.Prelude.{◌≡◌, ◌≤◌, ℕ, List, [], ◌∷◌, Ok};
ghost use Rattle.std.specs.Result.{result_err};
ghost use Rattle.vba_lexer.specs.declared.line.Line.{Line};
ghost use Rattle.vba_lexer.specs.Inside.{AllLieIn, view_count};
ghost use Rattle.vba_lexer.specs.Lexed.{LexedLine, lexed, lines_view};
ghost use Rattle.vba_lexer.specs.Order.{IsLeastOf};
ghost use Rattle.cond_compile.specs.Blocks.{Block, IsBlock, NoFaultBy, NoneBy, kept_of, lines_of};
ghost use Rattle.cond_compile.specs.Expressions.{Expression, Spells};
ghost use Rattle.cond_compile.specs.Pieces as piece;
ghost use Rattle.cond_compile.specs.Pieces.{Piece};
ghost use Rattle.cond_compile.specs.Reader.{BeforeThen, ToEnd, expression_at, reading_of};
ghost use Rattle.cond_compile.specs.Kept.{LeavesOut};
ghost use Rattle.cond_compile.specs.Selection.{kept_lines, opening, selected, violations};

/// What is read is a tree that fits and spells the tokens.
pub fn what_is_read_is_spelled()
    ensures to_end { (pieces : List Piece) (e : Expression) → reading_of (expression_at pieces) ≡ ToEnd e → Spells pieces [] e }
    ensures before_then { (pieces : List Piece) (e : Expression) → reading_of (expression_at pieces) ≡ BeforeThen e → Spells pieces (piece.then_ ∷ []) e }
{}

/// A tree that fits and spells the tokens is what is read of them. So no two such trees have the same tokens, and where none is read there is none.
#[tactic(auto, using(crate::proofs::Complete::reads_to_end, crate::proofs::Complete::reads_before_then))]
pub fn what_is_spelled_is_read()
    ensures to_end { (pieces : List Piece) (e : Expression) → Spells pieces [] e → reading_of (expression_at pieces) ≡ ToEnd e }
    ensures before_then { (pieces : List Piece) (e : Expression) → Spells pieces (piece.then_ ∷ []) e → reading_of (expression_at pieces) ≡ BeforeThen e }
{}

/// The kept lines are lines of the source, in order, with some left out; they have no more tokens, and these lie in the source
/// where those of all lines do.
#[tactic(auto, using(crate::proofs::Kept::selected_leaves_out, crate::proofs::Kept::selected_count))]
pub fn kept_lines_are_lines()
    ensures lines { (source : List ℕ) (lines kept : List LexedLine) → selected source lines ≡ Ok kept → LeavesOut lines kept }
    ensures count { (source : List ℕ) (lines kept : List LexedLine) → selected source lines ≡ Ok kept → view_count kept ≤ view_count lines }
    ensures inside { (source : List ℕ) (lines kept : List Line) → selected source (lines_view lines) ≡ Ok (lines_view kept)
        → AllLieIn source lines → AllLieIn source kept }
{}

/// Of a block of lines the lines are kept that are no directives, and of each conditional block in it what is kept of its first
/// arm whose condition is true; none of it, where no arm is true. Each condition is evaluated with the constants that are
/// defined before its `#If` line, by `#Const` lines of such arms. And lines that are not refused are those of a block.
#[tactic(auto, using(crate::proofs::BlocksKept::kept_by_blocks, crate::proofs::BlocksAnswer::answered_by_block))]
pub fn first_true_arms_are_kept()
    ensures answer { (source : List ℕ) (lines kept : List LexedLine) → selected source lines ≡ Ok kept
        → (block : Block) × IsBlock source block × (lines_of block ≡ lines) × (kept ≡ (kept_of source opening.constants block).lines) }
    ensures kept { (source : List ℕ) (block : Block) → IsBlock source block
        → kept_lines source opening (lines_of block) ≡ (kept_of source opening.constants block).lines }
{}

/// Lines have at most one block structure; and they have one exactly where rule S8 isn't broken, if that is no rule of their tokens.
/// It is none of those of lexed lines.
pub fn blocks_are_matched()
    ensures one { (source : List ℕ) (block other : Block) → IsBlock source block → IsBlock source other
        → lines_of block ≡ lines_of other → block ≡ other }
    ensures found { (source : List ℕ) (lines : List LexedLine) → NoneBy 8 (violations source opening lines)
        → (block : Block) × IsBlock source block × (lines_of block ≡ lines) }
    ensures only { (source : List ℕ) (block : Block) → IsBlock source block → NoFaultBy 8 (lines_of block)
        → NoneBy 8 (violations source opening (lines_of block)) }
    ensures tokens { (number : ℕ) (source : List ℕ) → NoFaultBy 8 (lexed number source) }
{}

/// Lines are refused exactly where a rule is broken, and by the least of the refusals, by place and then by rule.
#[tactic(auto, using(crate::proofs::LeastRefusals::selected_least))]
pub fn refusals_are_least()
    ensures { (source : List ℕ) (lines : List LexedLine) → IsLeastOf (violations source opening lines) (result_err (selected source lines)) }
{}
