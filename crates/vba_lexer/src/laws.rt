//! Laws of the definitions that `lex` is proved against. The functions do nothing: their contracts are the laws.

ghost use Rattle.std.specs.Prelude.{◌≡◌, Bool, ℕ, ◌≤◌, All, List, ◌∷◌, length, false};
ghost use Rattle.vba_lexer.specs.Kinds.{is_gap};
ghost use Rattle.vba_lexer.specs.Characters.{AreUnits};
ghost use Rattle.vba_lexer.specs.Faults.{faults_of};
ghost use Rattle.vba_lexer.specs.Inside.{AllLieIn, StandBetween, token_count};
ghost use Rattle.vba_lexer.specs.Lexed.{lexed, lines_view};
ghost use Rattle.vba_lexer.specs.Lines.{AreLinesOf, PhysicalLine, lines_of};
ghost use Rattle.vba_lexer.specs.Order.{IsLeastOf};
ghost use Rattle.vba_lexer.specs.Slices.{AreTokensOf};
ghost use Rattle.vba_lexer.specs.Tokens.{Front, IsToken, Slice, front_of, slices_of};
ghost use Rattle.vba_lexer.specs.declared.line.Line.{Line};
ghost use Rattle.vba_lexer.specs.declared.token.TokenKind.{TokenKind};

/// The lines of a source are lines of it, and the only ones.
pub fn lines_are_unique()
    ensures made { (source : List ℕ) → AreLinesOf source (lines_of source) }
    ensures only { (source : List ℕ) (lines : List PhysicalLine) → AreLinesOf source lines → lines ≡ lines_of source }
{}

/// Where a line begins with no white space, what is found at its front is a token, and the only one there.
pub fn fronts_are_unique()
    ensures found { (is_first : Bool) (character : ℕ) (line : List ℕ) → is_gap character ≡ false
        → IsToken is_first (character ∷ line) (front_of is_first (character ∷ line)).kind (front_of is_first (character ∷ line)).size }
    ensures only { (is_first : Bool) (line : List ℕ) (kind : TokenKind) (size : ℕ) → IsToken is_first line kind size
        → front_of is_first line ≡ record { kind = kind; size = size } }
{}

/// The tokens of a line stand in order within it, each with a unit at least and none over another.
pub fn tokens_stand_in_order()
    ensures { (line : List ℕ) → StandBetween 0 (length line) (slices_of line) }
{}

/// The tokens of a line are slices that the definition allows, and the only ones.
pub fn tokens_are_unique()
    ensures made { (line : List ℕ) → AreTokensOf line (slices_of line) }
    ensures only { (line : List ℕ) (slices : List Slice) → AreTokensOf line slices → slices ≡ slices_of line }
{}

/// The fault of a lexed line is the least one of its tokens by place and then by rule; it has none exactly where they have none.
pub fn faults_are_least()
    ensures { (number : ℕ) (source : List ℕ) → All (λ line. IsLeastOf (faults_of source line.tokens) line.fault) (lexed number source) }
{}

/// The tokens of lexed lines lie in their source, and there are no more of them than it has units.
pub fn tokens_lie_in_source()
    ensures inside { (number : ℕ) (source : List ℕ) (lines : List Line) → AreUnits source → lines_view lines ≡ lexed number source
        → AllLieIn source lines }
    ensures count { (number : ℕ) (source : List ℕ) (lines : List Line) → lines_view lines ≡ lexed number source
        → token_count lines ≤ length source }
{}
