//! Laws of the definitions that the reader is proved against. The functions do nothing: their contracts are the laws.

ghost use Rattle.std.specs.Prelude.{◌≡◌, ◌<◌, ◌≤◌, ℕ, List, ◌++◌, length, Some, None};
ghost use Rattle.vba_words.specs.declared.reading.ReadToken.{ReadToken};
ghost use Rattle.vba_expression.specs.Tree.{Expr, Args};
ghost use Rattle.vba_expression.specs.Spelling.{spell};
ghost use Rattle.vba_expression.specs.Fitting.{Fits, level};
ghost use Rattle.vba_expression.specs.Reader.{expression_at, arguments_at};
ghost use Rattle.vba_expression.specs.Taking.{Takes, TakesArgs, Closes};

/// What is read is a fitting expression below the level that spells the tokens up to the rest and doesn't go on with it.
/// It is as long as it can be: no fitting expression below the level at the front of the tokens leaves fewer.
pub fn expressions_stand_there()
    ensures taken { (limit : ℕ) (ts rest : List ReadToken) (e : Expr) → 0 < limit → expression_at limit ts ≡ Some (e, rest)
        → Takes limit ts e rest }
    ensures longest { (limit : ℕ) (ts rest left : List ReadToken) (e shorter : Expr) → expression_at limit ts ≡ Some (e, rest)
        → Fits shorter → level shorter < limit → ts ≡ spell shorter ++ left → length rest ≤ length left }
{}

/// A fitting expression at the front of the tokens that doesn't go on with the rest is what is read. Where none is read
/// none stands there.
pub fn expressions_are_read()
    ensures read { (limit : ℕ) (ts rest : List ReadToken) (e : Expr) → Takes limit ts e rest → expression_at limit ts ≡ Some (e, rest) }
    ensures none { (limit : ℕ) (ts rest : List ReadToken) (e : Expr) → expression_at limit ts ≡ None → Takes limit ts e rest → ⊥ }
{}

/// No two fitting expressions spell one list of tokens.
pub fn expressions_are_unique()
    ensures { (e other : Expr) → Fits e → Fits other → spell e ≡ spell other → e ≡ other }
{}

/// The arguments that are read fit and spell the tokens up to the rest. Fitting arguments before what closes them are
/// what is read.
pub fn arguments_are_read()
    ensures taken { (ts rest : List ReadToken) (arguments : Args) → arguments_at ts ≡ Some (arguments, rest) → TakesArgs ts arguments rest }
    ensures read { (ts rest : List ReadToken) (arguments : Args) → TakesArgs ts arguments rest → Closes rest
        → arguments_at ts ≡ Some (arguments, rest) }
{}
