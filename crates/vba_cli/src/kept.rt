ghost use Rattle.vba_lexer.specs.Inside.{AllLieIn};

use vba_base::Units;
use vba_lexer::Line;

/// A module that breaks no rule of tokens and directives: whether it is a class, its text, and the lines that conditional
/// compilation keeps.
#[derive(Drop)]
pub struct Kept {
    pub is_class: bool,
    pub text: Units,
    pub lines: Vec<Line>,
    ghost inside: { AllLieIn text lines.items },
}
