ghost use Rattle.std.specs.Prelude.{◌≡◌};
ghost use Rattle.vba_clauses.specs.Meets.{meets};

use vba_words::{Keyword, Mark, Reading};

/// What can be expected somewhere in a line: a kept word, a mark or a name.
#[derive(Clone, Copy, Debug, PartialEq, Eq)]
pub enum Expected {
    As,
    Case,
    Const,
    Each,
    Else,
    End,
    GoTo,
    In,
    Is,
    New,
    Next,
    Option,
    Optional,
    ParamArray,
    Private,
    Resume,
    Static,
    Then,
    To,
    WithEvents,
    Colon,
    Comma,
    Dot,
    Equal,
    LeftParenthesis,
    Minus,
    RightParenthesis,
    Times,
    Name,
}

/// Is a token with this reading what is expected?
pub fn is_expected(reading: &Reading, expected: Expected) -> bool
    ensures { result ≡ meets expected reading.now }
{
    match expected {
        Expected::As => matches!(reading, Reading::Keyword(Keyword::As)),
        Expected::Case => matches!(reading, Reading::Keyword(Keyword::Case)),
        Expected::Const => matches!(reading, Reading::Keyword(Keyword::Const)),
        Expected::Each => matches!(reading, Reading::Keyword(Keyword::Each)),
        Expected::Else => matches!(reading, Reading::Keyword(Keyword::Else)),
        Expected::End => matches!(reading, Reading::Keyword(Keyword::End)),
        Expected::GoTo => matches!(reading, Reading::Keyword(Keyword::GoTo)),
        Expected::In => matches!(reading, Reading::Keyword(Keyword::In)),
        Expected::Is => matches!(reading, Reading::Keyword(Keyword::Is)),
        Expected::New => matches!(reading, Reading::Keyword(Keyword::New)),
        Expected::Next => matches!(reading, Reading::Keyword(Keyword::Next)),
        Expected::Option => matches!(reading, Reading::Keyword(Keyword::Option)),
        Expected::Optional => matches!(reading, Reading::Keyword(Keyword::Optional)),
        Expected::ParamArray => matches!(reading, Reading::Keyword(Keyword::ParamArray)),
        Expected::Private => matches!(reading, Reading::Keyword(Keyword::Private)),
        Expected::Resume => matches!(reading, Reading::Keyword(Keyword::Resume)),
        Expected::Static => matches!(reading, Reading::Keyword(Keyword::Static)),
        Expected::Then => matches!(reading, Reading::Keyword(Keyword::Then)),
        Expected::To => matches!(reading, Reading::Keyword(Keyword::To)),
        Expected::WithEvents => matches!(reading, Reading::Keyword(Keyword::WithEvents)),
        Expected::Colon => matches!(reading, Reading::Mark(Mark::Colon)),
        Expected::Comma => matches!(reading, Reading::Mark(Mark::Comma)),
        Expected::Dot => matches!(reading, Reading::Mark(Mark::Dot)),
        Expected::Equal => matches!(reading, Reading::Mark(Mark::Equal)),
        Expected::LeftParenthesis => matches!(reading, Reading::Mark(Mark::LeftParenthesis)),
        Expected::Minus => matches!(reading, Reading::Mark(Mark::Minus)),
        Expected::RightParenthesis => matches!(reading, Reading::Mark(Mark::RightParenthesis)),
        Expected::Times => matches!(reading, Reading::Mark(Mark::Times)),
        Expected::Name => matches!(reading, Reading::Name { .. }),
    }
}
