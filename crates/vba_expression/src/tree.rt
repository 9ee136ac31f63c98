use vba_base::Units;
use vba_lexer::{Number, Token};
use vba_words::Identifier;

/// What a literal stands for.
pub enum LiteralValue {
    Number { number: Number, is_plain: bool },
    Text(Units),
    True,
    False,
    Nothing,
    Null,
    Empty,
}

impl Drop for LiteralValue {
    fn drop(self) {
        match self {
            LiteralValue::Number {
                number: _number,
                is_plain: _is_plain,
            } => {}
            LiteralValue::Text(_text) => {}
            LiteralValue::True => {}
            LiteralValue::False => {}
            LiteralValue::Nothing => {}
            LiteralValue::Null => {}
            LiteralValue::Empty => {}
        }
    }
}

/// A literal, or one of the words that are values.
#[derive(Drop)]
pub struct Literal {
    pub token: Token,
    pub value: LiteralValue,
}

/// What stands before a type's name, with the dot behind it: a module's or a library's name.
#[derive(Drop)]
pub struct TypeQualifier {
    pub name: Identifier,
    pub dot: Token,
}

/// The name of a type.
#[derive(Drop)]
pub struct TypeName {
    pub qualifier: Option<TypeQualifier>,
    pub name: Identifier,
}
