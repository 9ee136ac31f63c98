use crate::list::Listed;
use vba_expression::{Expression, TypeName};
use vba_lexer::Token;
use vba_words::Identifier;

/// The words that say where a declaration is known.
#[derive(Clone, Copy, Debug, PartialEq, Eq)]
pub enum Access {
    Public,
    Private,
    Friend,
    Global,
}

/// `Public`, `Private`, `Friend` or `Global`.
#[derive(Clone, Copy, Debug, PartialEq, Eq)]
pub struct AccessWord {
    pub access: Access,
    pub token: Token,
}

/// `()`
#[derive(Clone, Copy, Debug, PartialEq, Eq)]
pub struct Brackets {
    pub left: Token,
    pub right: Token,
}

/// A type behind `As`.
pub enum DeclaredType {
    Named(TypeName),
    /// `String * length`
    FixedText {
        string_word: Token,
        times: Token,
        length: Expression,
    },
}

impl Drop for DeclaredType {
    fn drop(self) {
        match self {
            DeclaredType::Named(_named) => {}
            DeclaredType::FixedText {
                string_word: _string_word,
                times: _times,
                length: _length,
            } => {}
        }
    }
}

/// `As type`
#[derive(Drop)]
pub struct TypeClause {
    pub as_word: Token,
    pub declared_type: DeclaredType,
}

/// `As [New] type`
#[derive(Drop)]
pub struct NewTypeClause {
    pub as_word: Token,
    pub new_word: Option<Token>,
    pub declared_type: DeclaredType,
}

/// The bounds of one dimension of an array.
pub enum Dim {
    Upper(Expression),
    /// `lower To upper`
    Range {
        lower: Expression,
        to_word: Token,
        upper: Expression,
    },
}

impl Drop for Dim {
    fn drop(self) {
        match self {
            Dim::Upper(_upper) => {}
            Dim::Range {
                lower: _lower,
                to_word: _to_word,
                upper: _upper,
            } => {}
        }
    }
}

/// `([dims])` behind the name of an array.
pub struct Dims {
    pub left: Token,
    pub dims: Option<Listed<Dim>>,
    pub right: Token,
}

impl Drop for Dims {
    fn drop(self) {
        let Dims {
            left: _left,
            dims: _dims,
            right: _right,
        } = self;
    }
}

/// `[WithEvents] name [([dims])] [As [New] type]`
pub struct Variable {
    pub with_events_word: Option<Token>,
    pub name: Identifier,
    pub dims: Option<Dims>,
    pub type_clause: Option<NewTypeClause>,
}

impl Drop for Variable {
    fn drop(self) {
        let Variable {
            with_events_word: _with_events_word,
            name: _name,
            dims: _dims,
            type_clause: _type_clause,
        } = self;
    }
}

/// The words that begin a declaration of variables.
#[derive(Clone, Copy, Debug, PartialEq, Eq)]
pub enum VariableWord {
    Dim,
    Public,
    Private,
    Global,
    Static,
}

/// `Dim a, b(3), c As Long`
pub struct Variables {
    pub word: VariableWord,
    pub word_token: Token,
    pub variables: Listed<Variable>,
}

impl Drop for Variables {
    fn drop(self) {
        let Variables {
            word: _word,
            word_token: _word_token,
            variables: _variables,
        } = self;
    }
}

/// `name [As type] = value`
pub struct Constant {
    pub name: Identifier,
    pub type_clause: Option<TypeClause>,
    pub equal: Token,
    pub value: Expression,
}

impl Drop for Constant {
    fn drop(self) {
        let Constant {
            name: _name,
            type_clause: _type_clause,
            equal: _equal,
            value: _value,
        } = self;
    }
}

/// `[Public|Private|Global] Const a = 1, b = 2`
pub struct Constants {
    pub access: Option<AccessWord>,
    pub const_word: Token,
    pub constants: Listed<Constant>,
}

impl Drop for Constants {
    fn drop(self) {
        let Constants {
            access: _access,
            const_word: _const_word,
            constants: _constants,
        } = self;
    }
}
