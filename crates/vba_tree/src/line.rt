ghost use Rattle.std.specs.Prelude.{◌≡◌, IfOk, IfErr, None};
ghost use Rattle.vba_tree.specs.declared.line.LineTree.TheVariants as lines;
ghost use Rattle.vba_tree.specs.View.{statement_line_in};

use crate::declaration::{AccessWord, Dims, TypeClause};
use crate::list::Listed;
use crate::procedure::{EventLine, ProcedureEnd, ProcedureHeader};
use crate::statement::{NextStatement, Statement};
use vba_expression::Literal;
use vba_lexer::{Number, Token};
use vba_words::Identifier;

/// What stands behind `Option`.
#[derive(Clone, Copy, Debug, PartialEq, Eq)]
pub enum OptionChoice {
    Explicit(Token),
    /// `Base 0`
    BaseZero {
        base_word: Token,
        zero: Token,
    },
    /// `Base 1`
    BaseOne {
        base_word: Token,
        one: Token,
    },
    /// `Compare Binary`
    CompareBinary {
        compare_word: Token,
        binary_word: Token,
    },
    /// `Compare Text`
    CompareText {
        compare_word: Token,
        text_word: Token,
    },
    /// `Private Module`
    PrivateModule {
        private_word: Token,
        module_word: Token,
    },
}

/// `Option Explicit` and the like.
#[derive(Clone, Copy, Debug, PartialEq, Eq)]
pub struct OptionLine {
    pub option_word: Token,
    pub choice: OptionChoice,
}

/// `[-] literal`
#[derive(Drop)]
pub struct AttributeValue {
    pub minus: Option<Token>,
    pub literal: Literal,
}

/// `Attribute name{.name} = value, ..`
pub struct AttributeLine {
    pub attribute_word: Token,
    pub names: Listed<Identifier>,
    pub equal: Token,
    pub values: Listed<AttributeValue>,
}

impl Drop for AttributeLine {
    fn drop(self) {
        let AttributeLine {
            attribute_word: _attribute_word,
            names: _names,
            equal: _equal,
            values: _values,
        } = self;
    }
}

/// `[Public|Private] Enum name`
#[derive(Drop)]
pub struct EnumHeader {
    pub access: Option<AccessWord>,
    pub enum_word: Token,
    pub name: Identifier,
}

/// `[Public|Private] Type name`
#[derive(Drop)]
pub struct TypeHeader {
    pub access: Option<AccessWord>,
    pub type_word: Token,
    pub name: Identifier,
}

/// `name [([dims])] As type`: a member of a Type.
pub struct TypeMember {
    pub name: Identifier,
    pub dims: Option<Dims>,
    pub type_clause: TypeClause,
}

impl Drop for TypeMember {
    fn drop(self) {
        let TypeMember {
            name: _name,
            dims: _dims,
            type_clause: _type_clause,
        } = self;
    }
}

/// A label at the front of a line.
pub enum LineLabel {
    /// `name:`
    Name {
        name: Identifier,
        colon: Token,
    },
    /// A line number, with a colon behind it or without.
    Number {
        token: Token,
        number: Number,
        colon: Option<Token>,
    },
}

impl Drop for LineLabel {
    fn drop(self) {
        match self {
            LineLabel::Name {
                name: _name,
                colon: _colon,
            } => {}
            LineLabel::Number {
                token: _token,
                number: _number,
                colon: _colon,
            } => {}
        }
    }
}

/// `[label] [statement] {: [statement]}`. A line without tokens is one too, and so is a member of an Enum.
pub struct StatementLine {
    pub label: Option<LineLabel>,
    pub first: Option<Statement>,
    pub others: Vec<NextStatement>,
}

impl StatementLine {
    /// The label, the first statement and those behind a colon.
    pub fn into_parts(self) -> (Option<LineLabel>, Option<Statement>, Vec<NextStatement>)
        ensures { result ≡ (self.label, self.first, self.others) }
    {
        let StatementLine {
            label,
            first,
            others,
        } = self;
        (label, first, others)
    }
}

impl Drop for StatementLine {
    fn drop(self) {
        let StatementLine {
            label: _label,
            first: _first,
            others: _others,
        } = self;
    }
}

/// A line of a module.
pub enum LineTree {
    Option(OptionLine),
    Attribute(AttributeLine),
    EnumHeader(EnumHeader),
    /// `End Enum`
    EnumEnd { end_word: Token, enum_word: Token },
    TypeHeader(TypeHeader),
    TypeMember(TypeMember),
    /// `End Type`
    TypeEnd { end_word: Token, type_word: Token },
    Event(EventLine),
    ProcedureHeader(ProcedureHeader),
    ProcedureEnd(ProcedureEnd),
    Statements(StatementLine),
}

impl LineTree {
    /// The line of statements that a line is, or else the line.
    pub fn into_statements(self) -> Result<StatementLine, LineTree>
        ensures statements { IfOk result (λ line. self ≡ lines.Statements line) }
        ensures other { IfErr result (λ line. line ≡ self) }
        ensures none { IfErr result (λ line. statement_line_in line ≡ None) }
    {
        match self {
            LineTree::Statements(line) => Ok(line),
            other => Err(other),
        }
    }
}

impl Drop for LineTree {
    fn drop(self) {
        match self {
            LineTree::Option(_option) => {}
            LineTree::Attribute(_attribute) => {}
            LineTree::EnumHeader(_enum_header) => {}
            LineTree::EnumEnd {
                end_word: _end_word,
                enum_word: _enum_word,
            } => {}
            LineTree::TypeHeader(_type_header) => {}
            LineTree::TypeMember(_type_member) => {}
            LineTree::TypeEnd {
                end_word: _end_word,
                type_word: _type_word,
            } => {}
            LineTree::Event(_event) => {}
            LineTree::ProcedureHeader(_procedure_header) => {}
            LineTree::ProcedureEnd(_procedure_end) => {}
            LineTree::Statements(_statements) => {}
        }
    }
}
