use crate::declaration::{AccessWord, Brackets, DeclaredType, TypeClause};
use crate::list::Listed;
use vba_expression::Expression;
use vba_lexer::Token;
use vba_words::Identifier;

/// How an argument is passed.
#[derive(Clone, Copy, Debug, PartialEq, Eq)]
pub enum Passing {
    ByVal,
    ByRef,
}

/// `ByVal` or `ByRef`.
#[derive(Clone, Copy, Debug, PartialEq, Eq)]
pub struct PassingWord {
    pub passing: Passing,
    pub token: Token,
}

/// `= value` of an optional parameter.
#[derive(Drop)]
pub struct DefaultValue {
    pub equal: Token,
    pub value: Expression,
}

/// `[Optional] [ByVal|ByRef] [ParamArray] name [()] [As type] [= value]`
pub struct Parameter {
    pub optional_word: Option<Token>,
    pub passing: Option<PassingWord>,
    pub param_array_word: Option<Token>,
    pub name: Identifier,
    pub brackets: Option<Brackets>,
    pub type_clause: Option<TypeClause>,
    pub default: Option<DefaultValue>,
}

impl Drop for Parameter {
    fn drop(self) {
        let Parameter {
            optional_word: _optional_word,
            passing: _passing,
            param_array_word: _param_array_word,
            name: _name,
            brackets: _brackets,
            type_clause: _type_clause,
            default: _default,
        } = self;
    }
}

/// `([parameters])`
pub struct Parameters {
    pub left: Token,
    pub parameters: Option<Listed<Parameter>>,
    pub right: Token,
}

impl Drop for Parameters {
    fn drop(self) {
        let Parameters {
            left: _left,
            parameters: _parameters,
            right: _right,
        } = self;
    }
}

/// `[Public] Event name [([parameters])]`
pub struct EventLine {
    pub access: Option<AccessWord>,
    pub event_word: Token,
    pub name: Identifier,
    pub parameters: Option<Parameters>,
}

impl Drop for EventLine {
    fn drop(self) {
        let EventLine {
            access: _access,
            event_word: _event_word,
            name: _name,
            parameters: _parameters,
        } = self;
    }
}

/// The words for the kind of a procedure.
#[derive(Clone, Copy, Debug, PartialEq, Eq)]
pub enum ProcedureWords {
    Sub(Token),
    Function(Token),
    PropertyGet {
        property_word: Token,
        get_word: Token,
    },
    PropertyLet {
        property_word: Token,
        let_word: Token,
    },
    PropertySet {
        property_word: Token,
        set_word: Token,
    },
}

/// `As type [()]` of a procedure.
pub struct ResultType {
    pub as_word: Token,
    pub declared_type: DeclaredType,
    pub brackets: Option<Brackets>,
}

impl Drop for ResultType {
    fn drop(self) {
        let ResultType {
            as_word: _as_word,
            declared_type: _declared_type,
            brackets: _brackets,
        } = self;
    }
}

/// `[Public|Private|Friend] [Static] Sub name [([parameters])] [As type [()]]`, likewise of Functions and Properties.
pub struct ProcedureHeader {
    pub access: Option<AccessWord>,
    pub static_word: Option<Token>,
    pub words: ProcedureWords,
    pub name: Identifier,
    pub parameters: Option<Parameters>,
    pub result_type: Option<ResultType>,
}

impl Drop for ProcedureHeader {
    fn drop(self) {
        let ProcedureHeader {
            access: _access,
            static_word: _static_word,
            words: _words,
            name: _name,
            parameters: _parameters,
            result_type: _result_type,
        } = self;
    }
}

/// The words behind `End` of a procedure.
#[derive(Clone, Copy, Debug, PartialEq, Eq)]
pub enum ProcedureKind {
    Sub,
    Function,
    Property,
}

/// `End Sub`, `End Function` or `End Property`.
#[derive(Clone, Copy, Debug, PartialEq, Eq)]
pub struct ProcedureEnd {
    pub end_word: Token,
    pub kind: ProcedureKind,
    pub kind_word: Token,
}
