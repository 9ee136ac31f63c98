ghost use Rattle.std.specs.Prelude.{◌≡◌, option_map};
ghost use Rattle.vba_tree.specs.View.{statement_view, next_view, statement_in};

use crate::simple::SimpleStatement;
use vba_expression::Expression;
use vba_lexer::Token;

/// A statement, or a line of a block that stands as one.
#[cycle(statement)]
pub enum Statement {
    Simple(SimpleStatement),
    /// `If condition Then statements`
    SingleLineIf {
        if_word: Token,
        condition: Expression,
        then_word: Token,
        then_list: StatementList,
    },
    /// `If condition Then statements Else statements`
    SingleLineIfElse {
        if_word: Token,
        condition: Expression,
        then_word: Token,
        then_list: StatementList,
        else_word: Token,
        else_list: StatementList,
    },
}

impl Drop for Statement {
    #[cycle(statement)]
    fn drop(self) {
        match self {
            Statement::Simple(_simple) => {}
            Statement::SingleLineIf {
                if_word: _if_word,
                condition: _condition,
                then_word: _then_word,
                then_list: _then_list,
            } => {}
            Statement::SingleLineIfElse {
                if_word: _if_word,
                condition: _condition,
                then_word: _then_word,
                then_list: _then_list,
                else_word: _else_word,
                else_list: _else_list,
            } => {}
        }
    }
}

/// `statement {: [statement]}`
#[cycle(statement)]
pub struct StatementList {
    pub first: Box<Statement>,
    pub others: Vec<NextStatement>,
}

impl Drop for StatementList {
    #[cycle(statement)]
    fn drop(self) {
        let StatementList {
            first: _first,
            others: _others,
        } = self;
    }
}

/// A statement behind the colon before it.
#[cycle(statement)]
pub enum NextStatement {
    Written {
        colon: Token,
        statement: Box<Statement>,
    },
    Missing {
        colon: Token,
    },
}

impl NextStatement {
    /// The statement behind the colon, where one is written.
    pub fn into_statement(self) -> Option<Statement>
        ensures { option_map statement_view result ≡ statement_in (next_view self) }
    {
        match self {
            NextStatement::Written {
                colon: _colon,
                statement,
            } => Some(Box::into_inner(statement)),
            NextStatement::Missing { colon: _colon } => None,
        }
    }
}

impl Drop for NextStatement {
    #[cycle(statement)]
    fn drop(self) {
        match self {
            NextStatement::Written {
                colon: _colon,
                statement: _statement,
            } => {}
            NextStatement::Missing { colon: _colon } => {}
        }
    }
}
