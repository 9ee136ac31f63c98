//! What is held while the statements of a line are read.

ghost use Rattle.std.specs.Prelude.{◌≡◌, OnOk};
ghost use Rattle.vba_expression.specs.View.{view as expression_view};
ghost use Rattle.vba_grammar.specs.Lists as lists;
ghost use Rattle.vba_parser.specs.Seen.{statements_view, head_place};
ghost use Rattle.vba_tree.specs.Tree as tree;
ghost use Rattle.vba_tree.specs.View.{list_view};

use crate::building::{boxed, put};
use std::alloc::Global;
use vba_base::NoMemory;
use vba_expression::Expression;
use vba_lexer::Token;
use vba_tree::{NextStatement, Statement, StatementList};

/// Statements with colons between them, as far as they were read. The first is missing where a colon stands in its place.
pub struct Statements {
    pub first: Option<Box<Statement>>,
    pub others: Vec<NextStatement>,
}

impl Drop for Statements {
    fn drop(self) {
        let Statements {
            first: _first,
            others: _others,
        } = self;
    }
}

impl Statements {
    /// What stands first, and what stands behind colons.
    pub fn parts(self) -> (Option<Box<Statement>>, Vec<NextStatement>)
        ensures { result ≡ (self.first, self.others) }
    {
        let Statements { first, others } = self;
        (first, others)
    }
}

/// Where a statement goes.
#[derive(Clone, Copy)]
pub enum Where {
    /// First on the line.
    AtLine,
    /// Behind `Then` or `Else`.
    InList,
    /// Behind a colon.
    Behind(Token),
}

/// A single-line If up to its `Then`, where it goes, and the statements before it there.
pub struct IfHead {
    pub place: Where,
    pub before: Statements,
    pub if_word: Token,
    pub condition: Expression,
    pub then_word: Token,
}

impl Drop for IfHead {
    fn drop(self) {
        let IfHead {
            place: _place,
            before: _before,
            if_word: _if_word,
            condition: _condition,
            then_word: _then_word,
        } = self;
    }
}

impl IfHead {
    /// The If without Else, where it goes.
    pub fn end(
        self,
        alloc: Global,
        statements: &mut Statements,
        then_list: StatementList,
    ) -> Result<(), NoMemory>
        ensures { OnOk result (statements_view statements.new
            ≡ lists.put (head_place self) (tree.if_then self.if_word (expression_view self.condition) self.then_word (list_view then_list))) }
    {
        let IfHead {
            place,
            before,
            if_word,
            condition,
            then_word,
        } = self;
        *statements = before;
        let statement = Statement::SingleLineIf {
            if_word,
            condition,
            then_word,
            then_list,
        };
        put(alloc, place, statements, boxed(alloc, statement)?)
    }

    /// The If with an Else, where it goes.
    pub fn end_with_else(
        self,
        alloc: Global,
        statements: &mut Statements,
        then_list: StatementList,
        else_word: Token,
        else_list: StatementList,
    ) -> Result<(), NoMemory>
        ensures { OnOk result (statements_view statements.new ≡ lists.put (head_place self)
            (tree.if_else self.if_word (expression_view self.condition) self.then_word (list_view then_list) else_word (list_view else_list))) }
    {
        let IfHead {
            place,
            before,
            if_word,
            condition,
            then_word,
        } = self;
        *statements = before;
        let statement = Statement::SingleLineIfElse {
            if_word,
            condition,
            then_word,
            then_list,
            else_word,
            else_list,
        };
        put(alloc, place, statements, boxed(alloc, statement)?)
    }
}

/// A single-line If up to its `Else`.
pub struct ElseHead {
    pub head: IfHead,
    pub then_list: StatementList,
    pub else_word: Token,
}

impl Drop for ElseHead {
    fn drop(self) {
        let ElseHead {
            head: _head,
            then_list: _then_list,
            else_word: _else_word,
        } = self;
    }
}

impl ElseHead {
    /// The If, where it goes.
    pub fn end(
        self,
        alloc: Global,
        statements: &mut Statements,
        else_list: StatementList,
    ) -> Result<(), NoMemory>
        ensures { OnOk result (statements_view statements.new ≡ lists.put (head_place self.head)
            (tree.if_else self.head.if_word (expression_view self.head.condition) self.head.then_word (list_view self.then_list) self.else_word (list_view else_list))) }
    {
        let ElseHead {
            head,
            then_list,
            else_word,
        } = self;
        head.end_with_else(alloc, statements, then_list, else_word, else_list)
    }
}

/// A single-line If that is open.
#[derive(Drop)]
pub enum Frame {
    /// Its first list is read.
    Then(IfHead),
    /// The list behind its `Else` is read.
    Else(ElseHead),
}

/// What was read of the statements of a line.
pub struct State {
    /// Where a statement may stand next; none behind a statement.
    pub place: Option<Where>,
    /// The statements that stand in the innermost If that is open, or on the line.
    pub statements: Statements,
    /// The Ifs that are open, the innermost last.
    pub frames: Vec<Frame>,
}

impl Drop for State {
    fn drop(self) {
        let State {
            place: _place,
            statements: _statements,
            frames: _frames,
        } = self;
    }
}

impl State {
    /// The statements that were read.
    pub fn read(self) -> Statements
        ensures { result ≡ self.statements }
    {
        let State {
            place: _place,
            statements,
            frames: _frames,
        } = self;
        statements
    }
}

/// What a token is between statements.
#[derive(Clone, Copy, Debug, PartialEq, Eq)]
pub enum Cut {
    If,
    Else,
    Colon,
    Other,
}
