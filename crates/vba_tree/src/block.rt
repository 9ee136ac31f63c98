use crate::list::Listed;
use vba_expression::{BinaryOperator, Expression};
use vba_lexer::Token;
use vba_words::Identifier;

/// A test of a `Case` line.
pub enum CaseTest {
    Value(Expression),
    /// `low To high`
    Range {
        low: Expression,
        to_word: Token,
        high: Expression,
    },
    /// `Is < value`
    Comparison {
        is_word: Token,
        operator: BinaryOperator,
        operator_token: Token,
        value: Expression,
    },
}

impl Drop for CaseTest {
    fn drop(self) {
        match self {
            CaseTest::Value(_value) => {}
            CaseTest::Range {
                low: _low,
                to_word: _to_word,
                high: _high,
            } => {}
            CaseTest::Comparison {
                is_word: _is_word,
                operator: _operator,
                operator_token: _operator_token,
                value: _value,
            } => {}
        }
    }
}

/// `Step value` of a For line.
#[derive(Drop)]
pub struct StepClause {
    pub step_word: Token,
    pub value: Expression,
}

/// The words before the condition of a Do or Loop line.
#[derive(Clone, Copy, Debug, PartialEq, Eq)]
pub enum LoopWord {
    While,
    Until,
}

/// `While condition` or `Until condition`.
#[derive(Drop)]
pub struct LoopCondition {
    pub word: LoopWord,
    pub word_token: Token,
    pub condition: Expression,
}

/// A line of a block. It may stand as a statement between colons.
pub enum BlockLine {
    /// `If condition Then`
    If {
        if_word: Token,
        condition: Expression,
        then_word: Token,
    },
    /// `ElseIf condition Then`
    ElseIf {
        else_if_word: Token,
        condition: Expression,
        then_word: Token,
    },
    Else(Token),
    /// `End If`
    EndIf {
        end_word: Token,
        if_word: Token,
    },
    /// `Select Case value`
    SelectCase {
        select_word: Token,
        case_word: Token,
        value: Expression,
    },
    /// `Case tests`
    Case {
        case_word: Token,
        tests: Listed<CaseTest>,
    },
    /// `Case Else`
    CaseElse {
        case_word: Token,
        else_word: Token,
    },
    /// `End Select`
    EndSelect {
        end_word: Token,
        select_word: Token,
    },
    /// `For counter = start To limit [Step value]`
    For {
        for_word: Token,
        counter: Identifier,
        equal: Token,
        start: Expression,
        to_word: Token,
        limit: Expression,
        step: Option<StepClause>,
    },
    /// `For Each element In group`
    ForEach {
        for_word: Token,
        each_word: Token,
        element: Identifier,
        in_word: Token,
        group: Expression,
    },
    /// `Next [counter]`
    Next {
        next_word: Token,
        counter: Option<Identifier>,
    },
    /// `Do [While|Until condition]`
    Do {
        do_word: Token,
        condition: Option<LoopCondition>,
    },
    /// `Loop [While|Until condition]`
    Loop {
        loop_word: Token,
        condition: Option<LoopCondition>,
    },
    /// `While condition`
    While {
        while_word: Token,
        condition: Expression,
    },
    Wend(Token),
    /// `With object`
    With {
        with_word: Token,
        object: Expression,
    },
    /// `End With`
    EndWith {
        end_word: Token,
        with_word: Token,
    },
}

impl Drop for BlockLine {
    fn drop(self) {
        match self {
            BlockLine::If {
                if_word: _if_word,
                condition: _condition,
                then_word: _then_word,
            } => {}
            BlockLine::ElseIf {
                else_if_word: _else_if_word,
                condition: _condition,
                then_word: _then_word,
            } => {}
            BlockLine::Else(_else) => {}
            BlockLine::EndIf {
                end_word: _end_word,
                if_word: _if_word,
            } => {}
            BlockLine::SelectCase {
                select_word: _select_word,
                case_word: _case_word,
                value: _value,
            } => {}
            BlockLine::Case {
                case_word: _case_word,
                tests: _tests,
            } => {}
            BlockLine::CaseElse {
                case_word: _case_word,
                else_word: _else_word,
            } => {}
            BlockLine::EndSelect {
                end_word: _end_word,
                select_word: _select_word,
            } => {}
            BlockLine::For {
                for_word: _for_word,
                counter: _counter,
                equal: _equal,
                start: _start,
                to_word: _to_word,
                limit: _limit,
                step: _step,
            } => {}
            BlockLine::ForEach {
                for_word: _for_word,
                each_word: _each_word,
                element: _element,
                in_word: _in_word,
                group: _group,
            } => {}
            BlockLine::Next {
                next_word: _next_word,
                counter: _counter,
            } => {}
            BlockLine::Do {
                do_word: _do_word,
                condition: _condition,
            } => {}
            BlockLine::Loop {
                loop_word: _loop_word,
                condition: _condition,
            } => {}
            BlockLine::While {
                while_word: _while_word,
                condition: _condition,
            } => {}
            BlockLine::Wend(_wend) => {}
            BlockLine::With {
                with_word: _with_word,
                object: _object,
            } => {}
            BlockLine::EndWith {
                end_word: _end_word,
                with_word: _with_word,
            } => {}
        }
    }
}
