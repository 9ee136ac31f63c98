use crate::block::BlockLine;
use crate::declaration::{Constants, Dim, TypeClause, Variables};
use crate::list::Listed;
use vba_expression::{Arguments, Expression};
use vba_lexer::{Number, Token};
use vba_words::Identifier;

/// A label where it is gone to.
pub enum LabelName {
    Name(Identifier),
    /// A line number.
    Number { token: Token, number: Number },
}

impl Drop for LabelName {
    fn drop(self) {
        match self {
            LabelName::Name(_name) => {}
            LabelName::Number {
                token: _token,
                number: _number,
            } => {}
        }
    }
}

/// `place(dims) [As type]`
pub struct ReDimArray {
    pub place: Expression,
    pub left: Token,
    pub dims: Listed<Dim>,
    pub right: Token,
    pub type_clause: Option<TypeClause>,
}

impl Drop for ReDimArray {
    fn drop(self) {
        let ReDimArray {
            place: _place,
            left: _left,
            dims: _dims,
            right: _right,
            type_clause: _type_clause,
        } = self;
    }
}

/// What is left by `Exit`.
#[derive(Clone, Copy, Debug, PartialEq, Eq)]
pub enum ExitKind {
    Sub,
    Function,
    Property,
    For,
    Do,
}

/// What stands behind `On Error`.
pub enum ErrorHandling {
    /// `GoTo label`
    GoTo {
        goto_word: Token,
        label: LabelName,
    },
    /// `GoTo 0`
    GoToZero {
        goto_word: Token,
        zero: Token,
    },
    /// `GoTo -1`
    GoToMinusOne {
        goto_word: Token,
        minus: Token,
        one: Token,
    },
    /// `Resume Next`
    ResumeNext {
        resume_word: Token,
        next_word: Token,
    },
}

impl Drop for ErrorHandling {
    fn drop(self) {
        match self {
            ErrorHandling::GoTo {
                goto_word: _goto_word,
                label: _label,
            } => {}
            ErrorHandling::GoToZero {
                goto_word: _goto_word,
                zero: _zero,
            } => {}
            ErrorHandling::GoToMinusOne {
                goto_word: _goto_word,
                minus: _minus,
                one: _one,
            } => {}
            ErrorHandling::ResumeNext {
                resume_word: _resume_word,
                next_word: _next_word,
            } => {}
        }
    }
}

/// What stands behind `Resume`.
pub enum ResumeTarget {
    Next(Token),
    Zero(Token),
    Label(LabelName),
}

impl Drop for ResumeTarget {
    fn drop(self) {
        match self {
            ResumeTarget::Next(_next) => {}
            ResumeTarget::Zero(_zero) => {}
            ResumeTarget::Label(_label) => {}
        }
    }
}

/// `([arguments])` of a RaiseEvent statement.
pub struct EventArguments {
    pub left: Token,
    pub arguments: Arguments,
    pub right: Token,
}

impl Drop for EventArguments {
    fn drop(self) {
        let EventArguments {
            left: _left,
            arguments: _arguments,
            right: _right,
        } = self;
    }
}

/// The marks between what is printed.
#[derive(Clone, Copy, Debug, PartialEq, Eq)]
pub enum PrintMark {
    Semicolon,
    Comma,
}

/// What is printed next, behind its mark. It may be missing.
pub struct PrintItem {
    pub mark: PrintMark,
    pub mark_token: Token,
    pub value: Option<Expression>,
}

impl Drop for PrintItem {
    fn drop(self) {
        let PrintItem {
            mark: _mark,
            mark_token: _mark_token,
            value: _value,
        } = self;
    }
}

/// A statement other than a single-line If.
pub enum SimpleStatement {
    Variables(Variables),
    Constants(Constants),
    /// `[Let] place = value`
    Assignment {
        let_word: Option<Token>,
        place: Expression,
        equal: Token,
        value: Expression,
    },
    /// `Set place = value`
    SetAssignment {
        set_word: Token,
        place: Expression,
        equal: Token,
        value: Expression,
    },
    /// `Call place`
    CallPlace {
        call_word: Token,
        place: Expression,
    },
    /// `target [arguments]`
    Call {
        target: Expression,
        arguments: Arguments,
    },
    /// `ReDim [Preserve] place(dims) [As type], ..`
    ReDim {
        redim_word: Token,
        preserve_word: Option<Token>,
        arrays: Listed<ReDimArray>,
    },
    /// `Erase place, ..`
    Erase {
        erase_word: Token,
        places: Listed<Expression>,
    },
    /// `GoTo label`
    GoTo {
        goto_word: Token,
        label: LabelName,
    },
    /// `GoSub label`
    GoSub {
        gosub_word: Token,
        label: LabelName,
    },
    Return(Token),
    /// `Exit Sub`, likewise of Functions, Properties, For and Do.
    Exit {
        exit_word: Token,
        kind: ExitKind,
        kind_word: Token,
    },
    End(Token),
    Stop(Token),
    /// `On Error ..`
    OnError {
        on_word: Token,
        error_word: Token,
        handling: ErrorHandling,
    },
    /// `Resume [Next|0|label]`
    Resume {
        resume_word: Token,
        target: Option<ResumeTarget>,
    },
    /// `RaiseEvent event [([arguments])]`
    RaiseEvent {
        raise_event_word: Token,
        event: Identifier,
        arguments: Option<EventArguments>,
    },
    /// `Debug.Print [value] {; [value]}`
    DebugPrint {
        debug_word: Token,
        dot: Token,
        print_word: Token,
        first: Option<Expression>,
        others: Vec<PrintItem>,
    },
    BlockLine(BlockLine),
}

impl Drop for SimpleStatement {
    fn drop(self) {
        match self {
            SimpleStatement::Variables(_variables) => {}
            SimpleStatement::Constants(_constants) => {}
            SimpleStatement::Assignment {
                let_word: _let_word,
                place: _place,
                equal: _equal,
                value: _value,
            } => {}
            SimpleStatement::SetAssignment {
                set_word: _set_word,
                place: _place,
                equal: _equal,
                value: _value,
            } => {}
            SimpleStatement::CallPlace {
                call_word: _call_word,
                place: _place,
            } => {}
            SimpleStatement::Call {
                target: _target,
                arguments: _arguments,
            } => {}
            SimpleStatement::ReDim {
                redim_word: _redim_word,
                preserve_word: _preserve_word,
                arrays: _arrays,
            } => {}
            SimpleStatement::Erase {
                erase_word: _erase_word,
                places: _places,
            } => {}
            SimpleStatement::GoTo {
                goto_word: _goto_word,
                label: _label,
            } => {}
            SimpleStatement::GoSub {
                gosub_word: _gosub_word,
                label: _label,
            } => {}
            SimpleStatement::Return(_return) => {}
            SimpleStatement::Exit {
                exit_word: _exit_word,
                kind: _kind,
                kind_word: _kind_word,
            } => {}
            SimpleStatement::End(_end) => {}
            SimpleStatement::Stop(_stop) => {}
            SimpleStatement::OnError {
                on_word: _on_word,
                error_word: _error_word,
                handling: _handling,
            } => {}
            SimpleStatement::Resume {
                resume_word: _resume_word,
                target: _target,
            } => {}
            SimpleStatement::RaiseEvent {
                raise_event_word: _raise_event_word,
                event: _event,
                arguments: _arguments,
            } => {}
            SimpleStatement::DebugPrint {
                debug_word: _debug_word,
                dot: _dot,
                print_word: _print_word,
                first: _first,
                others: _others,
            } => {}
            SimpleStatement::BlockLine(_block_line) => {}
        }
    }
}
