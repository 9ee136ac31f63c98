use crate::declared_type::DeclaredType;
use crate::node::LateName;
use crate::variable::Variable;
use vba_base::Place;
use vba_values::Compare;

/// `On Error GoTo 0`, `On Error Resume Next`, `On Error GoTo label`.
#[derive(Clone, Copy)]
pub enum Handling {
    PassedOn,
    Skipped,
    HandledAt { statement: u32 },
}

/// What a statement does with the pieces of its nodes. Numbers called `to`, `other`, `first`, `behind`, `header` and
/// `end` are numbers of statements of the same procedure.
#[derive(Clone, Copy)]
pub enum ActionKind {
    /// `[Let] target = value`, behind the value and the target's place.
    Assign,
    /// The same where the target is an item of a value that no variable has, behind the value, that one and so many
    /// numbers.
    AssignItem {
        numbers: u32,
    },
    /// `Set target = value`, behind the value and the target's place.
    Set,
    /// `[Let] target = value` where the target gives an object, behind the value and the target's value.
    AssignDefault,
    /// `[Let] base.name(arguments) = value` for an object of the host, behind the value, the base, its `MemberThere` and
    /// so many arguments.
    AssignMember {
        name: u32,
        arguments: u32,
    },
    /// `Set base.name = value`, behind the value and the base.
    SetMember,
    /// `[Let] target = value` where the target gives an object of a class, or what the run says, behind the value and the
    /// target's value.
    AssignThrough,
    /// `[Let] place(numbers) = value`, and Set of it, where the run says what is at the place, behind the value, the place
    /// and so many numbers.
    AssignElement {
        numbers: u32,
    },
    SetElement {
        numbers: u32,
    },
    /// `[Let] base.name(arguments) = value`, and Set of it, for a late-bound member, behind the value, the base, its
    /// `LateThere` and all arguments.
    AssignLate(LateName),
    SetLate(LateName),
    Evaluate,
    /// An assignment to a property, behind the value and so many other arguments, and its parameter's type.
    LetProperty {
        procedure: u32,
        arguments: u32,
        of: DeclaredType,
    },
    /// The same with arguments that are the parameters' by this order.
    LetPropertyInOrder {
        procedure: u32,
        arguments: u32,
        order: u32,
        of: DeclaredType,
    },
    /// An assignment to a property that is given the object itself, behind the object and so many other arguments, and its
    /// parameter's type.
    SetProperty {
        procedure: u32,
        arguments: u32,
        of: DeclaredType,
    },
    /// The same with arguments that are the parameters' by this order.
    SetPropertyInOrder {
        procedure: u32,
        arguments: u32,
        order: u32,
        of: DeclaredType,
    },
    /// The same of an object: behind the value, the object, its `ObjectThere` and so many other arguments.
    LetMethod {
        procedure: u32,
        arguments: u32,
        of: DeclaredType,
    },
    LetMethodInOrder {
        procedure: u32,
        arguments: u32,
        order: u32,
        of: DeclaredType,
    },
    SetMethod {
        procedure: u32,
        arguments: u32,
        of: DeclaredType,
    },
    SetMethodInOrder {
        procedure: u32,
        arguments: u32,
        order: u32,
        of: DeclaredType,
    },
    /// `RaiseEvent`, by the event's number in the class whose object raises it, behind so many arguments.
    RaiseEvent {
        event: u32,
        arguments: u32,
    },
    /// The same with arguments that are the parameters' by this order.
    RaiseEventInOrder {
        event: u32,
        arguments: u32,
        order: u32,
    },
    Print {
        items: u32,
        ends: bool,
    },
    Raise {
        arguments: u32,
    },
    /// The same with arguments that are the parameters' by this order.
    RaiseInOrder {
        arguments: u32,
        order: u32,
    },
    Test {
        sense: bool,
        to: u32,
        other: u32,
    },
    GoTo {
        to: u32,
    },
    /// With the types that the last value and the step have as operands, the first token of the last value, and that of
    /// the step where one is written.
    For {
        counter: Variable,
        compare: Compare,
        last: DeclaredType,
        step: DeclaredType,
        last_at: Place,
        step_at: Option<Place>,
        first: u32,
        behind: u32,
    },
    Next {
        counter: Variable,
        header: u32,
        first: u32,
    },
    ForEach {
        control: Variable,
        first: u32,
        behind: u32,
    },
    NextEach {
        control: Variable,
        header: u32,
        first: u32,
    },
    ExitEach {
        header: u32,
        to: u32,
    },
    Select {
        first: u32,
    },
    Case {
        tests: u32,
        header: u32,
        of: DeclaredType,
        compare: Compare,
        first: u32,
        other: u32,
    },
    ReDim {
        preserve: bool,
        arrays: u32,
    },
    Erase {
        arrays: u32,
    },
    WithPlace,
    WithValue,
    EndWith {
        header: u32,
    },
    GoSub {
        to: u32,
    },
    Return,
    /// Exit Sub, Exit Function, Exit Property.
    ExitTo {
        end: u32,
    },
    OnError(Handling),
    /// `On Error GoTo -1`
    EndHandler,
    /// `Err.Clear`
    ClearErr,
    ResumeAgain,
    ResumeNext,
    ResumeAt {
        to: u32,
    },
    Stop,
    End,
}

/// A statement: what it does, the range of its nodes, its place, and the number of the statement that is next after it
/// in text order, at which Resume Next goes on.
#[derive(Clone, Copy)]
pub struct StatementNode {
    pub action: ActionKind,
    pub first_node: u32,
    pub nodes: u32,
    pub place: Place,
    pub next: u32,
}
