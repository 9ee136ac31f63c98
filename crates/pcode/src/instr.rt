use bound_project::{ArgumentNames, DeclaredType, ErrMember, LateName, LateUse, Variable};
use error_frames::Policy;
use vba_lib::LibraryFunction;
use vba_values::{Compare, HostRef, OpKind};

/// One instruction. Operands stand on a stack, the last one on top. Numbers of constants and orders are places in the
/// tables of the code; `to` and `other` are addresses; `block` and `statement` are numbers of statements of the
/// procedure that runs.
#[derive(Clone, Copy)]
pub enum Instr {
    /// A statement begins.
    Begin {
        statement: u32,
    },
    Push {
        constant: u32,
    },
    /// An object of the host that is always there.
    PushHost(HostRef),
    LoadErr(ErrMember),
    /// The path of a variable; the value at the path on top.
    PathOf(Variable),
    ReadThrough,
    /// The path of an element of the array at the path on top, with so many numbers below it; at the path below the
    /// numbers; the path of a field; where a With block's dot leads.
    ElementOf {
        numbers: u32,
    },
    ElementIn {
        numbers: u32,
    },
    FieldOf {
        field: u32,
        of: DeclaredType,
        is_bounded: bool,
    },
    Dot {
        block: u32,
    },
    /// An element and a field of a value.
    Index {
        numbers: u32,
    },
    PartOf {
        field: u32,
    },
    Operate {
        operator: OpKind,
        compare: Compare,
        left: DeclaredType,
        right: DeclaredType,
    },
    OperateAlone {
        operator: OpKind,
        of: DeclaredType,
    },
    /// An object gives way to the value of its default member.
    Plain,
    /// The same, but an object without such a value stays.
    PlainIfAny,
    /// An object of a class gives way to the Collection that its enumerator gives.
    Enumerate,
    FirstSheet,
    /// Whether the object on top has a member of this name that takes so many arguments, with what they index put above
    /// it; and that member, with so many arguments above both. The name is a text constant, folded.
    MemberThere {
        name: u32,
        given: u32,
    },
    MemberOf {
        name: u32,
        arguments: u32,
    },
    /// The same where the last arguments have names.
    NamedThere {
        name: u32,
        names: ArgumentNames,
        given: u32,
    },
    NamedOf {
        name: u32,
        names: ArgumentNames,
        arguments: u32,
    },
    /// The object whose procedure runs; a new object of a class, below what its Class_Initialize gives; whether there is
    /// an object on top; and the place of a variable of it.
    PushThis,
    New {
        class: u32,
    },
    ObjectThere,
    FieldIn {
        field: u32,
        of: DeclaredType,
        is_bounded: bool,
    },
    /// A path is that of a place declared As New; an object is made where it is Nothing, below what its Class_Initialize
    /// gives, else Empty; and what was made is stored.
    AsNew {
        class: u32,
    },
    MakeThere,
    StoreMade,
    /// Whether the object on top has a member of this name for such a use and these arguments, with what they index put
    /// above it; the argument of this number, whose base stands so many operands below, as the member takes it: a value and
    /// a place; and what is done with the member, with the arguments above both and an assigned value below.
    FindLate {
        aim: LateUse,
        member: LateName,
    },
    BindValue {
        aim: LateUse,
        member: LateName,
        argument: u32,
    },
    BindPlace {
        aim: LateUse,
        member: LateName,
        argument: u32,
    },
    CallLate(LateName),
    LetLate(LateName),
    SetLate(LateName),
    /// What so many arguments lead to in the value below them; the default member of the object on top is written.
    ItemAlong {
        arguments: u32,
    },
    WriteThrough,
    /// What so many numbers lead to from the path below them takes the value below that; and by Set.
    LetElement {
        numbers: u32,
    },
    SetElement {
        numbers: u32,
    },
    /// The place to which so many arguments lead from the path below them: an element, or an item along default members.
    ElementAlong {
        arguments: u32,
    },
    /// The place of the public variable of this name of the object on top; and that of the value on top.
    LateField {
        name: u32,
    },
    PlaceOf,
    /// Is and TypeOf.
    Same,
    IsType(DeclaredType),
    /// A function of the library, with so many arguments: whether `$` stands behind its name, how its module compares
    /// texts, and whether an Array counts from 1 there, and not from 0.
    Library {
        function: LibraryFunction,
        is_text_form: bool,
        compare: Compare,
        is_base_one: bool,
        arguments: u32,
    },
    /// UBound, or LBound, of what is at the path on top, for the dimension of this number.
    BoundAt {
        is_upper: bool,
        dimension: i32,
    },
    /// A value becomes one of this type; or is tested as Set does for a variable of this type.
    Fit(DeclaredType),
    FitObject(DeclaredType),
    Drop,
    /// Arguments, and a call with so many of them.
    Lend,
    Pack {
        arguments: u32,
    },
    Reorder {
        order: u32,
        arguments: u32,
    },
    Lift {
        arguments: u32,
    },
    Call {
        procedure: u32,
        arguments: u32,
    },
    /// A call of the object below so many arguments.
    CallOf {
        procedure: u32,
        arguments: u32,
    },
    /// What statements do with their operands.
    Store,
    SetAt,
    /// The default member of an object is written with the value below it.
    StoreDefault,
    /// The same, but the member is assigned the value below the object.
    StoreMember {
        name: u32,
        arguments: u32,
    },
    /// The item of the value below so many numbers is assigned the value below it; Set of a member.
    StoreItem {
        numbers: u32,
    },
    SetMember,
    /// An event of the object whose procedure runs, with so many arguments: its handlers are called.
    RaiseEvent {
        event: u32,
        arguments: u32,
    },
    ShowText,
    Show {
        ends: bool,
        items: u32,
    },
    Throw {
        arguments: u32,
    },
    /// For: three values become whether the block is entered; at Next, whether it is entered again.
    LoopOff {
        block: u32,
    },
    LoopOn {
        counter: Variable,
        block: u32,
        compare: Compare,
        last: DeclaredType,
        step: DeclaredType,
    },
    NextRound {
        counter: Variable,
        block: u32,
    },
    /// For Each: a value is walked, and what was walked before is let go; whether there was a further item.
    EachOff {
        block: u32,
    },
    EachOn {
        block: u32,
    },
    NextItem {
        control: Variable,
        block: u32,
    },
    /// Select Case; a test of a Case that fits leaves the statement.
    Keep {
        block: u32,
    },
    Selected {
        block: u32,
    },
    IfFits {
        operator: OpKind,
        compare: Compare,
        of: DeclaredType,
        test: DeclaredType,
        to: u32,
    },
    IfBetween {
        compare: Compare,
        of: DeclaredType,
        low: DeclaredType,
        high: DeclaredType,
        to: u32,
    },
    /// ReDim of the array at a path, with so many bounds above it, and Erase: what is replaced is let go.
    Redim {
        preserve: bool,
        of: Option<DeclaredType>,
        bounds: u32,
    },
    EraseAt,
    /// With.
    KeepPath {
        block: u32,
    },
    DropKept {
        block: u32,
    },
    /// GoSub and Return, which keep numbers of statements.
    PutReturn {
        statement: u32,
    },
    TakeReturn {
        procedure: u32,
    },
    /// Errors.
    SetPolicy(Policy),
    HandlerOff,
    ErrOff,
    Again {
        procedure: u32,
    },
    Behind {
        procedure: u32,
    },
    Resumes {
        procedure: u32,
        statement: u32,
    },
    /// The statement's end: it goes on at an address, at one of two, or nowhere.
    Finish {
        to: u32,
    },
    Branch {
        sense: bool,
        to: u32,
        other: u32,
    },
    Halt,
    StopHere,
    /// The procedure's end.
    Leave,
}
