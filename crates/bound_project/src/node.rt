use crate::declared_type::DeclaredType;
use crate::variable::{ErrMember, Variable};
use vba_base::{Place, Refusal};
use vba_lib::LibraryFunction;
use vba_values::{Compare, HostRef, OpKind};

/// How arguments are named: so many stand before those with names, and the order of the constants that are these names,
/// folded.
#[derive(Clone, Copy)]
pub struct ArgumentNames {
    pub before: u32,
    pub order: u32,
}

/// What is done with a late-bound member: it is read or called, assigned to, or set.
#[derive(Clone, Copy)]
pub enum LateUse {
    Reading,
    Assigning,
    Setting,
}

/// What a late-bound member is looked up by: its name, which is a text constant, folded; how its arguments are named; how
/// many they are; and the order that tells which of them are given: 0 stands for one that isn't, and those past the
/// order's end are. Where none are named the order of names is empty, and so may be that one where all are given.
#[derive(Clone, Copy)]
pub struct LateName {
    pub name: u32,
    pub names: ArgumentNames,
    pub arguments: u32,
    pub given: u32,
}

/// What a node makes of the pieces before it: the nodes of an expression stand in the order in which it is evaluated,
/// those of its parts before it. Numbers of constants and orders are places in the lists of the project.
#[derive(Clone, Copy)]
pub enum NodeKind {
    /// No expression stands there, as where an argument isn't given.
    NotGiven,
    Constant {
        constant: u32,
    },
    /// A place.
    Variable(Variable),
    /// The place of an element of a plain variable, behind so many numbers.
    Item {
        variable: Variable,
        numbers: u32,
    },
    /// The place of an element of the place before so many numbers.
    Element {
        numbers: u32,
    },
    /// The place of a field of the place before it, its declared type, and whether it is an array with declared bounds.
    Field {
        field: u32,
        of: DeclaredType,
        is_bounded: bool,
    },
    /// The place or value of the With block with this number.
    KeptPlace {
        header: u32,
    },
    /// The place of a variable of the object before it, its declared type, and whether it is an array with declared
    /// bounds.
    ObjectField {
        field: u32,
        of: DeclaredType,
        is_bounded: bool,
    },
    /// The place of a variable, and the place before it, that is declared As New, with the class of its objects.
    NewVariable {
        variable: Variable,
        class: u32,
    },
    AsNew {
        class: u32,
    },
    /// The place to which so many arguments lead from the place before them: an element, or an item along default members.
    ElementAlong {
        arguments: u32,
    },
    /// The place of the public variable of this name, a text constant, folded, of the object before it.
    LateField {
        name: u32,
    },
    /// The place of the value before it, which no variable has.
    PlaceOf,
    /// The value at the place before it.
    Load,
    /// The same where the place may be that of a variable declared As New, which gets a new object when it is read.
    LoadMade,
    /// An element of the value before so many numbers.
    ElementValue {
        numbers: u32,
    },
    /// A field of the value before it.
    FieldValue {
        field: u32,
    },
    /// Operators say the types that their operands have as operands.
    Unary {
        operator: OpKind,
        of: DeclaredType,
    },
    Binary {
        operator: OpKind,
        compare: Compare,
        left: DeclaredType,
        right: DeclaredType,
    },
    /// A procedure, behind so many arguments.
    Call {
        procedure: u32,
        arguments: u32,
    },
    /// A procedure, behind so many arguments, which are its parameters' by this order.
    CallInOrder {
        procedure: u32,
        arguments: u32,
        order: u32,
    },
    /// The object whose procedure runs, and a new object of a class.
    This,
    NewObject {
        class: u32,
    },
    /// There is an object before it, whose procedure is called.
    ObjectThere,
    /// That procedure, behind so many arguments.
    Method {
        procedure: u32,
        arguments: u32,
    },
    /// That procedure, behind so many arguments, which are its parameters' by this order.
    MethodInOrder {
        procedure: u32,
        arguments: u32,
        order: u32,
    },
    ErrValue(ErrMember),
    /// A function of the library, behind so many values: whether `$` stands behind its name, how its module compares
    /// texts, and whether an Array counts from 1 there, and not from 0.
    Library {
        function: LibraryFunction,
        is_text_form: bool,
        values: u32,
        compare: Compare,
        is_base_one: bool,
    },
    /// What breaks a static rule: the values that it is written with, behind which it stands. No project that runs has
    /// one.
    Marked {
        broken: Refusal,
        values: u32,
    },
    /// UBound, or LBound, of what is at the place before it, for the dimension of this number.
    BoundOf {
        is_upper: bool,
        dimension: i32,
    },
    /// The value before it; an object gives way to the value of its default member.
    DefaultOf,
    /// The same, but an object whose default member needs an argument stays, and so does Nothing.
    DefaultIfAny,
    /// The same, but an object of a class gives way to the Collection that its enumerator gives: what a For Each walks.
    Enumerated,
    /// What so many arguments lead to in the value before them: an element, or an item along default members.
    ItemAlong {
        arguments: u32,
    },
    /// Is: whether both values before it are the same object.
    Same,
    /// TypeOf: whether the object before it is of the type.
    IsType(DeclaredType),
    /// An object of the host that is always there, as Err.
    HostObject(HostRef),
    /// The first sheet.
    ActiveSheet,
    /// The object of the host before it has a member of this name, which so many given arguments fit. The name is a
    /// text constant, folded.
    MemberThere {
        name: u32,
        given: u32,
    },
    /// That member, behind so many values, of which those that aren't given are `NotGiven`.
    HostMember {
        name: u32,
        arguments: u32,
    },
    /// The same with arguments of which the last ones have names.
    NamedThere {
        name: u32,
        names: ArgumentNames,
        given: u32,
    },
    NamedMember {
        name: u32,
        names: ArgumentNames,
        arguments: u32,
    },
    /// The object before it has a late-bound member of this name for such a use, and for these arguments.
    LateThere {
        aim: LateUse,
        member: LateName,
    },
    /// An argument of this number, from 0, of a late-bound member that was looked up so: the value before it, which is
    /// `NotGiven` where it isn't given; and the place before it.
    LateValue {
        aim: LateUse,
        member: LateName,
        argument: u32,
    },
    LatePlace {
        aim: LateUse,
        member: LateName,
        argument: u32,
    },
    /// That member, read or called, behind all its arguments.
    LateMember(LateName),
    /// An argument: the place before it, the value before it made one of a type, a default, so many values before it.
    ByPlace,
    ByCopy(DeclaredType),
    ByDefault {
        constant: u32,
    },
    ByList {
        values: u32,
    },
    /// An item of Debug.Print: the value before it, or a comma.
    Shown,
    Zone,
    /// A test of a Case begins.
    TestBegins,
    /// `Is operator value`, and `low To high`, with the types that the values have as operands. The node's place is where
    /// the comparison with the value, and with `low`, is told; the one with `high` has a place of its own.
    TestIs {
        operator: OpKind,
        of: DeclaredType,
    },
    TestRange {
        low: DeclaredType,
        high: DeclaredType,
        high_at: Place,
    },
    /// An array of a ReDim: the place before so many bounds, and the type of its elements where that is written.
    Resize {
        bounds: u32,
        of: Option<DeclaredType>,
    },
    /// An array of an Erase.
    Erased,
}

/// A node: what it is, the place where what it ends is told, the declared type of that, and the one that it has as an
/// operand. An operator is told at itself, and else an expression at its first token.
#[derive(Clone, Copy)]
pub struct Node {
    pub kind: NodeKind,
    pub place: Place,
    pub of: DeclaredType,
    pub operand: DeclaredType,
}
