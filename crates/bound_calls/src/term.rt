use bound_declarations::constant_values::declared_names::{Space, Written};
use bound_project::{
    ArgumentNames, Declarations, DeclaredType, LateName, LateUse, NodeKind, Parameter, Variable,
};
use vba_base::Place;
use vba_lib::LibraryFunction;
use vba_values::Compare;
use vba_words::Identifier;

/// A value whose last node isn't pushed yet, and its type.
#[derive(Clone, Copy)]
pub struct Ending {
    pub kind: NodeKind,
    pub of: DeclaredType,
}

/// What a procedure is called of: none, as one of a standard module; the own object, for which nothing is pushed; or an
/// object that was pushed; by the type of that.
#[derive(Clone, Copy)]
pub enum Receiver {
    Module,
    Own(DeclaredType),
    Pushed(DeclaredType),
}

/// A procedure or a property, by its module and how that writes it, and what it is called of; of what is called where its
/// value is wanted, which is a property's Get: the number in the project, the parameters, and the type of what it gives.
#[derive(Clone, Copy)]
pub struct Routine<'a> {
    pub receiver: Receiver,
    pub space: &'a Space<'a>,
    pub written: Written<'a>,
    pub procedure: u32,
    pub parameters: &'a [Parameter],
    pub of: DeclaredType,
}

/// A property by one of its procedures: what it is called of, its module, and how that writes the procedure.
#[derive(Clone, Copy)]
pub struct Property<'a> {
    pub receiver: Receiver,
    pub space: &'a Space<'a>,
    pub written: Written<'a>,
}

/// A function of the library: whether `$` stands behind its name, whether the array that Array makes counts from 1, and
/// how texts compare where it is called.
#[derive(Clone, Copy)]
pub struct Function {
    pub function: LibraryFunction,
    pub is_text_form: bool,
    pub is_base_one: bool,
    pub compare: Compare,
}

/// A member of an object of the host: the number of the constant that is its folded name, the type of what it gives, the
/// least number of its arguments and, where it is known before the run, the greatest; and whether the run finds it, since
/// the object may be one of a class.
#[derive(Clone, Copy)]
pub struct HostMember {
    pub name: u32,
    pub of: DeclaredType,
    pub least: u32,
    pub greatest: Option<u32>,
    pub is_late: bool,
}

/// What an expression is. The last node of a place and of a value isn't pushed yet, since what takes it says the place
/// in the source.
#[derive(Clone, Copy)]
pub enum Term<'a> {
    /// A place, its type, with how many bounds it is declared as an array (0 without any), whether it is lent to a ByRef
    /// parameter, and whether an object is made there, or in an element of it, where that is read, as of a variable
    /// declared As New.
    Place {
        kind: NodeKind,
        of: DeclaredType,
        bounds: u32,
        lends: bool,
        makes: bool,
    },
    Value(Ending),
    Routine(Routine<'a>),
    /// A property without a Get, which can be assigned to alone.
    Property(Property<'a>),
    Function(Function),
    /// A member of an object that was pushed, and one of the active sheet, for which nothing was pushed.
    HostMember(HostMember),
    SheetMember(HostMember),
    Err,
    ErrRaise,
    ErrClear,
    /// The word Error, which raises an error.
    ErrorWord,
    /// What isn't bound.
    Nothing,
}

/// A name behind a dot, and the name before that.
#[derive(Clone, Copy)]
pub struct Dotted<'a> {
    pub before: &'a Identifier,
    pub name: &'a Identifier,
}

/// An expression: the place where it is told, the name that it is, or else the two names that it is, where the first
/// one says where the second one is looked up, what it is, and all that its project declares.
#[derive(Clone, Copy)]
pub struct Tree<'a> {
    pub place: Place,
    pub name: Option<&'a Identifier>,
    pub dotted: Option<Dotted<'a>>,
    pub term: Term<'a>,
    pub declared: &'a Declarations,
}

/// A left operand that was pushed: its type; none where it isn't bound. The left one of Is was pushed as a reference.
#[derive(Clone, Copy)]
pub struct Operand {
    pub of: Option<DeclaredType>,
    pub is_reference: bool,
}

/// Arguments that were pushed: how many, and the parameters that are left for others.
#[derive(Clone, Copy)]
pub struct Passed<'a> {
    pub left: &'a [Parameter],
    pub count: u32,
}

/// An argument that was pushed for a parameter by its name: the number of that parameter. It stands above those before
/// it, and the call or the arguments of a statement below them.
#[derive(Clone, Copy)]
pub struct Named {
    pub number: u32,
}

/// Arguments that were pushed, and the number of the order in which parameters take them.
#[derive(Clone, Copy)]
pub struct Ordered {
    pub arguments: u32,
    pub order: u32,
}

/// A call whose arguments are read: the place of its first token, its procedure, and the arguments that were pushed.
#[derive(Clone, Copy)]
pub struct Call<'a> {
    pub place: Place,
    pub routine: Routine<'a>,
    pub passed: Passed<'a>,
}

/// A function of the library whose arguments are read: the place of its first token, how many were pushed, and what they
/// say of whether it takes them.
#[derive(Clone, Copy)]
pub struct FunctionCall {
    pub place: Place,
    pub function: Function,
    pub count: u32,
    /// Has an argument a name, or isn't one written that is needed?
    pub is_wrong: bool,
    /// Is the first argument, if there is one, written?
    pub is_started: bool,
}

/// How a member was looked up before its arguments are read: one of the host by how the arguments are named that are to
/// come, where some are, and by how many of them are written; and a late-bound one by what is done with it and by what it
/// is looked up by.
#[derive(Clone, Copy)]
pub enum Looked {
    Early {
        names: Option<ArgumentNames>,
        given: u32,
    },
    Late {
        aim: LateUse,
        found: LateName,
    },
}

/// A member of an object whose arguments are read: the place of its first token, the member, how it was looked up, whether
/// the project has a class, whether a property gave its object, behind which some arguments must come, how many arguments
/// were pushed behind the object, and how many of these are written and have names.
#[derive(Clone, Copy)]
pub struct MemberCall {
    pub place: Place,
    pub member: HostMember,
    pub looked: Looked,
    pub has_class: bool,
    pub of_property: bool,
    pub count: u32,
    pub written: u32,
    pub named: u32,
}

/// What is indexed: a plain variable, for which nothing is pushed, or another place or a value, which was pushed. What the
/// run is to say arguments lead to, from a place or in a value, was pushed too, and so was such a value as a place, for an
/// assignment to what they lead to.
#[derive(Clone, Copy)]
pub enum Target {
    Variable(Variable),
    Place,
    Value,
    PlaceAlong,
    ValueAlong,
    ValueAsPlace,
    /// The same three behind an object of a class, for so many arguments that are all written, without names.
    PlaceLed(u32),
    ValueLed(u32),
    LedAsPlace(u32),
}

/// A place or a value whose numbers in brackets are read: the place of its first token, what is indexed, the type of an
/// element, whether an element of a place is lent to a ByRef parameter, whether an object is made there where it is read,
/// with how many bounds the place is declared as an array, which is as many numbers as must come (0: any), and how many
/// numbers were pushed.
#[derive(Clone, Copy)]
pub struct Indexed {
    pub place: Place,
    pub target: Target,
    pub of: DeclaredType,
    pub lends: bool,
    pub makes: bool,
    pub bounds: u32,
    pub count: u32,
}

/// What is known of an argument before it is bound: its name, where it has one, and whether it is written.
#[derive(Clone, Copy)]
pub struct Shape<'a> {
    pub name: Option<&'a Identifier>,
    pub is_written: bool,
}

/// What doesn't take the arguments that are read: a procedure, of which so many values were pushed (the object that it is
/// called of, or none), with these parameters, and the type of what it gives; a value of a type, or of an array that is
/// declared with so many bounds (0: none), one that a property gave which is called without arguments, a member and its
/// object, or a member and its object that such a property gave, which were pushed; what takes none at all; and an object
/// of a class, which was pushed, behind which so many arguments that are all written, without names, break a rule.
#[derive(Clone, Copy)]
pub enum Refuser<'a> {
    Procedure {
        values: u32,
        parameters: &'a [Parameter],
        of: DeclaredType,
    },
    Value {
        of: DeclaredType,
        bounds: u32,
    },
    Called(DeclaredType),
    Member(HostMember),
    Behind(HostMember),
    Bare,
    Led {
        rule: u8,
        count: u32,
    },
}

/// What doesn't take its arguments, and the place of its first token. Each argument stands above it.
#[derive(Clone, Copy)]
pub struct Untaken<'a> {
    pub place: Place,
    pub refuser: Refuser<'a>,
}

/// What the nodes of an expression leave on the stack. A call is its procedure and its arguments; the arguments of a
/// statement stand alone.
#[derive(Clone, Copy)]
pub enum Item<'a> {
    Tree(Tree<'a>),
    Operand(Operand),
    Call(Call<'a>),
    Listed(Passed<'a>),
    Indexed(Indexed),
    Function(FunctionCall),
    Member(MemberCall),
    Named(Named),
    Untaken(Untaken<'a>),
    /// Arguments of a statement that aren't taken. Each stands above it.
    Unlisted,
    /// An argument that was pushed, as a Variant takes it, for what doesn't take it. It stands above those before it, and
    /// what doesn't take them below them.
    Shape(Shape<'a>),
    /// A value that was pushed for a ParamArray. It stands above those before it, and the call or the arguments of a
    /// statement below them.
    Gathered,
}
