use crate::declared_type::DeclaredType;
use vba_base::{Name, Place, Units};
use vba_values::{Bound, Compare, Value};

/// A name as it is declared, and its fold, by which it is found.
#[derive(Drop)]
pub struct Spelled {
    pub spelling: Units,
    pub fold: Name,
}

/// A variable, a field or a result: its declared type, with the bounds of an array that is declared with bounds.
#[derive(Drop)]
pub struct Declaration {
    pub name: Spelled,
    pub place: Place,
    pub of: DeclaredType,
    pub bounds: Vec<Bound>,
}

/// A parameter: whether it is ByRef, what it has where it is optional and not given, and whether it is a ParamArray.
#[derive(Drop)]
pub struct Parameter {
    pub name: Spelled,
    pub of: DeclaredType,
    pub is_by_reference: bool,
    pub default: Option<Value>,
    pub is_param_array: bool,
}

/// The kinds of procedures.
#[derive(Clone, Copy, Debug, PartialEq, Eq)]
pub enum ProcedureKind {
    Sub,
    Function,
    PropertyGet,
    PropertyLet,
    PropertySet,
}

/// A procedure without its statements: its module's number from 0, the place of its header, its result and its own
/// variables.
#[derive(Drop)]
pub struct Procedure {
    pub name: Spelled,
    pub kind: ProcedureKind,
    pub in_module: u32,
    pub place: Place,
    pub result: Declaration,
    pub locals: Vec<Declaration>,
    pub parameters: Vec<Parameter>,
}

/// A module: how its texts compare, and the lower bound of its arrays where none is written.
#[derive(Drop)]
pub struct Module {
    pub name: Spelled,
    pub compare: Compare,
    pub base: u8,
}

/// A Type, by the names of its fields and what they are.
#[derive(Drop)]
pub struct UserType {
    pub name: Spelled,
    pub fields: Vec<Declaration>,
}

/// A member of a class: a variable of its objects, with the class of which an object is made where it is declared As New;
/// a Sub or Function; a property, by its Get, its Let and its Set where they are written.
#[derive(Clone, Copy)]
pub enum Member {
    Variable {
        field: u32,
        makes: Option<u32>,
    },
    Procedure(u32),
    Property {
        reads: Option<u32>,
        lets: Option<u32>,
        sets: Option<u32>,
    },
}

/// How many default members in a row may pass arguments, or a value, on to what they give.
pub const MOST_PASSED: u32 = 8;

/// A public member, by its folded name.
#[derive(Drop)]
pub struct NamedMember {
    pub fold: Name,
    pub member: Member,
}

/// An event that a class declares.
#[derive(Drop)]
pub struct DeclaredEvent {
    pub name: Spelled,
    pub parameters: Vec<Parameter>,
}

/// A procedure that handles an event of what a WithEvents variable has: the number of the variable among those of its
/// class, that of the event among those of what raises it, and that of the procedure. A Worksheet raises Change, 0.
#[derive(Clone, Copy)]
pub struct Handler {
    pub field: u32,
    pub event: u32,
    pub procedure: u32,
}

/// A class module: its variables, its Class_Initialize and Class_Terminate where they are written, its public members, and
/// its default member and its enumerator where it has one; the events that it declares, the numbers of its WithEvents
/// variables, and its handlers.
#[derive(Drop)]
pub struct Class {
    pub name: Spelled,
    pub fields: Vec<Declaration>,
    pub initialize: Option<u32>,
    pub terminate: Option<u32>,
    pub members: Vec<NamedMember>,
    pub default: Option<Member>,
    pub enumerator: Option<Member>,
    pub events: Vec<DeclaredEvent>,
    pub with_events: Vec<u32>,
    pub handlers: Vec<Handler>,
}

/// All that a project declares. Classes count from 1, all else from 0.
#[derive(Drop)]
pub struct Declarations {
    pub modules: Vec<Module>,
    pub types: Vec<UserType>,
    pub classes: Vec<Class>,
    /// Module variables and statics, module by module.
    pub shared: Vec<Declaration>,
    pub procedures: Vec<Procedure>,
}
