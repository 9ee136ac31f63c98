use crate::entry::Entry;
use crate::local::Local;
use crate::space::Space;
use bound_project::DeclaredType;

/// How a name is used: its value, a call or an index, or what stands before a dot.
#[derive(Clone, Copy, Debug, PartialEq, Eq)]
pub enum Use {
    Plainly,
    Called,
    BeforeDot,
}

/// Where a name is looked up: a module of a project, and what the procedure there declares.
#[derive(Clone, Copy)]
pub struct Scope<'a> {
    pub spaces: &'a [Space<'a>],
    pub here: &'a Space<'a>,
    pub locals: &'a [Local<'a>],
}

/// What a name means. Entries of modules and names of procedures have their numbers.
#[derive(Clone, Copy)]
pub enum Meant<'a> {
    OfProcedure {
        number: usize,
        local: Local<'a>,
    },
    OfModule {
        space: &'a Space<'a>,
        number: usize,
        entry: Entry<'a>,
    },
    /// A module, before a dot.
    Module(&'a Space<'a>),
    /// The word VBA, before a dot.
    Library,
    OfHost,
    OfLibrary,
}

/// What only says where a name behind it is looked for: a module, an Enum by the number of its entry, or VBA.
#[derive(Clone, Copy)]
pub enum Qualifier<'a> {
    Module(&'a Space<'a>),
    Enum { space: &'a Space<'a>, number: usize },
    Library,
}

/// What the name of a type means.
#[derive(Clone, Copy)]
pub enum TypeMeant {
    Known(DeclaredType),
    /// Application, Workbook and Sheets: Object, but for TypeOf.
    OfHost,
    /// Double and its like, which the profile hasn't.
    LeftOut,
}
