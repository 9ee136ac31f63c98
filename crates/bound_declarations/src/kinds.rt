//! The kinds of procedures.

ghost use Rattle.std.specs.Prelude.{◌≡◌};
ghost use Rattle.constant_values.specs.declared_names.specs.binder.specs.Signatures as signatures;
ghost use Rattle.constant_values.specs.declared_names.specs.binder.specs.Storage as storage;
ghost use Rattle.bound_project.specs.View.{kind_view};

use bound_project::ProcedureKind;
use vba_tree::{Passing, PassingWord, ProcedureWords};

/// The kind of a procedure.
pub fn kind_of(words: ProcedureWords) -> ProcedureKind
    ensures { kind_view result ≡ storage.kind_of words }
{
    match words {
        ProcedureWords::Sub(_) => ProcedureKind::Sub,
        ProcedureWords::Function(_) => ProcedureKind::Function,
        ProcedureWords::PropertyGet { .. } => ProcedureKind::PropertyGet,
        ProcedureWords::PropertyLet { .. } => ProcedureKind::PropertyLet,
        ProcedureWords::PropertySet { .. } => ProcedureKind::PropertySet,
    }
}

/// Does it give a value?
pub fn gives_value(words: ProcedureWords) -> bool
    ensures { result ≡ storage.gives_value words }
{
    match words {
        ProcedureWords::Function(_) | ProcedureWords::PropertyGet { .. } => true,
        ProcedureWords::Sub(_)
        | ProcedureWords::PropertyLet { .. }
        | ProcedureWords::PropertySet { .. } => false,
    }
}

/// Is its last parameter the value that it is given?
pub fn takes_value(words: ProcedureWords) -> bool
    ensures { result ≡ storage.takes_value words }
{
    match words {
        ProcedureWords::PropertyLet { .. } | ProcedureWords::PropertySet { .. } => true,
        ProcedureWords::Sub(_) | ProcedureWords::Function(_) | ProcedureWords::PropertyGet { .. } =>
            false,
    }
}

/// Is a parameter written with ByVal?
pub fn is_by_val(passing: Option<PassingWord>) -> bool
    ensures { result ≡ storage.is_by_val passing }
{
    match passing {
        None => false,
        Some(word) => word.passing == Passing::ByVal,
    }
}

/// Is it a Property Set?
pub fn is_set(words: ProcedureWords) -> bool
    ensures { result ≡ signatures.is_set words }
{
    match words {
        ProcedureWords::PropertySet { .. } => true,
        _ => false,
    }
}

/// Is it a property?
pub fn is_property(words: ProcedureWords) -> bool
    ensures { result ≡ signatures.is_property words }
{
    match words {
        ProcedureWords::PropertyGet { .. }
        | ProcedureWords::PropertyLet { .. }
        | ProcedureWords::PropertySet { .. } => true,
        ProcedureWords::Sub(_) | ProcedureWords::Function(_) => false,
    }
}
