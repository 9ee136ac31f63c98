ghost use Rattle.std.specs.Prelude.{◌≡◌, ◌||◌, false, IfOk, Some, bytes_eq, length, map, option_map, slice_get};
ghost use Rattle.vba_values.specs.declared.object.HostRef.TheVariants as host;
ghost use Rattle.bound_project.specs.declared.declared_type.DeclaredType.TheVariants.{Plain};
ghost use Rattle.bound_project.specs.declared.declared_type.ElementType.TheVariants as element;
ghost use Rattle.bound_project.specs.declared.node.NodeKind.TheVariants as kinds;
ghost use Rattle.bound_project.specs.Expressions.{active_sheet, host_object};
ghost use Rattle.vba_values.specs.Types as type;
ghost use Rattle.bound_project.specs.DraftView.{draft_view};
ghost use Rattle.bound_project.specs.Drafts.{Drafted};
ghost use Rattle.bound_project.specs.View.{declaration_view, declared_view, storage_view};
ghost use Rattle.bound_members.specs.bound_calls.specs.bound_declarations.specs.constant_values.specs.declared_names.specs.binder.specs.Constants as constants;
ghost use Rattle.bound_members.specs.bound_calls.specs.bound_declarations.specs.constant_values.specs.declared_names.specs.binder.specs.Declarations.{a_variable};
ghost use Rattle.bound_members.specs.bound_calls.specs.bound_forms.specs.ExpressionsBound as bound;
ghost use Rattle.bound_members.specs.bound_calls.specs.bound_declarations.specs.constant_values.specs.declared_names.specs.binder.specs.Scopes.{of_module, of_procedure};
ghost use Rattle.bound_members.specs.bound_calls.specs.bound_declarations.specs.constant_values.specs.declared_names.specs.binder.specs.Storage as storage;
ghost use Rattle.bound_members.specs.bound_calls.specs.bound_declarations.specs.constant_values.specs.declared_names.specs.binder.specs.Storage.{declared_variable, module_storage};
ghost use Rattle.bound_members.specs.bound_calls.specs.bound_forms.specs.Terms as plain;
ghost use Rattle.bound_members.specs.bound_calls.specs.bound_declarations.specs.constant_values.specs.Rounds.{IsThere};
ghost use Rattle.bound_members.specs.bound_calls.specs.bound_declarations.specs.constant_values.specs.Tables.{AreConstants};
ghost use Rattle.bound_members.specs.bound_calls.specs.bound_declarations.specs.constant_values.specs.declared_names.specs.View.{entry_view, local_view, meant_view, scope_view, space_view, what_view, written_view};
ghost use Rattle.vba_tree.specs.View.{parameter_view, type_clause_view, variable_view};
ghost use Rattle.vba_words.specs.declared.identifier.Identifier as identifier;
ghost use Rattle.bound_names.specs.Owned.{IsShape, OwnShaped, SharedShape, host_rest, made_term, making_of, making_through};
ghost use Rattle.bound_members.specs.bound_calls.specs.Steps.{MakesLeaf};
ghost use Rattle.bound_names.specs.View.{EnvStands, env_view};

use crate::classes::own_member;
use crate::env::Env;
use crate::functions::function_term;
use crate::routines::procedure_term;
use bound_members::bound_calls::bound_declarations::constant_values::declared_names::{
    Entry, Local, Meant, Own, Scope, Space, What, Written,
};
use bound_members::bound_calls::bound_declarations::constant_values::{
    Constants, clause_type, meant_value,
};
use bound_members::bound_calls::bound_declarations::{
    NotYet, arrayed, bounds_declared, bounds_written, made_by, made_through, own_storage,
    parameter_type, result_type, variable_type,
};
use bound_members::bound_calls::{Ending, Receiver, Term, value_term};
use bound_members::{HostKind, find_member, is_word};
use bound_project::{
    Declaration, Declarations, DeclaredType, Draft, ElementType, NodeKind, Storage, Variable,
};
use std::alloc::Global;
use vba_base::{NoMemory, OrMemory, Units};
use vba_lib::library_named;
use vba_tree::{Parameter, TypeClause, Variable as WrittenVariable};
use vba_values::{HostRef, copy_value};
use vba_words::Identifier;

/// An object of the host that is always there, as a value.
fn host_value<'a>(reference: HostRef) -> Term<'a>
    ensures { (env : plain.Env) (d : Drafted) → MakesLeaf env d d result (plain.a_value (host_object reference) type.object) }
{
    Term::Value(Ending {
        kind: NodeKind::HostObject(reference),
        of: DeclaredType::Plain(ElementType::Object),
    })
}

/// The sheets of the workbook.
pub fn sheets_value<'a>() -> Term<'a>
    ensures { result ≡ Term.Value (record { kind = kinds.HostObject host.Sheets; of = Plain element.Object }) }
{
    Term::Value(Ending {
        kind: NodeKind::HostObject(HostRef::Sheets),
        of: DeclaredType::Plain(ElementType::Object),
    })
}

/// The active sheet, as a value.
fn active_sheet<'a>() -> Term<'a>
    ensures { (env : plain.Env) (d : Drafted) → MakesLeaf env d d result (plain.a_value active_sheet type.worksheet) }
{
    Term::Value(Ending {
        kind: NodeKind::ActiveSheet,
        of: DeclaredType::Plain(ElementType::Worksheet),
    })
}

/// A copy of the folded name.
pub fn folded(alloc: Global, name: &Identifier) -> Result<Units, NoMemory>
    ensures { IfOk result (λ text. text ≡ name.now.name) }
{
    Units::from_units(alloc, name.name.units())
}

/// A member of the active sheet, which is not pushed.
fn sheet_member<'a>(
    alloc: Global,
    draft: &mut Draft,
    name: &Identifier,
) -> Result<Term<'a>, OrMemory<NotYet>>
    ensures { IfOk result (λ term. (env : plain.Env) → MakesLeaf env (draft_view draft.old) (draft_view draft.new) term (bound.sheet_term name.now)) }
{
    let text = folded(alloc, name)?;
    let Some(member) = find_member(draft, HostKind::Sheet, text)? else {
        return Err(OrMemory::Fault(NotYet));
    };
    Ok(Term::SheetMember(member))
}

/// Has a text the ASCII characters of one word or of another?
pub fn is_either(text: &[u16], one: &[u8], other: &[u8]) -> bool
    ensures { result ≡ (bytes_eq text.now one.now || bytes_eq text.now other.now) }
{
    is_word(text, one) || is_word(text, other)
}

/// The active sheet, the workbook or Application, by its name.
fn host_object<'a>(name: &Identifier) -> Result<Term<'a>, OrMemory<NotYet>>
    ensures { IfOk result (λ term. (env : plain.Env) (d : Drafted) → MakesLeaf env d d term (host_rest name.now)) }
{
    let text = name.name.units();
    if is_word(text, b"activesheet") {
        return Ok(active_sheet());
    }
    if is_either(text, b"thisworkbook", b"activeworkbook") {
        return Ok(host_value(HostRef::Workbook));
    }
    if is_word(text, b"application") {
        return Ok(host_value(HostRef::Application));
    }
    Err(OrMemory::Fault(NotYet))
}

/// A name of the host.
fn host_term<'a>(
    alloc: Global,
    draft: &mut Draft,
    name: &Identifier,
) -> Result<Term<'a>, OrMemory<NotYet>>
    ensures { IfOk result (λ term. (env : plain.Env) → MakesLeaf env (draft_view draft.old) (draft_view draft.new) term (bound.host_term name.now)) }
{
    let text = name.name.units();
    if is_word(text, b"err") {
        return Ok(Term::Err);
    }
    if is_either(text, b"worksheets", b"sheets") {
        return Ok(sheets_value());
    }
    if is_either(text, b"cells", b"range") {
        return sheet_member(alloc, draft, name);
    }
    host_object(name)
}

/// A constant, by its value.
fn constant_term<'a>(
    alloc: Global,
    draft: &mut Draft,
    env: Env<'a>,
    name: &Identifier,
    meant: Meant<'a>,
) -> Result<Term<'a>, OrMemory<NotYet>>
    requires env { EnvStands env }
    requires there { IsThere (scope_view env.constants.scope) (Some (meant_view meant)) }
    ensures { IfOk result (λ term. MakesLeaf (env_view env.entry) (draft_view draft.old) (draft_view draft.new) term (bound.constant_term (env_view env.entry) name.now (Some (meant_view meant.entry)))) }
{
    let found = meant_value(alloc, env.constants, name, Some(meant))?;
    let Some(known) = found else {
        return Ok(Term::Nothing);
    };
    let value = copy_value(alloc, &known.value)?;
    let term = value_term(draft, value, known.of)?;
    Ok(term)
}

/// A name of the library: the word Error, a function, or a constant.
fn library_term<'a>(
    alloc: Global,
    draft: &mut Draft,
    env: Env<'a>,
    name: &Identifier,
) -> Result<Term<'a>, OrMemory<NotYet>>
    requires { EnvStands env }
    ensures { IfOk result (λ term. MakesLeaf (env_view env.entry) (draft_view draft.old) (draft_view draft.new) term (bound.library_term (env_view env.entry) name.now)) }
{
    if is_word(name.name.units(), b"error") {
        return Ok(Term::ErrorWord);
    }
    match library_named(&name.name) {
        Some(function) => Ok(function_term(env, name, function)),
        None => constant_term(alloc, draft, env, name, Meant::OfLibrary),
    }
}

/// Whether an object is made where a variable is read: never; where what a parameter leads to is declared As New; or, of
/// one that is declared so, an object of this class.
#[derive(Clone, Copy)]
pub enum Making {
    Never,
    Through,
    New(u32),
}

/// The type of a variable, and how many bounds it is declared with as an array.
#[derive(Clone, Copy)]
pub struct Shape {
    pub of: DeclaredType,
    pub bounds: u32,
}

/// How a variable declared As New is made, by its class.
pub fn making_of(made: Option<u32>) -> Making
    ensures { result ≡ making_of made }
{
    match made {
        None => Making::Never,
        Some(class) => Making::New(class),
    }
}

/// The same of a parameter.
fn making_through(through: bool) -> Making
    ensures { result ≡ making_through through }
{
    if through {
        Making::Through
    } else {
        Making::Never
    }
}

/// A variable, as a place.
pub fn variable_term<'a>(storage: Storage, shape: Shape, making: Making) -> Term<'a>
    ensures { (env : plain.Env) (d : Drafted) → MakesLeaf env d d result (made_term making (storage_view storage) (declared_view shape.of) shape.bounds) }
{
    let Shape { of, bounds } = shape;
    let variable = Variable {
        storage,
        of,
        is_bounded: bounds != 0,
    };
    let (kind, makes) = match making {
        Making::Never => (NodeKind::Variable(variable), false),
        Making::Through => (NodeKind::Variable(variable), true),
        Making::New(class) => (NodeKind::NewVariable { variable, class }, true),
    };
    Term::Place {
        kind,
        of,
        bounds,
        lends: true,
        makes,
    }
}

/// What is no array that is declared with bounds.
fn unbounded(of: DeclaredType) -> Shape
    ensures { IsShape (declared_view of) 0 result }
{
    Shape { of, bounds: 0 }
}

/// The result of a procedure.
fn result_shape<'a>(scope: Scope<'a>, written: Written<'a>) -> Result<Shape, OrMemory<NotYet>>
    ensures { IfOk result (λ shape. IsShape (storage.result_type (scope_view scope.entry) (written_view written.entry)) 0 shape) }
{
    Ok(unbounded(result_type(scope, written)?))
}

/// A parameter.
fn parameter_shape<'a>(scope: Scope<'a>, parameter: &Parameter) -> Result<Shape, OrMemory<NotYet>>
    ensures { IfOk result (λ shape. IsShape (storage.parameter_type (scope_view scope.entry) (parameter_view parameter.now)) 0 shape) }
{
    Ok(unbounded(parameter_type(scope, parameter)?))
}

/// A variable that is declared in a procedure.
fn variable_shape<'a>(
    alloc: Global,
    constants: Constants<'a>,
    variable: &'a WrittenVariable,
) -> Result<Shape, OrMemory<NotYet>>
    requires { AreConstants constants }
    ensures { IfOk result (λ shape. IsShape (declared_variable (scope_view constants.entry.scope) (variable_view variable.now)).of
        (length (declared_variable (scope_view constants.entry.scope) (variable_view variable.now)).bounds) shape) }
{
    let bounds = bounds_written(alloc, constants, variable)?;
    let of = variable_type(alloc, constants, variable)?;
    Ok(Shape { of, bounds })
}

/// An array that a ReDim declares.
fn array_shape<'a>(
    alloc: Global,
    constants: Constants<'a>,
    name: &Identifier,
    clause: &Option<TypeClause>,
) -> Result<Shape, OrMemory<NotYet>>
    requires { AreConstants constants }
    ensures { IfOk result (λ shape. IsShape (type.array_of (storage.plain_clause_type (scope_view constants.entry.scope) name.now (option_map type_clause_view clause.now))) 0 shape) }
{
    let of = clause_type(alloc, constants, name.suffix, clause)?;
    Ok(unbounded(arrayed(true, of)?))
}

/// A name of a procedure that is a variable, and how that is made.
fn own_shape<'a>(
    alloc: Global,
    env: Env<'a>,
    local: Local<'a>,
) -> Result<(Shape, Making), OrMemory<NotYet>>
    requires { EnvStands env }
    ensures { IfOk result (λ found. OwnShaped (scope_view env.entry.constants.scope) (local_view local.entry) (declared_view found.0.of) found.0.bounds found.1) }
{
    let scope = env.constants.scope;
    match local.own {
        Own::Result(written) => {
            let shape = result_shape(scope, written)?;
            Ok((shape, Making::Never))
        }
        Own::Parameter(parameter) => {
            let shape = parameter_shape(scope, parameter)?;
            let through = made_through(env.has_new, parameter, shape.of);
            Ok((shape, making_through(through)))
        }
        Own::Variable { variable, .. } => {
            let shape = variable_shape(alloc, env.constants, variable)?;
            let made = made_by(&variable.type_clause, shape.of);
            Ok((shape, making_of(made)))
        }
        Own::Array { type_clause, .. } => {
            let shape = array_shape(alloc, env.constants, local.name, type_clause)?;
            Ok((shape, Making::Never))
        }
        Own::Undeclared { .. } => {
            let shape = unbounded(DeclaredType::Plain(ElementType::Variant));
            Ok((shape, Making::Never))
        }
        Own::Constant(_) => Err(OrMemory::Fault(NotYet)),
    }
}

/// A variable of a procedure.
fn own_variable<'a>(
    alloc: Global,
    env: Env<'a>,
    number: usize,
    local: Local<'a>,
) -> Result<Term<'a>, OrMemory<NotYet>>
    requires { EnvStands env }
    ensures { IfOk result (λ term. (d : Drafted) (x : identifier.Identifier) → MakesLeaf (env_view env.entry) d d term (bound.own_term (env_view env.entry) x number (local_view local.entry))) }
{
    let scope = env.constants.scope;
    let (shape, making) = own_shape(alloc, env, local)?;
    let storage = own_storage(scope, env.first, number, local.own)?;
    Ok(variable_term(storage, shape, making))
}

/// A name of a procedure.
fn own_term<'a>(
    alloc: Global,
    draft: &mut Draft,
    env: Env<'a>,
    name: &Identifier,
    number: usize,
    local: Local<'a>,
) -> Result<Term<'a>, OrMemory<NotYet>>
    requires env { EnvStands env }
    requires there { IsThere (scope_view env.constants.scope) (Some (of_procedure number (local_view local))) }
    ensures { IfOk result (λ term. MakesLeaf (env_view env.entry) (draft_view draft.old) (draft_view draft.new) term (bound.own_term (env_view env.entry) name.now number (local_view local.entry))) }
{
    match local.own {
        Own::Constant(_) => constant_term(
            alloc,
            draft,
            env,
            name,
            Meant::OfProcedure { number, local },
        ),
        _ => own_variable(alloc, env, number, local),
    }
}

/// The declaration with a number.
pub fn declaration_at(declared: &Vec<Declaration>, number: usize) -> Option<&Declaration>
    ensures { option_map (λ found. declaration_view found.now) result ≡ option_map declaration_view (slice_get declared.now.items number) }
{
    declared.get(number)
}

/// What a declaration says of a variable.
pub fn known_shape(declaration: &Declaration) -> Result<Shape, NoMemory>
    ensures { IfOk result (λ shape. IsShape (declaration_view declaration.now).of (length (declaration_view declaration.now).bounds) shape) }
{
    let bounds = bounds_declared(declaration)?;
    Ok(Shape {
        of: declaration.of,
        bounds,
    })
}

/// A variable that is kept among those of the project.
fn shared_shape(declared: &Declarations, kept: Storage) -> Result<Shape, OrMemory<NotYet>>
    ensures { IfOk result (λ shape. SharedShape (map declaration_view declared.now.shared.items) (storage_view kept) shape) }
{
    let Storage::Shared(number) = kept else {
        return Err(OrMemory::Fault(NotYet));
    };
    let Some(declaration) = declaration_at(&declared.shared, number as usize) else {
        return Err(OrMemory::Fault(NotYet));
    };
    let shape = known_shape(declaration)?;
    Ok(shape)
}

/// A variable of a standard module.
fn module_variable<'a>(
    env: Env<'a>,
    space: &'a Space<'a>,
    number: usize,
    entry: Entry<'a>,
    variable: &'a WrittenVariable,
) -> Result<Term<'a>, OrMemory<NotYet>>
    requires env { EnvStands env }
    requires there { IsThere (scope_view env.constants.scope) (Some (of_module (space_view space.now) number (entry_view entry))) }
    requires standard { (space_view space.now).source.is_class ≡ false }
    requires what { what_view entry.what ≡ a_variable (variable_view variable.now) }
    ensures { IfOk result (λ term. (d : Drafted) → MakesLeaf (env_view env.entry) d d term
        (bound.variable_term (constants.home (scope_view env.entry.constants.scope) (space_view space.now))
        (module_storage (scope_view env.entry.constants.scope) (space_view space.now) number) (variable_view variable.now))) }
{
    let kept = env
        .signatures
        .module_storage(env.constants.scope, space, number)?;
    let shape = shared_shape(env.declared, kept)?;
    let made = made_by(&variable.type_clause, shape.of);
    Ok(variable_term(kept, shape, making_of(made)))
}

/// Is a module a class?
fn is_class(space: &Space) -> bool
    ensures { result ≡ (space_view space.now).source.is_class }
{
    space.source.is_class
}

/// An entry of a module that is no constant: of a class what it is of the own object.
fn standard_term<'a>(
    env: Env<'a>,
    space: &'a Space<'a>,
    number: usize,
    entry: Entry<'a>,
) -> Result<Term<'a>, OrMemory<NotYet>>
    requires env { EnvStands env }
    requires there { IsThere (scope_view env.constants.scope) (Some (of_module (space_view space.now) number (entry_view entry))) }
    ensures { IfOk result (λ term. (d : Drafted) (x : identifier.Identifier) → MakesLeaf (env_view env.entry) d d term (bound.entry_term (env_view env.entry) x (space_view space.now) number (entry_view entry.entry))) }
{
    if is_class(space) {
        return own_member(env, space, number, entry);
    }
    match entry.what {
        What::Variable(variable) => module_variable(env, space, number, entry, variable),
        What::Procedure(written) => {
            procedure_term(env, space, number, entry, written, Receiver::Module)
        }
        _ => Err(OrMemory::Fault(NotYet)),
    }
}

/// An entry of a module.
fn entry_term<'a>(
    alloc: Global,
    draft: &mut Draft,
    env: Env<'a>,
    name: &Identifier,
    space: &'a Space<'a>,
    number: usize,
    entry: Entry<'a>,
) -> Result<Term<'a>, OrMemory<NotYet>>
    requires env { EnvStands env }
    requires there { IsThere (scope_view env.constants.scope) (Some (of_module (space_view space.now) number (entry_view entry))) }
    ensures { IfOk result (λ term. MakesLeaf (env_view env.entry) (draft_view draft.old) (draft_view draft.new) term (bound.entry_term (env_view env.entry) name.now (space_view space.now) number (entry_view entry.entry))) }
{
    let meant = Meant::OfModule {
        space,
        number,
        entry,
    };
    match entry.what {
        What::Constant(_) => constant_term(alloc, draft, env, name, meant),
        What::Member { .. } => constant_term(alloc, draft, env, name, meant),
        _ => standard_term(env, space, number, entry),
    }
}

/// What a name is that means a variable or a procedure; nothing is pushed for it.
pub fn meant_variable<'a>(
    alloc: Global,
    env: Env<'a>,
    meant: Meant<'a>,
) -> Result<Term<'a>, OrMemory<NotYet>>
    requires env { EnvStands env }
    requires there { IsThere (scope_view env.constants.scope) (Some (meant_view meant)) }
    ensures { IfOk result (λ term. (d : Drafted) (x : identifier.Identifier) → MakesLeaf (env_view env.entry) d d term (bound.meant_term (env_view env.entry) x (Some (meant_view meant.entry)))) }
{
    match meant {
        Meant::OfProcedure { number, local } => own_variable(alloc, env, number, local),
        Meant::OfModule {
            space,
            number,
            entry,
        } => standard_term(env, space, number, entry),
        _ => Err(OrMemory::Fault(NotYet)),
    }
}

/// What a name is that means something.
fn known_term<'a>(
    alloc: Global,
    draft: &mut Draft,
    env: Env<'a>,
    name: &Identifier,
    meant: Meant<'a>,
) -> Result<Term<'a>, OrMemory<NotYet>>
    requires env { EnvStands env }
    requires there { IsThere (scope_view env.constants.scope) (Some (meant_view meant)) }
    ensures { IfOk result (λ term. MakesLeaf (env_view env.entry) (draft_view draft.old) (draft_view draft.new) term (bound.meant_term (env_view env.entry) name.now (Some (meant_view meant.entry)))) }
{
    match meant {
        Meant::Module(_) => Ok(Term::Nothing),
        Meant::Library => Ok(Term::Nothing),
        Meant::OfHost => host_term(alloc, draft, name),
        Meant::OfLibrary => library_term(alloc, draft, env, name),
        Meant::OfProcedure { number, local } => own_term(alloc, draft, env, name, number, local),
        Meant::OfModule {
            space,
            number,
            entry,
        } => entry_term(alloc, draft, env, name, space, number, entry),
    }
}

/// What a name is, by what it means.
pub fn meant_term<'a>(
    alloc: Global,
    draft: &mut Draft,
    env: Env<'a>,
    name: &Identifier,
    meant: Option<Meant<'a>>,
) -> Result<Term<'a>, OrMemory<NotYet>>
    requires env { EnvStands env }
    requires there { IsThere (scope_view env.constants.scope) (option_map meant_view meant) }
    ensures { IfOk result (λ term. MakesLeaf (env_view env.entry) (draft_view draft.old) (draft_view draft.new) term (bound.meant_term (env_view env.entry) name.now (option_map meant_view meant.entry))) }
{
    match meant {
        None => Ok(Term::Nothing),
        Some(meant) => known_term(alloc, draft, env, name, meant),
    }
}
