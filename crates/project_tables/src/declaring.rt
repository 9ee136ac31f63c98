//! All that a project declares.

ghost use Rattle.std.specs.Prelude.{◌≡◌, [], ◌∷◌, ◌++◌, IfOk, OnOk, flat_map, if◌then◌else◌, map};
ghost use Rattle.bound_declarations.specs.constant_values.specs.declared_names.specs.binder.specs.Projects as projects;
ghost use Rattle.bound_declarations.specs.constant_values.specs.declared_names.specs.binder.specs.Constants.{home};
ghost use Rattle.bound_declarations.specs.constant_values.specs.declared_names.specs.binder.specs.Names.{scope_of};
ghost use Rattle.bound_declarations.specs.constant_values.specs.declared_names.specs.binder.specs.Storage as storage;
ghost use Rattle.bound_project.specs.View.{declaration_view, declarations_view, module_view, procedure_view, class_view};
ghost use Rattle.bound_declarations.specs.constant_values.specs.Rounds.{AreNumbered, IsPlaced};
ghost use Rattle.bound_declarations.specs.constant_values.specs.Tables.{AreProjectValues};
ghost use Rattle.bound_declarations.specs.constant_values.specs.declared_names.specs.Outside.{the_outside};
ghost use Rattle.bound_declarations.specs.constant_values.specs.declared_names.specs.View.{scope_view, space_view};
ghost use Rattle.project_tables.specs.Rows.{AreRows, row_view};
ghost use Rattle.project_tables.specs.Signed.{whole_scope};
ghost use Rattle.project_tables.specs.Steps.{HasValues, IsModule, module_scope, own_statics, procedure_of, statics_in};

use crate::class_tables::class_table;
use crate::project_types::user_types;
use crate::rows::{ProcedureRow, Rows};
use crate::scopes::constants_of;
use bound_declarations::constant_values::declared_names::{Scope, Space};
use bound_declarations::constant_values::{ProjectValues, constants_in, own_values};
use bound_declarations::{
    Kept, NotYet, bound_module, bound_procedure, kept_declarations, module_variables,
};
use bound_project::{Class, Declaration, Declarations, Module, Procedure};
use std::alloc::Global;
use vba_base::{NoMemory, OrMemory};

/// Adds a module.
#[tactic(auto, using(crate::proofs::Shared::modules_push))]
fn push_bound_module(modules: &mut Vec<Module>, made: Module) -> Result<(), NoMemory>
    ensures { OnOk result (map module_view modules.new.items ≡ map module_view modules.old.items ++ module_view made ∷ []) }
{
    Ok(modules.push(made)?)
}

/// The modules of a project.
#[tactic(auto, using(std::proofs::lemmas::List::drop_more))]
fn bound_modules(alloc: Global, spaces: &[Space]) -> Result<Vec<Module>, NoMemory>
    ensures { IfOk result (λ modules. map module_view modules.items ≡ map projects.bound_module (map space_view spaces.now)) }
{
    let mut modules = Vec::new(alloc);
    for space in spaces {
        push_bound_module(&mut modules, bound_module(alloc, space)?)?;
    }
    Ok(modules)
}

/// Adds the variables of a module, unless it is a class.
fn push_variables<'a>(
    alloc: Global,
    scope: Scope<'a>,
    project: &ProjectValues,
    shared: &mut Vec<Declaration>,
) -> Result<(), OrMemory<NotYet>>
    requires placed { IsPlaced (scope_view scope) }
    requires values { AreProjectValues project.now (scope_view scope).spaces }
    ensures { OnOk result (map declaration_view shared.new.items ≡ map declaration_view shared.old.items
        ++ (if (scope_view scope.entry).here.source.is_class then [] else storage.module_declarations (scope_view scope.entry) (scope_view scope.entry).here.entries)) }
{
    if scope.here.source.is_class {
        return Ok(());
    }
    let own = own_values(alloc, project, scope)?;
    let constants = constants_in(scope, project, &own);
    module_variables(alloc, constants, scope.here.entries.as_slice(), shared)
}

/// Adds the statics of a procedure.
fn push_own_statics<'a>(
    alloc: Global,
    scope: Scope<'a>,
    project: &ProjectValues,
    row: &ProcedureRow<'a>,
    shared: &mut Vec<Declaration>,
) -> Result<(), OrMemory<NotYet>>
    requires placed { IsPlaced (scope_view scope) }
    requires values { AreProjectValues project.now (scope_view scope).spaces }
    requires own { HasValues (scope_view scope) row.now }
    ensures { OnOk result (map declaration_view shared.new.items
        ≡ map declaration_view shared.old.items ++ own_statics (scope_view scope.entry) (row_view row.now)) }
{
    let constants = constants_of(scope, &*project, &*row);
    kept_declarations(
        alloc,
        Kept::Static,
        constants,
        row.locals.as_slice(),
        shared,
    )
}

/// Adds the statics of procedures.
#[tactic(auto, using(std::proofs::lemmas::List::drop_more, crate::proofs::Steps::own_values_of))]
fn push_statics<'a>(
    alloc: Global,
    scope: Scope<'a>,
    project: &ProjectValues,
    rows: &[ProcedureRow<'a>],
    shared: &mut Vec<Declaration>,
) -> Result<(), OrMemory<NotYet>>
    requires { IsModule (scope_view scope) project.now rows.now }
    ensures { OnOk result (map declaration_view shared.new.items
        ≡ map declaration_view shared.old.items ++ statics_in (scope_view scope.entry) (map row_view rows.now)) }
{
    for row in rows {
        push_own_statics(alloc, scope, project, row, shared)?;
    }
    Ok(())
}

/// Adds what a module shares: its variables, and the statics of its procedures.
#[tactic(auto, using(crate::proofs::Shared::shared_is))]
fn push_shared<'a>(
    alloc: Global,
    spaces: &'a [Space<'a>],
    space: &'a Space<'a>,
    project: &ProjectValues,
    rows: &[ProcedureRow<'a>],
    shared: &mut Vec<Declaration>,
) -> Result<(), OrMemory<NotYet>>
    requires { IsModule (module_scope spaces.now space.now) project.now rows.now }
    ensures { OnOk result (map declaration_view shared.new.items
        ≡ map declaration_view shared.old.items ++ storage.shared_of (module_scope spaces.now space.now)) }
{
    let scope = Scope {
        spaces,
        here: space,
        locals: &[],
    };
    push_variables(alloc, scope, project, shared)?;
    push_statics(alloc, scope, project, rows, shared)?;
    Ok(())
}

/// The variables that a project shares.
#[tactic(auto, using(std::proofs::lemmas::List::drop_more))]
fn shared_variables<'a>(
    alloc: Global,
    spaces: &'a [Space<'a>],
    rows: &Rows<'a>,
) -> Result<Vec<Declaration>, OrMemory<NotYet>>
    requires numbered { AreNumbered (map space_view spaces.now) }
    requires rows { AreRows rows.now (map space_view spaces.now) }
    ensures { IfOk result (λ shared. map declaration_view shared.items ≡ storage.shared_from (whole_scope (map space_view spaces.now)) (map space_view spaces.now)) }
{
    let mut shared = Vec::new(alloc);
    for (number, space) in spaces.iter().enumerate() {
        let of = rows.of[number].as_slice();
        push_shared(alloc, spaces, space, &rows.values, of, &mut shared)?;
    }
    Ok(shared)
}

/// A procedure as it is bound.
fn procedure_of<'a>(
    alloc: Global,
    scope: Scope<'a>,
    project: &ProjectValues,
    row: &ProcedureRow<'a>,
) -> Result<Procedure, OrMemory<NotYet>>
    requires placed { IsPlaced (scope_view scope) }
    requires values { AreProjectValues project.now (scope_view scope).spaces }
    requires own { HasValues (scope_view scope) row.now }
    ensures { IfOk result (λ procedure. procedure_view procedure ≡ procedure_of (scope_view scope.entry) (row_view row.now)) }
{
    let constants = constants_of(scope, &*project, &*row);
    bound_procedure(alloc, constants, row.written)
}

/// Adds a procedure.
#[tactic(auto, using(crate::proofs::Shared::procedures_push))]
fn push_procedure(
    procedures: &mut Vec<Procedure>,
    procedure: Procedure,
) -> Result<(), OrMemory<NotYet>>
    ensures { OnOk result (map procedure_view procedures.new.items ≡ map procedure_view procedures.old.items ++ procedure_view procedure ∷ []) }
{
    Ok(procedures.push(procedure)?)
}

/// Adds the procedures of a module.
#[tactic(auto, using(std::proofs::lemmas::List::drop_more, crate::proofs::Steps::own_values_of, crate::proofs::Shared::module_bound))]
fn push_procedures<'a>(
    alloc: Global,
    spaces: &'a [Space<'a>],
    space: &'a Space<'a>,
    project: &ProjectValues,
    rows: &[ProcedureRow<'a>],
    procedures: &mut Vec<Procedure>,
) -> Result<(), OrMemory<NotYet>>
    requires { IsModule (module_scope spaces.now space.now) project.now rows.now }
    ensures { OnOk result (map procedure_view procedures.new.items
        ≡ map procedure_view procedures.old.items ++ projects.procedures_of (module_scope spaces.now space.now)) }
{
    let scope = Scope {
        spaces,
        here: space,
        locals: &[],
    };
    for row in rows {
        push_procedure(procedures, procedure_of(alloc, scope, project, row)?)?;
    }
    Ok(())
}

/// The procedures of a project.
#[tactic(auto, using(std::proofs::lemmas::List::drop_more))]
fn bound_procedures<'a>(
    alloc: Global,
    spaces: &'a [Space<'a>],
    rows: &Rows<'a>,
) -> Result<Vec<Procedure>, OrMemory<NotYet>>
    requires numbered { AreNumbered (map space_view spaces.now) }
    requires rows { AreRows rows.now (map space_view spaces.now) }
    ensures { IfOk result (λ procedures. map procedure_view procedures.items
        ≡ flat_map (λ space. projects.procedures_of (home (whole_scope (map space_view spaces.now)) space)) (map space_view spaces.now)) }
{
    let mut procedures = Vec::new(alloc);
    for (number, space) in spaces.iter().enumerate() {
        let of = rows.of[number].as_slice();
        push_procedures(alloc, spaces, space, &rows.values, of, &mut procedures)?;
    }
    Ok(procedures)
}

/// Adds a class.
#[tactic(auto, using(crate::proofs::Shared::classes_push))]
fn push_bound_class(classes: &mut Vec<Class>, class: Class) -> Result<(), OrMemory<NotYet>>
    ensures { OnOk result (map class_view classes.new.items ≡ map class_view classes.old.items ++ class_view class ∷ []) }
{
    Ok(classes.push(class)?)
}

/// Adds a module where it is a class.
fn push_class<'a>(
    alloc: Global,
    spaces: &'a [Space<'a>],
    space: &'a Space<'a>,
    project: &ProjectValues,
    classes: &mut Vec<Class>,
) -> Result<(), OrMemory<NotYet>>
    requires placed { IsPlaced (module_scope spaces.now space.now) }
    requires values { AreProjectValues project.now (module_scope spaces.now space.now).spaces }
    ensures { OnOk result (map class_view classes.new.items ≡ map class_view classes.old.items ++ projects.class_of (module_scope spaces.now space.now)) }
{
    if !space.source.is_class {
        return Ok(());
    }
    let scope = Scope {
        spaces,
        here: space,
        locals: &[],
    };
    push_bound_class(classes, class_table(alloc, scope, project)?)
}

/// The classes of a project.
#[tactic(auto, using(std::proofs::lemmas::List::drop_more))]
fn bound_classes<'a>(
    alloc: Global,
    spaces: &'a [Space<'a>],
    rows: &Rows<'a>,
) -> Result<Vec<Class>, OrMemory<NotYet>>
    requires numbered { AreNumbered (map space_view spaces.now) }
    requires rows { AreRows rows.now (map space_view spaces.now) }
    ensures { IfOk result (λ classes. map class_view classes.items
        ≡ flat_map (λ space. projects.class_of (home (whole_scope (map space_view spaces.now)) space)) (map space_view spaces.now)) }
{
    let mut classes = Vec::new(alloc);
    for space in spaces {
        push_class(alloc, spaces, space, &rows.values, &mut classes)?;
    }
    Ok(classes)
}

/// All that a project declares.
pub fn declarations<'a>(
    alloc: Global,
    spaces: &'a [Space<'a>],
    rows: &Rows<'a>,
) -> Result<Declarations, OrMemory<NotYet>>
    requires numbered { AreNumbered (map space_view spaces.now) }
    requires rows { AreRows rows.now (map space_view spaces.now) }
    ensures { IfOk result (λ declared. declarations_view declared
        ≡ projects.declarations_of the_outside (scope_of the_outside (map space_view spaces.now) projects.no_space) (map space_view spaces.now)) }
{
    let modules = bound_modules(alloc, spaces)?;
    let types = user_types(alloc, spaces, rows)?;
    let classes = bound_classes(alloc, spaces, rows)?;
    let shared = shared_variables(alloc, spaces, rows)?;
    let procedures = bound_procedures(alloc, spaces, rows)?;
    Ok(Declarations {
        modules,
        types,
        classes,
        shared,
        procedures,
    })
}
