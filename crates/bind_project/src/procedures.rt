//! Procedures, bound.

ghost use Rattle.std.specs.Prelude.{◌≡◌, IfOk, OnOk};
ghost use Rattle.bind_project.specs.Homes.{HomeStands};
ghost use Rattle.bind_project.specs.Modules.{IsFront, ProcedureAdded};
ghost use Rattle.bind_project.specs.Procedures.{RowFits, numbered_view};
ghost use Rattle.bound_lines.specs.Round.{around_view};
ghost use Rattle.bound_names.specs.bound_members.specs.bound_calls.specs.bound_forms.specs.Bind as plain;
ghost use Rattle.bound_project.specs.DraftView.{draft_view};
ghost use Rattle.bound_names.specs.View.{EnvStands, env_view};
ghost use Rattle.bound_names.specs.bound_members.specs.bound_calls.specs.bound_declarations.specs.constant_values.specs.declared_names.specs.View.{scope_view};

use crate::home::Home;
use crate::walk::bind_body;
use bound_lines::Around;
use bound_names::Env;
use bound_names::bound_members::bound_calls::bound_declarations::constant_values::constants_in;
use bound_names::bound_members::bound_calls::bound_declarations::constant_values::declared_names::{
    Scope, has_class,
};
use bound_names::project_tables::ProcedureRow;
use bound_project::Draft;
use statement_nodes::statement_numbers::{blocks_in, body_count};
use std::alloc::Global;
use vba_base::{NoMemory, OrMemory, Place};

/// Where the statements of a procedure stand.
#[tactic(auto, using(crate::proofs::Rows::placed_inside))]
fn env_of<'a>(home: Home<'a>, row: &'a ProcedureRow<'a>) -> Env<'a>
    requires home { HomeStands home }
    requires fits { RowFits (scope_view home.scope) row.now }
    ensures stands { EnvStands result }
    ensures view { env_view result ≡ (plain.around_of (scope_view home.entry.scope) (numbered_view row.now)).env }
{
    let scope = Scope {
        locals: row.locals.as_slice(),
        ..home.scope
    };
    Env {
        constants: constants_in(scope, home.values, &row.values),
        signatures: home.signatures,
        declared: home.declared,
        within: None,
        first: row.first,
        compare: scope.here.source.compare(),
        has_class: has_class(scope.spaces),
        has_new: home.has_new,
    }
}

/// The procedure round its statements.
#[tactic(auto, using(bound_lines::proofs::Rounds::around_is))]
fn around_of<'a>(home: Home<'a>, row: &'a ProcedureRow<'a>) -> Result<Around<'a>, NoMemory>
    requires home { HomeStands home }
    requires fits { RowFits (scope_view home.scope) row.now }
    ensures stands { IfOk result (λ around. EnvStands around.env) }
    ensures view { IfOk result (λ around. around_view around ≡ plain.around_of (scope_view home.entry.scope) (numbered_view row.now)) }
{
    let end = body_count(row.written.body.slice())?;
    Ok(Around {
        env: env_of(home, row),
        body: row.written.body,
        end,
    })
}

/// Binds a procedure.
#[tactic(auto, using(crate::proofs::ByModule::procedure_ends))]
pub(crate) fn bind_procedure<'a>(
    alloc: Global,
    draft: &mut Draft,
    home: Home<'a>,
    row: &'a ProcedureRow<'a>,
) -> Result<(), OrMemory<Place>>
    requires home { HomeStands home }
    requires front { IsFront (draft_view draft.old) }
    requires fits { RowFits (scope_view home.scope) row.now }
    ensures { OnOk result (ProcedureAdded (scope_view home.entry.scope) (numbered_view row.now) (draft_view draft.old) (draft_view draft.new)) }
{
    let around = around_of(home, row)?;
    bind_body(alloc, draft, around)?;
    let blocks = blocks_in(alloc, around.body.slice())?;
    draft.end_body(alloc, blocks)?;
    Ok(())
}
