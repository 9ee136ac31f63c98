//! The scope of a statement: that of its procedure, inside the With blocks that stand open round it.

ghost use Rattle.std.specs.Prelude.{◌≡◌, [], IfOk, option_map};
ghost use Rattle.bound_lines.specs.Round.{Inside, StandsAt, around_view};
ghost use Rattle.bound_terms.specs.bound_accesses.specs.bound_names.specs.bound_members.specs.bound_calls.specs.bound_forms.specs.StatementsBound as plain;
ghost use Rattle.bound_terms.specs.bound_accesses.specs.bound_names.specs.View.{EnvStands, env_view, within_view};
ghost use Rattle.statement_nodes.specs.statement_numbers.specs.View.{part_at, standing_view};

use crate::around::Around;
use crate::places::kept_by;
use bound_terms::bound_accesses::bound_names::bound_members::bound_calls::bound_declarations::NotYet;
use bound_terms::bound_accesses::bound_names::{Env, Within};
use constant_values::declared_names::module_parts::Part;
use statement_nodes::object_of;
use statement_nodes::statement_numbers::{Opened, Standing};
use std::alloc::Global;
use vba_base::OrMemory;

/// The same scope with this With block round it.
fn env_with<'a>(env: Env<'a>, within: Option<Within>) -> Env<'a>
    requires { EnvStands env }
    ensures stands { EnvStands result }
    ensures view { env_view result ≡ record (env_view env.entry) { within = option_map within_view within } }
{
    Env {
        constants: env.constants,
        signatures: env.signatures,
        declared: env.declared,
        within,
        first: env.first,
        compare: env.compare,
        has_class: env.has_class,
        has_new: env.has_new,
    }
}

/// The scope inside one more block that stands open.
fn enter<'a>(
    alloc: Global,
    env: Env<'a>,
    body: &'a [Part],
    opened: Opened,
) -> Result<Env<'a>, OrMemory<NotYet>>
    requires { EnvStands env }
    ensures stands { IfOk result (λ inner. EnvStands inner) }
    ensures view { IfOk result (λ inner. env_view inner ≡ record (env_view env.entry) {
      within = plain.with_or (plain.with_object (part_at body.now opened.line)) (env_view env.entry) opened.header (env_view env.entry).within;
    }) }
{
    match object_of(body, opened) {
        None => Ok(env),
        Some(object) => {
            let within = kept_by(alloc, env, opened.header, object)?;
            Ok(env_with(env, within))
        }
    }
}

/// The scope of a statement that stands there.
#[tactic(auto, using(crate::proofs::Rounds::inside_begins, crate::proofs::Rounds::inside_goes_on))]
fn env_inside<'a>(
    alloc: Global,
    around: Around<'a>,
    body: &'a [Part],
    blocks: &'a [Opened],
) -> Result<Env<'a>, OrMemory<NotYet>>
    requires { EnvStands around.env }
    ensures { IfOk result (λ env. Inside around.entry body.now blocks.now env []) }
{
    let mut env = env_with(around.env, None);
    let mut left = blocks;
    'entering: while let Some((opened, inner)) = left.split_first() {
        env = enter(alloc, env, body, *opened)?;
        left = inner;
    }
    Ok(env)
}

/// The procedure round a statement that stands there.
pub fn around_at<'a>(
    alloc: Global,
    around: Around<'a>,
    standing: Standing<'a>,
) -> Result<Around<'a>, OrMemory<NotYet>>
    requires { EnvStands around.env }
    ensures stands { IfOk result (λ there. EnvStands there.env) }
    ensures placed { IfOk result (λ there. StandsAt there (standing_view standing.entry)) }
    ensures view { IfOk result (λ there. around_view there ≡ around_view around.entry) }
{
    let env = env_inside(alloc, around, standing.body, standing.around)?;
    Ok(Around { env, ..around })
}
