//! What statements without expressions do.

ghost use Rattle.std.specs.Prelude.{◌≡◌, true, IfOk, Some, option_map};
ghost use Rattle.statement_nodes.specs.Actions.{done_alone, is_alone};
ghost use Rattle.bound_lines.specs.Round.{around_view};
ghost use Rattle.constant_values.specs.declared_names.specs.binder.specs.Numbering.{behind_kind, sought_behind};
ghost use Rattle.constant_values.specs.declared_names.specs.binder.specs.Blocks as numbered;
ghost use Rattle.bound_terms.specs.bound_accesses.specs.bound_names.specs.bound_members.specs.bound_calls.specs.bound_forms.specs.StatementsBound as plain;
ghost use Rattle.bound_project.specs.Statements as plain_to;
ghost use Rattle.statement_nodes.specs.statement_numbers.specs.View.{standing_view};
ghost use Rattle.vba_module.specs.Blocks.{for_loop};

use crate::around::Around;
use bound_project::{ActionKind, Handling};
use bound_terms::bound_accesses::bound_names::bound_members::bound_calls::bound_declarations::NotYet;
use constant_values::declared_names::module_parts::BlockKind;
use statement_nodes::each_header;
use statement_nodes::statement_numbers::{Sought, Standing, label_number};
use std::alloc::Global;
use vba_base::{NoMemory, OrMemory};
use vba_tree::{ErrorHandling, ExitKind, LabelName, ResumeTarget};

/// The number of what runs behind a label of the procedure.
fn number_of(alloc: Global, around: Around, label: &LabelName) -> Result<u32, OrMemory<NotYet>>
    ensures { IfOk result (λ number. numbered.label_number (around_view around.entry).parts label.now ≡ Some number) }
{
    match label_number(alloc, around.body.slice(), label)? {
        Some(number) => Ok(number),
        None => Err(OrMemory::Fault(NotYet)),
    }
}

/// `GoTo label`
pub(crate) fn go_to(
    alloc: Global,
    around: Around,
    label: &LabelName,
) -> Result<ActionKind, OrMemory<NotYet>>
    ensures alone { IfOk result (λ kind. is_alone kind ≡ true) }
    ensures is { IfOk result (λ kind. (option_map plain_to.go_to (numbered.label_number (around_view around.entry).parts label.now)) ≡ done_alone kind) }
{
    let to = number_of(alloc, around, label)?;
    Ok(ActionKind::GoTo { to })
}

/// `GoSub label`
pub(crate) fn go_sub(
    alloc: Global,
    around: Around,
    label: &LabelName,
) -> Result<ActionKind, OrMemory<NotYet>>
    ensures alone { IfOk result (λ kind. is_alone kind ≡ true) }
    ensures is { IfOk result (λ kind. (option_map plain_to.go_sub (numbered.label_number (around_view around.entry).parts label.now)) ≡ done_alone kind) }
{
    let to = number_of(alloc, around, label)?;
    Ok(ActionKind::GoSub { to })
}

/// `On Error ..`
pub(crate) fn on_error(
    alloc: Global,
    around: Around,
    handling: &ErrorHandling,
) -> Result<ActionKind, OrMemory<NotYet>>
    ensures alone { IfOk result (λ kind. is_alone kind ≡ true) }
    ensures is { IfOk result (λ kind. (plain.on_handling (around_view around.entry) handling.now) ≡ done_alone kind) }
{
    match handling {
        ErrorHandling::GoTo { label, .. } => {
            let statement = number_of(alloc, around, label)?;
            Ok(ActionKind::OnError(Handling::HandledAt { statement }))
        }
        ErrorHandling::GoToZero { .. } => Ok(ActionKind::OnError(Handling::PassedOn)),
        ErrorHandling::GoToMinusOne { .. } => Ok(ActionKind::EndHandler),
        ErrorHandling::ResumeNext { .. } => Ok(ActionKind::OnError(Handling::Skipped)),
    }
}

/// `Resume ..`
pub(crate) fn resume(
    alloc: Global,
    around: Around,
    target: &Option<ResumeTarget>,
) -> Result<ActionKind, OrMemory<NotYet>>
    ensures alone { IfOk result (λ kind. is_alone kind ≡ true) }
    ensures is { IfOk result (λ kind. (plain.on_resume (around_view around.entry) target.now) ≡ done_alone kind) }
{
    match target {
        None => Ok(ActionKind::ResumeAgain),
        Some(ResumeTarget::Zero(_)) => Ok(ActionKind::ResumeAgain),
        Some(ResumeTarget::Next(_)) => Ok(ActionKind::ResumeNext),
        Some(ResumeTarget::Label(label)) => {
            let to = number_of(alloc, around, label)?;
            Ok(ActionKind::ResumeAt { to })
        }
    }
}

/// `Exit For`
fn exit_for(standing: Standing) -> Result<ActionKind, NoMemory>
    ensures alone { IfOk result (λ done. is_alone done ≡ true) }
    ensures is { IfOk result (λ done. Some (plain.exit_for (plain.for_each_header (standing_view standing.entry).around)
        (sought_behind (behind_kind for_loop 0) (standing_view standing.entry))) ≡ done_alone done) }
{
    let to = standing.sought_behind(Sought::BehindKind {
        kind: BlockKind::For,
        depth: 0,
    })?;
    match each_header(standing) {
        Some(header) => Ok(ActionKind::ExitEach { header, to }),
        None => Ok(ActionKind::GoTo { to }),
    }
}

/// `Exit ..`
pub(crate) fn exit(
    around: Around,
    standing: Standing,
    kind: ExitKind,
) -> Result<ActionKind, NoMemory>
    ensures alone { IfOk result (λ done. is_alone done ≡ true) }
    ensures is { IfOk result (λ done. (Some (plain.exit_action (around_view around.entry) (standing_view standing.entry) kind)) ≡ done_alone done) }
{
    match kind {
        ExitKind::For => exit_for(standing),
        ExitKind::Do => {
            let to = standing.sought_behind(Sought::BehindKind {
                kind: BlockKind::Do,
                depth: 0,
            })?;
            Ok(ActionKind::GoTo { to })
        }
        ExitKind::Sub | ExitKind::Function | ExitKind::Property => {
            Ok(ActionKind::ExitTo { end: around.end })
        }
    }
}
