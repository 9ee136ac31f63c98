//! S16, S17, S18 and S23 in the body of a procedure.

ghost use Rattle.std.specs.Prelude.{◌≡◌, [], List, map, reverse, OnOk, flat_map};
ghost use Rattle.declared_names.specs.binder.specs.LeftOut.{said_left_out};
ghost use Rattle.declared_names.specs.binder.specs.Said as plain;
ghost use Rattle.declared_names.specs.binder.specs.Violations.{label_said, names_said, types_said};
ghost use Rattle.declared_names.specs.View.{scope_view};
ghost use Rattle.declared_names.specs.module_parts.specs.Brackets.{kind_view};
ghost use Rattle.declared_names.specs.module_parts.specs.View.{part_view, parts_view};
ghost use Rattle.use_rules.specs.Found.{noted};
ghost use Rattle.use_rules.specs.Stacks.{below};
ghost use Rattle.use_rules.specs.View.{kinds_stack};
ghost use Rattle.use_rules.specs.Walked.{is_within, kinds_behind, walked};
ghost use Rattle.vba_module.specs.Blocks as blocks;

use crate::labels::note_all_labels;
use crate::question::Question;
use crate::said_names::note_all_names;
use crate::said_types::note_all_types;
use declared_names::Scope;
use declared_names::module_parts::{BlockKind, Bracket, Part, bracket_of};
use said_parts::push_part;
use std::alloc::Global;
use vba_base::{NoMemory, Refusal};
use vba_tree::LineLabel;

/// The least refusals by S16, S17 and S18 that were found.
#[derive(Clone, Copy)]
pub struct BodyFound {
    pub types: Option<Refusal>,
    pub names: Option<Refusal>,
    pub labels: Option<Refusal>,
}

/// Goes behind a part: opens and closes what it brackets.
#[tactic(auto, using(crate::proofs::Standing::stands_behind))]
fn go_behind(opened: &mut Vec<BlockKind>, part: &Part) -> Result<(), NoMemory>
    ensures { OnOk result (kinds_stack opened.new.items ≡ kinds_behind (blocks.role_of (part_view part.now)) (kinds_stack opened.old.items)) }
{
    match bracket_of(part) {
        Bracket::Opens(kind) => opened.push(kind)?,
        Bracket::Closes(_) => close_block(opened),
        Bracket::Divides { .. } | Bracket::Stands => {}
    }
    Ok(())
}

/// Closes the innermost block.
fn close_block(opened: &mut Vec<BlockKind>)
    ensures { kinds_stack opened.new.items ≡ below (kinds_stack opened.old.items) }
{
    let _closed = opened.pop();
}

/// Is it a With block?
fn is_with(kind: BlockKind) -> bool
    ensures { result ≡ blocks.same_kind blocks.with_block (kind_view kind) }
{
    match kind {
        BlockKind::With => true,
        BlockKind::Procedure(_)
        | BlockKind::Enum
        | BlockKind::Type
        | BlockKind::If
        | BlockKind::Select
        | BlockKind::For
        | BlockKind::Do
        | BlockKind::While => false,
    }
}

/// Does a With block stand open?
fn is_in_with(opened: &[BlockKind]) -> bool
    ensures { result ≡ is_within (kinds_stack opened.now) }
{
    let mut left = opened;
    'looking: while let Some((innermost, others)) = left.split_last() {
        if is_with(*innermost) {
            return true;
        }
        left = others;
    }
    false
}

/// Notes where a part breaks the rules, inside a With block or not.
fn note_part<'a>(
    alloc: Global,
    scope: Scope<'a>,
    is_static: bool,
    in_with: bool,
    labels: &[&LineLabel],
    part: &'a Part,
    found: &mut BodyFound,
) -> Result<(), NoMemory>
    ensures types { OnOk result (found.new.types ≡ noted 16 found.old.types (flat_map (types_said (scope_view scope.entry)) (plain.said_in_part is_static (part_view part.now)))) }
    ensures names { OnOk result (found.new.names ≡ noted 17 found.old.names (flat_map (names_said (scope_view scope.entry) in_with) (plain.said_in_part is_static (part_view part.now)))) }
    ensures labels { OnOk result (found.new.labels ≡ noted 18 found.old.labels (flat_map (label_said (map (λ l. l.now) labels.now)) (plain.said_in_part is_static (part_view part.now)))) }
{
    let mut said = Vec::new(alloc);
    push_part(&mut said, part, is_static)?;
    note_all_types(alloc, scope, said.as_slice(), &mut found.types)?;
    let question = Question::IsUnknown { in_with };
    note_all_names(alloc, scope, question, said.as_slice(), &mut found.names)?;
    note_all_labels(labels, said.as_slice(), &mut found.labels);
    Ok(())
}

/// Notes where the parts of a procedure, Static or not, break the rules, where these labels stand in it.
pub fn note_body<'a>(
    alloc: Global,
    scope: Scope<'a>,
    is_static: bool,
    labels: &[&LineLabel],
    parts: &'a [Part],
    found: &mut BodyFound,
) -> Result<(), NoMemory>
    ensures types { OnOk result (found.new.types ≡ noted 16 found.old.types (walked (λ within. types_said (scope_view scope.entry)) is_static [] (parts_view parts.now))) }
    ensures names { OnOk result (found.new.names ≡ noted 17 found.old.names (walked (names_said (scope_view scope.entry)) is_static [] (parts_view parts.now))) }
    ensures labels { OnOk result (found.new.labels ≡ noted 18 found.old.labels
        (flat_map (label_said (map (λ l. l.now) labels.now)) (flat_map (plain.said_in_part is_static) (parts_view parts.now)))) }
{
    let mut opened = Vec::new(alloc);
    for part in parts {
        let in_with = is_in_with(opened.as_slice());
        note_part(alloc, scope, is_static, in_with, labels, part, found)?;
        go_behind(&mut opened, part)?;
    }
    Ok(())
}

/// Notes where a part breaks S23.
fn note_left_out_part<'a>(
    alloc: Global,
    scope: Scope<'a>,
    is_static: bool,
    part: &'a Part,
    least: &mut Option<Refusal>,
) -> Result<(), NoMemory>
    ensures { OnOk result (least.new ≡ noted 23 least.old (flat_map (said_left_out (scope_view scope.entry)) (plain.said_in_part is_static (part_view part.now)))) }
{
    let mut said = Vec::new(alloc);
    push_part(&mut said, part, is_static)?;
    note_all_names(alloc, scope, Question::IsLeftOut, said.as_slice(), least)
}

/// Notes where the parts of a procedure, Static or not, break S23.
pub fn note_left_out_body<'a>(
    alloc: Global,
    scope: Scope<'a>,
    is_static: bool,
    parts: &'a [Part],
    least: &mut Option<Refusal>,
) -> Result<(), NoMemory>
    ensures { OnOk result (least.new ≡ noted 23 least.old (walked (λ within. said_left_out (scope_view scope.entry)) is_static [] (parts_view parts.now))) }
{
    for part in parts {
        note_left_out_part(alloc, scope, is_static, part, least)?;
    }
    Ok(())
}
