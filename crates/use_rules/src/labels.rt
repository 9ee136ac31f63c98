//! S18: labels that are unknown.

ghost use Rattle.std.specs.Prelude.{◌≡◌, map, IfOk, flat_map};
ghost use Rattle.std.specs.List.{list_any};
ghost use Rattle.declared_names.specs.binder.specs.Violations as violations;
ghost use Rattle.declared_names.specs.binder.specs.Violations.{label_said, labels_in, place_of_label, place_of_target, same_label, same_label_name, same_number, unless_true};
ghost use Rattle.declared_names.specs.module_parts.specs.View.{parts_view};
ghost use Rattle.use_rules.specs.Found.{noted};
ghost use Rattle.said_parts.specs.View.{all_said, said_view};

use crate::noting::note_place;
use declared_names::module_parts::Part;
use said_parts::Said;
use std::alloc::Global;
use vba_base::{NoMemory, Place, Refusal};
use vba_lexer::Number;
use vba_tree::{LabelName, LineLabel};

/// The labels that stand in parts.
pub fn labels_of<'a>(alloc: Global, parts: &'a [Part]) -> Result<Vec<&'a LineLabel>, NoMemory>
    ensures { IfOk result (λ labels. map (λ l. l.now) labels.items ≡ labels_in (parts_view parts.now)) }
{
    let mut labels = Vec::new(alloc);
    for part in parts {
        match part {
            Part::Label(label) => labels.push(label)?,
            Part::Statement(_) | Part::WholeLine(_) => {}
        }
    }
    Ok(labels)
}

/// Are they one number?
fn same_number(one: Number, other: Number) -> bool
    ensures { result ≡ same_number one other }
{
    one.value <= other.value && other.value <= one.value
}

/// Does a label that is gone to name the one that stands there?
fn is_named(target: &LabelName, label: &LineLabel) -> bool
    ensures { result ≡ same_label_name target.now label.now }
{
    match (target, label) {
        (LabelName::Name(wanted), LineLabel::Name { name, .. }) => wanted.name == name.name,
        (LabelName::Number { number: wanted, .. }, LineLabel::Number { number, .. }) => same_number(
            *wanted, *number,
        ),
        (LabelName::Name(_), LineLabel::Number { .. })
        | (LabelName::Number { .. }, LineLabel::Name { .. }) => false,
    }
}

/// Are they one label?
pub fn is_same_label(one: &LineLabel, other: &LineLabel) -> bool
    ensures { result ≡ same_label one.now other.now }
{
    match (one, other) {
        (LineLabel::Name { name: one, .. }, LineLabel::Name { name: other, .. }) => {
            one.name == other.name
        }
        (LineLabel::Number { number: one, .. }, LineLabel::Number { number: other, .. }) => {
            same_number(*one, *other)
        }
        (LineLabel::Name { .. }, LineLabel::Number { .. })
        | (LineLabel::Number { .. }, LineLabel::Name { .. }) => false,
    }
}

/// The place of a label.
pub fn place_of_label(label: &LineLabel) -> Place
    ensures { result ≡ place_of_label label.now }
{
    match label {
        LineLabel::Name { name, .. } => name.token.place,
        LineLabel::Number { token, .. } => token.place,
    }
}

/// The place of a label that is gone to.
fn place_of_target(target: &LabelName) -> Place
    ensures { result ≡ place_of_target target.now }
{
    match target {
        LabelName::Name(name) => name.token.place,
        LabelName::Number { token, .. } => token.place,
    }
}

/// Stands the label that is gone to among these?
fn is_there(target: &LabelName, labels: &[&LineLabel]) -> bool
    ensures { result ≡ list_any (same_label_name target.now) (map (λ l. l.now) labels.now) }
{
    for label in labels {
        if is_named(target, label) {
            return true;
        }
    }
    false
}

/// Notes a label that is unknown.
#[tactic(auto, using(crate::proofs::Noted::unless_if))]
fn note_target(target: &LabelName, labels: &[&LineLabel], least: &mut Option<Refusal>)
    ensures { least.new ≡ noted 18 least.old (unless_true (list_any (same_label_name target.now) (map (λ l. l.now) labels.now)) (place_of_target target.now)) }
{
    let broken = !is_there(target, labels);
    note_place(least, broken, 18, place_of_target(target));
}

/// Notes where what is said breaks S18, where these labels stand.
#[tactic(auto, using(crate::proofs::SaidFound::arguments_labels))]
fn note_label_said(labels: &[&LineLabel], said: Said, least: &mut Option<Refusal>)
    ensures { least.new ≡ noted 18 least.old (flat_map (label_said (map (λ l. l.now) labels.now)) (said_view said.entry)) }
{
    match said {
        Said::GoesTo(target) => note_target(target, labels, least),
        Said::Arguments(_) => {}
        Said::Declares { .. }
        | Said::DeclaresConstant(_)
        | Said::TypeNamed(_)
        | Said::NewNamed(_)
        | Said::ConstantExpression(_)
        | Said::Expression(_)
        | Said::Counter(_)
        | Said::Called(_)
        | Said::Redimmed { .. }
        | Said::Raises(_) => {}
    }
}

/// The same of all that is said.
pub fn note_all_labels(labels: &[&LineLabel], said: &[Said], least: &mut Option<Refusal>)
    ensures { least.new ≡ noted 18 least.old (flat_map (label_said (map (λ l. l.now) labels.now)) (all_said said.now)) }
{
    for one in said {
        note_label_said(labels, *one, least);
    }
}
