//! S19: labels that stand twice.

ghost use Rattle.std.specs.Prelude.{◌≡◌, [], map};
ghost use Rattle.std.specs.List.{list_any};
ghost use Rattle.constant_values.specs.declared_names.specs.binder.specs.Violations.{later, place_of_label, same_label};
ghost use Rattle.use_rules.specs.Found.{noted};

use use_rules::{is_same_label, note_place, place_of_label};
use vba_base::Refusal;
use vba_tree::LineLabel;

/// Stands a label among these?
fn stands_among(label: &LineLabel, others: &[&LineLabel]) -> bool
    ensures { result ≡ list_any (same_label label.now) (map (λ l. l.now) others.now) }
{
    for other in others {
        if is_same_label(label, other) {
            return true;
        }
    }
    false
}

/// Notes where labels stand for the second time.
pub fn note_twice_labelled(labels: &[&LineLabel], least: &mut Option<Refusal>)
    ensures { least.new ≡ noted 19 least.old (later same_label place_of_label [] (map (λ l. l.now) labels.now)) }
{
    for (number, label) in labels.iter().enumerate() {
        let broken = stands_among(label, &labels[..number]);
        note_place(least, broken, 19, place_of_label(label));
    }
}
