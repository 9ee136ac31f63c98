//! Labels, and the numbers of what runs behind them ([MS-VBAL] 5.4.1.1).

ghost use Rattle.std.specs.Prelude.{◌≡◌, IfOk};
ghost use Rattle.binder.specs.Numbering.{standings_in};
ghost use Rattle.binder.specs.Blocks.{label_number};
ghost use Rattle.binder.specs.Violations.{same_label_name};
ghost use Rattle.module_parts.specs.View.{part_view, parts_view};
ghost use Rattle.statement_numbers.specs.Labels.{is_label};

use crate::sought::Sought;
use crate::walk::Walk;
use module_parts::Part;
use std::alloc::Global;
use vba_base::NoMemory;
use vba_tree::{LabelName, LineLabel};

/// Is a label the one that is gone to?
pub fn is_same_label(used: &LabelName, stands: &LineLabel) -> bool
    ensures { result ≡ same_label_name used.now stands.now }
{
    match (used, stands) {
        (LabelName::Name(name), LineLabel::Name { name: other, .. }) => name.name == other.name,
        (LabelName::Number { number, .. }, LineLabel::Number { number: other, .. }) => {
            number.value <= other.value && other.value <= number.value
        }
        _ => false,
    }
}

/// Is a part the label that is gone to?
fn is_label(part: &Part, label: &LabelName) -> bool
    ensures { result ≡ is_label label.now (part_view part.now) }
{
    match part {
        Part::Label(stands) => is_same_label(label, stands),
        Part::Statement(_) | Part::WholeLine(_) => false,
    }
}

/// The number of what runs behind a label of a body.
pub fn label_number(
    alloc: Global,
    body: &[Part],
    label: &LabelName,
) -> Result<Option<u32>, NoMemory>
    ensures { IfOk result (λ number. number ≡ label_number (standings_in (parts_view body.now)) label.now) }
{
    let mut walk = Walk::start(alloc, body);
    'looking: while let Some(standing) = walk.standing() {
        if is_label(standing.part(), label) {
            return Ok(Some(standing.sought_behind(Sought::Here)?));
        }
        walk.advance()?;
    }
    Ok(None)
}
