//! Where parts begin.

ghost use Rattle.std.specs.Prelude.{◌≡◌};
ghost use Rattle.module_parts.specs.View.{part_view};
ghost use Rattle.vba_module.specs.Parts as parts;

use crate::lines::{label_place, line_place};
use crate::part::Part;
use crate::statements::statement_place;
use vba_base::Place;

/// The place of the first token of a part.
pub fn place_of(part: &Part) -> Place
    ensures { result ≡ parts.place_of (part_view part.now) }
{
    match part {
        Part::Label(label) => label_place(label),
        Part::Statement(statement) => statement_place(statement),
        Part::WholeLine(line) => line_place(line),
    }
}
