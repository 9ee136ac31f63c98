//! Where parts stand.

ghost use Rattle.std.specs.Prelude.{◌≡◌};
ghost use Rattle.module_rules.specs.Seen.{inside_view, stack};
ghost use Rattle.vba_module.specs.Misplaced.{inside_of};

use crate::open::Open;
use module_parts::BlockKind;

/// Where a part stands.
#[derive(Clone, Copy, Debug, PartialEq, Eq)]
pub enum Inside {
    Module,
    Procedure,
    Enum,
    Type,
}

/// Where a part stands, by what is open.
pub fn inside_of(opened: &[Open]) -> Inside
    ensures { inside_view result ≡ inside_of (stack opened.now) }
{
    let mut left = opened;
    'looking: while let Some((innermost, others)) = left.split_last() {
        match innermost.kind {
            BlockKind::Procedure(_) => return Inside::Procedure,
            BlockKind::Enum => return Inside::Enum,
            BlockKind::Type => return Inside::Type,
            BlockKind::If
            | BlockKind::Select
            | BlockKind::For
            | BlockKind::Do
            | BlockKind::While
            | BlockKind::With => left = others,
        }
    }
    Inside::Module
}
