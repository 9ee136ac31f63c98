//! Whether the first arms of the blocks round what is passed are still to come.

ghost use Rattle.std.specs.Prelude.{◌≡◌};
ghost use Rattle.binder.specs.Numbering as numbering;
ghost use Rattle.statement_numbers.specs.Behind.{awaited_after};
ghost use Rattle.statement_numbers.specs.View.{awaited_view, awaits, role_view};

use crate::kinds::is_select;
use crate::opened::Opened;
use module_parts::Bracket;

/// Of each block round what is passed, whether its first arm is still to come: of the innermost, where that is told
/// apart, and of those outside, the innermost last.
#[derive(Clone, Copy)]
pub struct Awaited<'a> {
    pub innermost: Option<bool>,
    pub outside: &'a [Opened],
}

/// Those behind the end of the innermost block.
pub fn outer(awaited: Awaited) -> Awaited
    ensures { awaited_view result ≡ numbering.outer (awaited_view awaited.entry) }
{
    let outside = match (awaited.innermost, awaited.outside.split_last()) {
        (None, Some((_, outside))) => outside,
        _ => awaited.outside,
    };
    Awaited {
        innermost: None,
        outside,
    }
}

/// Those in the first arm of the innermost block.
pub fn begun(awaited: Awaited) -> Awaited
    ensures { awaited_view result ≡ numbering.begun (awaited_view awaited.entry) }
{
    match (awaited.innermost, awaited.outside.split_last()) {
        (None, None) => awaited,
        (None, Some((_, outside))) => Awaited {
            innermost: Some(false),
            outside,
        },
        (Some(_), _) => Awaited {
            innermost: Some(false),
            outside: awaited.outside,
        },
    }
}

/// Is the first arm of the innermost block still to come?
pub fn is_awaited(awaited: Awaited) -> bool
    ensures { result ≡ numbering.is_awaited (awaited_view awaited.entry) }
{
    match (awaited.innermost, awaited.outside.last()) {
        (Some(awaits), _) => awaits,
        (None, Some(innermost)) => innermost.awaits,
        (None, None) => false,
    }
}

/// Those behind a part that brackets this, where these blocks stand open before it.
pub fn behind(bracket: Bracket, around: &[Opened]) -> Awaited
    ensures { awaited_view result ≡ awaited_after (role_view bracket) (awaits around.now) }
{
    let awaited = Awaited {
        innermost: None,
        outside: around,
    };
    match bracket {
        Bracket::Opens(kind) => Awaited {
            innermost: Some(is_select(kind)),
            outside: around,
        },
        Bracket::Divides { .. } => begun(awaited),
        Bracket::Closes(_) => outer(awaited),
        Bracket::Stands => awaited,
    }
}
