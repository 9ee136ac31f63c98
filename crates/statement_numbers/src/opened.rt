//! The blocks that stand open.

ghost use Rattle.std.specs.Prelude.{◌≡◌, ◌+◌, ◌<◌, ◌∷◌, suc, false, IfOk, OnOk, drop, length};
ghost use Rattle.binder.specs.Numbering as numbering;
ghost use Rattle.module_parts.specs.Brackets.{kind_view};
ghost use Rattle.module_parts.specs.View.{parts_view};
ghost use Rattle.std.specs.List.{list_any};
ghost use Rattle.vba_module.specs.Blocks.{same_kind};
ghost use Rattle.statement_numbers.specs.View.{awaits, part_at, role_view, stack_view};

use crate::awaited::Awaited;
use crate::kinds::{is_same_kind, is_select};
use crate::sought::{Sought, number_sought};
use crate::sums::plus;
use module_parts::{BlockKind, Bracket, Part};
use vba_base::NoMemory;

/// A block that stands open: its kind, which part of the body opened it, the number of that statement, the first
/// statement of its block, and whether its first arm is still to come.
#[derive(Clone, Copy, Debug, PartialEq, Eq)]
pub struct Opened {
    pub kind: BlockKind,
    pub line: usize,
    pub header: u32,
    pub first: u32,
    pub awaits: bool,
}

/// Is one of them of this kind?
pub fn has_kind(opened: &[Opened], kind: BlockKind) -> bool
    ensures { result ≡ list_any (λ o. same_kind (kind_view kind) (kind_view o.kind)) opened.now }
{
    opened.iter().any(|opened| is_same_kind(kind, opened.kind))
}

/// The parts of a body behind one of them.
fn parts_behind(body: &[Part], at: usize) -> &[Part]
    requires { at < length body.now }
    ensures { result.now ≡ drop (at + 1) body.now }
{
    &body[at + 1..]
}

/// The first statement of a block that a header with this number opens.
fn first_inside(number: u32, rest: &[Part], around: &[Opened]) -> Result<u32, NoMemory>
    ensures { IfOk result (λ n. n ≡ numbering.sought numbering.here (false ∷ awaits around.now) (suc number) (parts_view rest.now)) }
{
    let inside = Awaited {
        innermost: Some(false),
        outside: around,
    };
    number_sought(Sought::Here, inside, plus(number, 1)?, rest)
}

/// Goes behind a part of a body, with its number: a block that it opens stands open then, one that it closes doesn't,
/// and behind an arm no arm is awaited.
pub fn pass_part(
    opened: &mut Vec<Opened>,
    body: &[Part],
    at: usize,
    bracket: Bracket,
    number: u32,
) -> Result<(), NoMemory>
    requires { at < length body.now }
    ensures { OnOk result (stack_view body.now opened.new.items
        ≡ numbering.opened_behind (part_at body.now at) (role_view bracket) number (parts_view (drop (at + 1) body.now)) (stack_view body.now opened.old.items)) }
{
    match bracket {
        Bracket::Opens(kind) => {
            let first = first_inside(number, parts_behind(body, at), opened.as_slice())?;
            opened.push(Opened {
                kind,
                line: at,
                header: number,
                first,
                awaits: is_select(kind),
            })?;
        }
        Bracket::Divides { .. } => {
            if let Some(innermost) = opened.pop() {
                opened.push(Opened {
                    awaits: false,
                    ..innermost
                })?;
            }
        }
        Bracket::Closes(_) => {
            let _closed = opened.pop();
        }
        Bracket::Stands => {}
    }
    Ok(())
}
