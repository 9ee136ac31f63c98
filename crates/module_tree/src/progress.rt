//! What was read of the parts of a module, and one part more.

ghost use Rattle.std.specs.Prelude.{◌≡◌, Some, IsSome, IfOk};
ghost use Rattle.vba_module.specs.Blocks.{role_of};
ghost use Rattle.vba_module.specs.Tree.{alone};
ghost use Rattle.module_parts.specs.Brackets.{kind_view};
ghost use Rattle.module_tree.specs.Growing as growing;
ghost use Rattle.module_tree.specs.Seen.{section_view, stack, progress_view};
ghost use Rattle.module_tree.specs.View.{node_view, nodes_view, arm_view, arms_view, and_lone};

use crate::bracketed::Bracketed;
use crate::tree::{Arm, Block, Node};
use module_parts::{BlockKind, Bracket};
use std::alloc::Global;
use vba_base::NoMemory;

/// Where a block is read.
#[derive(Drop)]
pub enum Section<P> {
    /// Behind its opening.
    Body,
    /// Behind the line of an arm, with what stands before the arm.
    Arm {
        body: Vec<Node<P>>,
        arms: Vec<Arm<P>>,
        is_last: bool,
        line: P,
    },
}

/// A block that is open.
#[derive(Drop)]
pub struct Frame<P> {
    /// What stands before it in what it stands in.
    pub before: Vec<Node<P>>,
    pub kind: BlockKind,
    pub opening: P,
    pub section: Section<P>,
}

/// What was read of the parts of a module.
#[derive(Drop)]
pub struct Progress<P> {
    /// The blocks that are open, the innermost last.
    pub frames: Vec<Frame<P>>,
    /// What stands behind the last line of the innermost.
    pub read: Vec<Node<P>>,
}

/// Nodes, and one more.
fn with_node<P: Bracketed + Drop>(
    nodes: Vec<Node<P>>,
    node: Node<P>,
) -> Result<Vec<Node<P>>, NoMemory>
    ensures { IfOk result (λ all. nodes_view P.view all.items ≡ growing.and_node (nodes_view P.view nodes.items) (node_view P.view node)) }
{
    let mut all = nodes;
    all.push(node)?;
    Ok(all)
}

/// Arms, and one more.
fn with_arm<P: Bracketed + Drop>(arms: Vec<Arm<P>>, arm: Arm<P>) -> Result<Vec<Arm<P>>, NoMemory>
    ensures { IfOk result (λ all. arms_view P.view all.items ≡ and_lone (arms_view P.view arms.items) (arm_view P.view arm)) }
{
    let mut all = arms;
    all.push(arm)?;
    Ok(all)
}

/// The body and the arms of a block where these nodes stand last.
fn ended<P: Bracketed + Drop>(
    alloc: Global,
    section: Section<P>,
    read: Vec<Node<P>>,
) -> Result<(Vec<Node<P>>, Vec<Arm<P>>), NoMemory>
    ensures body { IfOk result (λ r. nodes_view P.view r.0.items ≡ growing.body_in (section_view P.view section) (nodes_view P.view read.items)) }
    ensures arms { IfOk result (λ r. arms_view P.view r.1.items ≡ growing.arms_in (section_view P.view section) (nodes_view P.view read.items)) }
{
    match section {
        Section::Body => Ok((read, Vec::new(alloc))),
        Section::Arm {
            body,
            arms,
            is_last,
            line,
        } => {
            let arm = Arm {
                is_last,
                line,
                body: read,
            };
            let arms = with_arm(arms, arm)?;
            Ok((body, arms))
        }
    }
}

/// A part that brackets nothing.
fn stand<P: Bracketed + Drop>(progress: Progress<P>, part: P) -> Result<Progress<P>, NoMemory>
    ensures { IfOk result (λ new. progress_view P.view new ≡ growing.alone_behind (stack P.view progress.frames.items) (nodes_view P.view progress.read.items) (P.view part)) }
{
    let Progress { frames, read } = progress;
    let read = with_node(read, Node::Alone(part))?;
    Ok(Progress { frames, read })
}

/// The opening of a block.
fn open<P: Bracketed + Drop>(
    alloc: Global,
    progress: Progress<P>,
    kind: BlockKind,
    opening: P,
) -> Result<Progress<P>, NoMemory>
    ensures { IfOk result (λ new. progress_view P.view new ≡ growing.opened (stack P.view progress.frames.items) (nodes_view P.view progress.read.items) (kind_view kind) (P.view opening)) }
{
    let Progress { frames, read } = progress;
    let mut open = frames;
    open.push(Frame {
        before: read,
        kind,
        opening,
        section: Section::Body,
    })?;
    Ok(Progress {
        frames: open,
        read: Vec::new(alloc),
    })
}

/// The line of an arm of the innermost block.
fn divide<P: Bracketed + Drop>(
    alloc: Global,
    progress: Progress<P>,
    is_last: bool,
    line: P,
) -> Result<Progress<P>, NoMemory>
    requires { IsSome (growing.divided (stack P.view progress.frames.items) (nodes_view P.view progress.read.items) is_last (P.view line)) }
    ensures { IfOk result (λ new. growing.divided (stack P.view progress.frames.items) (nodes_view P.view progress.read.items) is_last (P.view line) ≡ Some (progress_view P.view new)) }
{
    let Progress { frames, read } = progress;
    let mut open = frames;
    let Frame {
        before,
        kind,
        opening,
        section,
    } = open.pop().unwrap();
    let (body, arms) = ended(alloc, section, read)?;
    open.push(Frame {
        before,
        kind,
        opening,
        section: Section::Arm {
            body,
            arms,
            is_last,
            line,
        },
    })?;
    Ok(Progress {
        frames: open,
        read: Vec::new(alloc),
    })
}

/// The end of the innermost block.
fn close<P: Bracketed + Drop>(
    alloc: Global,
    progress: Progress<P>,
    ending: P,
) -> Result<Progress<P>, NoMemory>
    requires { IsSome (growing.closed (stack P.view progress.frames.items) (nodes_view P.view progress.read.items) (P.view ending)) }
    ensures { IfOk result (λ new. growing.closed (stack P.view progress.frames.items) (nodes_view P.view progress.read.items) (P.view ending) ≡ Some (progress_view P.view new)) }
{
    let Progress { frames, read } = progress;
    let mut open = frames;
    let Frame {
        before,
        kind,
        opening,
        section,
    } = open.pop().unwrap();
    let (body, arms) = ended(alloc, section, read)?;
    let block = Block {
        kind,
        opening,
        body,
        arms,
        ending,
    };
    let read = with_node(before, Node::Block(block))?;
    Ok(Progress { frames: open, read })
}

/// One part more. An arm or an end is of the innermost block that is open.
pub fn take<P: Bracketed + Drop>(
    alloc: Global,
    progress: Progress<P>,
    part: P,
) -> Result<Progress<P>, NoMemory>
    requires { IsSome (growing.grown (stack P.view progress.frames.items) (nodes_view P.view progress.read.items) (P.view part) (role_of (P.view part))) }
    ensures { IfOk result (λ new. growing.grown (stack P.view progress.frames.items) (nodes_view P.view progress.read.items) (P.view part) (role_of (P.view part))
        ≡ Some (progress_view P.view new)) }
{
    match part.bracket() {
        Bracket::Opens(kind) => open(alloc, progress, kind, part),
        Bracket::Divides { is_last, .. } => divide(alloc, progress, is_last, part),
        Bracket::Closes(_) => close(alloc, progress, part),
        Bracket::Stands => stand(progress, part),
    }
}
