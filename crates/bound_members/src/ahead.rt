//! Arguments that are to come, which are looked at before they are read. No promise rests on it: where they end it is tested
//! what has come.
//!
//! One pass over all nodes links each argument to the next one of the same call, so that a call looks at its own arguments
//! alone, and not at those of calls in them.

use bound_calls::Shape;
use std::alloc::Global;
use vba_base::NoMemory;
use vba_expression::ExpressionNode;

/// Links a node to one behind it.
fn link(links: &mut [usize], from: usize, to: usize) {
    if let Some(link) = links.get_mut(from) {
        *link = to;
    }
}

/// As many links as there are nodes, to none yet.
fn no_links(alloc: Global, nodes: &[ExpressionNode]) -> Result<Vec<usize>, NoMemory> {
    let mut links = Vec::new(alloc);
    for _node in nodes {
        links.push(0)?;
    }
    Ok(links)
}

/// The numbers of nodes that begin arguments or are some, each with that of the next argument of the same call, or of its
/// end. Other nodes, and where there is none behind them, have 0.
pub fn links_of(alloc: Global, nodes: &[ExpressionNode]) -> Result<Vec<usize>, NoMemory> {
    let mut links = no_links(alloc, nodes)?;
    let mut last = Vec::new(alloc);
    for (number, node) in nodes.iter().enumerate() {
        match node {
            ExpressionNode::NoArguments => last.push(number)?,
            ExpressionNode::PlainArgument { .. }
            | ExpressionNode::MissingArgument { .. }
            | ExpressionNode::NamedArgument { .. } => {
                if let Some(before) = last.pop() {
                    link(&mut links, before, number);
                }
                last.push(number)?;
            }
            ExpressionNode::Index { .. } => {
                if let Some(before) = last.pop() {
                    link(&mut links, before, number);
                }
            }
            _ => {}
        }
    }
    Ok(links)
}

/// What is known of an argument, where a node is one.
fn shape_of<'a>(node: &'a ExpressionNode) -> Option<Shape<'a>> {
    match node {
        ExpressionNode::PlainArgument { .. } => Some(Shape {
            name: None,
            is_written: true,
        }),
        ExpressionNode::MissingArgument { .. } => Some(Shape {
            name: None,
            is_written: false,
        }),
        ExpressionNode::NamedArgument { name, .. } => Some(Shape {
            name: Some(name),
            is_written: true,
        }),
        _ => None,
    }
}

/// The arguments that begin with the node of a number, by the links of the nodes.
pub fn shapes_at<'a>(
    alloc: Global,
    nodes: &'a [ExpressionNode],
    links: &[usize],
    number: usize,
) -> Result<Vec<Shape<'a>>, NoMemory> {
    let mut shapes = Vec::new(alloc);
    let mut at = number;
    for _node in nodes {
        let Some(next) = links.get(at) else {
            return Ok(shapes);
        };
        let Some(node) = nodes.get(*next) else {
            return Ok(shapes);
        };
        let Some(shape) = shape_of(node) else {
            return Ok(shapes);
        };
        shapes.push(shape)?;
        at = *next;
    }
    Ok(shapes)
}

/// The arguments that begin with the first one of these nodes.
pub fn shapes_ahead<'a>(
    alloc: Global,
    nodes: &'a [ExpressionNode],
) -> Result<Vec<Shape<'a>>, NoMemory> {
    let links = links_of(alloc, nodes)?;
    shapes_at(alloc, nodes, &links, 0)
}

/// How many arguments are written.
pub fn given_ahead<'a>(shapes: &[Shape<'a>]) -> u32 {
    let mut count: u32 = 0;
    for shape in shapes {
        if shape.is_written {
            count = count.saturating_add(1);
        }
    }
    count
}

/// How many arguments stand there before the first one with a name.
pub fn before_names<'a>(shapes: &[Shape<'a>]) -> u32 {
    let mut count: u32 = 0;
    for shape in shapes {
        if shape.name.is_some() {
            return count;
        }
        count = count.saturating_add(1);
    }
    count
}

/// Are all arguments written?
fn all_written<'a>(shapes: &[Shape<'a>]) -> bool {
    for shape in shapes {
        if !shape.is_written {
            return false;
        }
    }
    true
}

/// Which arguments are written, where not all are: 0 stands for one that isn't.
pub fn written_ahead<'a>(alloc: Global, shapes: &[Shape<'a>]) -> Result<Vec<u32>, NoMemory> {
    let mut written = Vec::new(alloc);
    if all_written(shapes) {
        return Ok(written);
    }
    for shape in shapes {
        let flag = if shape.is_written { 1 } else { 0 };
        written.push(flag)?;
    }
    Ok(written)
}
