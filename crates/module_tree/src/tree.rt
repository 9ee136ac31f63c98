use module_parts::BlockKind;

/// The tree of a module: its parts, bracketed by the lines that open and close blocks, procedures,
/// Enums and Types.
#[derive(Drop)]
pub struct ModuleTree<P> {
    pub nodes: Vec<Node<P>>,
}

/// A part of a module by itself, or what an opening and an end bracket.
#[cycle(node)]
pub enum Node<P> {
    /// A part that brackets nothing.
    Alone(P),
    Block(Block<P>),
}

impl<P: Drop> Drop for Node<P> {
    #[cycle(node)]
    fn drop(self) {
        match self {
            Node::Alone(_part) => {}
            Node::Block(_block) => {}
        }
    }
}

/// A block, a procedure, an Enum or a Type.
#[cycle(node)]
pub struct Block<P> {
    pub kind: BlockKind,
    pub opening: P,
    /// What stands behind the opening, up to the first arm.
    pub body: Vec<Node<P>>,
    pub arms: Vec<Arm<P>>,
    pub ending: P,
}

impl<P: Drop> Drop for Block<P> {
    #[cycle(node)]
    fn drop(self) {
        let Block {
            kind: _kind,
            opening: _opening,
            body: _body,
            arms: _arms,
            ending: _ending,
        } = self;
    }
}

/// An arm of an If or of a Select Case.
#[cycle(node)]
pub struct Arm<P> {
    /// It is an `Else` or a `Case Else`, behind which no arm may stand.
    pub is_last: bool,
    pub line: P,
    /// What stands behind the line, up to the next arm.
    pub body: Vec<Node<P>>,
}

impl<P: Drop> Drop for Arm<P> {
    #[cycle(node)]
    fn drop(self) {
        let Arm {
            is_last: _is_last,
            line: _line,
            body: _body,
        } = self;
    }
}
