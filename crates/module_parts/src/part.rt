use vba_tree::{LineLabel, LineTree, Statement};

/// A part of a line, of which blocks and procedures are made: its label, a statement between its colons, or the line, where it is no
/// statements.
pub enum Part {
    Label(LineLabel),
    /// A statement, or a line of a block.
    Statement(Statement),
    /// A line that is no statements.
    WholeLine(LineTree),
}

impl Drop for Part {
    fn drop(self) {
        match self {
            Part::Label(_label) => {}
            Part::Statement(_statement) => {}
            Part::WholeLine(_line) => {}
        }
    }
}
