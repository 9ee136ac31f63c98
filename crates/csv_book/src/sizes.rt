use crate::scan::{Action, State, step};

/// How much a file has. By it room is taken, so that nothing grows while the file is read.
#[derive(Clone, Copy)]
pub struct Sizes {
    pub rows: usize,
    pub fields: usize,
    /// The bytes of all fields.
    pub bytes: usize,
    /// The bytes of the longest field.
    pub longest: usize,
    /// The bytes of the field that isn't counted yet.
    pending: usize,
}

/// How much a file has, or one empty row more.
pub fn sizes_of(file: &[u8]) -> Sizes {
    let mut sizes = Sizes {
        rows: 0,
        fields: 0,
        bytes: 0,
        longest: 0,
        pending: 0,
    };
    let mut state = State::BeforeRow;
    for byte in file {
        let (next, action) = step(state, *byte);
        state = next;
        count(&mut sizes, action);
    }
    count(&mut sizes, Action::EndRow);
    sizes
}

/// Counts what a byte does.
fn count(sizes: &mut Sizes, action: Action) {
    match action {
        Action::Skip => {}
        Action::Copy => sizes.pending = sizes.pending.saturating_add(1),
        Action::EndField => count_field(sizes),
        Action::EndRow => {
            count_field(sizes);
            sizes.rows = sizes.rows.saturating_add(1);
        }
    }
}

/// Counts the field that isn't counted yet.
fn count_field(sizes: &mut Sizes) {
    sizes.fields = sizes.fields.saturating_add(1);
    sizes.bytes = sizes.bytes.saturating_add(sizes.pending);
    sizes.longest = sizes.longest.max(sizes.pending);
    sizes.pending = 0;
}
