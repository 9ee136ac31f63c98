//! What is asked of names.

/// What is asked of each name: is it unknown (S17), inside a With block or not, or is it left out (S23)?
#[derive(Clone, Copy)]
pub enum Question {
    IsUnknown { in_with: bool },
    IsLeftOut,
}
