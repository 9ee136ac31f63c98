use vba_expression::Expression;

/// Where a part of a module stands; in an Enum, whether that is public, and what its next member is without a value.
#[derive(Clone, Copy)]
pub(crate) enum Inside<'a> {
    Module,
    Procedure,
    Enum {
        is_public: bool,
        value: Option<&'a Expression>,
        steps: usize,
    },
}
