use bound_terms::bound_accesses::bound_names::Env;
use constant_values::declared_names::PartRange;

/// The procedure round a statement: its scope, its parts, and the number of its end.
#[derive(Clone, Copy)]
pub struct Around<'a> {
    pub env: Env<'a>,
    pub body: PartRange<'a>,
    pub end: u32,
}
