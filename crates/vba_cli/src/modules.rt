use constant_values::declared_names::module_parts::Part;
use vba_base::Units;

/// A module that breaks no rule of tokens, directives, lines and modules: whether it is a class, its text and its parts.
#[derive(Drop)]
pub struct ReadModule<'a> {
    pub is_class: bool,
    pub text: &'a Units,
    pub parts: Vec<Part>,
}
