use crate::token::Token;
use vba_base::{Place, Refusal};

/// A logical line: its tokens in order, the place at which it begins, and the first rule of tokens that it breaks.
#[derive(Debug, Drop)]
pub struct Line {
    pub tokens: Vec<Token>,
    pub place: Place,
    pub fault: Option<Refusal>,
}
