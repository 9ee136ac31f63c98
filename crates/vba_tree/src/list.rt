use vba_lexer::Token;

/// Items with a mark between each two: `first, next, ..`.
#[derive(Drop)]
pub struct Listed<T> {
    pub first: T,
    pub others: Vec<Next<T>>,
}

/// An item behind the comma or dot before it.
#[derive(Drop)]
pub struct Next<T> {
    pub mark: Token,
    pub item: T,
}
