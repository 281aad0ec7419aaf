use crate::syntax::Expr;

/// What stands before an operand inside its parentheses.
#[derive(Drop)]
pub struct Level {
    /// The condition left of an `OR`.
    pub either: Option<Expr>,
    /// The condition left of an `AND`.
    pub both: Option<Expr>,
    /// How many `NOT` stand right before the operand.
    pub nots: u32,
}
