use dl_base::{Expr, Fold, Op, Part};

/// An open parenthesis, with what it belongs to.
#[derive(Drop)]
pub enum Opening {
    /// No call's.
    Group,
    Aggregate(Fold),
    Access(Part),
    Dlvalue1,
    /// Behind the first argument.
    Dlvalue2(Expr),
    /// Behind the first two arguments.
    Dlvalue3(Expr, Expr),
}

/// What a name before a parenthesis calls.
#[derive(Drop)]
pub enum Callee {
    /// COUNT, which has `*` in its parentheses.
    Count,
    Opens(Opening),
}

/// What waits for an operand or for a parenthesis.
#[derive(Drop)]
pub enum Frame {
    Opened(Opening),
    Negation,
    Sign,
    Infix(Op, Expr),
}
