use crate::{LinkWord, Symbol};
use dl_base::{Fold, Name, Part, Text};

/// A function, whose name is a name like others where no parenthesis follows it.
#[derive(Clone, Copy)]
pub enum Function {
    Count,
    Aggregate(Fold),
    Access(Part),
    Dlvalue,
}

/// What is printed in one piece. The grammar's words are printed in capitals, names as they are.
#[derive(Drop)]
pub enum PrintToken {
    Symbol(Symbol),
    Link(LinkWord),
    Function(Function),
    Name(Name),
    Number(i64),
    Literal(Text),
}
