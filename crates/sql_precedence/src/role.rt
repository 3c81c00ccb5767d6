// What a symbol is to an expression.
ghost use Rattle.std.specs.Prelude.{◌≡◌};
ghost use Rattle.sql_grammar.specs.Cues.{cue_of};
ghost use Rattle.sql_grammar.specs.Levels.{level_of, left_of, right_of};
ghost use Rattle.sql_precedence.specs.Views.{cue_in};

use dl_base::Op;
use sql_grammar::Symbol;

/// What a symbol is to an expression.
#[derive(Clone, Copy)]
pub enum Role {
    Operator(Op),
    Not,
    Is,
    Null,
    Open,
    Close,
    Comma,
    Dot,
    /// It stands in no expression.
    Other,
}

pub fn role_of(symbol: Symbol) -> Role
    ensures { cue_of symbol ≡ cue_in symbol result }
{
    match symbol {
        Symbol::Or => Role::Operator(Op::Or),
        Symbol::And => Role::Operator(Op::And),
        Symbol::Equal => Role::Operator(Op::Eq),
        Symbol::Unequal => Role::Operator(Op::Ne),
        Symbol::Less => Role::Operator(Op::Lt),
        Symbol::LessEqual => Role::Operator(Op::Le),
        Symbol::Greater => Role::Operator(Op::Gt),
        Symbol::GreaterEqual => Role::Operator(Op::Ge),
        Symbol::Plus => Role::Operator(Op::Add),
        Symbol::Minus => Role::Operator(Op::Sub),
        Symbol::Star => Role::Operator(Op::Mul),
        Symbol::Slash => Role::Operator(Op::Div),
        Symbol::Not => Role::Not,
        Symbol::Is => Role::Is,
        Symbol::Null => Role::Null,
        Symbol::Open => Role::Open,
        Symbol::Close => Role::Close,
        Symbol::Comma => Role::Comma,
        Symbol::Dot => Role::Dot,
        Symbol::As
        | Symbol::Asc
        | Symbol::Begin
        | Symbol::Bigint
        | Symbol::By
        | Symbol::Commit
        | Symbol::Create
        | Symbol::Datalink => Role::Other,
        Symbol::Delete
        | Symbol::Desc
        | Symbol::Drop
        | Symbol::From
        | Symbol::Group
        | Symbol::Inner
        | Symbol::Insert => Role::Other,
        Symbol::Integer
        | Symbol::Into
        | Symbol::Join
        | Symbol::Key
        | Symbol::On
        | Symbol::Order
        | Symbol::Primary => Role::Other,
        Symbol::Rollback
        | Symbol::Select
        | Symbol::Set
        | Symbol::Table
        | Symbol::Update
        | Symbol::Values
        | Symbol::Varchar => Role::Other,
        Symbol::Where | Symbol::Semicolon => Role::Other,
    }
}

/// How tightly an operator binds.
pub fn level(op: Op) -> u8
    ensures { result ≡ level_of op }
{
    match op {
        Op::Or => 0,
        Op::And => 1,
        Op::Eq | Op::Ne | Op::Lt | Op::Le | Op::Gt | Op::Ge => 3,
        Op::Add | Op::Sub => 4,
        Op::Mul | Op::Div => 5,
    }
}

/// How tightly a left operand binds at least.
pub fn left(op: Op) -> u8
    ensures { result ≡ left_of op }
{
    match op {
        Op::Eq | Op::Ne | Op::Lt | Op::Le | Op::Gt | Op::Ge => 4,
        _ => level(op),
    }
}

/// How tightly a right operand binds at least.
pub fn right(op: Op) -> u8
    ensures { result ≡ right_of op }
{
    level(op) + 1
}
