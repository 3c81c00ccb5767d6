// INSERT, UPDATE and DELETE.
ghost use Rattle.std.specs.Prelude.{◌≡◌};
ghost use Rattle.sql_grammar.specs.Reading.{tuple_at, columns_at, insert_at, filter_at, assigned_at, update_at, delete_at};
ghost use Rattle.sql_precedence.specs.Results.{AnswersReading};

use crate::part::commas;
use dl_base::{Expr, List, Name, Stmt};
use sql_grammar::{Symbol, Terminal};
use sql_precedence::{Refused, expect, expression, name, stands};
use std::alloc::Global;

/// ( expr {, expr} )
#[tactic(auto, unfolding(sql_grammar::specs::Reading::tuple_at))]
pub fn tuple(
    alloc: Global,
    terminals: &[Terminal],
    at: usize,
) -> Result<(List<Expr>, usize), Refused>
    ensures { AnswersReading result (tuple_at terminals.now at) }
{
    let at = expect(terminals, at, Symbol::Open)?;
    let (values, at) = commas::<Expr>(alloc, terminals, at)?;
    let at = expect(terminals, at, Symbol::Close)?;
    Ok((values, at))
}

// [( name {, name} )]
#[tactic(auto, unfolding(sql_grammar::specs::Reading::columns_at))]
fn columns(
    alloc: Global,
    terminals: &[Terminal],
    at: usize,
) -> Result<(Option<List<Name>>, usize), Refused>
    ensures { AnswersReading result (columns_at terminals.now at) }
{
    if !stands(terminals, at, Symbol::Open) {
        return Ok((None, at));
    }
    let (names, at) = commas::<Name>(alloc, terminals, at + 1)?;
    let at = expect(terminals, at, Symbol::Close)?;
    Ok((Some(names), at))
}

/// INTO name [( name {, name} )] VALUES tuple {, tuple}
#[tactic(auto, unfolding(sql_grammar::specs::Reading::insert_at))]
pub fn insert(alloc: Global, terminals: &[Terminal], at: usize) -> Result<(Stmt, usize), Refused>
    ensures { AnswersReading result (insert_at terminals.now at) }
{
    let at = expect(terminals, at, Symbol::Into)?;
    let (table, at) = name(terminals, at)?;
    let (columns, at) = columns(alloc, terminals, at)?;
    let at = expect(terminals, at, Symbol::Values)?;
    let (tuples, at) = commas::<List<Expr>>(alloc, terminals, at)?;
    Ok((Stmt::Insert(table, columns, tuples), at))
}

/// [WHERE expr]
#[tactic(auto, unfolding(sql_grammar::specs::Reading::filter_at))]
pub fn filter(
    alloc: Global,
    terminals: &[Terminal],
    at: usize,
) -> Result<(Option<Expr>, usize), Refused>
    ensures { AnswersReading result (filter_at terminals.now at) }
{
    if !stands(terminals, at, Symbol::Where) {
        return Ok((None, at));
    }
    let (condition, at) = expression(alloc, terminals, at + 1)?;
    Ok((Some(condition), at))
}

/// name = expr
#[tactic(auto, unfolding(sql_grammar::specs::Reading::assigned_at))]
pub fn assigned(
    alloc: Global,
    terminals: &[Terminal],
    at: usize,
) -> Result<((Name, Expr), usize), Refused>
    ensures { AnswersReading result (assigned_at terminals.now at) }
{
    let (column, at) = name(terminals, at)?;
    let at = expect(terminals, at, Symbol::Equal)?;
    let (value, at) = expression(alloc, terminals, at)?;
    Ok(((column, value), at))
}

/// name SET name = expr {, name = expr} [WHERE expr]
#[tactic(auto, unfolding(sql_grammar::specs::Reading::update_at))]
pub fn update(alloc: Global, terminals: &[Terminal], at: usize) -> Result<(Stmt, usize), Refused>
    ensures { AnswersReading result (update_at terminals.now at) }
{
    let (table, at) = name(terminals, at)?;
    let at = expect(terminals, at, Symbol::Set)?;
    let (values, at) = commas::<(Name, Expr)>(alloc, terminals, at)?;
    let (condition, at) = filter(alloc, terminals, at)?;
    Ok((Stmt::Update(table, values, condition), at))
}

/// FROM name [WHERE expr]
#[tactic(auto, unfolding(sql_grammar::specs::Reading::delete_at))]
pub fn delete(alloc: Global, terminals: &[Terminal], at: usize) -> Result<(Stmt, usize), Refused>
    ensures { AnswersReading result (delete_at terminals.now at) }
{
    let at = expect(terminals, at, Symbol::From)?;
    let (table, at) = name(terminals, at)?;
    let (condition, at) = filter(alloc, terminals, at)?;
    Ok((Stmt::Delete(table, condition), at))
}
