// A whole statement.
ghost use Rattle.std.specs.Prelude.{◌≡◌};
ghost use Rattle.sql_grammar.specs.Readers.{whole_at};
ghost use Rattle.sql_grammar.specs.Reading.{sentence_at, statement_at};
ghost use Rattle.sql_precedence.specs.Results.{AnswersReading};

use crate::changes::{delete, insert, update};
use crate::columns::{create, drop_table};
use crate::query::select;
use dl_base::Stmt;
use sql_grammar::{Symbol, Terminal};
use sql_precedence::{Refused, expect, stands};
use std::alloc::Global;

// A statement without `;`.
#[tactic(auto, unfolding(sql_grammar::specs::Reading::sentence_at))]
fn sentence(alloc: Global, terminals: &[Terminal], at: usize) -> Result<(Stmt, usize), Refused>
    ensures { AnswersReading result (sentence_at terminals.now at) }
{
    if stands(terminals, at, Symbol::Begin) {
        Ok((Stmt::Begin, at + 1))
    } else if stands(terminals, at, Symbol::Commit) {
        Ok((Stmt::Commit, at + 1))
    } else if stands(terminals, at, Symbol::Rollback) {
        Ok((Stmt::Rollback, at + 1))
    } else if stands(terminals, at, Symbol::Create) {
        create(alloc, terminals, at + 1)
    } else if stands(terminals, at, Symbol::Drop) {
        drop_table(terminals, at + 1)
    } else if stands(terminals, at, Symbol::Insert) {
        insert(alloc, terminals, at + 1)
    } else if stands(terminals, at, Symbol::Update) {
        update(alloc, terminals, at + 1)
    } else if stands(terminals, at, Symbol::Delete) {
        delete(alloc, terminals, at + 1)
    } else {
        let at = expect(terminals, at, Symbol::Select)?;
        select(alloc, terminals, at)
    }
}

// A statement with `;` or without.
#[tactic(auto, unfolding(sql_grammar::specs::Reading::statement_at))]
fn statement(alloc: Global, terminals: &[Terminal], at: usize) -> Result<(Stmt, usize), Refused>
    ensures { AnswersReading result (statement_at terminals.now at) }
{
    let (stmt, at) = sentence(alloc, terminals, at)?;
    if stands(terminals, at, Symbol::Semicolon) {
        Ok((stmt, at + 1))
    } else {
        Ok((stmt, at))
    }
}

/// The statement that all of the terminals are.
pub fn whole(alloc: Global, terminals: &[Terminal]) -> Result<Stmt, Refused>
    ensures { AnswersReading result (whole_at statement_at terminals.now) }
{
    let (stmt, at) = statement(alloc, terminals, 0)?;
    if at < terminals.len() {
        // Cheaper to prove than a statement that is let go without a word.
        drop(stmt);
        Err(Refused::Syntax(at))
    } else {
        Ok(stmt)
    }
}
