// Expressions with the places of their columns, and their values.
ghost use Rattle.std.specs.Prelude.{◌≡◌, [], IfOk};
ghost use Rattle.meaning_sql.specs.Conditions as meant;
ghost use Rattle.meaning_sql.specs.Faults.{Computes};
ghost use Rattle.meaning_sql.specs.Values.{meaning};
ghost use Rattle.sql_expr.specs.Binding.{bound_in};
ghost use Rattle.sql_expr.specs.Combining.{combined_row};

use crate::cells::Cells;
use crate::evaluation::{holds_in, tree_holds, tree_value, value_in};
use crate::tree::{Tree, tree_of};
use dl_base::{Expr, List, Memory, Row, SqlFault, Value};
use meaning_sql::{Columns, Context};
use std::alloc::Global;
use std::marker::Model;

/// An expression with the places of its columns in the columns of a statement: they are looked for once a statement, and not at each
/// row. Contracts see the columns and the expression.
#[derive(Drop)]
pub struct Bound<'a> {
    columns: &'a Columns,
    expr: &'a Expr,
    tree: Tree,
}

impl<'a> Model for Bound<'a> {
    ghost use Rattle.std.specs.Prelude.{◌≡◌};
    ghost use Rattle.sql_expr.specs.Binding.{Bound as Meant, bound_code, bound_in};

    ghost Value = { Meant };

    ghost coded = { bound_code };

    ghost use Rattle.sql_expr.specs.Trees.{tree_of};

    ghost view = { λ b. bound_in b.columns.now b.expr.now };

    ghost invariant = { λ b. b.tree ≡ tree_of b.columns.now b.expr.now };
}

impl<'a> Bound<'a> {
    /// An expression in columns. Nothing is refused here: a name that means none of them, or several, is refused where it is evaluated.
    /// Memory is taken for the places and for the literals.
    pub fn new(alloc: Global, expr: &'a Expr, columns: &'a Columns) -> Result<Bound<'a>, Memory>
        ensures { IfOk result (λ b. b ≡ bound_in columns.now expr.now) }
    {
        Ok(Bound {
            columns,
            expr,
            tree: tree_of(alloc, expr, columns)?,
        })
    }

    /// The expression.
    pub fn expr(&self) -> &Expr
        ensures { result.now ≡ self.now.expr }
    {
        self.expr
    }

    /// Its value at a row of its columns, as `value` gives it; aggregates are over no rows.
    pub fn value(&self, alloc: Global, row: &Row, context: &Context) -> Result<Value, SqlFault>
        ensures { Computes (λ v. v) result (meaning self.now.columns context.entry.now [] self.now.expr row.now) }
    {
        tree_value(alloc, &self.tree, row, context, &[])
    }

    /// Its value at a row, as `value`, its aggregates being over a group of rows of the same columns.
    pub fn evaluate(
        &self,
        alloc: Global,
        row: &Row,
        context: &Context,
        group: &List<Row>,
    ) -> Result<Value, SqlFault>
        ensures { Computes (λ v. v) result (meaning self.now.columns context.entry.now group.now self.now.expr row.now) }
    {
        tree_value(alloc, &self.tree, row, context, group.as_slice())
    }

    /// Whether it is true of a row; unknown is not true. The error is the first fault of its evaluation, or `Memory`.
    pub fn holds(&self, alloc: Global, row: &Row, context: &Context) -> Result<bool, SqlFault>
        ensures { Computes (λ b. b) result (meant.holds_one self.now.columns context.entry.now self.now.expr row.now) }
    {
        tree_holds(alloc, &self.tree, row, context)
    }

    /// Its value at a combined row, as `value` gives it. No cell is copied for it.
    pub fn value_in(&self, alloc: Global, row: &Cells, context: &Context) -> Result<Value, SqlFault>
        ensures { Computes (λ v. v) result (meaning self.now.columns context.entry.now [] self.now.expr (combined_row row.now)) }
    {
        value_in(alloc, &self.tree, row, context, &[])
    }

    /// Whether it is true of a combined row, as `holds` tells.
    pub fn holds_in(&self, alloc: Global, row: &Cells, context: &Context) -> Result<bool, SqlFault>
        ensures { Computes (λ b. b) result (meant.holds_one self.now.columns context.entry.now self.now.expr (combined_row row.now)) }
    {
        holds_in(alloc, &self.tree, row, context)
    }
}

/// The value of an expression at a row of these columns; aggregates are over no rows. A truth is 1 or 0, and unknown is NULL.
/// The first refusal from left to right is the answer. Where `check` gave a type, it is `Overflow`, `ZeroDivide`, `BadLink` or
/// `Memory`; else also `NoColumn` or `Ambiguous`, and a value of another type than an operator takes counts as NULL. An expression
/// that is evaluated at several rows is a `Bound`.
pub fn value(
    alloc: Global,
    expr: &Expr,
    row: &Row,
    columns: &Columns,
    context: &Context,
) -> Result<Value, SqlFault>
    ensures { Computes (λ v. v) result (meaning columns.now context.entry.now [] expr.now row.now) }
{
    match Bound::new(alloc, expr, columns) {
        Ok(bound) => {
            let value = bound.value(alloc, row, context);
            drop(bound);
            value
        }
        Err(Memory) => Err(SqlFault::Memory),
    }
}

/// The value of an expression at a row, as `value`, its aggregates being over a group of rows of the same columns.
pub fn evaluate(
    alloc: Global,
    expr: &Expr,
    row: &Row,
    columns: &Columns,
    context: &Context,
    group: &List<Row>,
) -> Result<Value, SqlFault>
    ensures { Computes (λ v. v) result (meaning columns.now context.entry.now group.now expr.now row.now) }
{
    match Bound::new(alloc, expr, columns) {
        Ok(bound) => {
            let value = bound.evaluate(alloc, row, context, group);
            drop(bound);
            value
        }
        Err(Memory) => Err(SqlFault::Memory),
    }
}
