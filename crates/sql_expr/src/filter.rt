// The condition of WHERE with the places of its columns.
ghost use Rattle.std.specs.Prelude.{◌≡◌, IfOk};
ghost use Rattle.std.specs.Option.{option_map};
ghost use Rattle.meaning_sql.specs.Conditions as meant;
ghost use Rattle.meaning_sql.specs.Faults.{Computes, option_list};
ghost use Rattle.sql_expr.specs.Binding.{filter_in};
ghost use Rattle.sql_expr.specs.Trees.{is_met, tree_of};

use crate::evaluation::tree_holds;
use crate::tree::{Tree, tree_of};
use dl_base::{Expr, Memory, Row, SqlFault};
use meaning_sql::{Columns, Context};
use std::alloc::Global;
use std::marker::Model;

/// The condition of WHERE, where there is one, with the places of its columns in the columns of a statement. Contracts see the columns
/// and the condition.
#[derive(Drop)]
pub struct Filter<'a> {
    columns: &'a Columns,
    condition: &'a Option<Expr>,
    tree: Option<Tree>,
}

impl<'a> Model for Filter<'a> {
    ghost use Rattle.std.specs.Prelude.{◌≡◌};
    ghost use Rattle.std.specs.Option.{option_map};
    ghost use Rattle.sql_expr.specs.Binding.{Filter as Meant, filter_code, filter_in};

    ghost Value = { Meant };

    ghost coded = { filter_code };

    ghost use Rattle.sql_expr.specs.Trees.{tree_of};

    ghost view = { λ f. filter_in f.columns.now f.condition.now };

    ghost invariant = { λ f. f.tree ≡ option_map (tree_of f.columns.now) f.condition.now };
}

impl<'a> Filter<'a> {
    /// A condition in columns, where there is one. Nothing is refused here, as with `Bound`, and memory is taken for the same.
    pub fn new(
        alloc: Global,
        condition: &'a Option<Expr>,
        columns: &'a Columns,
    ) -> Result<Filter<'a>, Memory>
        ensures { IfOk result (λ f. f ≡ filter_in columns.now condition.now) }
    {
        Ok(Filter {
            columns,
            condition,
            tree: option_tree(alloc, condition, columns)?,
        })
    }

    /// Whether it is true of a row of its columns, as `filter_holds` tells. No condition is true of each row.
    pub fn holds(&self, alloc: Global, row: &Row, context: &Context) -> Result<bool, SqlFault>
        ensures { Computes (λ b. b) result (meant.holds_all self.now.columns context.entry.now (option_list self.now.condition) row.now) }
    {
        is_met(alloc, &self.tree, row, context)
    }
}

fn option_tree(
    alloc: Global,
    condition: &Option<Expr>,
    columns: &Columns,
) -> Result<Option<Tree>, Memory>
    ensures { IfOk result (λ t. t ≡ option_map (tree_of columns.now) condition.now) }
{
    match condition {
        Some(condition) => Ok(Some(tree_of(alloc, condition, columns)?)),
        None => Ok(None),
    }
}

fn is_met(
    alloc: Global,
    tree: &Option<Tree>,
    row: &Row,
    context: &Context,
) -> Result<bool, SqlFault>
    ensures { Computes (λ b. b) result (is_met context.entry.now tree.now row.now) }
{
    match tree {
        Some(tree) => tree_holds(alloc, tree, row, context),
        None => Ok(true),
    }
}
