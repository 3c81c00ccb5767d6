// The value of a tree at a row. Cells and constants are looked at where they stand.
ghost use Rattle.std.specs.Prelude.{◌≡◌, [], Err, IfOk, Ok};
ghost use Rattle.meaning_sql.specs.Conditions as conditions_meant;
ghost use Rattle.meaning_sql.specs.Datalinks as links_meant;
ghost use Rattle.meaning_sql.specs.Faults.{Computes, and_then};
ghost use Rattle.meaning_sql.specs.Operators as meant;
ghost use Rattle.meaning_sql.specs.Values.{cell};
ghost use Rattle.sql_expr.specs.Combining.{combined_row};
ghost use Rattle.sql_expr.specs.Seeing.{FollowsSeen, GathersSeen, IsTold};
ghost use Rattle.sql_expr.specs.Trees.{said, said_value};
ghost use Rattle.sql_operators.specs.Seeing.{seen};
ghost use Rattle.sql_operators.specs.Unary.{unary_value};

use crate::cells::{Cells, cell_at};
use crate::tree::Tree;
use dl_base::{Copied, Fold, Memory, Op, Options, Row, SqlFault, Value};
use meaning_sql::Context;
use sql_operators::{
    Ask, Seen, Unary, binary, counted, datalink, gather, is_true, left_side, made, of_no_rows,
    unary_value,
};
use std::alloc::Global;

/// The value at a place from 0 of a row; NULL past its end.
#[tactic(auto, unfolding(meaning_sql::specs::Values::cell))]
pub fn cell(row: &Row, place: usize) -> Result<Value, Memory>
    ensures { IfOk result (λ v. v ≡ cell row.now place) }
{
    match row.values.at(place) {
        Some(x) => x.copy(),
        None => Ok(Value::Null),
    }
}

/// The value of a tree at a row, to be kept; aggregates are over a group of rows.
pub(crate) fn tree_value(
    alloc: Global,
    tree: &Tree,
    row: &Row,
    context: &Context,
    group: &[Row],
) -> Result<Value, SqlFault>
    ensures { Computes (λ v. v) result (said_value context.entry.now group.now tree.now row.now) }
{
    let none = Cells::empty();
    let alone = none.extended(row);
    value_in(alloc, tree, &alone, context, group)
}

/// The same at a combined row.
pub(crate) fn value_in(
    alloc: Global,
    tree: &Tree,
    row: &Cells,
    context: &Context,
    group: &[Row],
) -> Result<Value, SqlFault>
    ensures { Computes (λ v. v) result (said_value context.entry.now group.now tree.now (combined_row row.now)) }
{
    match value_over(alloc, tree, row, context, group) {
        Ok(value) => Ok(value.into_value()?),
        Err(fault) => Err(fault),
    }
}

/// Whether the value of a tree at a row is true.
pub(crate) fn tree_holds(
    alloc: Global,
    tree: &Tree,
    row: &Row,
    context: &Context,
) -> Result<bool, SqlFault>
    ensures { Computes (λ b. b) result (and_then (said_value context.entry.now [] tree.now row.now) (λ v. Ok (conditions_meant.is_true v))) }
{
    let none = Cells::empty();
    let alone = none.extended(row);
    holds_in(alloc, tree, &alone, context)
}

/// The same at a combined row.
pub(crate) fn holds_in(
    alloc: Global,
    tree: &Tree,
    row: &Cells,
    context: &Context,
) -> Result<bool, SqlFault>
    ensures { Computes (λ b. b) result (and_then (said_value context.entry.now [] tree.now (combined_row row.now)) (λ v. Ok (conditions_meant.is_true v))) }
{
    match value_over(alloc, tree, row, context, &[]) {
        Ok(value) => {
            let holds = is_true(value.get());
            drop(value);
            Ok(holds)
        }
        Err(fault) => Err(fault),
    }
}

#[tactic(auto, unfolding(meaning_sql::specs::Operators::gathered))]
fn value_over<'a>(
    alloc: Global,
    tree: &'a Tree,
    row: &Cells<'a>,
    context: &Context,
    group: &'a [Row],
) -> Result<Seen<'a>, SqlFault>
    ensures { Computes seen result (said_value context.entry.now group.now tree.now (combined_row row.now)) }
{
    match tree {
        Tree::Constant(value) => Ok(Seen::There(value)),
        Tree::Cell(place, _) => Ok(cell_at(row, *place)),
        Tree::Nameless(fault) => Err(refused(fault)),
        Tree::Unary(op, inner) => {
            let operand = inner.get();
            let x = value_over(alloc, operand, row, context, group);
            unary(alloc, context, *op, under(operand), x)
        }
        Tree::Binary(op, left, right) => {
            match left_side(*op, value_over(alloc, left.get(), row, context, group)) {
                Ask::Refused(fault) => Err(fault),
                Ask::Decided(v) => Ok(Seen::Made(v)),
                Ask::Asks(x) => after(*op, x, value_over(alloc, right.get(), row, context, group)),
            }
        }
        Tree::CountAll => Ok(counted(group)),
        Tree::Aggregate(fold, inner) => {
            let mut so_far = of_no_rows();
            let none = Cells::empty();
            'rows: for one in group {
                let alone = none.extended(one);
                match next_of(
                    *fold,
                    so_far,
                    value_over(alloc, inner.get(), &alone, context, group),
                ) {
                    Err(fault) => return Err(fault),
                    Ok(more) => so_far = more,
                }
            }
            Ok(Seen::Made(so_far))
        }
        Tree::Dlvalue(location, linktype, comment) => {
            let x = value_over(alloc, location.get(), row, context, group);
            let y = value_over(alloc, linktype.get(), row, context, group);
            let z = value_over(alloc, comment.get(), row, context, group);
            link_of(alloc, context, x, y, z)
        }
    }
}

// A fault as it stands in a tree.
fn refused(fault: &SqlFault) -> SqlFault
    ensures { IsTold fault.now result }
{
    match fault {
        SqlFault::NoTable(name) => match name.copy() {
            Ok(name) => SqlFault::NoTable(name),
            Err(_) => SqlFault::Memory,
        },
        SqlFault::TableExists(name) => match name.copy() {
            Ok(name) => SqlFault::TableExists(name),
            Err(_) => SqlFault::Memory,
        },
        SqlFault::NoColumn(name) => match name.copy() {
            Ok(name) => SqlFault::NoColumn(name),
            Err(_) => SqlFault::Memory,
        },
        SqlFault::Ambiguous(name) => match name.copy() {
            Ok(name) => SqlFault::Ambiguous(name),
            Err(_) => SqlFault::Memory,
        },
        SqlFault::NullKey(name) => match name.copy() {
            Ok(name) => SqlFault::NullKey(name),
            Err(_) => SqlFault::Memory,
        },
        SqlFault::TooLong(name) => match name.copy() {
            Ok(name) => SqlFault::TooLong(name),
            Err(_) => SqlFault::Memory,
        },
        SqlFault::TypeFault => SqlFault::TypeFault,
        SqlFault::Arity => SqlFault::Arity,
        SqlFault::DupKey(number) => SqlFault::DupKey(*number),
        SqlFault::Overflow => SqlFault::Overflow,
        SqlFault::ZeroDivide => SqlFault::ZeroDivide,
        SqlFault::BadLink(why) => SqlFault::BadLink(*why),
        SqlFault::BadOptions => SqlFault::BadOptions,
        SqlFault::Limit(limit) => SqlFault::Limit(*limit),
        SqlFault::Memory => SqlFault::Memory,
    }
}

// What an operand gave is handed on whole, a refusal too: each of these takes the step of one operator on it.

fn unary<'a>(
    alloc: Global,
    context: &Context,
    op: Unary,
    under: Option<Options>,
    x: Result<Seen<'a>, SqlFault>,
) -> Result<Seen<'a>, SqlFault>
    ensures { FollowsSeen x.entry (unary_value context.entry.now under op) result }
{
    match x {
        Ok(x) => {
            let value = unary_value(alloc, context, op, under, x.get());
            drop(x);
            made(value)
        }
        Err(fault) => Err(fault),
    }
}

#[tactic(auto, using(crate::proofs::Refusals::of_binary))]
fn after<'a>(op: Op, x: Seen<'a>, y: Result<Seen<'a>, SqlFault>) -> Result<Seen<'a>, SqlFault>
    ensures value { FollowsSeen y.entry (λ b. meant.binary op (seen x.entry) (Ok b)) result }
    ensures memory { result ≡ Err SqlFault.Memory → y.entry ≡ Err SqlFault.Memory }
{
    match y {
        Ok(y) => {
            let value = binary(op, x.get(), y.get());
            drop(x);
            drop(y);
            made(value)
        }
        Err(fault) => {
            drop(x);
            Err(fault)
        }
    }
}

fn next_of(fold: Fold, x: Value, y: Result<Seen, SqlFault>) -> Result<Value, SqlFault>
    ensures { GathersSeen y.entry (meant.gather fold x) result }
{
    match y {
        Ok(y) => match y.into_value() {
            Ok(y) => gather(fold, x, y),
            Err(_) => {
                drop(x);
                Err(SqlFault::Memory)
            }
        },
        Err(fault) => {
            drop(x);
            Err(fault)
        }
    }
}

fn link_of<'a>(
    alloc: Global,
    context: &Context,
    x: Result<Seen<'a>, SqlFault>,
    y: Result<Seen<'a>, SqlFault>,
    z: Result<Seen<'a>, SqlFault>,
) -> Result<Seen<'a>, SqlFault>
    ensures { (a b c : _) → Computes seen x.entry a → Computes seen y.entry b → Computes seen z.entry c → Computes seen result (and_then a (λ p. and_then b (λ q. and_then c (links_meant.datalink context.entry.now.server p q)))) }
{
    match x {
        Ok(x) => match y {
            Ok(y) => linked(alloc, context, x, y, z),
            Err(fault) => {
                drop(x);
                drop(z);
                Err(fault)
            }
        },
        Err(fault) => {
            drop(y);
            drop(z);
            Err(fault)
        }
    }
}

fn linked<'a>(
    alloc: Global,
    context: &Context,
    x: Seen<'a>,
    y: Seen<'a>,
    z: Result<Seen<'a>, SqlFault>,
) -> Result<Seen<'a>, SqlFault>
    ensures { FollowsSeen z.entry (links_meant.datalink context.entry.now.server (seen x.entry) (seen y.entry)) result }
{
    match z {
        Ok(z) => {
            let link = datalink(alloc, &context.server, x.get(), y.get(), z.get());
            drop(x);
            drop(y);
            drop(z);
            made(link)
        }
        Err(fault) => {
            drop(x);
            drop(y);
            Err(fault)
        }
    }
}

// The options of the column that a tree is, if it is one under link control.
fn under(tree: &Tree) -> Option<Options>
    ensures { (context : _) (group : _) → result ≡ (said context group tree.now).under }
{
    match tree {
        Tree::Cell(_, options) => *options,
        Tree::Constant(_) => None,
        Tree::Nameless(_) => None,
        Tree::Unary(_, _) => None,
        Tree::Binary(_, _, _) => None,
        Tree::CountAll => None,
        Tree::Aggregate(_, _) => None,
        Tree::Dlvalue(_, _, _) => None,
    }
}
