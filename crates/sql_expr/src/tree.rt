// An expression whose columns are places: they are looked for once, and not at each row.
ghost use Rattle.std.specs.Prelude.{◌≡◌, IfOk};
ghost use Rattle.meaning_sql.specs.Columns as columns_meant;
ghost use Rattle.sql_expr.specs.Trees.{column_tree, tree_of};
ghost use Rattle.sql_expr.specs.declared.tree.Tree as trees;

use dl_base::{Boxed, Copied, Expr, Fold, Memory, Op, Options, Ref, SqlFault, Text, Value};
use meaning_sql::Columns;
use sql_operators::{Unary, kind_at, options_of, place_of};
use std::alloc::Global;

/// An expression whose columns are places.
#[derive(Drop)]
pub enum Tree {
    /// A number, a literal or NULL.
    Constant(Value),
    /// The cell at a place from 0, and the options of its column, if it is one under link control.
    Cell(usize, Option<Options>),
    /// A name that means no column or several: it is refused so wherever it is evaluated.
    Nameless(SqlFault),
    /// An operator of one operand.
    Unary(Unary, Boxed<Tree>),
    Binary(Op, Boxed<Tree>, Boxed<Tree>),
    /// COUNT(*).
    CountAll,
    Aggregate(Fold, Boxed<Tree>),
    /// DLVALUE of a location, a link type and a comment; one that is left out is NULL.
    Dlvalue(Boxed<Tree>, Boxed<Tree>, Boxed<Tree>),
}

/// The tree of an expression in these columns.
pub(crate) fn tree_of(alloc: Global, expr: &Expr, columns: &Columns) -> Result<Tree, Memory>
    ensures { IfOk result (λ t. t ≡ tree_of columns.now expr.now) }
{
    match expr {
        Expr::Number(z) => Ok(Tree::Constant(Value::Int(*z))),
        Expr::Literal(text) => literal_tree(text),
        Expr::Null => Ok(null_tree()),
        Expr::Column(column) => column_tree(columns, column),
        Expr::Not(inner) => unary_tree(alloc, Unary::Not, tree_of(alloc, inner.get(), columns)),
        Expr::Minus(inner) => unary_tree(alloc, Unary::Minus, tree_of(alloc, inner.get(), columns)),
        Expr::Binary(op, left, right) => {
            let left = tree_of(alloc, left.get(), columns);
            let right = tree_of(alloc, right.get(), columns);
            binary_tree(alloc, *op, left, right)
        }
        Expr::IsNull(inner, is) => {
            unary_tree(
                alloc,
                Unary::IsNull(*is),
                tree_of(alloc, inner.get(), columns),
            )
        }
        Expr::CountAll => Ok(Tree::CountAll),
        Expr::Aggregate(fold, inner) => {
            aggregate_tree(alloc, *fold, tree_of(alloc, inner.get(), columns))
        }
        Expr::Dlvalue1(location) => {
            let location = tree_of(alloc, location.get(), columns);
            link_tree(alloc, location, Ok(null_tree()), Ok(null_tree()))
        }
        Expr::Dlvalue2(location, linktype) => {
            let location = tree_of(alloc, location.get(), columns);
            let linktype = tree_of(alloc, linktype.get(), columns);
            link_tree(alloc, location, linktype, Ok(null_tree()))
        }
        Expr::Dlvalue3(location, linktype, comment) => {
            let location = tree_of(alloc, location.get(), columns);
            let linktype = tree_of(alloc, linktype.get(), columns);
            let comment = tree_of(alloc, comment.get(), columns);
            link_tree(alloc, location, linktype, comment)
        }
        Expr::Access(part, inner) => {
            unary_tree(
                alloc,
                Unary::Access(*part),
                tree_of(alloc, inner.get(), columns),
            )
        }
    }
}

fn literal_tree(text: &Text) -> Result<Tree, Memory>
    ensures { IfOk result (λ t. t ≡ trees.Constant (Value.Text text.now)) }
{
    match text.copy() {
        Ok(text) => Ok(Tree::Constant(Value::Text(text))),
        Err(memory) => Err(memory),
    }
}

// NULL, which an operand of DLVALUE that is left out is too.
fn null_tree() -> Tree
    ensures { result ≡ trees.Constant Value.Null }
{
    Tree::Constant(Value::Null)
}

// What an operand gave is handed on whole, want of memory too.

fn boxed(alloc: Global, tree: Result<Tree, Memory>) -> Result<Boxed<Tree>, Memory>
    ensures { (t : _) → IfOk tree (λ x. x ≡ t) → IfOk result (λ x. x ≡ t) }
{
    match tree {
        Ok(tree) => Ok(Boxed::new(alloc, tree)?),
        Err(memory) => Err(memory),
    }
}

fn unary_tree(alloc: Global, op: Unary, operand: Result<Tree, Memory>) -> Result<Tree, Memory>
    ensures { (t : _) → IfOk operand (λ x. x ≡ t) → IfOk result (λ x. x ≡ trees.Unary op t) }
{
    match boxed(alloc, operand) {
        Ok(operand) => Ok(Tree::Unary(op, operand)),
        Err(memory) => Err(memory),
    }
}

fn aggregate_tree(alloc: Global, fold: Fold, operand: Result<Tree, Memory>) -> Result<Tree, Memory>
    ensures { (t : _) → IfOk operand (λ x. x ≡ t) → IfOk result (λ x. x ≡ trees.Aggregate fold t) }
{
    match boxed(alloc, operand) {
        Ok(operand) => Ok(Tree::Aggregate(fold, operand)),
        Err(memory) => Err(memory),
    }
}

fn two_boxed(
    alloc: Global,
    left: Result<Tree, Memory>,
    right: Result<Tree, Memory>,
) -> Result<(Boxed<Tree>, Boxed<Tree>), Memory>
    ensures { (t : _) (u : _) → IfOk left (λ x. x ≡ t) → IfOk right (λ x. x ≡ u) → IfOk result (λ p. (p.0 ≡ t) × (p.1 ≡ u)) }
{
    match boxed(alloc, left) {
        Ok(left) => match boxed(alloc, right) {
            Ok(right) => Ok((left, right)),
            Err(memory) => {
                drop(left);
                Err(memory)
            }
        },
        Err(memory) => {
            drop(right);
            Err(memory)
        }
    }
}

fn binary_tree(
    alloc: Global,
    op: Op,
    left: Result<Tree, Memory>,
    right: Result<Tree, Memory>,
) -> Result<Tree, Memory>
    ensures { (t : _) (u : _) → IfOk left (λ x. x ≡ t) → IfOk right (λ x. x ≡ u) → IfOk result (λ x. x ≡ trees.Binary op t u) }
{
    match two_boxed(alloc, left, right) {
        Ok((left, right)) => Ok(Tree::Binary(op, left, right)),
        Err(memory) => Err(memory),
    }
}

fn link_tree(
    alloc: Global,
    location: Result<Tree, Memory>,
    linktype: Result<Tree, Memory>,
    comment: Result<Tree, Memory>,
) -> Result<Tree, Memory>
    ensures { (t : _) (u : _) (v : _) → IfOk location (λ x. x ≡ t) → IfOk linktype (λ x. x ≡ u) → IfOk comment (λ x. x ≡ v) → IfOk result (λ x. x ≡ trees.Dlvalue t u v) }
{
    match two_boxed(alloc, location, linktype) {
        Ok((location, linktype)) => match boxed(alloc, comment) {
            Ok(comment) => Ok(Tree::Dlvalue(location, linktype, comment)),
            Err(memory) => {
                drop(location);
                drop(linktype);
                Err(memory)
            }
        },
        Err(memory) => {
            drop(comment);
            Err(memory)
        }
    }
}

fn column_tree(columns: &Columns, column: &Ref) -> Result<Tree, Memory>
    ensures { IfOk result (λ t. t ≡ column_tree columns.now (columns_meant.place_of columns.now column.now)) }
{
    match place_of(columns, column) {
        Ok(place) => Ok(Tree::Cell(place, options_of(kind_at(columns, place)))),
        Err(SqlFault::Memory) => Err(Memory),
        Err(fault) => Ok(Tree::Nameless(fault)),
    }
}
