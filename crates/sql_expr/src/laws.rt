// What types and values have to do with one another. The function does nothing: it carries a law.
ghost use Rattle.std.specs.Prelude.{◌≡◌, List, Ok};
ghost use Rattle.std.specs.List.{All};
ghost use Rattle.dl_base.specs.declared.statement.Expr.{Expr as ExprOf};
ghost use Rattle.dl_base.specs.declared.value.Row.{Row as RowOf};
ghost use Rattle.meaning_sql.specs.declared.Context.{Context as ContextOf};
ghost use Rattle.meaning_sql.specs.declared.SqlType.{SqlType as TypeOf};
ghost use Rattle.meaning_sql.specs.declared.AggregateScope.{AggregateScope as StandingOf};
ghost use Rattle.meaning_sql.specs.Columns.{Columns as ColumnsOf};
ghost use Rattle.meaning_sql.specs.Fitting.{FitsColumns, IsTyped};
ghost use Rattle.meaning_sql.specs.Types.{type_of};
ghost use Rattle.meaning_sql.specs.Values.{meaning};

/// An expression that has a type, at a row that fits its columns and over a group of such rows, has a value that is NULL or of
/// that type, or is refused `Overflow`, `ZeroDivide` or `BadLink`.
pub fn values_are_of_the_type()
    ensures { (columns : ColumnsOf) (context : ContextOf) (group : List RowOf) (row : RowOf) (s : StandingOf) (e : ExprOf) (t : TypeOf) → type_of columns s e ≡ Ok t → FitsColumns columns row → All (FitsColumns columns) group → IsTyped t (meaning columns context group e row) }
{}
