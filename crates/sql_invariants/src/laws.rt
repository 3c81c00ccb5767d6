// What every change keeps of tables. The functions do nothing: they carry laws.
ghost use Rattle.std.specs.Prelude.{◌≡◌, ◌≢◌, ◌⊎◌, ◌≤◌, ℕ, [], All, Contains, Ok};
ghost use Rattle.dl_base.specs.declared.statement.Stmt.{Stmt as StmtOf};
ghost use Rattle.meaning_sql.specs.declared.Context.{Context as ContextOf};
ghost use Rattle.meaning_statements.specs.Changing.{Changed, change};
ghost use Rattle.meaning_tables.specs.Fits.{Fits, RowsFit};
ghost use Rattle.meaning_tables.specs.Links.{links};
ghost use Rattle.meaning_tables.specs.Tables.{Tables};
ghost use Rattle.sql_invariants.specs.Free.{IsDrawn, IsFree};
ghost use Rattle.sql_invariants.specs.Ordered.{AreOrdered};

use sql_expr::values_are_of_the_type;

/// Where the rows of tables fit their columns, and no cell has a link number of the statement's transaction with a count from
/// `k` on, what the statement makes of the tables fits too, and no cell of it has one with a count from the next one on.
pub fn changes_keep_tables_fitting()
    ensures { (tables : Tables) (stmt : StmtOf) (context : ContextOf) (k : ℕ) (after : Changed) → Fits tables → IsFree tables context.tx k → change tables stmt context k ≡ Ok after → Fits after.tables × (k ≤ after.next) × IsFree after.tables context.tx after.next }
{
    values_are_of_the_type();
}

/// Where the rows of each table fit its columns and their keys differ, they still do after the statement.
pub fn changes_keep_rows_fitting()
    ensures { (tables : Tables) (stmt : StmtOf) (context : ContextOf) (k : ℕ) (after : Changed) → RowsFit tables → change tables stmt context k ≡ Ok after → RowsFit after.tables }
{
    values_are_of_the_type();
}

/// A statement draws no link number of another transaction: those of which no cell had one, no cell has one afterwards.
pub fn changes_draw_only_their_own_numbers()
    ensures { (tables : Tables) (stmt : StmtOf) (context : ContextOf) (k : ℕ) (after : Changed) (tx first : ℕ) → change tables stmt context k ≡ Ok after → tx ≢ context.tx → IsFree tables tx first → IsFree after.tables tx first }
{}

/// Each link after a statement is one from before, of the same path and options, or has a number that the statement drew.
pub fn links_are_kept_or_drawn()
    ensures { (tables : Tables) (stmt : StmtOf) (context : ContextOf) (k : ℕ) (after : Changed) → change tables stmt context k ≡ Ok after → All (λ l. Contains (links tables) l ⊎ IsDrawn context.tx k after.next l.link) (links after.tables) }
{}

/// Tables stay under different names, and the numbers of their rows rise and are below the next one.
pub fn changes_keep_tables_ordered()
    ensures { (tables : Tables) (stmt : StmtOf) (context : ContextOf) (k : ℕ) (after : Changed) → AreOrdered tables → change tables stmt context k ≡ Ok after → AreOrdered after.tables }
{}

/// Where there are no tables, the laws begin: their rows fit, every link number is free, and they are in order.
pub fn no_tables_fit()
    ensures fit { Fits [] }
    ensures free { (tx k : ℕ) → IsFree [] tx k }
    ensures ordered { AreOrdered [] }
{}
