// What an evaluation promises. The function does nothing: it carries a law.
ghost use Rattle.std.specs.Prelude.{◌≡◌, ℕ, true};
ghost use Rattle.dl_base.specs.declared.statement.Stmt.{Stmt as StmtOf};
ghost use Rattle.meaning_sql.specs.declared.Context.{Context as ContextOf};
ghost use Rattle.meaning_system.specs.Sql as machine;
ghost use Rattle.meaning_tables.specs.Tables.{Tables as TablesOf};
ghost use Rattle.sql_run.specs.Outcomes.{answer_of, evaluated};
ghost use Rattle.db_txn.specs.Transaction.{is_evaluated, is_refused};

/// An evaluation of a statement that is none of BEGIN, COMMIT and ROLLBACK is that of the one machine: its answer is that of the
/// outcome, it is refused where the outcome is a refusal, and it leads to the same tables and the same next link number.
pub fn an_evaluation_is_the_machines()
    ensures { (tables : TablesOf) (stmt : StmtOf) (context : ContextOf) (k : ℕ) → is_evaluated stmt ≡ true
        → machine.evaluated tables stmt context k ≡ record {
          answer = answer_of (evaluated tables stmt context k).outcome;
          refused = is_refused (evaluated tables stmt context k).outcome;
          tables = (evaluated tables stmt context k).tables;
          next = (evaluated tables stmt context k).next;
        } }
{}
