// What the grammar answers to texts. The function does nothing: it carries a law.
ghost use Rattle.std.specs.Prelude.{◌≡◌, ◌≢◌, List, ℕ, Result, Err};
ghost use Rattle.dl_base.specs.declared.statement.Stmt.{Stmt as Tree};
ghost use Rattle.sql_syntax.specs.declared.parser.ParseFault.{ParseFault as Fault};
ghost use Rattle.sql_syntax.specs.declared.parser.ParseFault.TheVariants as fault;
ghost use Rattle.sql_syntax.specs.Parsing.{Parses, Agrees};

/// The grammar answers each text, and in one way: it is one statement, or has one faulty place.
pub fn one_answer()
    ensures some { (text : List ℕ) → (r : Result Tree Fault) × Parses text r × (r ≢ Err fault.Memory) }
    ensures only { (text : List ℕ) (q r : Result Tree Fault) → Parses text q → Parses text r → Agrees q r }
{
    sql_lex::one_answer();
}
