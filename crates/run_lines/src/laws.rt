// What the lines of a script are read as. The function does nothing: it carries a law.
ghost use Rattle.std.specs.Prelude.{◌≡◌, List, ℕ};
ghost use Rattle.run_lines.specs.Reading.{Reads};
ghost use Rattle.meaning_script.specs.declared.kind.Line.{Line as Meant};

/// Each line is read as something, and as one thing.
pub fn one_reading()
    ensures some { (bytes : List ℕ) → (l : Meant) × Reads bytes l }
    ensures only { (bytes : List ℕ) (l m : Meant) → Reads bytes l → Reads bytes m → l ≡ m }
{
    sql_syntax::one_answer();
}
