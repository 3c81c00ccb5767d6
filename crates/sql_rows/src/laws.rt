// What agreement beside numbers gives over several changes.
ghost use Rattle.std.specs.Prelude.{ℕ, List, ◌++◌};
ghost use Rattle.meaning_tables.specs.Tables.{Tables};
ghost use Rattle.sql_rows.specs.Beside.{AgreeBeside, AreAmong, StayBetween};

/// Tables that agree beside numbers agree beside more of them.
pub fn agreement_is_beside_more()
    ensures { (few more : List ℕ) (old new : Tables) → AreAmong few more → AgreeBeside few old new → AgreeBeside more old new }
{}

/// Two changes one after the other touch the numbers of both, in each table that is not dropped between them.
pub fn agreement_adds_up()
    ensures { (first second : List ℕ) (a b c : Tables) → StayBetween a b c → AgreeBeside first a b → AgreeBeside second b c → AgreeBeside (first ++ second) a c }
{}
