// What a merge promises. The functions do nothing: they carry laws.
ghost use Rattle.std.specs.Prelude.{◌≡◌, ◌≢◌, ℕ, ◌+◌, ◌/◌, ◌^◌, List, [], ◌∷◌, ◌++◌, Bool, true, false, length, Some, None, Ok};
ghost use Rattle.dl_base.specs.declared.column.Column as columns;
ghost use Rattle.dl_base.specs.declared.statement.Stmt as statements;
ghost use Rattle.dl_base.specs.declared.value.LinkRow as rows;
ghost use Rattle.dl_base.specs.declared.value.Row as values;
ghost use Rattle.dl_codec.specs.declared.rows.RowsRecord.TheVariants as records;
ghost use Rattle.meaning_areas.specs.Commits.{Commit, Commits, changed_rows, commit_of, commit_to, rows_step, tables_after, with_commit, with_table_changes};
ghost use Rattle.meaning_areas.specs.Copies.{Backup};
ghost use Rattle.meaning_areas.specs.Merges.{Merges};
ghost use Rattle.meaning_areas.specs.Stands.{IsWhole, past, stored_with};
ghost use Rattle.meaning_settling.specs.Settling.{Kept, held_by, on};
ghost use Rattle.meaning_tables.specs.Fits.{Fits};
ghost use Rattle.meaning_tables.specs.Links.{gives, lacking, same_number, takes};
ghost use Rattle.meaning_sql.specs.declared.Context as contexts;
ghost use Rattle.meaning_statements.specs.Changing.{Changed, change};
ghost use Rattle.meaning_tables.specs.Tables.{Rise, Tables, table_of};
ghost use Rattle.meaning_merge.specs.Claimed.{IsClaimed};
ghost use Rattle.meaning_merge.specs.History.{AreCurrent, IsHistory, IsTransaction, is_used, changed_by, is_among};
ghost use Rattle.meaning_merge.specs.Merging.{AreNamed, commit_changes, merge, merged_at, row_changes};
ghost use Rattle.meaning_merge.specs.Restoring.{restore_changes, restored_tables, without_lost};
ghost use Rattle.meaning_merge.specs.Touching.{In, OnePath, Touches};

use sql_invariants::changes_keep_tables_fitting;

/// What a merge leaves under a name is one function of the committed table of that name, the base's and the copy's: a table that
/// the transaction did not touch stays as it is committed, one that it dropped goes, and one that it changed or made is the copy's.
pub fn merging_table_by_table()
    ensures { (committed base copy : Tables) (c : ℕ) (name : List ℕ) → AreNamed committed → AreNamed copy
        → table_of (merge committed base copy c) name ≡ merged_at c (table_of committed name) (table_of base name) (table_of copy name) }
{}

/// A commit takes away and adds exactly the links that its transaction gives and takes, in the same order, where the touched
/// tables are the same on both sides.
pub fn a_commit_moves_what_its_transaction_moves()
    ensures { (base copy committed merged : Tables) → Touches base copy committed merged → (gives committed merged ≡ gives base copy) × (takes committed merged ≡ takes base copy) }
{}

/// The links after a commit, path by path: the one that is taken there, none where one is given, else the one before.
pub fn links_after_a_commit_path_by_path()
    ensures { (before after : List rows.LinkRow) (p : List ℕ) → OnePath before → OnePath after
        → ((x y : rows.LinkRow) → In x before → In y after → same_number x.link y.link ≡ true → x ≡ y) → ((x y : rows.LinkRow) → In x before → In y after → same_number y.link x.link ≡ true → x ≡ y)
        → on after p ≡ held_by (on (lacking before after) p) (on (lacking after before) p) (on before p) }
{}

/// The tables after each commit are a history. It begins without commits; a transaction begins on the last tables; each statement
/// keeps what holds of it, where the names are those of before and the one of the table that the statement changes, and so do one
/// that is refused and adds its names alone, and a commit of another transaction; and what is merged into the last tables without a conflict goes on with the history, as do
/// restored tables of the past, whatever links of theirs are lost.
pub fn a_history_goes_on()
    ensures begins { (first : ℕ) → IsHistory first [] }
    ensures begun { (first : ℕ) (cs : List Commit) (tx : ℕ) → IsHistory first cs → is_used first cs tx ≡ false → IsTransaction first cs tx (tables_after [] cs) (tables_after [] cs) [] 1 }
    ensures stated { (first : ℕ) (cs : List Commit) (base copy : Tables) (names more : List (List ℕ)) (next : ℕ) (stmt : statements.Stmt) (context : contexts.Context) (after : Changed)
        → IsTransaction first cs context.tx base copy names next → change copy stmt context next ≡ Ok after
        → ((name : List ℕ) → is_among more name ≡ false → (is_among names name ≡ false) × (is_among (changed_by stmt) name ≡ false))
        → IsTransaction first cs context.tx base after.tables more after.next }
    ensures named { (first : ℕ) (cs : List Commit) (tx : ℕ) (base copy : Tables) (names more : List (List ℕ)) (next : ℕ)
        → IsTransaction first cs tx base copy names next → ((name : List ℕ) → is_among more name ≡ false → is_among names name ≡ false) → IsTransaction first cs tx base copy more next }
    ensures apart { (first : ℕ) (cs : List Commit) (d : Commit) (tx : ℕ) (base copy : Tables) (names : List (List ℕ)) (next : ℕ)
        → IsTransaction first cs tx base copy names next → commit_of d.tx cs ≡ None → tx ≢ d.tx → IsTransaction first (cs ++ d ∷ []) tx base copy names next }
    ensures committed { (first : ℕ) (cs : List Commit) (tx : ℕ) (branch : Bool) (base copy : Tables) (names : List (List ℕ)) (next : ℕ)
        → IsHistory first cs → IsTransaction first cs tx base copy names next → AreCurrent base (tables_after [] cs) names
        → IsHistory first (cs ++ commit_to cs tx branch (merge (tables_after [] cs) base copy (length cs + 1)) ∷ []) }
    ensures restored { (first : ℕ) (cs : List Commit) (tx n : ℕ) (branch : Bool) (target : Tables) (lost : rows.LinkRow → Bool) → IsHistory first cs → past [] cs n ≡ Some target
        → IsHistory first (cs ++ commit_to cs tx branch (restored_tables (tables_after [] cs) (without_lost lost target) (length cs + 1)) ∷ []) }
{
    changes_keep_tables_fitting();
}

/// Where each named table has in the committed tables the version that it has in the base, the touched tables are the same in
/// both, and what the transaction made of them is what the merge leaves.
pub fn a_commit_without_conflict_touches_what_it_saw()
    ensures { (first : ℕ) (cs : List Commit) (tx : ℕ) (base copy : Tables) (names : List (List ℕ)) (next : ℕ)
        → IsHistory first cs → IsTransaction first cs tx base copy names next → AreCurrent base (tables_after [] cs) names
        → Touches base copy (tables_after [] cs) (merge (tables_after [] cs) base copy (length cs + 1)) }
{}

/// The changes that a record has of the rows of a table lead from the rows before to those after, and are taken: their numbers
/// rise, and all row numbers are below the next one.
pub fn changes_of_rows_lead_to_them()
    ensures { (version : ℕ) (columns : List columns.Column) (next before : ℕ) (was now : List (ℕ × values.Row)) → Rise 0 before was → Rise 0 next now
        → changed_rows (record { version = version; columns = columns; next = next; rows = was }) (row_changes was now) ≡ Some (record { version = version; columns = columns; next = next; rows = now }) }
{}

/// What a commit without a conflict owes to a whole stored part before it: its links come from those before by what its
/// transaction gives and takes, where the takes are on paths of their own and have files.
pub fn a_commit_without_conflict_merges()
    ensures { (first : ℕ) (cs : List Commit) (tx : ℕ) (base copy : Tables) (names : List (List ℕ)) (next : ℕ)
        → IsHistory first cs → IsTransaction first cs tx base copy names next → AreCurrent base (tables_after [] cs) names
        → (bs : List Backup) (rows_opening links_opening : ℕ) (k : Kept) → IsWhole (stored_with cs bs rows_opening links_opening k) → IsClaimed base copy (tables_after [] cs) k.files
        → Merges cs k (record { gives = gives base copy; takes = takes base copy; fill = false }) (merge (tables_after [] cs) base copy (length cs + 1)) }
{}

/// The changes that base and copy give lead from the committed tables to the merged ones, whose rows fit; so the fold of Rows
/// takes the record of a commit without a conflict.
pub fn changes_of_a_commit_lead_to_its_tables()
    ensures lead { (first : ℕ) (cs : List Commit) (tx : ℕ) (base copy : Tables) (names : List (List ℕ)) (next : ℕ)
        → IsHistory first cs → IsTransaction first cs tx base copy names next → AreCurrent base (tables_after [] cs) names
        → with_table_changes (length cs + 1) (tables_after [] cs) (commit_changes base copy) ≡ Some (merge (tables_after [] cs) base copy (length cs + 1)) }
    ensures fit { (first : ℕ) (cs : List Commit) (tx : ℕ) (base copy : Tables) (names : List (List ℕ)) (next : ℕ)
        → IsHistory first cs → IsTransaction first cs tx base copy names next → AreCurrent base (tables_after [] cs) names → Fits (merge (tables_after [] cs) base copy (length cs + 1)) }
    ensures taken { (first : ℕ) (r : Commits) (tx : ℕ) (branch : Bool) (base copy : Tables) (names : List (List ℕ)) (next : ℕ)
        → IsHistory first r.commits → IsTransaction first r.commits tx base copy names next → AreCurrent base (tables_after [] r.commits) names → tx / 2 ^ 32 ≡ r.opening
        → rows_step r (records.Commit tx (length r.commits + 1) branch (commit_changes base copy)) ≡ Some (with_commit r (commit_to r.commits tx branch (merge (tables_after [] r.commits) base copy (length r.commits + 1)))) }
{}

/// The changes that a restore writes lead from the committed tables to the restored ones, whose rows fit; so the fold of Rows takes
/// its record.
pub fn changes_of_a_restore_lead_to_its_tables()
    ensures lead { (first : ℕ) (cs : List Commit) (n : ℕ) (target : Tables) (lost : rows.LinkRow → Bool) → IsHistory first cs → past [] cs n ≡ Some target
        → with_table_changes (length cs + 1) (tables_after [] cs) (restore_changes (tables_after [] cs) (without_lost lost target)) ≡ Some (restored_tables (tables_after [] cs) (without_lost lost target) (length cs + 1)) }
    ensures taken { (first : ℕ) (r : Commits) (tx n : ℕ) (branch : Bool) (target : Tables) (lost : rows.LinkRow → Bool) → IsHistory first r.commits → past [] r.commits n ≡ Some target
        → commit_of tx r.commits ≡ None → tx / 2 ^ 32 ≡ r.opening
        → rows_step r (records.Commit tx (length r.commits + 1) branch (restore_changes (tables_after [] r.commits) (without_lost lost target)))
        ≡ Some (with_commit r (commit_to r.commits tx branch (restored_tables (tables_after [] r.commits) (without_lost lost target) (length r.commits + 1)))) }
{}
