// What touched rows, copies and handles promise. The functions do nothing: they carry laws.
ghost use Rattle.std.specs.Prelude.{◌≡◌, ◌↔◌, ◌==◌, ◌++◌, ◌∷◌, [], ℕ, List, Some, map, true};
ghost use Rattle.std.specs.Cmp.Lexicographic.{pointwise};
ghost use Rattle.std.specs.List.{IsDistinct};
ghost use Rattle.db_changes.specs.Handles.{handles};
ghost use Rattle.db_changes.specs.Touched.{Adds, AreCommitted, Covers, FollowsBase, Leaves, Touched};
ghost use Rattle.db_replay.specs.Changes.{all_at_version, applied};
ghost use Rattle.meaning_areas.specs.Same.{same_tables};
ghost use Rattle.meaning_merge.specs.Merging.{AreNamed, merge};
ghost use Rattle.meaning_tables.specs.Tables.{Rows, Tables, table_of, with_table, without_table};

/// A transaction that has only begun has touched nothing: its copy is its base.
pub fn nothing_touched_covers()
    ensures { (touched : Touched) (base : Tables) → Covers touched base base }
{}

/// What covers the differences of a copy covers them after a change that touches rows of one table, once their numbers are added;
/// and more numbers cover what fewer do.
pub fn touched_rows_cover_a_change()
    ensures changed { (touched more : Touched) (name numbers : List ℕ) (base before after : Tables) → Covers touched base before → Leaves name numbers before after → Adds name numbers touched more → Covers more base after }
    ensures more { (touched more : Touched) (name numbers : List ℕ) (base copy : Tables) → Covers touched base copy → Adds name numbers touched more → Covers more base copy }
{}

/// The handles of what a transaction made, put into the committed tables with the commit's number as version, make the merged
/// tables, where no name stands twice.
pub fn handles_lead_to_merged_tables()
    ensures named { (committed base copy : Tables) (c : ℕ) → AreNamed committed → AreNamed base → applied committed (all_at_version c (handles base copy)) ≡ merge committed base copy c }
    ensures distinct { (committed base copy : Tables) (c : ℕ) → IsDistinct (pointwise ◌==◌) (map (λ t. t.0) committed) → IsDistinct (pointwise ◌==◌) (map (λ t. t.0) base) → applied committed (all_at_version c (handles base copy)) ≡ merge committed base copy c }
{}

/// Committed tables are a copy of themselves, and a statement leaves a copy: it puts a table of the same version in the place of
/// one, or drops one, or adds one that was just made, of version 0.
pub fn a_copy_follows_its_base()
    ensures follows_itself { (base : Tables) → AreCommitted base → FollowsBase base base }
    ensures follows_after_put { (base copy : Tables) (name : List ℕ) (was now : Rows) → FollowsBase base copy → table_of copy name ≡ Some was → now.version ≡ was.version → FollowsBase base (with_table copy name now) }
    ensures follows_after_drop { (base copy : Tables) (name : List ℕ) → FollowsBase base copy → FollowsBase base (without_table copy name) }
    ensures follows_after_add { (base copy : Tables) (name : List ℕ) (now : Rows) → FollowsBase base copy → now.version ≡ 0 → FollowsBase base (copy ++ (name, now) ∷ []) }
{}

/// There is no handle exactly where a copy of committed tables is the same as they are, if no name stands twice among them.
pub fn no_handles_where_nothing_changed()
    ensures named { (base copy : Tables) → AreNamed base → FollowsBase base copy → (handles base copy ≡ []) ↔ (same_tables base copy ≡ true) }
    ensures distinct { (base copy : Tables) → IsDistinct (pointwise ◌==◌) (map (λ t. t.0) base) → FollowsBase base copy → (handles base copy ≡ []) ↔ (same_tables base copy ≡ true) }
{}
