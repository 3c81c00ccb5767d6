// What the pieces of a Finish are. The functions do nothing: they carry laws.
ghost use Rattle.std.specs.Prelude.{◌≡◌, true, false, Some};
ghost use Rattle.std.specs.List.{list_all};
ghost use Rattle.fm_effects.specs.Reading.{AgreeAt, is_no_put};
ghost use Rattle.meaning_areas.specs.Finishing.{batch_changes, copy_records};
ghost use Rattle.meaning_files.specs.Files.{with_changes};
ghost use Rattle.meaning_settling.specs.Settling.{Kept, Moved, settle_one};

use meaning_settling::settling_path_by_path;

/// Where no take is filled no change puts a file: a file goes, or has new owners.
pub fn a_batch_without_fill_puts_no_file()
    ensures { (m : Moved) (k : Kept) → m.fill ≡ false → list_all is_no_put (batch_changes m k) ≡ true }
{}

/// The changes of a transaction are taken, and make of the files what settling does.
pub fn a_batch_settles_the_files()
    ensures { (m : Moved) (k : Kept) → with_changes k.files (batch_changes m k) ≡ Some (settle_one m k).files }
{
    settling_path_by_path();
}

/// What a Finish changes and copies depends on the files at its transaction's paths and on the copies at its link numbers alone.
pub fn a_finish_reads_its_paths_and_numbers()
    ensures changes { (m : Moved) (k l : Kept) → AgreeAt m k l → batch_changes m k ≡ batch_changes m l }
    ensures copies { (m : Moved) (k l : Kept) → AgreeAt m k l → copy_records m k ≡ copy_records m l }
{
    settling_path_by_path();
}
