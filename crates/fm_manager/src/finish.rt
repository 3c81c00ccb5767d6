// The Finish of a branch, in parts.
ghost use Rattle.std.specs.Prelude.{◌≡◌, ◌≤◌, ◌+◌, ◌++◌, ◌∷◌, [], OnOk, length};
ghost use Rattle.std.specs.Result.{result_err};
ghost use Rattle.dl_codec.specs.declared.links.BranchPhase.{BranchPhase as Phases};
ghost use Rattle.dl_codec.specs.declared.links.LinksRecord.TheVariants as links_records;
ghost use Rattle.fs_files.specs.Batch.{puts};
ghost use Rattle.meaning_areas.specs.Finishing.{batch_of, committed_record};
ghost use Rattle.meaning_areas.specs.Lists.{in_links};
ghost use Rattle.meaning_settling.specs.Settling.{Moved};
ghost use Rattle.fm_manager.specs.Managed.{AreOpen, FoldsTo, IsTakenBy, Manages, as_writes, kept_in};
ghost use Rattle.fm_manager.specs.Pieces.{CanFinish, HaveRoom, IsBatchOf, IsDoubtful, changes_in, copies_written, manager_part, marks_if, settling_part};

use crate::laws::calls_of_the_manager;
use crate::manager::Manager;
use crate::pieces::Pieces;
use dl_base::{AppendFault, Bench, List};
use dl_codec::BranchPhase;
use fm_archive::CopyMade;
use fs_files::FilesMade;

impl Manager {
    /// Writes those records of a Finish that are not there yet: the branch's Committed, the copies of what it gives, the changes of
    /// files, where there are some, and its Done. The errors are `Full(Area)` where an area has no room for the next record, and
    /// `Device`, after which the areas are to be opened again. It takes no memory.
    pub fn finish<B: Bench>(&mut self, bench: &mut B, pieces: Pieces) -> Result<(), AppendFault>
        requires ready { AreOpen self.old (B.outside bench.old) }
        requires fits { CanFinish self.old pieces }
        requires room { HaveRoom pieces self.old }
        ensures folds { OnOk result ((moved : Moved) (phase : Phases) → IsDoubtful self.old pieces.tx moved phase → FoldsTo self.old self.new (manager_part pieces.tx phase moved (kept_in self.old))) }
        ensures prepared { OnOk result (self.new.links.prepared ≡ self.old.links.prepared) }
        ensures copies { OnOk result (self.old.archive.spare ≤ self.new.archive.spare + length pieces.copies) }
        ensures files { OnOk result (self.old.files.spare ≤ self.new.files.spare + puts pieces.changes) }
        ensures does { (moved : Moved) (phase : Phases) → IsDoubtful self.old pieces.tx moved phase
            → Manages self.old self.new (as_writes (manager_part pieces.tx phase moved (kept_in self.old))) (result_err result) (B.outside bench.old) (B.outside bench.new) }
    {
        calls_of_the_manager::<B>();
        let Pieces {
            tx,
            copies,
            changes,
        } = pieces;
        match self.mark(bench, tx) {
            Ok(()) => self.settle(bench, tx, copies, changes),
            Err(fault) => {
                drop(copies);
                drop(changes);
                Err(fault)
            }
        }
    }

    // Writes the Committed of a branch, unless that is there.
    fn mark<B: Bench>(&mut self, bench: &mut B, tx: u64) -> Result<(), AppendFault>
        requires ready { AreOpen self.old (B.outside bench.old) }
        requires doubtful { (moved : Moved) × (phase : Phases) × IsDoubtful self.old tx moved phase }
        ensures folds { OnOk result ((moved : Moved) (phase : Phases) → IsDoubtful self.old tx moved phase → FoldsTo self.old self.new (committed_record tx phase)) }
        ensures same { OnOk result (self.new ≡ record self.old { links = self.new.links }) }
        ensures prepared { OnOk result (self.new.links.prepared ≡ self.old.links.prepared) }
        ensures does { (moved : Moved) (phase : Phases) → IsDoubtful self.old tx moved phase → Manages self.old self.new (as_writes (committed_record tx phase)) (result_err result) (B.outside bench.old) (B.outside bench.new) }
    {
        calls_of_the_manager::<B>();
        if !self.is_prepared(tx) {
            return Ok(());
        }
        self.branches.commit(bench, tx)
    }

    // Whether the branch of a transaction has no mark yet.
    fn is_prepared(&self, tx: u64) -> bool
        ensures { (moved : Moved) (phase : Phases) → IsDoubtful self.now tx moved phase → committed_record tx phase ≡ marks_if result tx }
    {
        match self.branches.branch(tx) {
            Some(branch) => matches!(branch.phase, BranchPhase::Prepared),
            None => false,
        }
    }

    // Writes what stands behind the mark.
    fn settle<B: Bench>(
        &mut self,
        bench: &mut B,
        tx: u64,
        copies: List<CopyMade>,
        changes: Option<FilesMade>,
    ) -> Result<(), AppendFault>
        requires ready { AreOpen self.old (B.outside bench.old) }
        requires batch { IsBatchOf tx changes }
        requires taken { IsTakenBy self.old (settling_part tx copies (changes_in changes)) }
        requires copies { length copies ≤ self.old.archive.spare }
        requires files { puts (changes_in changes) ≤ self.old.files.spare }
        ensures folds { OnOk result (FoldsTo self.old self.new (settling_part tx copies (changes_in changes))) }
        ensures prepared { OnOk result (self.new.links.prepared ≡ self.old.links.prepared) }
        ensures spare_copies { OnOk result (self.old.archive.spare ≤ self.new.archive.spare + length copies) }
        ensures spare_files { OnOk result (self.old.files.spare ≤ self.new.files.spare + puts (changes_in changes)) }
        ensures does { Manages self.old self.new (as_writes (settling_part tx copies (changes_in changes))) (result_err result) (B.outside bench.old) (B.outside bench.new) }
    {
        calls_of_the_manager::<B>();
        match self.store_all(bench, copies) {
            Ok(()) => self.end(bench, tx, changes),
            Err(fault) => {
                drop(changes);
                Err(fault)
            }
        }
    }

    // Stores copies, in order, up to the first for which its area has no room.
    fn store_all<B: Bench>(
        &mut self,
        bench: &mut B,
        copies: List<CopyMade>,
    ) -> Result<(), AppendFault>
        requires ready { AreOpen self.old (B.outside bench.old) }
        requires taken { IsTakenBy self.old (copies_written copies) }
        requires room { length copies ≤ self.old.archive.spare }
        ensures folds { OnOk result (FoldsTo self.old self.new (copies_written copies)) }
        ensures same { OnOk result (self.new ≡ record self.old { archive = self.new.archive }) }
        ensures spare { OnOk result (self.old.archive.spare ≤ self.new.archive.spare + length copies) }
        ensures does { Manages self.old self.new (as_writes (copies_written copies)) (result_err result) (B.outside bench.old) (B.outside bench.new) }
    {
        calls_of_the_manager::<B>();
        for copy in copies.into_vec() {
            match self.archive.store(bench, copy) {
                Ok(()) => {}
                Err(fault) => return Err(fault),
            }
        }
        Ok(())
    }

    // Writes the changes of files, where there are some, and the Done.
    fn end<B: Bench>(
        &mut self,
        bench: &mut B,
        tx: u64,
        changes: Option<FilesMade>,
    ) -> Result<(), AppendFault>
        requires ready { AreOpen self.old (B.outside bench.old) }
        requires batch { IsBatchOf tx changes }
        requires taken { IsTakenBy self.old (batch_of tx (changes_in changes) ++ in_links (links_records.Done tx) ∷ []) }
        requires room { puts (changes_in changes) ≤ self.old.files.spare }
        ensures folds { OnOk result (FoldsTo self.old self.new (batch_of tx (changes_in changes) ++ in_links (links_records.Done tx) ∷ [])) }
        ensures prepared { OnOk result (self.new.links.prepared ≡ self.old.links.prepared) }
        ensures archive { OnOk result (self.new.archive ≡ self.old.archive) }
        ensures spare { OnOk result (self.old.files.spare ≤ self.new.files.spare + puts (changes_in changes)) }
        ensures does { Manages self.old self.new (as_writes (batch_of tx (changes_in changes) ++ in_links (links_records.Done tx) ∷ [])) (result_err result) (B.outside bench.old) (B.outside bench.new) }
    {
        calls_of_the_manager::<B>();
        match self.change(bench, tx, changes) {
            Ok(()) => self.done(bench, tx),
            Err(fault) => Err(fault),
        }
    }

    // Writes the changes of files, where there are some.
    fn change<B: Bench>(
        &mut self,
        bench: &mut B,
        tx: u64,
        changes: Option<FilesMade>,
    ) -> Result<(), AppendFault>
        requires ready { AreOpen self.old (B.outside bench.old) }
        requires batch { IsBatchOf tx changes }
        requires taken { IsTakenBy self.old (batch_of tx (changes_in changes)) }
        requires room { puts (changes_in changes) ≤ self.old.files.spare }
        ensures folds { OnOk result (FoldsTo self.old self.new (batch_of tx (changes_in changes))) }
        ensures same { OnOk result (self.new ≡ record self.old { files = self.new.files }) }
        ensures spare { OnOk result (self.old.files.spare ≤ self.new.files.spare + puts (changes_in changes)) }
        ensures does { Manages self.old self.new (as_writes (batch_of tx (changes_in changes))) (result_err result) (B.outside bench.old) (B.outside bench.new) }
    {
        calls_of_the_manager::<B>();
        match changes {
            Some(made) => self.files.batch(bench, made),
            None => Ok(()),
        }
    }

    // Writes the Done of a branch that is Committed.
    fn done<B: Bench>(&mut self, bench: &mut B, tx: u64) -> Result<(), AppendFault>
        requires ready { AreOpen self.old (B.outside bench.old) }
        requires taken { IsTakenBy self.old (in_links (links_records.Done tx) ∷ []) }
        ensures folds { OnOk result (FoldsTo self.old self.new (in_links (links_records.Done tx) ∷ [])) }
        ensures same { OnOk result (self.new ≡ record self.old { links = self.new.links }) }
        ensures prepared { OnOk result (self.new.links.prepared ≡ self.old.links.prepared) }
        ensures does { Manages self.old self.new (as_writes (in_links (links_records.Done tx) ∷ [])) (result_err result) (B.outside bench.old) (B.outside bench.new) }
    {
        calls_of_the_manager::<B>();
        self.branches.done(bench, tx)
    }
}
