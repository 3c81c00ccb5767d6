// The manager: its three owners, and what it writes into one area.
ghost use Rattle.std.specs.Prelude.{◌≡◌, ◌≢◌, ◌≤◌, ◌+◌, ◌∷◌, ◌++◌, [], None, OnOk, OnErr, length};
ghost use Rattle.std.specs.Result.{result_err};
ghost use Rattle.dl_codec.specs.Files.{files_record};
ghost use Rattle.dl_codec.specs.declared.archive.ArchiveRecord.TheVariants as archive_records;
ghost use Rattle.dl_codec.specs.declared.files.FilesRecord.TheVariants as files_records;
ghost use Rattle.dl_codec.specs.declared.links.LinksRecord.TheVariants as links_records;
ghost use Rattle.dl_base.specs.declared.file.FileCmd as commands;
ghost use Rattle.fm_branch.specs.Linked.{reopened};
ghost use Rattle.fs_files.specs.Store.{IsWriting};
ghost use Rattle.meaning_areas.specs.Lists.{in_archive, in_links};
ghost use Rattle.meaning_files.specs.Commands.{changed, command_changes, refusal};
ghost use Rattle.fm_manager.specs.Managed.{AreOpen, FoldsTo, IsSpelled, IsTakenBy, Manages, ManagesStep, as_writes, command_writes};

use crate::laws::calls_of_the_manager;
use crate::pieces::Pieces;
use dl_base::{AppendFault, Bench, FileCmd, LinkRow, List, Memory, StepFault};
use dl_codec::Taken;
use fm_archive::{Archive, CopyMade};
use fm_branch::Branches;
use fs_files::Files;
use std::alloc::Global;
use std::marker::Model;

/// The file manager: the branches of transactions and the links that are held, the files, and the archived copies, each in memory and
/// in its area. Contracts see these three.
#[derive(Drop)]
pub struct Manager {
    pub(crate) alloc: Global,
    pub(crate) branches: Branches,
    pub(crate) files: Files,
    pub(crate) archive: Archive,
}

impl Model for Manager {
    ghost use Rattle.fm_manager.specs.Managed.{Managed, managed_code};

    ghost Value = { Managed };

    ghost coded = { managed_code };

    ghost view = { λ m. record { links = m.branches; files = m.files; archive = m.archive } };
}

impl Manager {
    /// The manager over its areas, which are open. It takes no memory.
    pub fn new(alloc: Global, branches: Branches, files: Files, archive: Archive) -> Manager
        ensures { result ≡ record { links = branches; files = files; archive = archive } }
    {
        Manager {
            alloc,
            branches,
            files,
            archive,
        }
    }

    /// The branches, and the links that are held.
    pub fn branches(&self) -> &Branches
        ensures { result.now ≡ self.now.links }
    {
        &self.branches
    }

    /// The files.
    pub fn files(&self) -> &Files
        ensures { result.now ≡ self.now.files }
    {
        &self.files
    }

    /// The archived copies.
    pub fn copies(&self) -> &Archive
        ensures { result.now ≡ self.now.archive }
    {
        &self.archive
    }

    /// Makes room for so many copies; want of memory leaves what room there was.
    pub fn make_room(&mut self, copies: u64) -> Result<(), Memory>
        ensures same { self.new ≡ record self.old { archive = record self.old.archive { spare = self.new.archive.spare } } }
        ensures room { OnOk result (copies ≤ self.new.archive.spare) }
        ensures spare { self.old.archive.spare ≤ self.new.archive.spare }
    {
        self.archive.make_room(copies)
    }

    /// Writes the next opening of Links: once after its areas were opened. The errors are those of `Branches::announce`. It takes no
    /// memory.
    pub fn announce<B: Bench>(&mut self, bench: &mut B) -> Result<(), AppendFault>
        requires { AreOpen self.old (B.outside bench.old) }
        ensures folds { OnOk result (FoldsTo self.old self.new (in_links (links_records.Opening (self.old.links.links.opening + 1)) ∷ [])) }
        ensures same { OnOk result (self.new ≡ record self.old { links = record self.old.links { links = reopened self.old.links.links; length = self.new.links.length } }) }
        ensures err { OnErr result (self.new ≡ self.old) }
        ensures does { Manages self.old self.new (as_writes (in_links (links_records.Opening (self.old.links.links.opening + 1)) ∷ [])) (result_err result) (B.outside bench.old) (B.outside bench.new) }
    {
        calls_of_the_manager::<B>();
        self.branches.announce(bench)
    }

    /// Writes the Prepared of a transaction that has none: it gives these links, which are held, and takes these, on paths that are
    /// free or given. It takes its memory before it writes. The errors are those of `Branches::prepare`.
    pub fn prepare<B: Bench>(
        &mut self,
        bench: &mut B,
        tx: u64,
        gives: List<LinkRow>,
        takes: List<Taken>,
    ) -> Result<(), StepFault>
        requires ready { AreOpen self.old (B.outside bench.old) }
        requires taken { IsTakenBy self.old (in_links (links_records.Prepared tx gives takes) ∷ []) }
        ensures folds { OnOk result (FoldsTo self.old self.new (in_links (links_records.Prepared tx gives takes) ∷ [])) }
        ensures same { OnOk result (self.new ≡ record self.old { links = self.new.links }) }
        ensures prepared { OnOk result (self.new.links.prepared ≡ self.old.links.prepared ++ tx ∷ []) }
        ensures err { OnErr result (self.new ≡ self.old) }
        ensures ends { ManagesStep self.old self.new (as_writes (in_links (links_records.Prepared tx gives takes) ∷ [])) (result_err result) (B.outside bench.old) (B.outside bench.new) }
        ensures spelled { result ≢ Err StepFault.Memory → IsSpelled (in_links (links_records.Prepared tx gives takes)) }
    {
        calls_of_the_manager::<B>();
        self.branches.prepare(bench, tx, gives, takes)
    }

    /// Writes the Aborted of a branch that is Prepared. The errors are those of `Branches::abort`. It takes no memory.
    pub fn abort<B: Bench>(&mut self, bench: &mut B, tx: u64) -> Result<(), AppendFault>
        requires ready { AreOpen self.old (B.outside bench.old) }
        requires taken { IsTakenBy self.old (in_links (links_records.Aborted tx) ∷ []) }
        ensures folds { OnOk result (FoldsTo self.old self.new (in_links (links_records.Aborted tx) ∷ [])) }
        ensures same { OnOk result (self.new ≡ record self.old { links = self.new.links }) }
        ensures prepared { OnOk result (self.new.links.prepared ≡ self.old.links.prepared) }
        ensures err { OnErr result (self.new ≡ self.old) }
        ensures does { Manages self.old self.new (as_writes (in_links (links_records.Aborted tx) ∷ [])) (result_err result) (B.outside bench.old) (B.outside bench.new) }
    {
        calls_of_the_manager::<B>();
        self.branches.abort(bench, tx)
    }

    /// Stores a copy of a link that has none, for which there has to be room. The errors are those of `Archive::store`. It takes no
    /// memory.
    pub fn store<B: Bench>(&mut self, bench: &mut B, copy: CopyMade) -> Result<(), AppendFault>
        requires ready { AreOpen self.old (B.outside bench.old) }
        requires room { 1 ≤ self.old.archive.spare }
        requires taken { IsTakenBy self.old (in_archive (archive_records.Copy copy) ∷ []) }
        ensures folds { OnOk result (FoldsTo self.old self.new (in_archive (archive_records.Copy copy) ∷ [])) }
        ensures same { OnOk result (self.new ≡ record self.old { archive = self.new.archive }) }
        ensures spare { OnOk result (self.old.archive.spare ≤ self.new.archive.spare + 1) }
        ensures err { OnErr result (self.new ≡ self.old) }
        ensures does { Manages self.old self.new (as_writes (in_archive (archive_records.Copy copy) ∷ [])) (result_err result) (B.outside bench.old) (B.outside bench.new) }
    {
        calls_of_the_manager::<B>();
        self.archive.store(bench, copy)
    }

    /// Does a command of a user that writes, which no refusal applies to. The errors are those of `Files::apply`.
    pub fn apply<B: Bench>(&mut self, bench: &mut B, cmd: FileCmd) -> Result<(), StepFault>
        requires ready { AreOpen self.old (B.outside bench.old) }
        requires accepted { refusal self.old.files.files cmd ≡ None }
        requires writing { IsWriting cmd.what }
        ensures files { OnOk result (self.new.files.files ≡ changed self.old.files.files cmd) }
        ensures same { OnOk result (self.new ≡ record self.old { files = self.new.files }) }
        ensures err { OnErr result (self.new ≡ record self.old { files = record self.old.files { spare = self.new.files.spare } }) }
        ensures ends { ManagesStep self.old self.new (command_writes self.old cmd) (result_err result) (B.outside bench.old) (B.outside bench.new) }
        ensures spelled { result ≢ Err StepFault.Memory → files_record.fits (files_records.Batch 0 (command_changes self.old.files.files cmd.user cmd.what)) }
    {
        calls_of_the_manager::<B>();
        self.files.apply(bench, cmd)
    }
}
