// The files that are open on a bench.
ghost use Rattle.std.specs.Prelude.{◌≡◌, ◌≢◌, ◌+◌, ◌<◌, ◌≤◌, ◌^◌, ℕ, List, [], ◌∷◌, ◌++◌, Some, None, Ok, Err, IsSome, IsErr, IfOk, OnOk, OnErr};
ghost use Rattle.std.specs.FinMap as map;
ghost use Rattle.std.specs.Option.{option_copied};
ghost use Rattle.std.specs.Result.{result_err};
ghost use Rattle.dl_areas.specs.Batch.{writes_in};
ghost use Rattle.dl_areas.specs.Opening.{IsOpened, OpensOne};
ghost use Rattle.dl_areas.specs.Writing.{DoesAlone, EndsAlone};
ghost use Rattle.dl_base.specs.Outside.{ChangesOnly, FaultCounted};
ghost use Rattle.dl_base.specs.declared.area.Area.TheVariants as areas;
ghost use Rattle.dl_base.specs.declared.fault.Full.{Full};
ghost use Rattle.dl_codec.specs.Files.{files_record};
ghost use Rattle.dl_codec.specs.declared.files.FilesRecord.TheVariants as records;
ghost use Rattle.dl_journal.specs.Open.{IsList, IsOpen, IsOpening, IsUnwritten, ReadsSameList};
ghost use Rattle.fs_files.specs.Batch.{batch_record, batch_write, puts};
ghost use Rattle.fs_files.specs.Store.{Holds, IsReady, IsWriting, StandsWithout, StandsAround, extent, record_of, full_with, IsFullWith};
ghost use Rattle.meaning_areas.specs.FilesArea.{files_in, files_of, files_step, writes};
ghost use Rattle.meaning_files.specs.Commands.{needs_file, if_forbidden, not_owner, read_only, if_exists, too_many, refusal_of, refusal, new_file, put, command_changes, changed, rows_of};
ghost use Rattle.meaning_files.specs.Files.{with_changes};

use crate::fold::{fold, make_batch};
use crate::made::{FilesMade, make, puts};
use crate::table::FileTable;
use crate::write::write;
use dl_areas::steps_end_so;
use dl_base::limits::MOST_FILES;
use dl_base::{
    AppendFault, Area, BeginFault, Bench, Copied, File, FileChange, FileCmd, FileRefusal, FileRow,
    FileWhat, Limit, LinkNo, List, Memory, Name, Owner, Path, StepFault, Text, Why,
};
use dl_journal::Journal;
use std::alloc::Global;
use std::marker::Model;

/// The files, in memory and in the area Files. Contracts see the files in the order of the paths' bytes, for how many
/// more there is room, how many bytes the area's records and closing gate are, and how many they may be.
#[derive(Drop)]
pub struct Files {
    alloc: Global,
    journal: Journal,
    table: FileTable,
}

impl Model for Files {
    ghost use Rattle.std.specs.Prelude.{◌≡◌};
    ghost use Rattle.dl_base.specs.declared.area.Area.TheVariants as areas;
    ghost use Rattle.fs_files.specs.Store.{Catalog, catalog_code};

    ghost Value = { Catalog };

    ghost coded = { catalog_code };

    ghost view = { λ f. record { files = f.table.files; spare = f.table.spare; length = f.journal.length; limit = f.journal.limit } };

    ghost invariant = { λ f. f.journal.area ≡ areas.Files };
}

impl Files {
    /// Opens the area Files. The limit is the most bytes that its records and closing gate may be.
    /// `NotAJournal` has the place, from 0, of the gate of the first record that is none, or that has a change of a
    /// file that is not there; then nothing was written.
    pub fn begin<B: Bench>(alloc: Global, bench: &mut B, limit: u64) -> Result<Files, BeginFault>
        requires low { 1 ≤ limit }
        requires high { limit ≤ 2 ^ 63 }

        // The files are those that the area's list stands for, and that each crash leaves.
        ensures opened { IfOk result (λ f. (bodies : List (List ℕ)) × IsOpened areas.Files limit (extent f) bodies (B.outside bench.old) (B.outside bench.new) × (files_of bodies ≡ Ok f.files)) }

        // However it ends, the area reads as the list that it was, and a crash leaves an image of before or that list.
        ensures opens { OpensOne areas.Files (B.outside bench.old) (B.outside bench.new) }

        // The same of the one area, clause by clause.
        ensures holds { IfOk result (λ f. (bodies : List (List ℕ)) × IsList bodies ((B.outside bench.old).reads areas.Files) × Holds f bodies (B.outside bench.new)) }
        ensures ready { IfOk result (λ f. IsReady f (B.outside bench.new)) }
        ensures limit { IfOk result (λ f. f.limit ≡ limit) }
        ensures same_list { ReadsSameList ((B.outside bench.old).reads areas.Files) ((B.outside bench.new).reads areas.Files) }
        ensures images { ChangesOnly areas.Files (IsOpening areas.Files (B.outside bench.old)) (B.outside bench.old) (B.outside bench.new) }

        ensures no_files { (place : ℕ) → result ≡ Err (BeginFault.NotAJournal place) → (told : List ℕ) → (B.outside bench.old).reads areas.Files ≡ Some told → files_in told ≡ Err place }
        ensures untouched { (place : ℕ) → result ≡ Err (BeginFault.NotAJournal place) → IsUnwritten areas.Files (B.outside bench.old) (B.outside bench.new) }
        ensures memory { result ≡ Err BeginFault.Memory → IsUnwritten areas.Files (B.outside bench.old) (B.outside bench.new) }
        ensures device { result ≡ Err BeginFault.Device → FaultCounted (B.outside bench.old) (B.outside bench.new) }
    {
        let (journal, bodies) = Journal::begin(alloc, bench, Area::Files, limit)?;
        let table = fold(alloc, &bodies)?;
        Ok(opened(alloc, journal, table))
    }

    /// The file at a path. It takes no memory.
    pub fn look(&self, path: &Path) -> Option<&File>
        ensures { option_copied result ≡ map.get self.now.files path.now }
    {
        self.table.get(path)
    }

    /// All files, in the order of the paths' bytes.
    pub fn list(&self) -> Result<List<FileRow>, Memory>
        ensures { IfOk result (λ rows. rows ≡ rows_of self.now.files) }
    {
        self.table.list(self.alloc)
    }

    /// How many bytes the records and the closing gate of its area are. It takes no memory.
    pub fn length(&self) -> u64
        ensures { result ≡ self.now.length }
    {
        self.journal.length()
    }

    /// Why a command is refused, if it is, where this link of its path forbids it, if one does.
    pub fn test(
        &self,
        cmd: &FileCmd,
        forbidden: Option<(LinkNo, Why)>,
    ) -> Result<Option<FileRefusal>, Memory>
        ensures value { IfOk result (λ why. why ≡ refusal_of self.now.files forbidden cmd.now.user cmd.now.what) }

        // It takes memory only for what a refusal says.
        ensures accepted { refusal_of self.now.files forbidden cmd.now.user cmd.now.what ≡ None → result ≡ Ok None }
    {
        match &cmd.what {
            FileWhat::Create(path, _) => self.test_create(path),
            FileWhat::Write(path, _) => self.test_write(&cmd.user, path, forbidden),
            FileWhat::Delete(path) => self.test_owner(&cmd.user, path, forbidden),
            FileWhat::Rename(path, to) => self.test_rename(&cmd.user, path, to, forbidden),
            FileWhat::Chmod(path, _) => self.test_owner(&cmd.user, path, forbidden),
            FileWhat::Read(path, _) => self.test_read(path, forbidden),
            FileWhat::List => Ok(None),
        }
    }

    fn test_create(&self, path: &Path) -> Result<Option<FileRefusal>, Memory>
        ensures value { IfOk result (λ why. why ≡ if_exists path.now (map.get self.now.files path.now) (too_many (map.len self.now.files))) }
        ensures accepted { if_exists path.now (map.get self.now.files path.now) (too_many (map.len self.now.files)) ≡ None → result ≡ Ok None }
    {
        match self.table.get(path) {
            Some(_) => Ok(Some(FileRefusal::Exists(path.copy()?))),
            None => {
                if self.table.len() < MOST_FILES {
                    Ok(None)
                } else {
                    Ok(Some(FileRefusal::Limit(Limit::Files)))
                }
            }
        }
    }

    fn test_write(
        &self,
        user: &Name,
        path: &Path,
        forbidden: Option<(LinkNo, Why)>,
    ) -> Result<Option<FileRefusal>, Memory>
        ensures value { IfOk result (λ why. why ≡ needs_file path.now (map.get self.now.files path.now) (λ file. if_forbidden path.now forbidden (not_owner user.now path.now file (read_only path.now file)))) }
        ensures accepted { needs_file path.now (map.get self.now.files path.now) (λ file. if_forbidden path.now forbidden (not_owner user.now path.now file (read_only path.now file))) ≡ None → result ≡ Ok None }
    {
        match self.table.get(path) {
            Some(file) => match test_file(user, path, file, forbidden)? {
                Some(why) => Ok(Some(why)),
                None => test_flag(path, file),
            },
            None => Ok(Some(FileRefusal::NoFile(path.copy()?))),
        }
    }

    // Of a command that asks for no more than an owner.
    fn test_owner(
        &self,
        user: &Name,
        path: &Path,
        forbidden: Option<(LinkNo, Why)>,
    ) -> Result<Option<FileRefusal>, Memory>
        ensures value { IfOk result (λ why. why ≡ needs_file path.now (map.get self.now.files path.now) (λ file. if_forbidden path.now forbidden (not_owner user.now path.now file None))) }
        ensures accepted { needs_file path.now (map.get self.now.files path.now) (λ file. if_forbidden path.now forbidden (not_owner user.now path.now file None)) ≡ None → result ≡ Ok None }
    {
        match self.table.get(path) {
            Some(file) => test_file(user, path, file, forbidden),
            None => Ok(Some(FileRefusal::NoFile(path.copy()?))),
        }
    }

    fn test_rename(
        &self,
        user: &Name,
        path: &Path,
        to: &Path,
        forbidden: Option<(LinkNo, Why)>,
    ) -> Result<Option<FileRefusal>, Memory>
        ensures value { IfOk result (λ why. why ≡ needs_file path.now (map.get self.now.files path.now) (λ file. if_forbidden path.now forbidden (not_owner user.now path.now file (if_exists to.now (map.get self.now.files to.now) None)))) }
        ensures accepted { needs_file path.now (map.get self.now.files path.now) (λ file. if_forbidden path.now forbidden (not_owner user.now path.now file (if_exists to.now (map.get self.now.files to.now) None))) ≡ None → result ≡ Ok None }
    {
        match self.table.get(path) {
            Some(file) => match test_file(user, path, file, forbidden)? {
                Some(why) => Ok(Some(why)),
                None => self.test_free(to),
            },
            None => Ok(Some(FileRefusal::NoFile(path.copy()?))),
        }
    }

    // Of a new path.
    fn test_free(&self, to: &Path) -> Result<Option<FileRefusal>, Memory>
        ensures value { IfOk result (λ why. why ≡ if_exists to.now (map.get self.now.files to.now) None) }
        ensures accepted { if_exists to.now (map.get self.now.files to.now) None ≡ None → result ≡ Ok None }
    {
        match self.table.get(to) {
            Some(_) => Ok(Some(FileRefusal::Exists(to.copy()?))),
            None => Ok(None),
        }
    }

    fn test_read(
        &self,
        path: &Path,
        forbidden: Option<(LinkNo, Why)>,
    ) -> Result<Option<FileRefusal>, Memory>
        ensures value { IfOk result (λ why. why ≡ needs_file path.now (map.get self.now.files path.now) (λ file. if_forbidden path.now forbidden None)) }
        ensures accepted { needs_file path.now (map.get self.now.files path.now) (λ file. if_forbidden path.now forbidden None) ≡ None → result ≡ Ok None }
    {
        match self.table.get(path) {
            Some(_) => test_link(path, forbidden),
            None => Ok(Some(FileRefusal::NoFile(path.copy()?))),
        }
    }

    /// Does a command that writes, which no refusal applies to: one record, and then the files in memory.
    /// `Memory` is answered before any write.
    pub fn apply<B: Bench>(&mut self, bench: &mut B, cmd: FileCmd) -> Result<(), StepFault>
        requires ready { IsReady self.old (B.outside bench.old) }
        requires accepted { refusal self.old.files cmd ≡ None }
        requires writing { IsWriting cmd.what }
        ensures files { OnOk result (self.new.files ≡ changed self.old.files cmd) }

        // After it, each crash leaves the list with the command's record at its end.
        ensures kept { OnOk result ((bodies : List (List ℕ)) → Holds self.old bodies (B.outside bench.old) → Holds self.new (bodies ++ writes self.old.files cmd) (B.outside bench.new)) }
        ensures ready { OnOk result (IsReady self.new (B.outside bench.new)) }

        // A crash at any moment of the call leaves the list with the record or without.
        ensures images { ChangesOnly areas.Files (StandsAround self.old cmd (B.outside bench.old)) (B.outside bench.old) (B.outside bench.new) }

        // The same of five areas: it writes that one record, and takes its memory before it writes.
        ensures ends { EndsAlone (extent self.old) (extent self.new) (writes_in areas.Files (writes self.old.files cmd)) (result_err result) (B.outside bench.old) (B.outside bench.new) }

        // What it writes has a spelling, so it is read as what it was.
        ensures spelled { result ≢ Err StepFault.Memory → files_record.fits (records.Batch 0 (command_changes self.old.files cmd.user cmd.what)) }

        ensures limit { self.new.limit ≡ self.old.limit }

        // After an error there may be room for more files.
        ensures err { OnErr result (self.new ≡ record self.old { spare = self.new.spare }) }
        ensures memory { result ≡ Err StepFault.Memory → bench.new ≡ bench.old }

        // It is full only where the record would pass the limit. Then nothing is written.
        ensures full { (full : Full) → result ≡ Err (StepFault.Full full) → (full ≡ full_with self.old (record_of self.old.files cmd)) × IsFullWith self.old (record_of self.old.files cmd) }
        ensures unwritten { IsFullWith self.old (record_of self.old.files cmd) → (bench.new ≡ bench.old) × IsErr result }
        ensures device { result ≡ Err StepFault.Device → FaultCounted (B.outside bench.old) (B.outside bench.new) }
    {
        steps_end_so::<B>();
        let changes = self.changes(cmd)?;
        let made = self.made(0, changes)?;
        made.is_spelled();
        match self.batch(bench, made) {
            Ok(()) => Ok(()),
            Err(fault) => Err(StepFault::from(fault)),
        }
    }

    /// A batch of changes, of this transaction or, with 0, of a user's command. It makes room for the files that they put. The error
    /// is want of memory, and changes nothing but that there may be more room; it is also answered where no record can have the
    /// changes, as 2^32 of them. It costs the record's bytes, and, over many batches, a few steps for each file that is put; a single
    /// call may take a step for each file that there is, where the room has to grow.
    pub fn made(&mut self, tx: u64, changes: List<FileChange>) -> Result<FilesMade, Memory>
        ensures value { IfOk result (λ made. made ≡ record { tx = tx; changes = changes }) }
        ensures same { self.new ≡ record self.old { spare = self.new.spare } }
        ensures room { OnOk result (puts changes ≤ self.new.spare) }
        ensures spare { self.old.spare ≤ self.new.spare }
    {
        self.table.make_room(puts(&changes))?;
        make(self.alloc, tx, changes)
    }

    /// Writes a batch, and then makes its changes in memory. There has to be room for the files that it puts, and what it removes or
    /// gives new owners has to be there. The errors are `Full(Area)` where the area has no room for the record, and `Device`, after
    /// which the area is to be opened again. It takes no memory, and costs a look-up a change, and the record's bytes.
    pub fn batch<B: Bench>(&mut self, bench: &mut B, made: FilesMade) -> Result<(), AppendFault>
        requires ready { IsOpen (extent self.old) (B.outside bench.old) }
        requires room { puts made.changes ≤ self.old.spare }
        requires taken { IsSome (with_changes self.old.files made.changes) }
        ensures files { OnOk result (with_changes self.old.files made.changes ≡ Some self.new.files) }
        ensures spare { OnOk result (self.old.spare ≤ self.new.spare + puts made.changes) }
        ensures limit { self.new.limit ≡ self.old.limit }
        ensures err { OnErr result (self.new ≡ self.old) }
        ensures does { DoesAlone (extent self.old) (extent self.new) (batch_write made ∷ []) (result_err result) (B.outside bench.old) (B.outside bench.new) }

        // The fold makes of its record what the changes make of the files.
        ensures folds { files_step self.old.files (batch_record made) ≡ with_changes self.old.files made.changes }

        // The same of the one area, whatever the others have.
        ensures kept { OnOk result ((bodies : List (List ℕ)) → Holds self.old bodies (B.outside bench.old) → Holds self.new (bodies ++ batch_record made ∷ []) (B.outside bench.new)) }
        ensures images { ChangesOnly areas.Files (StandsWithout self.old made (B.outside bench.old)) (B.outside bench.old) (B.outside bench.new) }
        ensures unwritten { IsFullWith self.old (batch_record made) → bench.new ≡ bench.old }
    {
        let (changes, body) = made.parts();
        match write(&mut self.journal, bench, body.as_slice()) {
            Ok(()) => {
                make_batch(&mut self.table, changes);
                Ok(())
            }
            Err(fault) => Err(fault),
        }
    }

    // The changes of a command.
    fn changes(&self, cmd: FileCmd) -> Result<List<FileChange>, Memory>
        ensures { IfOk result (λ made. made ≡ command_changes self.now.files cmd.user cmd.what) }
    {
        let FileCmd { user, what } = cmd;
        match what {
            FileWhat::Create(path, bytes) => one(self.alloc, created(user, path, bytes)),
            FileWhat::Write(path, bytes) => self.written(path, bytes),
            FileWhat::Delete(path) => one(self.alloc, FileChange::Removed(path)),
            FileWhat::Rename(path, to) => self.renamed(path, to),
            FileWhat::Chmod(path, on) => self.owned(path, on),
            FileWhat::Read(_, _) | FileWhat::List => Ok(List::empty(self.alloc)),
        }
    }

    fn written(&self, path: Path, bytes: Text) -> Result<List<FileChange>, Memory>
        ensures { IfOk result (λ made. made ≡ command_changes self.now.files [] (FileWhat.Write path bytes)) }
    {
        match self.table.get(&path) {
            Some(file) => {
                let (owner, before) = owners(file)?;
                let file = File {
                    owner,
                    bytes,
                    before,
                };
                one(self.alloc, FileChange::Put(FileRow { path, file }))
            }
            None => Ok(List::empty(self.alloc)),
        }
    }

    // The file goes whole to its new path.
    fn renamed(&self, path: Path, to: Path) -> Result<List<FileChange>, Memory>
        ensures { IfOk result (λ made. made ≡ command_changes self.now.files [] (FileWhat.Rename path to)) }
    {
        match self.table.get(&path) {
            Some(file) => {
                let row = FileRow {
                    file: file.copy()?,
                    path: to,
                };
                two(self.alloc, FileChange::Removed(path), FileChange::Put(row))
            }
            None => Ok(List::empty(self.alloc)),
        }
    }

    fn owned(&self, path: Path, on: bool) -> Result<List<FileChange>, Memory>
        ensures { IfOk result (λ made. made ≡ command_changes self.now.files [] (FileWhat.Chmod path on)) }
    {
        match self.table.get(&path) {
            Some(file) => {
                let (Owner { name, .. }, before) = owners(file)?;
                let owner = Owner { name, writable: on };
                one(self.alloc, FileChange::Kept(path, owner, before))
            }
            None => Ok(List::empty(self.alloc)),
        }
    }
}

// These files, and their journal.
fn opened(alloc: Global, journal: Journal, table: FileTable) -> Files
    requires { journal.area ≡ areas.Files }
    ensures files { result.files ≡ table.files }
    ensures extent { extent result ≡ journal }
{
    Files {
        alloc,
        journal,
        table,
    }
}

// Why a link forbids a command, if one does.
fn test_link(path: &Path, forbidden: Option<(LinkNo, Why)>) -> Result<Option<FileRefusal>, Memory>
    ensures value { IfOk result (λ why. why ≡ if_forbidden path.now forbidden None) }
    ensures accepted { if_forbidden path.now forbidden None ≡ None → result ≡ Ok None }
{
    match forbidden {
        Some((link, why)) => Ok(Some(FileRefusal::Forbidden(path.copy()?, link, why))),
        None => Ok(None),
    }
}

// Why a user may not change a file, if a link forbids it or another user owns it.
fn test_file(
    user: &Name,
    path: &Path,
    file: &File,
    forbidden: Option<(LinkNo, Why)>,
) -> Result<Option<FileRefusal>, Memory>
    ensures value { IfOk result (λ why. why ≡ if_forbidden path.now forbidden (not_owner user.now path.now file.now None)) }
    ensures accepted { if_forbidden path.now forbidden (not_owner user.now path.now file.now None) ≡ None → result ≡ Ok None }
{
    match forbidden {
        Some((link, why)) => Ok(Some(FileRefusal::Forbidden(path.copy()?, link, why))),
        None => test_user(user, path, file),
    }
}

fn test_user(user: &Name, path: &Path, file: &File) -> Result<Option<FileRefusal>, Memory>
    ensures value { IfOk result (λ why. why ≡ not_owner user.now path.now file.now None) }
    ensures accepted { not_owner user.now path.now file.now None ≡ None → result ≡ Ok None }
{
    if file.owner.name.bytes() == user.bytes() {
        Ok(None)
    } else {
        let owner = file.owner.name.copy()?;
        Ok(Some(FileRefusal::NotOwner(path.copy()?, owner)))
    }
}

fn test_flag(path: &Path, file: &File) -> Result<Option<FileRefusal>, Memory>
    ensures value { IfOk result (λ why. why ≡ read_only path.now file.now) }
    ensures accepted { read_only path.now file.now ≡ None → result ≡ Ok None }
{
    if file.owner.writable {
        Ok(None)
    } else {
        Ok(Some(FileRefusal::ReadOnly(path.copy()?)))
    }
}

// A user's new file at a path.
fn created(user: Name, path: Path, bytes: Text) -> FileChange
    ensures { result ≡ put path (new_file user bytes) }
{
    let owner = Owner {
        name: user,
        writable: true,
    };
    let file = File {
        owner,
        bytes,
        before: None,
    };
    FileChange::Put(FileRow { path, file })
}

// Copies of a file's owner and of its saved owner.
fn owners(file: &File) -> Result<(Owner, Option<Owner>), Memory>
    ensures { IfOk result (λ o. o ≡ (file.now.owner, file.now.before)) }
{
    let owner = file.owner.copy()?;
    Ok((owner, file.before.copy()?))
}

fn one(alloc: Global, change: FileChange) -> Result<List<FileChange>, Memory>
    ensures { IfOk result (λ made. made ≡ change ∷ []) }
{
    pushed(List::empty(alloc), change)
}

fn two(alloc: Global, first: FileChange, second: FileChange) -> Result<List<FileChange>, Memory>
    ensures { IfOk result (λ made. made ≡ first ∷ second ∷ []) }
{
    match one(alloc, first) {
        Ok(changes) => pushed(changes, second),
        Err(memory) => {
            drop(second);
            Err(memory)
        }
    }
}

// One more change behind some others.
fn pushed(mut changes: List<FileChange>, change: FileChange) -> Result<List<FileChange>, Memory>
    ensures { IfOk result (λ made. made ≡ changes ++ change ∷ []) }
{
    match changes.push(change) {
        Ok(()) => Ok(changes),
        Err(refused) => {
            drop(refused);
            drop(changes);
            Err(Memory)
        }
    }
}
