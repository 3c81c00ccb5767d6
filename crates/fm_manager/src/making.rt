// The pieces of a Finish are made.
ghost use Rattle.std.specs.Prelude.{◌≡◌, ◌≤◌, IfOk, IfSome, None, OnOk, Ok, filter, is_none};
ghost use Rattle.std.specs.FinMap as maps;
ghost use Rattle.dl_codec.specs.declared.links.BranchPhase.{BranchPhase as Phases};
ghost use Rattle.fs_files.specs.Batch.{puts};
ghost use Rattle.meaning_areas.specs.Stands.{open_branch};
ghost use Rattle.meaning_settling.specs.Settling.{Moved, link_key};
ghost use Rattle.fm_manager.specs.Managed.{Roomier, kept_in};
ghost use Rattle.fm_manager.specs.Pieces.{AreOf, HaveRoom, IsBatchOf, IsDoubtful, changes_in};

use crate::manager::Manager;
use crate::pieces::Pieces;
use dl_base::{FileChange, LinkRow, List, Memory};
use fm_archive::{Archive, CopyMade};
use fm_effects::{changes, copies};
use fs_files::FilesMade;

impl Manager {
    /// The pieces of the Finish of a transaction that gives and takes these links, over the files and copies as they are: the copies
    /// that it is to store, and the changes of files. There is room for them afterwards. The error is want of memory, and leaves
    /// what room there was.
    pub fn pieces(
        &mut self,
        tx: u64,
        gives: &List<LinkRow>,
        takes: &List<LinkRow>,
        fill: bool,
    ) -> Result<Pieces, Memory>
        ensures tx { IfOk result (λ p. p.tx ≡ tx) }
        ensures pieces { IfOk result (λ p. AreOf p (record { gives = gives.now; takes = takes.now; fill = fill }) (kept_in self.old)) }
        ensures room { IfOk result (λ p. HaveRoom p self.new) }
        ensures same { Roomier self.old self.new }
    {
        let copies = copies(self.alloc, gives, &self.files, &self.archive)?;
        let changes = changes(self.alloc, gives, takes, fill, &self.files, &self.archive)?;
        self.made(tx, copies, changes)
    }

    /// The pieces of the Finish of a branch in doubt, those that are not there yet; None where the transaction has none. The rest is
    /// as with `pieces`.
    pub fn pieces_left(&mut self, tx: u64) -> Result<Option<Pieces>, Memory>
        ensures tx { IfOk result (λ o. IfSome o (λ p. p.tx ≡ tx)) }
        ensures some { IfOk result (λ o. IfSome o (λ p. (moved : Moved) × (phase : Phases) × IsDoubtful self.old tx moved phase × AreOf p moved (kept_in self.old))) }
        ensures none { result ≡ Ok None → open_branch (maps.get self.old.links.links.table tx) ≡ None }
        ensures room { IfOk result (λ o. IfSome o (λ p. HaveRoom p self.new)) }
        ensures same { Roomier self.old self.new }
    {
        let Some(branch) = self.branches.branch(tx) else {
            return Ok(None);
        };
        if !branch.is_in_doubt() {
            return Ok(None);
        }
        let copies = copies(self.alloc, branch.gives, &self.files, &self.archive)?;
        let changes = changes(
            self.alloc,
            branch.gives,
            branch.takes,
            branch.fill,
            &self.files,
            &self.archive,
        )?;
        Ok(Some(self.made(tx, copies, changes)?))
    }

    /// The pieces of a Finish without the copies that are stored by now. It takes no memory.
    pub fn left(&self, pieces: Pieces) -> Pieces
        ensures { result ≡ record pieces { copies = filter (λ c. is_none (maps.get self.now.archive.copies (link_key c.link))) pieces.copies } }
    {
        let Pieces {
            tx,
            copies,
            changes,
        } = pieces;
        Pieces {
            tx,
            copies: unstored(&self.archive, copies),
            changes,
        }
    }

    // Pieces of these, for which there is room afterwards.
    fn made(
        &mut self,
        tx: u64,
        copies: List<CopyMade>,
        changes: List<FileChange>,
    ) -> Result<Pieces, Memory>
        ensures pieces { IfOk result (λ p. p ≡ record { tx = tx; copies = copies; changes = changes }) }
        ensures room { IfOk result (λ p. HaveRoom p self.new) }
        ensures same { Roomier self.old self.new }
    {
        self.archive.make_room(copies.len() as u64)?;
        let changes = self.batch(tx, changes)?;
        Ok(Pieces {
            tx,
            copies,
            changes,
        })
    }

    // The batch of these changes, where there are some, for which there is room afterwards.
    fn batch(&mut self, tx: u64, changes: List<FileChange>) -> Result<Option<FilesMade>, Memory>
        ensures changes { IfOk result (λ made. changes_in made ≡ changes) }
        ensures batch { IfOk result (λ made. IsBatchOf tx made) }
        ensures room { OnOk result (puts changes ≤ self.new.files.spare) }
        ensures same { Roomier self.old self.new }
        ensures archive { self.new.archive ≡ self.old.archive }
    {
        if changes.len() == 0 {
            return Ok(None);
        }
        Ok(Some(self.files.made(tx, changes)?))
    }
}

// Those of some copies that are not stored yet.
fn unstored(archive: &Archive, copies: List<CopyMade>) -> List<CopyMade>
    ensures { result ≡ filter (λ c. is_none (maps.get archive.now.copies (link_key c.link))) copies }
{
    let mut items = copies.into_vec();
    items.retain(|copy| is_unstored(archive, copy));
    List::from_vec(items)
}

fn is_unstored(archive: &Archive, copy: &CopyMade) -> bool
    ensures { result ≡ is_none (maps.get archive.now.copies (link_key copy.now.link)) }
{
    archive.copy(copy.link()).is_none()
}
