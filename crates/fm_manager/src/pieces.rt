// The pieces of a Finish, made before it.
ghost use Rattle.std.specs.Prelude.{◌≡◌};
ghost use Rattle.dl_codec.specs.declared.links.LinksRecord.TheVariants as links_records;
ghost use Rattle.meaning_areas.specs.Finishing.{batch_of};
ghost use Rattle.meaning_areas.specs.Lists.{in_links};
ghost use Rattle.fm_manager.specs.Managed.{AreSpelled, IsSpelled};
ghost use Rattle.fm_manager.specs.Pieces.{IsBatchOf, changes_in, copies_written, settling_part};

use dl_base::List;
use fm_archive::CopyMade;
use fs_files::FilesMade;
use std::marker::Model;

/// What a Finish writes beside the marks of its branch, made before: the copies that it stores, and the changes of files. Contracts
/// see the transaction, the copies in order, and the changes.
#[derive(Drop)]
pub struct Pieces {
    pub(crate) tx: u64,
    pub(crate) copies: List<CopyMade>,
    // none where no file differs
    pub(crate) changes: Option<FilesMade>,
}

impl Model for Pieces {
    ghost use Rattle.fm_manager.specs.Pieces.{IsBatchOf, Pieces, changes_in};

    ghost Value = { Pieces };

    ghost view = { λ p. record { tx = p.tx; copies = p.copies; changes = changes_in p.changes } };

    ghost invariant = { λ p. IsBatchOf p.tx p.changes };
}

impl Pieces {
    /// The transaction.
    pub fn tx(&self) -> u64
        ensures { result ≡ self.now.tx }
    {
        self.tx
    }

    /// Each record that they are for has a spelling. The function does nothing: it carries what pieces are made with.
    pub fn are_spelled(&self)
        ensures { AreSpelled (settling_part self.now.tx self.now.copies self.now.changes) }
    {
        are_copies_spelled(&self.copies);
        is_batch_spelled(self.tx, &self.changes);
    }
}

// The records of copies have spellings. The function does nothing.
fn are_copies_spelled(copies: &List<CopyMade>)
    ensures { AreSpelled (copies_written copies.now) }
{
    for copy in copies.as_slice() {
        copy.is_spelled();
    }
}

// So have the record of a batch, if there is one, and the Done of its transaction. The function does nothing.
fn is_batch_spelled(tx: u64, changes: &Option<FilesMade>)
    requires { IsBatchOf tx changes.now }
    ensures batch { AreSpelled (batch_of tx (changes_in changes.now)) }
    ensures done { IsSpelled (in_links (links_records.Done tx)) }
{
    if let Some(made) = changes {
        made.is_spelled();
    }
}
