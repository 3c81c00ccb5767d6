// A backup in memory.
ghost use Rattle.std.specs.Prelude.{◌≡◌, ◌++◌, ◌∷◌, [], List, OnOk, OnErr};
ghost use Rattle.bk_backup.specs.Saved.{with_backup};
ghost use Rattle.meaning_areas.specs.Copies.{Backup};

use dl_base::{List, Memory};
use sql_table::Tables;
use std::marker::Model;

/// The number of the commit after which it was made, and the tables.
#[derive(Drop)]
pub struct Kept {
    pub commit: u64,
    pub tables: Tables,
}

impl Model for Kept {
    ghost use Rattle.meaning_areas.specs.Copies.{Backup};

    ghost Value = { Backup };

    ghost view = { λ k. record { commit = k.commit; tables = k.tables } };
}

/// Puts a backup of these tables at the end.
pub fn push(backups: &mut List<Kept>, commit: u64, tables: Tables) -> Result<(), Memory>
    ensures ok { OnOk result (backups.new ≡ with_backup backups.old commit tables) }
    ensures err { OnErr result (backups.new ≡ backups.old) }
{
    backups.push(Kept { commit, tables })?;
    Ok(())
}

/// Takes the last backup away again.
pub fn pop(backups: &mut List<Kept>)
    ensures { (before : List Backup) (last : Backup) → backups.old ≡ before ++ last ∷ [] → backups.new ≡ before }
{
    let _ = backups.pop();
}
