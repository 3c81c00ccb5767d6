// The owners of the five areas.
ghost use Rattle.std.specs.Prelude.{◌≡◌};
ghost use Rattle.sys_owners.specs.Owned.{journals_of};

use bk_backup::Backups;
use db_store::Store;
use dl_base::Area;
use fm_manager::Manager;

/// The owners of the five areas: the commits of the database, the file manager, and the backups. Contracts see each as its own
/// contracts do.
#[derive(Drop)]
pub struct Owners {
    pub store: Store,
    pub manager: Manager,
    pub backups: Backups,
}

impl Owners {
    /// How many bytes the records and the closing gate of an area are. It takes no memory.
    pub fn length(&self, area: Area) -> u64
        ensures { result ≡ (journals_of self.now area).length }
    {
        match area {
            Area::Rows => self.store.length(),
            Area::Links => self.manager.branches().length(),
            Area::Files => self.manager.files().length(),
            Area::Archive => self.manager.copies().length(),
            Area::Backups => self.backups.length(),
        }
    }
}
