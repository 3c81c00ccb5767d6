// The open files of a folder.
ghost use Rattle.std.specs.Prelude.{◌≡◌, ◌≢◌, Some, None};
ghost use Rattle.dl_host.specs.Slots.{slot_of};

use dl_base::Area;

/// A file of each area, where it is open.
#[derive(Drop)]
pub struct Slots<F: Drop> {
    rows: Option<F>,
    links: Option<F>,
    files: Option<F>,
    archive: Option<F>,
    backups: Option<F>,
}

impl<F: Drop> Slots<F> {
    ghost use Rattle.dl_base.specs.declared.area.Area as areas;

    pub fn none() -> Slots<F>
        ensures { (a : areas.Area) → slot_of result a ≡ None }
    {
        Slots {
            rows: None,
            links: None,
            files: None,
            archive: None,
            backups: None,
        }
    }

    pub fn at(&self, area: Area) -> &Option<F>
        ensures { result.now ≡ slot_of self.now area }
    {
        match area {
            Area::Rows => &self.rows,
            Area::Links => &self.links,
            Area::Files => &self.files,
            Area::Archive => &self.archive,
            Area::Backups => &self.backups,
        }
    }

    pub fn keep(&mut self, area: Area, file: F)
        ensures here { slot_of self.new area ≡ Some file }
        ensures others { (a : areas.Area) → a ≢ area → slot_of self.new a ≡ slot_of self.old a }
    {
        let slot = Some(file);
        match area {
            Area::Rows => self.rows = slot,
            Area::Links => self.links = slot,
            Area::Files => self.files = slot,
            Area::Archive => self.archive = slot,
            Area::Backups => self.backups = slot,
        }
    }
}
