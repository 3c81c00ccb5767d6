// The links that wait for a copy.
ghost use Rattle.std.specs.Prelude.{◌≡◌, ℕ, List, IfOk, filter, is_none, map};
ghost use Rattle.std.specs.FinMap as maps;
ghost use Rattle.std.specs.Option.{option_map};
ghost use Rattle.fm_links.specs.Claims.{claim_on};
ghost use Rattle.meaning_settling.specs.Settling.{link_key};
ghost use Rattle.meaning_system.specs.Machine.{pending};
ghost use Rattle.meaning_system.specs.State.{State, is_decided};
ghost use Rattle.meaning_tables.specs.Links.{links};
ghost use Rattle.sys_core.specs.Archiving.{settles_by, settles_in, waits_in};
ghost use Rattle.sys_core.specs.Claiming.{tables_in};
ghost use Rattle.sys_core.specs.Standing.{IsOf};

use crate::engine::Engine;
use dl_base::{LinkNo, LinkRow, List, Memory, Path, Phase};
use fm_links::Claim;
use sql_table::links;

impl Engine {
    /// The links whose copies are pending, in the order of the tables' links: the committed ones with RECOVERY YES that have no copy, but
    /// for those that a decided transaction takes. The error is want of memory, and changes nothing. It costs a look at each committed link.
    pub fn pending(&self) -> Result<List<LinkNo>, Memory>
        ensures { (first : ℕ) (s : State) → IsOf first self.now s → IfOk result (λ waiting. waiting ≡ map (λ l. l.link) (pending s)) }
    {
        let rows = self.committed_links()?;
        self.waiting(&rows)
    }

    fn committed_links(&self) -> Result<List<LinkRow>, Memory>
        ensures { IfOk result (λ rows. rows ≡ links (tables_in self.now)) }
    {
        let tables = self.owners.store.committed().copy()?;
        links(self.alloc, &tables)
    }

    // Those of some committed links that wait for a copy.
    fn waiting(&self, rows: &List<LinkRow>) -> Result<List<LinkNo>, Memory>
        ensures { IfOk result (λ made. made ≡ map (λ l. l.link) (filter (waits_in self.now) rows.now)) }
    {
        let mut made = List::empty(self.alloc);
        for row in rows.as_slice() {
            if self.waits(row) {
                made.push(row.link)?;
            }
        }
        Ok(made)
    }

    // Whether a committed link waits for a copy.
    fn waits(&self, row: &LinkRow) -> bool
        ensures { result ≡ waits_in self.now row.now }
    {
        row.options.recovery && self.lacks_copy(row.link) && !self.settles(&row.path)
    }

    fn lacks_copy(&self, link: LinkNo) -> bool
        ensures { result ≡ is_none (maps.get self.now.owners.manager.archive.copies (link_key link)) }
    {
        self.owners.manager.copies().copy(link).is_none()
    }

    // Whether the transaction that claims a path is decided, so that its Finish settles what is there.
    pub(crate) fn settles(&self, path: &Path) -> bool
        ensures { result ≡ settles_in self.now path.now }
    {
        self.is_settling(self.claims.on(path))
    }

    fn is_settling(&self, claim: Option<Claim>) -> bool
        ensures { (path : List ℕ) → result ≡ settles_by self.now.seats (option_map (claim_on path) claim) }
    {
        match claim {
            Some(claim) => is_decided(self.phase(claim.tx)),
            None => false,
        }
    }
}

fn is_decided(phase: Phase) -> bool
    ensures { result ≡ is_decided phase }
{
    match phase {
        Phase::Decided => true,
        Phase::Active | Phase::Prepared | Phase::Finished | Phase::Dropped => false,
    }
}
