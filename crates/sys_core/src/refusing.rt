// Why a transaction may not claim the links that it gives and takes.
ghost use Rattle.std.specs.Prelude.{◌≡◌, ◌==◌, [], if◌then◌else◌, IfOk, None, OnOk, Some};
ghost use Rattle.std.specs.FinMap as maps;
ghost use Rattle.std.specs.List.{list_any};
ghost use Rattle.dl_base.specs.declared.answer.ClaimRefusal.TheVariants as denials;
ghost use Rattle.dl_base.specs.declared.answer.Refusal.TheVariants as reasons;
ghost use Rattle.meaning_system.specs.Claims.{seen_or_zero};
ghost use Rattle.meaning_tables.specs.Links as meant;
ghost use Rattle.meaning_tables.specs.Links.{same_number};
ghost use Rattle.sys_core.specs.Claiming.{PutsNumber, busy_in, claim_refusal_in, doomed_at, file_refusal_in, gives_refusal_in, kept_on, kept_refusal_in, linked_by, links_refusal_in, named_refusal_in, number_on, opening_in, path_refusal_in, take_refusal_in, takes_refusal_in};

use crate::engine::Engine;
use crate::versions::conflict_among;
use db_txn::Txn;
use dl_base::{ClaimRefusal, Copied, LinkNo, LinkRow, List, Memory, Path, Refusal};
use std::collections::BTreeMap;
use sys_seats::Seat;

impl Engine {
    // The first refusal of the links that a transaction gives and takes: it is doomed, a table that it named has another version, or the
    // first link that may not be given or taken. It costs n log n of these links, and a look-up for each name.
    pub(crate) fn claim_refusal(
        &self,
        txn: &Txn,
        tx: u64,
        gives: &List<LinkRow>,
        takes: &List<LinkRow>,
    ) -> Result<Option<Refusal>, Memory>
        requires gives { gives.now ≡ meant.gives txn.now.base txn.now.copy }
        requires takes { takes.now ≡ meant.takes txn.now.base txn.now.copy }
        ensures { IfOk result (λ why. why ≡ claim_refusal_in self.now tx txn.now) }
    {
        match self.forgotten(tx) {
            Some(refusal) => Ok(Some(refusal)),
            None => self.named_refusal(txn, tx, gives, takes),
        }
    }

    // The same of one that is not doomed.
    fn named_refusal(
        &self,
        txn: &Txn,
        tx: u64,
        gives: &List<LinkRow>,
        takes: &List<LinkRow>,
    ) -> Result<Option<Refusal>, Memory>
        requires gives { gives.now ≡ meant.gives txn.now.base txn.now.copy }
        requires takes { takes.now ≡ meant.takes txn.now.base txn.now.copy }
        ensures { IfOk result (λ why. why ≡ named_refusal_in self.now tx txn.now) }
    {
        let committed = self.owners.store.committed();
        let changed = conflict_among(txn.touched(), txn.base(), committed)?;
        match changed {
            Some(refusal) => Ok(Some(refusal)),
            None => self.links_refusal(txn, tx, gives, takes),
        }
    }

    // The same where the tables that it named have their versions.
    fn links_refusal(
        &self,
        txn: &Txn,
        tx: u64,
        gives: &List<LinkRow>,
        takes: &List<LinkRow>,
    ) -> Result<Option<Refusal>, Memory>
        requires gives { gives.now ≡ meant.gives txn.now.base txn.now.copy }
        requires takes { takes.now ≡ meant.takes txn.now.base txn.now.copy }
        ensures { IfOk result (λ why. why ≡ links_refusal_in self.now tx txn.now) }
    {
        let taking = self.takes_refusal(txn, tx, takes)?;
        match taking {
            Some(refusal) => Ok(Some(refusal)),
            None => self.gives_refusal(tx, gives),
        }
    }

    // Whether the claims of a transaction are forgotten, as a refusal.
    fn forgotten(&self, tx: u64) -> Option<Refusal>
        ensures { result ≡ doomed_at (opening_in self.now) (maps.get self.now.seats tx) }
    {
        match self.seats.get(tx) {
            Some(seat) => self.forgotten_by(seat),
            None => None,
        }
    }

    // The same by what is kept of it.
    pub(crate) fn forgotten_by(&self, seat: &Seat) -> Option<Refusal>
        ensures { result ≡ doomed_at (opening_in self.now) (Some seat.now) }
    {
        if !self.is_doomed(seat) {
            return None;
        }
        let opening = self.owners.manager.branches().opening();
        Some(Refusal::Doomed(seen_or_zero(seat.claim.seen), opening))
    }

    // The first refusal of some links that a transaction takes.
    fn takes_refusal(
        &self,
        txn: &Txn,
        tx: u64,
        takes: &List<LinkRow>,
    ) -> Result<Option<Refusal>, Memory>
        ensures { IfOk result (λ why. why ≡ takes_refusal_in self.now tx (meant.gives txn.now.base txn.now.copy) [] takes.now) }
    {
        let mut earlier = BTreeMap::new(self.alloc);
        for take in takes.as_slice() {
            if let Some(refusal) = self.take_refusal(txn, tx, take, &earlier)? {
                return Ok(Some(refusal));
            }
            put_number(&mut earlier, take)?;
        }
        Ok(None)
    }

    // That of one of them: its file is not there, or another link on its path is taken before it, or is committed and not given, or
    // another transaction has claimed the path.
    fn take_refusal(
        &self,
        txn: &Txn,
        tx: u64,
        take: &LinkRow,
        earlier: &BTreeMap<Path, LinkNo>,
    ) -> Result<Option<Refusal>, Memory>
        ensures { IfOk result (λ why. why ≡ take_refusal_in self.now tx (meant.gives txn.now.base txn.now.copy) (number_on earlier.now.entries take.now.path) take.now) }
    {
        let gone = self.file_refusal(&take.path)?;
        match gone {
            Some(refusal) => Ok(Some(refusal)),
            None => self.path_refusal(txn, tx, &take.path, earlier),
        }
    }

    // The same where the file is there.
    fn path_refusal(
        &self,
        txn: &Txn,
        tx: u64,
        path: &Path,
        earlier: &BTreeMap<Path, LinkNo>,
    ) -> Result<Option<Refusal>, Memory>
        ensures { IfOk result (λ why. why ≡ path_refusal_in self.now tx (meant.gives txn.now.base txn.now.copy) (number_on earlier.now.entries path.now) path.now) }
    {
        let before = link_refusal(path, number_on(earlier, path))?;
        match before {
            Some(refusal) => Ok(Some(refusal)),
            None => self.kept_refusal(txn, tx, path),
        }
    }

    // The same where no other link is taken there.
    fn kept_refusal(&self, txn: &Txn, tx: u64, path: &Path) -> Result<Option<Refusal>, Memory>
        ensures { IfOk result (λ why. why ≡ kept_refusal_in self.now tx (meant.gives txn.now.base txn.now.copy) path.now) }
    {
        let held = link_refusal(path, self.kept_on(txn, path))?;
        match held {
            Some(refusal) => Ok(Some(refusal)),
            None => self.busy(tx, path),
        }
    }

    // The first refusal of some links that a transaction gives: another has claimed the path.
    fn gives_refusal(&self, tx: u64, gives: &List<LinkRow>) -> Result<Option<Refusal>, Memory>
        ensures { IfOk result (λ why. why ≡ gives_refusal_in self.now tx gives.now) }
    {
        for give in gives.as_slice() {
            if let Some(refusal) = self.busy(tx, &give.path)? {
                return Ok(Some(refusal));
            }
        }
        Ok(None)
    }

    // Why a path may not be linked where no file has it.
    pub(crate) fn file_refusal(&self, path: &Path) -> Result<Option<Refusal>, Memory>
        ensures { IfOk result (λ why. why ≡ file_refusal_in self.now path.now) }
    {
        match self.owners.manager.files().look(path) {
            Some(_) => Ok(None),
            None => Ok(Some(Refusal::Claim(ClaimRefusal::NoFile(path.copy()?)))),
        }
    }

    // The number of the committed link on a path, unless a transaction gives it.
    fn kept_on(&self, txn: &Txn, path: &Path) -> Option<LinkNo>
        ensures { result ≡ kept_on self.now (meant.gives txn.now.base txn.now.copy) path.now }
    {
        match self.committed_on(path) {
            Some(link) => unless_given(txn, link.link),
            None => None,
        }
    }

    // Why a transaction may not claim a path, where another has.
    fn busy(&self, tx: u64, path: &Path) -> Result<Option<Refusal>, Memory>
        ensures { IfOk result (λ why. why ≡ busy_in self.now tx path.now) }
    {
        match self.claims.on(path) {
            Some(claim) => holder_refusal(tx, path, claim.tx),
            None => Ok(None),
        }
    }
}

// Why a transaction may not claim a path that one has claimed.
fn holder_refusal(tx: u64, path: &Path, holder: u64) -> Result<Option<Refusal>, Memory>
    ensures { IfOk result (λ why. why ≡ (if holder == tx then None else Some (reasons.Claim (denials.Busy path.now holder)))) }
{
    if holder == tx {
        return Ok(None);
    }
    Ok(Some(Refusal::Claim(ClaimRefusal::Busy(path.copy()?, holder))))
}

// Why a path may not be linked where a link of some number is there.
fn link_refusal(path: &Path, link: Option<LinkNo>) -> Result<Option<Refusal>, Memory>
    ensures { IfOk result (λ why. why ≡ linked_by path.now link) }
{
    match link {
        Some(link) => Ok(Some(Refusal::Claim(ClaimRefusal::AlreadyLinked(path.copy()?, link)))),
        None => Ok(None),
    }
}

// The number of a link, unless a transaction gives it.
fn unless_given(txn: &Txn, link: LinkNo) -> Option<LinkNo>
    ensures { result ≡ (if list_any (λ g. same_number g.link link) (meant.gives txn.now.base txn.now.copy) then None else Some link) }
{
    if is_given(txn, link) {
        None
    } else {
        Some(link)
    }
}

// Whether a transaction gives a link: its base has the number, and its copy has not.
fn is_given(txn: &Txn, link: LinkNo) -> bool
    ensures { result ≡ list_any (λ g. same_number g.link link) (meant.gives txn.now.base txn.now.copy) }
{
    txn.base().has_link(link) && !txn.tables().has_link(link)
}

// The number at a path.
fn number_on(numbers: &BTreeMap<Path, LinkNo>, path: &Path) -> Option<LinkNo>
    ensures { result ≡ number_on numbers.now.entries path.now }
{
    numbers.get(path).copied()
}

// Puts the number of a link at its path.
fn put_number(numbers: &mut BTreeMap<Path, LinkNo>, link: &LinkRow) -> Result<(), Memory>
    ensures { OnOk result (PutsNumber numbers.old.entries numbers.new.entries link.now) }
{
    let path = link.path.copy()?;
    numbers.insert(path, link.link)?;
    Ok(())
}

fn seen_or_zero(seen: Option<u32>) -> u32
    ensures { result ≡ seen_or_zero seen }
{
    match seen {
        Some(seen) => seen,
        None => 0,
    }
}
