// The claims in memory, by their paths.
ghost use Rattle.std.specs.Prelude.{◌≡◌, ◌<◌, ◌≤◌, ◌+◌, IsOk, OnOk, OnErr, length};
ghost use Rattle.std.specs.FinMap as maps;
ghost use Rattle.std.specs.Option.{option_map};
ghost use Rattle.fm_links.specs.Claims.{claim_on, laid, moved, unclaimed, with_claim, without_claim};

use crate::made::claims_of;
use dl_base::{LinkNo, LinkRow, List, Memory, Options, Path};
use std::alloc::Global;
use std::collections::{BTreeMap, HashMap};
use std::marker::Model;

/// A link that a claim gives or takes, beside its path.
#[derive(Clone, Copy)]
pub struct ClaimedLink {
    pub link: LinkNo,
    pub options: Options,
}

/// The claim on one path: the transaction that has it, and the links that it gives and takes there, of which there is one at least.
#[derive(Clone, Copy)]
pub struct Claim {
    pub tx: u64,
    pub give: Option<ClaimedLink>,
    pub take: Option<ClaimedLink>,
}

/// Claims by their paths, one a path. Contracts see them in the order of the paths' bytes, and for how many more there is room.
#[derive(Drop)]
pub struct Claims {
    alloc: Global,
    entries: HashMap<Path, Claim>,
}

impl Model for Claims {
    ghost use Rattle.std.specs.HashMap.{spare as room};
    ghost use Rattle.fm_links.specs.Claims.{ClaimTable, claims_in, table_code};

    ghost Value = { ClaimTable };

    ghost coded = { table_code };

    ghost view = { λ c. record { claims = claims_in c.entries.entries; spare = room c.entries } };
}

impl Claims {
    /// No claims. It takes no memory.
    pub fn empty(alloc: Global) -> Claims
        ensures { result.claims ≡ maps.empty }
    {
        Claims {
            alloc,
            entries: HashMap::new(alloc),
        }
    }

    /// The claim on a path. It takes no memory.
    pub fn on(&self, path: &Path) -> Option<Claim>
        ensures { option_map (claim_on path.now) result ≡ maps.get self.now.claims path.now }
    {
        self.entries.get(path).copied()
    }

    /// Puts the claim of a transaction in the place of the one that it had: the paths of the old links are free, and those of the new
    /// ones are claimed, of which the first on a path counts. Want of memory changes nothing. It costs n log n of the links named, and
    /// nothing of the claims of others.
    pub fn replace(
        &mut self,
        tx: u64,
        old_gives: &List<LinkRow>,
        old_takes: &List<LinkRow>,
        gives: &List<LinkRow>,
        takes: &List<LinkRow>,
    ) -> Result<(), Memory>
        ensures ok { OnOk result (self.new.claims ≡ with_claim tx (moved gives.now takes.now) (without_claim (moved old_gives.now old_takes.now) self.old.claims)) }
        ensures err { OnErr result (self.new.claims ≡ self.old.claims) }
    {
        let made = claims_of(self.alloc, tx, gives, takes)?;
        self.make_room(made.len())?;
        self.drop(old_gives, old_takes);
        self.lay(made);
        Ok(())
    }

    /// Lets the claims on the paths of some links go. It takes no memory, and costs a look-up a link.
    pub fn drop(&mut self, gives: &List<LinkRow>, takes: &List<LinkRow>)
        ensures claims { self.new.claims ≡ without_claim (moved gives.now takes.now) self.old.claims }
        ensures spare { self.old.spare ≤ self.new.spare }
    {
        self.drop_all(gives);
        self.drop_all(takes);
    }

    // Makes room for so many more claims; want of memory leaves what room there was.
    fn make_room(&mut self, count: usize) -> Result<(), Memory>
        ensures claims { self.new.claims ≡ self.old.claims }
        ensures room { OnOk result (count ≤ self.new.spare) }
    {
        self.entries.reserve(count)?;
        Ok(())
    }

    // Lets the claims on the paths of some links go.
    fn drop_all(&mut self, links: &List<LinkRow>)
        ensures claims { self.new.claims ≡ unclaimed links.now self.old.claims }
        ensures spare { self.old.spare ≤ self.new.spare }
    {
        for link in links.as_slice() {
            self.remove(&link.path);
        }
    }

    // Lets the claim on a path go, if there is one.
    fn remove(&mut self, path: &Path)
        ensures claims { self.new.claims ≡ maps.remove self.old.claims path.now }
        ensures spare { self.old.spare ≤ self.new.spare }
    {
        let _ = self.entries.remove(path);
    }

    // Puts in claims for which there is room, each in place of any other on its path.
    fn lay(&mut self, made: BTreeMap<Path, Claim>)
        requires { length made.entries ≤ self.old.spare }
        ensures { self.new.claims ≡ laid made.entries self.old.claims }
    {
        for (path, claim) in made {
            self.put(path, claim);
        }
    }

    // Puts a claim on a path, for which there is room, in place of any other.
    fn put(&mut self, path: Path, claim: Claim)
        requires { 0 < self.old.spare }
        ensures claims { self.new.claims ≡ maps.insert self.old.claims path (claim_on path claim) }
        ensures spare { self.old.spare ≤ self.new.spare + 1 }
    {
        let _ = self.insert(path, claim);
    }

    // Puts a claim on a path, in place of any other. Where there is room it takes no memory.
    fn insert(&mut self, path: Path, claim: Claim) -> Result<(), Memory>
        ensures ok { OnOk result (self.new.claims ≡ maps.insert self.old.claims path (claim_on path claim)) }
        ensures room { 0 < self.old.spare → IsOk result }
        ensures spare { self.old.spare ≤ self.new.spare + 1 }
    {
        self.entries.insert(path, claim)?;
        Ok(())
    }
}
