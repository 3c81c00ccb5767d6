// The links that forbid commands on a file.
ghost use Rattle.std.specs.Prelude.{◌≡◌, ℕ, List, Some};
ghost use Rattle.std.specs.FinMap as maps;
ghost use Rattle.std.specs.Option.{option_map};
ghost use Rattle.dl_base.specs.declared.step.Phase.TheVariants as phases;
ghost use Rattle.fm_branch.specs.Held as held_links;
ghost use Rattle.fm_links.specs.Claims.{claim_on, row_on};
ghost use Rattle.fm_links.specs.Guarding.{committed_on, waiting_on};
ghost use Rattle.meaning_system.specs.Commands.{forbids};
ghost use Rattle.meaning_system.specs.State.{State};
ghost use Rattle.sys_core.specs.Guarded.{forbidden_in, forbidding_by, forbids_in, phase_by, read_forbidden_in, reading_by, seat_phase, token_why};
ghost use Rattle.sys_core.specs.Standing.{IsOf};

use crate::engine::Engine;
use dl_base::{FileWhat, LinkNo, Path, Phase, Token, Why};
use dl_token::{Verdict, verify};
use fm_branch::Holding;
use fm_links::{Claim, ClaimedLink, claims_answer_as_a_search_does};
use meaning_tables::{CommandKind, forbids_kind};

impl Engine {
    // The first link of its path that forbids a command, and why.
    pub(crate) fn forbids(&self, what: &FileWhat) -> Option<(LinkNo, Why)>
        ensures { (first : ℕ) (s : State) → IsOf first self.now s → result ≡ forbids s what.now }
    {
        claims_answer_as_a_search_does();
        self.forbidding(what)
    }

    // The same by claims and transactions.
    fn forbidding(&self, what: &FileWhat) -> Option<(LinkNo, Why)>
        ensures { result ≡ forbids_in self.now what.now }
    {
        match what {
            FileWhat::Create(_, _) => None,
            FileWhat::Write(path, _) => self.forbidden(path, CommandKind::Write, Why::Write),
            FileWhat::Delete(path) => self.forbidden(path, CommandKind::Delete, Why::Delete),
            FileWhat::Rename(path, _) => self.forbidden(path, CommandKind::Rename, Why::Rename),
            FileWhat::Chmod(path, _) => self.forbidden(path, CommandKind::Chmod, Why::Chmod),
            FileWhat::Read(path, token) => self.read_forbidden(path, token),
            FileWhat::List => None,
        }
    }

    // Of a command that no token lets through.
    fn forbidden(&self, path: &Path, kind: CommandKind, why: Why) -> Option<(LinkNo, Why)>
        ensures { result ≡ forbidden_in self.now path.now kind why }
    {
        match forbidden_by(self.committed_on(path), kind, why) {
            Some(found) => Some(found),
            None => forbidden_by(self.waiting_on(path), kind, why),
        }
    }

    // Of a read.
    fn read_forbidden(&self, path: &Path, token: &Option<Token>) -> Option<(LinkNo, Why)>
        ensures { result ≡ read_forbidden_in self.now path.now token.now }
    {
        match self.read_forbidden_by(self.committed_on(path), path, token) {
            Some(found) => Some(found),
            None => self.read_forbidden_by(self.waiting_on(path), path, token),
        }
    }

    fn read_forbidden_by(
        &self,
        link: Option<ClaimedLink>,
        path: &Path,
        token: &Option<Token>,
    ) -> Option<(LinkNo, Why)>
        ensures { result ≡ reading_by self.now.settings.key self.now.moment path.now token.now (row_on path.now link) }
    {
        match link {
            Some(link) => {
                if !forbids_kind(&link.options, CommandKind::Read) {
                    return None;
                }
                match self.token_fault(path, link.link, token) {
                    Some(why) => Some((link.link, why)),
                    None => None,
                }
            }
            None => None,
        }
    }

    // Why a token is not good for a link, if it is not.
    fn token_fault(&self, path: &Path, link: LinkNo, token: &Option<Token>) -> Option<Why>
        ensures { result ≡ token_why self.now.settings.key self.now.moment path.now link token.now }
    {
        match token {
            Some(token) => match verify(&self.settings.key, path, link, self.moment, token) {
                Verdict::Good => None,
                Verdict::Wrong => Some(Why::WrongToken),
                Verdict::Expired(at) => Some(Why::Expired(at)),
            },
            None => Some(Why::NoToken),
        }
    }

    // The committed link on a path: a decided claim is committed, and what is held is not moved yet.
    pub(crate) fn committed_on(&self, path: &Path) -> Option<ClaimedLink>
        ensures { row_on path.now result ≡ committed_on (maps.get self.now.owners.manager.links.links.held path.now) (maps.get self.now.claims.claims path.now) (phase_by self.now.seats (maps.get self.now.claims.claims path.now)) }
    {
        let held = self.owners.manager.branches().held_on(path);
        let claim = self.claims.on(path);
        committed_by(held, claim, self.claim_phase(claim))
    }

    // The link behind the committed one: the take of a claim that is prepared, or the give of one that is decided.
    pub(crate) fn waiting_on(&self, path: &Path) -> Option<ClaimedLink>
        ensures { row_on path.now result ≡ waiting_on (maps.get self.now.claims.claims path.now) (phase_by self.now.seats (maps.get self.now.claims.claims path.now)) }
    {
        let claim = self.claims.on(path);
        waiting_by(claim, self.claim_phase(claim))
    }

    // How far the transaction of a claim is, if it has not ended.
    fn claim_phase(&self, claim: Option<Claim>) -> Option<Phase>
        ensures { (path : List ℕ) → result ≡ phase_by self.now.seats (option_map (claim_on path) claim) }
    {
        match claim {
            Some(claim) => self.live_phase(claim.tx),
            None => None,
        }
    }

    fn live_phase(&self, tx: u64) -> Option<Phase>
        ensures { result ≡ seat_phase (maps.get self.now.seats tx) }
    {
        match self.seats.get(tx) {
            Some(seat) => Some(seat.phase()),
            None => None,
        }
    }
}

// The link that forbids a command of a kind, if this one does.
fn forbidden_by(link: Option<ClaimedLink>, kind: CommandKind, why: Why) -> Option<(LinkNo, Why)>
    ensures { (path : List ℕ) → result ≡ forbidding_by (row_on path link) kind why }
{
    match link {
        Some(link) => {
            if forbids_kind(&link.options, kind) {
                Some((link.link, why))
            } else {
                None
            }
        }
        None => None,
    }
}

// The committed link of a path by what is held there, and by the claim and how far its transaction is.
fn committed_by(
    held: Option<Holding>,
    claim: Option<Claim>,
    phase: Option<Phase>,
) -> Option<ClaimedLink>
    ensures { (path : List ℕ) → row_on path result ≡ committed_on (held_links.row_on path held) (option_map (claim_on path) claim) phase }
{
    match claim {
        Some(claim) => match phase {
            Some(Phase::Decided) => moved_by(held, claim),
            _ => beside(held),
        },
        None => beside(held),
    }
}

// What is on a path once a claim there is moved.
fn moved_by(held: Option<Holding>, claim: Claim) -> Option<ClaimedLink>
    ensures { (path : List ℕ) → row_on path result ≡ committed_on (held_links.row_on path held) (Some (claim_on path claim)) (Some phases.Decided) }
{
    match claim.take {
        Some(link) => Some(link),
        None => match claim.give {
            Some(_) => None,
            None => beside(held),
        },
    }
}

// A held link as one of a claim is.
fn beside(held: Option<Holding>) -> Option<ClaimedLink>
    ensures { (path : List ℕ) → row_on path result ≡ held_links.row_on path held }
{
    match held {
        Some(held) => Some(ClaimedLink {
            link: held.link,
            options: held.options,
        }),
        None => None,
    }
}

fn waiting_by(claim: Option<Claim>, phase: Option<Phase>) -> Option<ClaimedLink>
    ensures { (path : List ℕ) → row_on path result ≡ waiting_on (option_map (claim_on path) claim) phase }
{
    match claim {
        Some(claim) => match phase {
            Some(Phase::Prepared) => claim.take,
            Some(Phase::Decided) => claim.give,
            _ => None,
        },
        None => None,
    }
}
