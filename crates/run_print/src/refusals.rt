// The words of refusals.
ghost use Rattle.std.specs.Prelude.{◌≡◌, ◌++◌, [], OnOk};
ghost use Rattle.dl_base.specs.declared.answer.FileRefusal.TheVariants as refusals;
ghost use Rattle.dl_base.specs.declared.answer.Refusal.TheVariants as reasons;
ghost use Rattle.meaning_script.specs.Refusals as meant;

use crate::words::{
    put_linked, put_two_numbers, put_with, put_with_link, put_with_number, put_with_transaction,
};
use dl_base::{
    ClaimRefusal, FileRefusal, Limit, LinkNo, List, Memory, Name, Path, Phase, Refusal,
    RestoreRefusal, SqlFault, Why,
};
use dl_location::bad_link_number;

/// The words of a refusal, where the sessions have these names in order.
pub fn put_refusal(into: &mut List<u8>, why: &Refusal, names: &List<Name>) -> Result<(), Memory>
    ensures { OnOk result (into.new ≡ into.old ++ meant.refusal_words names.now why.now) }
{
    match why {
        Refusal::NotBuilt => into.extend(b"not built"),
        Refusal::BadLine(place) => put_with_number(into, b"bad line ", *place),
        Refusal::Syntax(place) => put_with_number(into, b"syntax ", *place),
        Refusal::NoValue(name) => put_with(into, b"no value ", name.bytes()),
        Refusal::NotInRace => into.extend(b"not in race"),
        Refusal::Limit(limit) => put_with(into, b"limit ", limit_words(*limit)),
        Refusal::Sql(fault) => put_sql_fault(into, fault),
        Refusal::Claim(why) => put_claim_refusal(into, why),
        Refusal::Conflict(table, seen, present) => put_conflict(into, table, *seen, *present),
        Refusal::Doomed(seen, present) => {
            put_two_numbers(
                into,
                b"doomed ",
                u64::from(*seen),
                b" ",
                u64::from(*present),
            )
        }
        Refusal::File(why) => put_file_refusal(into, why),
        Refusal::NoTransaction => into.extend(b"no transaction"),
        Refusal::InTransaction(tx) => put_with_transaction(into, b"in transaction ", *tx),
        Refusal::WrongPhase(phase) => put_with(into, b"phase ", phase_words(*phase)),
        Refusal::NotPending(link) => put_with_link(into, b"not pending ", *link),
        Refusal::Unfinished(tx) => put_with_transaction(into, b"unfinished ", *tx),
        Refusal::ArchivePending(link) => put_with_link(into, b"archive pending ", *link),
        Refusal::SessionBusy(session) => {
            put_with(into, b"session busy ", session_name(*session, names))
        }
        Refusal::Restore(why) => put_restore_refusal(into, why),
    }
}

fn put_conflict(into: &mut List<u8>, table: &Name, seen: u64, present: u64) -> Result<(), Memory>
    ensures { OnOk result (into.new ≡ into.old ++ meant.refusal_words [] (reasons.Conflict table.now seen present)) }
{
    put_with(into, b"conflict ", table.bytes())?;
    put_two_numbers(into, b" ", seen, b" ", present)
}

// The name of the session with this number, from 1; nothing where none has it.
fn session_name(session: u32, names: &List<Name>) -> &[u8]
    ensures { result.now ≡ meant.session_name names.now session }
{
    if session == 0 {
        return b"";
    }
    match names.at((session - 1) as usize) {
        Some(name) => name.bytes(),
        None => b"",
    }
}

fn put_sql_fault(into: &mut List<u8>, fault: &SqlFault) -> Result<(), Memory>
    ensures { OnOk result (into.new ≡ into.old ++ meant.sql_fault_words fault.now) }
{
    match fault {
        SqlFault::NoTable(name) => put_with(into, b"no table ", name.bytes()),
        SqlFault::TableExists(name) => put_with(into, b"table exists ", name.bytes()),
        SqlFault::NoColumn(name) => put_with(into, b"no column ", name.bytes()),
        SqlFault::Ambiguous(name) => put_with(into, b"ambiguous ", name.bytes()),
        SqlFault::TypeFault => into.extend(b"type"),
        SqlFault::Arity => into.extend(b"arity"),
        SqlFault::DupKey(row) => put_with_number(into, b"duplicate key ", *row),
        SqlFault::NullKey(name) => put_with(into, b"null ", name.bytes()),
        SqlFault::TooLong(name) => put_with(into, b"too long ", name.bytes()),
        SqlFault::Overflow => into.extend(b"overflow"),
        SqlFault::ZeroDivide => into.extend(b"divide by zero"),
        SqlFault::BadLink(why) => {
            put_with_number(into, b"bad link ", u64::from(bad_link_number(*why)))
        },
        SqlFault::BadOptions => into.extend(b"bad options"),
        SqlFault::Limit(limit) => put_with(into, b"limit ", limit_words(*limit)),
        SqlFault::Memory => into.extend(b"memory"),
    }
}

fn put_claim_refusal(into: &mut List<u8>, why: &ClaimRefusal) -> Result<(), Memory>
    ensures { OnOk result (into.new ≡ into.old ++ meant.claim_refusal_words why.now) }
{
    match why {
        ClaimRefusal::NoFile(path) => put_with(into, b"no file ", path.bytes()),
        ClaimRefusal::AlreadyLinked(path, link) => {
            put_linked(into, b"already linked ", path, *link)
        }
        ClaimRefusal::Busy(path, tx) => {
            put_with(into, b"busy ", path.bytes())?;
            put_with_transaction(into, b" ", *tx)
        }
    }
}

fn put_restore_refusal(into: &mut List<u8>, why: &RestoreRefusal) -> Result<(), Memory>
    ensures { OnOk result (into.new ≡ into.old ++ meant.restore_refusal_words why.now) }
{
    match why {
        RestoreRefusal::NoTarget(number) => put_with_number(into, b"no target ", *number),
        RestoreRefusal::InTheWay(path) => put_with(into, b"in the way ", path.bytes()),
    }
}

fn put_file_refusal(into: &mut List<u8>, why: &FileRefusal) -> Result<(), Memory>
    ensures { OnOk result (into.new ≡ into.old ++ meant.file_refusal_words why.now) }
{
    match why {
        FileRefusal::NoFile(path) => put_with(into, b"no file ", path.bytes()),
        FileRefusal::Forbidden(path, link, why) => put_forbidden(into, path, *link, *why),
        FileRefusal::NotOwner(path, owner) => {
            put_with(into, b"not owner ", path.bytes())?;
            put_with(into, b" ", owner.bytes())
        }
        FileRefusal::ReadOnly(path) => put_with(into, b"read only ", path.bytes()),
        FileRefusal::Exists(path) => put_with(into, b"exists ", path.bytes()),
        FileRefusal::Limit(limit) => put_with(into, b"limit ", limit_words(*limit)),
    }
}

fn put_forbidden(into: &mut List<u8>, path: &Path, link: LinkNo, why: Why) -> Result<(), Memory>
    ensures { OnOk result (into.new ≡ into.old ++ meant.file_refusal_words (refusals.Forbidden path.now link why)) }
{
    put_linked(into, b"linked ", path, link)?;
    into.extend(b" ")?;
    put_why(into, why)
}

fn put_why(into: &mut List<u8>, why: Why) -> Result<(), Memory>
    ensures { OnOk result (into.new ≡ into.old ++ meant.why_words why) }
{
    match why {
        Why::Rename => into.extend(b"rename"),
        Why::Delete => into.extend(b"delete"),
        Why::Write => into.extend(b"write"),
        Why::Chmod => into.extend(b"chmod"),
        Why::NoToken => into.extend(b"no token"),
        Why::WrongToken => into.extend(b"wrong token"),
        Why::Expired(moment) => put_with_number(into, b"expired ", moment),
    }
}

fn limit_words(limit: Limit) -> &'static [u8]
    ensures { result.now ≡ meant.limit_words limit }
{
    match limit {
        Limit::Columns => b"columns",
        Limit::Tables => b"tables",
        Limit::Rows => b"rows",
        Limit::From => b"from",
        Limit::Product => b"product",
        Limit::Links => b"links",
        Limit::Files => b"files",
        Limit::Actors => b"actors",
    }
}

fn phase_words(phase: Phase) -> &'static [u8]
    ensures { result.now ≡ meant.phase_words phase }
{
    match phase {
        Phase::Active => b"active",
        Phase::Prepared => b"prepared",
        Phase::Decided => b"decided",
        Phase::Finished => b"finished",
        Phase::Dropped => b"dropped",
    }
}
