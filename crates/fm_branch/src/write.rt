// One record more in a journal.
ghost use Rattle.std.specs.Prelude.{◌≡◌, ◌∷◌, [], None, IfOk, OnOk, OnErr, length};
ghost use Rattle.std.specs.Result.{result_err};
ghost use Rattle.dl_areas.specs.Lists.{write_of};
ghost use Rattle.dl_areas.specs.Writing.{DoesAlone};
ghost use Rattle.dl_codec.specs.Layout.{u64};
ghost use Rattle.dl_codec.specs.Links.{links_record};
ghost use Rattle.dl_codec.specs.declared.links.LinksRecord.TheVariants as records;
ghost use Rattle.dl_journal.specs.Open.{IsOpen, grown};

use dl_areas::an_append_writes_one_record;
use dl_base::{AppendFault, Bench, List, Memory};
use dl_codec::{LinksRecord, put_links_record};
use dl_journal::Journal;
use std::alloc::Global;

/// Adds a record. It takes no memory.
pub fn write<B: Bench>(journal: &mut Journal, bench: &mut B, body: &[u8]) -> Result<(), AppendFault>
    requires { IsOpen journal.old (B.outside bench.old) }
    ensures ok { OnOk result (journal.new ≡ grown journal.old (length body.now)) }
    ensures err { OnErr result (journal.new ≡ journal.old) }
    ensures does { DoesAlone journal.old journal.new (write_of journal.old.area body.now None ∷ []) (result_err result) (B.outside bench.old) (B.outside bench.new) }
{
    an_append_writes_one_record::<B>();
    journal.append(bench, body)
}

/// The body of an opening's record.
pub fn opening_body(number: u32) -> [u8; 5]
    ensures { result ≡ links_record.spelling (records.Opening number) }
{
    let bytes = number.to_be_bytes();
    [1, bytes[0], bytes[1], bytes[2], bytes[3]]
}

/// The body of a record. One with a text or a list of 2^32 items has none: it is answered `Memory`, as is want of memory.
pub fn body_of(alloc: Global, written: &LinksRecord) -> Result<List<u8>, Memory>
    ensures fits { OnOk result (links_record.fits written.now) }
    ensures body { IfOk result (λ body. body ≡ links_record.spelling written.now) }
{
    let mut body = List::empty(alloc);
    put_links_record(&mut body, written)?;
    Ok(body)
}

/// The body of a Committed's record.
pub fn committed_body(tx: u64) -> [u8; 9]
    ensures { result ≡ links_record.spelling (records.Committed tx) }
{
    tagged(3, tx)
}

/// The body of a Done's record.
pub fn done_body(tx: u64) -> [u8; 9]
    ensures { result ≡ links_record.spelling (records.Done tx) }
{
    tagged(4, tx)
}

/// The body of an Aborted's record.
pub fn aborted_body(tx: u64) -> [u8; 9]
    ensures { result ≡ links_record.spelling (records.Aborted tx) }
{
    tagged(5, tx)
}

// A byte, and a transaction's number.
fn tagged(tag: u8, tx: u64) -> [u8; 9]
    ensures { result ≡ tag ∷ u64.spelling tx }
{
    let b = tx.to_be_bytes();
    [tag, b[0], b[1], b[2], b[3], b[4], b[5], b[6], b[7]]
}
