// One record more in a journal.
ghost use Rattle.std.specs.Prelude.{◌≡◌, ◌∷◌, [], None, OnOk, OnErr, length};
ghost use Rattle.std.specs.Result.{result_err};
ghost use Rattle.dl_areas.specs.Lists.{write_of};
ghost use Rattle.dl_areas.specs.Writing.{DoesAlone};
ghost use Rattle.dl_journal.specs.Open.{IsOpen, grown};

use dl_areas::an_append_writes_one_record;
use dl_base::{AppendFault, Bench};
use dl_journal::Journal;

/// Adds a record. It takes no memory.
pub fn write<B: Bench>(journal: &mut Journal, bench: &mut B, body: &[u8]) -> Result<(), AppendFault>
    requires { IsOpen journal.old (B.outside bench.old) }
    ensures ok { OnOk result (journal.new ≡ grown journal.old (length body.now)) }
    ensures err { OnErr result (journal.new ≡ journal.old) }
    ensures does { DoesAlone journal.old journal.new (write_of journal.old.area body.now None ∷ []) (result_err result) (B.outside bench.old) (B.outside bench.new) }
{
    an_append_writes_one_record::<B>();
    journal.append(bench, body)
}
