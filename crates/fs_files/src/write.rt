// One record more in a journal.
ghost use Rattle.std.specs.Prelude.{◌≡◌, ◌+◌, ◌<◌, ◌∷◌, ◌++◌, [], ℕ, List, None, OnOk, OnErr, length};
ghost use Rattle.std.specs.Result.{result_err};
ghost use Rattle.dl_areas.specs.Lists.{write_of};
ghost use Rattle.dl_areas.specs.Writing.{DoesAlone};
ghost use Rattle.dl_base.specs.Outside.{ChangesOnly};
ghost use Rattle.dl_journal.specs.Open.{AddsOne, IsOpen, Keeps, grown};

use dl_areas::an_append_writes_one_record;
use dl_base::{AppendFault, Bench};
use dl_journal::Journal;

/// Adds a record. It takes no memory.
pub fn write<B: Bench>(journal: &mut Journal, bench: &mut B, body: &[u8]) -> Result<(), AppendFault>
    requires { IsOpen journal.old (B.outside bench.old) }
    ensures ok { OnOk result (journal.new ≡ grown journal.old (length body.now)) }
    ensures err { OnErr result (journal.new ≡ journal.old) }
    ensures does { DoesAlone journal.old journal.new (write_of journal.old.area body.now None ∷ []) (result_err result) (B.outside bench.old) (B.outside bench.new) }

    // The same of the one area, whatever the others have.
    ensures kept { OnOk result ((bodies : List (List ℕ)) → Keeps journal.old bodies (B.outside bench.old) → Keeps journal.new (bodies ++ body.now ∷ []) (B.outside bench.new)) }
    ensures images { ChangesOnly journal.old.area (AddsOne journal.old body.now (B.outside bench.old)) (B.outside bench.old) (B.outside bench.new) }
    ensures unwritten { journal.old.limit < journal.old.length + 9 + length body.now → bench.new ≡ bench.old }
{
    an_append_writes_one_record::<B>();
    journal.append(bench, body)
}
