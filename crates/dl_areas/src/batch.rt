// Appends that say what they do among five areas, and a small step of several of them: an instance of the clauses.
ghost use Rattle.std.specs.Prelude.{◌≡◌, ◌≢◌, [], ◌∷◌, ◌++◌, None};
ghost use Rattle.std.specs.Result.{result_err};
ghost use Rattle.dl_journal.specs.Open.{IsOpen};
ghost use Rattle.dl_areas.specs.Batch.{writes_in};
ghost use Rattle.dl_areas.specs.Lists.{AreReady, Journals, with_journal, write_of};
ghost use Rattle.dl_areas.specs.Writing.{Does, DoesAlone, Ends};

use crate::laws::an_append_writes_one_record;
use dl_base::{AppendFault, Bench, Full, List, StepFault, Text};
use dl_journal::Journal;
use std::alloc::Global;

/// Adds a record to a journal, unless a number in it is exhausted: then `exhausted` says what is full. It takes no memory.
pub fn append<B: Bench>(
    journal: &mut Journal,
    bench: &mut B,
    body: &[u8],
    exhausted: Option<Full>,
) -> Result<(), AppendFault>
    requires { IsOpen journal.old (B.outside bench.old) }
    ensures { DoesAlone journal.old journal.new (write_of journal.old.area body.now exhausted ∷ []) (result_err result) (B.outside bench.old) (B.outside bench.new) }
{
    an_append_writes_one_record::<B>();
    if let Some(full) = exhausted {
        return Err(AppendFault::Full(full));
    }
    journal.append(bench, body)
}

/// Adds a record with each of these bodies to a journal, in order, up to the first that does not fit. It takes no memory.
pub fn append_all<B: Bench>(
    journal: &mut Journal,
    bench: &mut B,
    bodies: &List<Text>,
) -> Result<(), AppendFault>
    requires { IsOpen journal.old (B.outside bench.old) }
    ensures { DoesAlone journal.old journal.new (writes_in journal.old.area bodies.now) (result_err result) (B.outside bench.old) (B.outside bench.new) }
{
    for body in bodies.as_slice() {
        match append(journal, bench, body.bytes(), None) {
            Ok(()) => {}
            Err(fault) => return Err(fault),
        }
    }
    Ok(())
}

// The records of a batch, in two areas.
fn write_batch<B: Bench>(
    first: &mut Journal,
    second: &mut Journal,
    bench: &mut B,
    bodies: &List<Text>,
    mark: &[u8],
) -> Result<(), AppendFault>
    requires first { IsOpen first.old (B.outside bench.old) }
    requires second { IsOpen second.old (B.outside bench.old) }
    requires apart { second.old.area ≢ first.old.area }
    ensures { (js : Journals) → AreReady js (B.outside bench.old) → js first.old.area ≡ first.old → js second.old.area ≡ second.old
        → Does js (with_journal second.new (with_journal first.new js)) (writes_in first.old.area bodies.now ++ write_of second.old.area mark.now None ∷ []) (result_err result) (B.outside bench.old) (B.outside bench.new) }
{
    match append_all(first, bench, bodies) {
        Ok(()) => append(second, bench, mark, None),
        Err(fault) => Err(fault),
    }
}

/// A batch: a record with each of these bodies in one area, and then a mark in another. It takes its memory before it writes.
pub fn append_batch<B: Bench>(
    alloc: Global,
    first: &mut Journal,
    second: &mut Journal,
    bench: &mut B,
    bodies: &List<Text>,
    mark: &[u8],
) -> Result<(), StepFault>
    requires first { IsOpen first.old (B.outside bench.old) }
    requires second { IsOpen second.old (B.outside bench.old) }
    requires apart { second.old.area ≢ first.old.area }
    ensures { (js : Journals) → AreReady js (B.outside bench.old) → js first.old.area ≡ first.old → js second.old.area ≡ second.old
        → Ends js (with_journal second.new (with_journal first.new js)) (writes_in first.old.area bodies.now ++ write_of second.old.area mark.now None ∷ []) (result_err result) (B.outside bench.old) (B.outside bench.new) }
{
    let Ok(kept) = Text::of(alloc, mark) else {
        return Err(StepFault::Memory);
    };
    match write_batch(first, second, bench, bodies, kept.bytes()) {
        Ok(()) => Ok(()),
        Err(fault) => Err(StepFault::from(fault)),
    }
}
