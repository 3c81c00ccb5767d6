// The script, from a stream.
ghost use Rattle.std.specs.Prelude.{◌≡◌, ◌⊎◌, ◌<◌, ◌≤◌, [], List, ℕ, length, take, is_err, Some, IfOk, OnOk, OnErr};
ghost use Rattle.dl_base.specs.Sources.{Took, RoseFrom};
ghost use Rattle.dl_host.specs.Hosts.{count_after, NeverLeftAlone};

use crate::{Reader, Stop};
use dl_base::{Failed, Source};

/// A stream as the source of a script, which counts its faults. A read that was interrupted is made again.
#[derive(Drop)]
pub struct InputSource<R: Reader + Drop> {
    reader: R,
    faults: u64,
}

impl<R: Reader + Drop> InputSource<R> {
    pub fn new(reader: R) -> InputSource<R>
        ensures { result ≡ record { reader = reader; faults = 0 } }
    {
        InputSource { reader, faults: 0 }
    }
}

impl<R: Reader + Drop> Source for InputSource<R> {
    ghost rest = { λ s. R.rest s.reader };

    ghost faults = { λ s. s.faults };

    fn take(&mut self, into: &mut [u8]) -> Result<usize, Failed>
        ensures count { IfOk result (λ n. n ≤ length into.old) }
        ensures bytes { IfOk result (λ n. Took (take n into.new) (R.rest self.old.reader) (R.rest self.new.reader)) }
        ensures end { IfOk result (λ n. n ≡ 0 → 0 < length into.old → (left : List ℕ) → R.rest self.old.reader ≡ Some left → left ≡ []) }
        ensures never_falls { self.old.faults ≤ self.new.faults }
        ensures reader_clean { OnOk result (R.faults self.new.reader ≡ R.faults self.old.reader) }
        ensures cause { OnErr result (RoseFrom self.old.faults self.new.faults) }
        ensures exactly { self.new.faults ≡ count_after (is_err result) self.old.faults }
        ensures by_reader { OnErr result (RoseFrom (R.faults self.old.reader) (R.faults self.new.reader) ⊎ NeverLeftAlone (R.interruptions self.new.reader)) }
    {
        let answer = read(&mut self.reader, into);
        if answer.is_err() {
            self.faults = self.faults.saturating_add(1);
        }
        answer
    }
}

/// Reads the next bytes; an interrupted call is made again.
fn read<R: Reader>(reader: &mut R, into: &mut [u8]) -> Result<usize, Failed>
    ensures count { IfOk result (λ n. n ≤ length into.old) }
    ensures bytes { IfOk result (λ n. Took (take n into.new) (R.rest reader.old) (R.rest reader.new)) }
    ensures end { IfOk result (λ n. n ≡ 0 → 0 < length into.old → (left : List ℕ) → R.rest reader.old ≡ Some left → left ≡ []) }
    ensures clean { OnOk result (R.faults reader.new ≡ R.faults reader.old) }
    ensures cause { OnErr result (RoseFrom (R.faults reader.old) (R.faults reader.new) ⊎ NeverLeftAlone (R.interruptions reader.new)) }
{
    'again: for _turn in 0..u64::MAX {
        match reader.read(into) {
            Ok(count) => return Ok(count),
            Err(Stop::Interrupted) => {}
            Err(Stop::Failed) => return Err(Failed),
        }
    }
    Err(Failed)
}
