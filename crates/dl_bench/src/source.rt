// A source in memory.
ghost use Rattle.std.specs.Prelude.{◌≡◌, ◌≤◌, ◌<◌, [], List, ℕ, length, take, drop, min, is_err, Some, IfOk, OnOk, OnErr};
ghost use Rattle.dl_base.specs.Sources.{Took, RoseFrom};
ghost use Rattle.dl_bench.specs.Feeds.{fails_next, taken, missed, is_number};

use dl_base::{Failed, Memory, Source};
use std::alloc::Global;
use std::marker::Model;

/// Bytes in memory, of which one take may fail. Contracts see it as what is left.
#[derive(Drop)]
pub struct MemorySource {
    bytes: Vec<u8>,
    at: usize,
    failing: Option<u64>,
    takes: u64,
    faults: u64,
}

impl Model for MemorySource {
    ghost use Rattle.std.specs.Prelude.{◌≤◌, length, drop};
    ghost use Rattle.dl_bench.specs.Feeds.{Feed};

    ghost Value = { Feed };

    ghost view = { λ s. record { rest = drop s.at s.bytes.items; failing = s.failing; takes = s.takes; faults = s.faults } };

    ghost invariant = { λ s. s.at ≤ length s.bytes.items };
}

impl MemorySource {
    /// A source of these bytes. Its nth take fails, counted from 1.
    pub fn new(alloc: Global, bytes: &[u8], failing: Option<u64>) -> Result<MemorySource, Memory>
        ensures { IfOk result (λ made. made ≡ record { rest = bytes.now; failing = failing; takes = 0; faults = 0 }) }
    {
        Ok(MemorySource {
            bytes: bytes.to_vec(alloc)?,
            at: 0,
            failing,
            takes: 0,
            faults: 0,
        })
    }
}

impl Source for MemorySource {
    ghost rest = { λ s. Some s.rest };

    ghost faults = { λ s. s.faults };

    fn take(&mut self, into: &mut [u8]) -> Result<usize, Failed>
        ensures count { IfOk result (λ n. n ≤ length into.old) }
        ensures bytes { IfOk result (λ n. Took (take n into.new) (Some self.old.rest) (Some self.new.rest)) }
        ensures end { IfOk result (λ n. n ≡ 0 → 0 < length into.old → (left : List ℕ) → Some self.old.rest ≡ Some left → left ≡ []) }
        ensures never_falls { self.old.faults ≤ self.new.faults }
        ensures cause { OnErr result (RoseFrom self.old.faults self.new.faults) }
        ensures clean { OnOk result (self.new.faults ≡ self.old.faults) }
        ensures due { is_err result ≡ fails_next self.old }
        ensures most { IfOk result (λ n. n ≡ min (length self.old.rest) (length into.old)) }
        ensures behind { IfOk result (λ n. drop n into.new ≡ drop n into.old) }
        ensures ok { IfOk result (λ n. self.new ≡ taken self.old n) }
        ensures err { OnErr result (self.new ≡ missed self.old) }
        ensures untouched { OnErr result (into.new ≡ into.old) }
    {
        self.takes = self.takes.saturating_add(1);
        if is_number(self.failing, self.takes) {
            self.faults = self.faults.saturating_add(1);
            return Err(Failed);
        }
        let count = fill(&self.bytes[self.at..], into);
        self.at += count;
        Ok(count)
    }
}

fn is_number(failing: Option<u64>, number: u64) -> bool
    ensures { result ≡ is_number failing number }
{
    match failing {
        Some(nth) => nth == number,
        None => false,
    }
}

/// Copies as much as there is and fits, to the front of the buffer.
fn fill(rest: &[u8], into: &mut [u8]) -> usize
    ensures count { result ≡ min (length rest.now) (length into.old) }
    ensures front { take result into.new ≡ take result rest.now }
    ensures behind { drop result into.new ≡ drop result into.old }
{
    let count = rest.len().min(into.len());
    let (front, _) = into.split_at_mut(count);
    front.copy_from_slice(&rest[..count]);
    count
}
