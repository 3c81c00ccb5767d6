// Which calls fail.
ghost use Rattle.std.specs.Prelude.{◌≡◌, ◌<◌, ◌≤◌, [], None};
ghost use Rattle.dl_bench.specs.Tallies.{kind_number, fresh, is_due, is_listed, counted, hungry, faults};

use crate::Call;
use dl_base::List;
use std::marker::Model;

/// Which calls are to fail, and how many were made. Contracts see it as those counts.
#[derive(Drop)]
pub struct Plan {
    failing: List<(Call, u64)>,
    fuse: Option<u64>,
    made: [u64; 6],
    calls: u64,
    stopped: u64,
    starved: u64,
}

impl Model for Plan {
    ghost use Rattle.std.specs.Prelude.{◌≡◌, [], None};
    ghost use Rattle.dl_bench.specs.Tallies.{Tally};

    ghost Value = { Tally };

    ghost view = { λ p. record { failing = p.failing; fuse = p.fuse; made = p.made; calls = p.calls; stopped = p.stopped; starved = p.starved } };

    ghost invariant = { λ p. p.failing ≡ [] → p.fuse ≡ None → p.stopped ≡ 0 };
}

impl Plan {
    pub fn new(failing: List<(Call, u64)>, fuse: Option<u64>) -> Plan
        ensures { result ≡ fresh failing fuse }
    {
        Plan {
            failing,
            fuse,
            made: [0; 6],
            calls: 0,
            stopped: 0,
            starved: 0,
        }
    }

    /// Whether the next call is to fail, if it is of this kind.
    fn is_due(&self, call: Call) -> bool
        ensures { result ≡ is_due self.now call }
    {
        let number = self.made[kind_number(call)].saturating_add(1);
        if is_listed(self.failing.as_slice(), call, number) {
            return true;
        }
        match self.fuse {
            Some(fuse) => fuse < self.calls.saturating_add(1),
            None => false,
        }
    }

    /// Counts a call, and says whether it is to fail.
    pub fn fails(&mut self, call: Call) -> bool
        ensures value { result ≡ is_due self.old call }
        ensures after { self.new ≡ counted self.old call }
        ensures count { faults self.old ≤ faults self.new }
    {
        let due = self.is_due(call);
        let kind = kind_number(call);
        self.made[kind] = self.made[kind].saturating_add(1);
        self.calls = self.calls.saturating_add(1);
        if due {
            self.stopped = self.stopped.saturating_add(1);
        }
        due
    }

    /// Counts a call that found no memory.
    pub fn starve(&mut self)
        ensures after { self.new ≡ hungry self.old }
        ensures count { faults self.old ≤ faults self.new }
    {
        self.starved = self.starved.saturating_add(1);
    }

    pub fn starved(&self) -> u64
        ensures value { result ≡ self.now.starved }
        ensures alone { self.now.failing ≡ [] → self.now.fuse ≡ None → faults self.now ≡ result }
    {
        self.starved
    }
}

fn kind_number(call: Call) -> usize
    ensures value { result ≡ kind_number call }
    ensures range { result < 6 }
{
    match call {
        Call::Length => 0,
        Call::Read => 1,
        Call::Write => 2,
        Call::Renew => 3,
        Call::Sync => 4,
        Call::Say => 5,
    }
}

fn is_listed(failing: &[(Call, u64)], call: Call, number: u64) -> bool
    ensures { result ≡ is_listed failing.now call number }
{
    failing.iter().any(|f| f.0 == call && f.1 == number)
}
