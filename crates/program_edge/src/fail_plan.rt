ghost use Rattle.std.specs.Prelude.{◌≡◌, [], nat_eq};
ghost use Rattle.std.specs.List.{list_any};
ghost use Rattle.program_edge.specs.FailPlans.{no_calls, fails_next, after_call};

use std::marker::Model;

/// Which calls of a thing in memory fail, by their numbers from 1, and how many calls and faults there were.
#[derive(Drop)]
pub struct FailPlan {
    fails: Vec<u64>,
    calls: u64,
    faults: u64,
}

impl Model for FailPlan {
    ghost use Rattle.program_edge.specs.FailPlans.{FailPlan as Plan};

    ghost Value = { Plan };

    ghost view = { λ p. record { fails = p.fails.items; calls = p.calls; faults = p.faults } };
}

fn has_number(numbers: &[u64], number: u64) -> bool
    ensures { result ≡ list_any (nat_eq number) numbers.now }
{
    numbers.iter().any(|n| number == *n)
}

impl FailPlan {
    pub fn make(fails: Vec<u64>) -> FailPlan
        ensures { result ≡ no_calls fails.items }
    {
        FailPlan {
            fails,
            calls: 0,
            faults: 0,
        }
    }

    /// Counts one more call, and tells whether it fails.
    pub fn next(&mut self) -> bool
        ensures fails { result ≡ fails_next self.old }
        ensures counted { self.new ≡ after_call self.old }
    {
        let calls = self.calls;
        if calls == u64::MAX {
            return false;
        }
        self.calls = calls + 1;
        if !has_number(&self.fails, calls + 1) {
            return false;
        }
        self.faults = self.faults.saturating_add(1);
        true
    }

    /// Memory for more, of the same allocator, which is not taken yet.
    pub fn empty(&self) -> Vec<u8>
        ensures { result.items ≡ [] }
    {
        Vec::new(*self.fails.allocator())
    }
}
