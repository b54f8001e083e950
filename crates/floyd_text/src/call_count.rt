ghost use Rattle.std.specs.Prelude.{◌≡◌, ◌≤◌, true};
ghost use Rattle.floyd_text.specs.Calls.{after_call, fails_next};

use std::marker::Model;

/// A count of calls from 1, of which some are to fail, and of the faults. Both counts stand still at the greatest `u64`.
#[derive(Debug, Drop)]
pub(crate) struct CallCount {
    failing: Vec<u64>,
    count: u64,
    faults: u64,
}

impl Model for CallCount {
    ghost use Rattle.floyd_text.specs.Calls.{Calls};

    ghost Value = { Calls };

    ghost view = { λ c. record { failing = c.failing.items; count = c.count; faults = c.faults } };
}

impl CallCount {
    pub(crate) fn new(failing: Vec<u64>) -> CallCount
        ensures { result ≡ record { failing = failing.items; count = 0; faults = 0 } }
    {
        CallCount {
            failing,
            count: 0,
            faults: 0,
        }
    }

    /// Counts a call, and says whether it is to fail.
    pub(crate) fn next_fails(&mut self) -> bool
        ensures fails { result ≡ fails_next self.old }
        ensures after { self.new ≡ after_call self.old result }
        ensures later { self.old.faults ≤ self.new.faults }
    {
        self.count = self.count.saturating_add(1);
        let count = self.count;
        let fails = self.failing.iter().any(|k| *k == count);
        if fails {
            self.faults = self.faults.saturating_add(1);
        }
        fails
    }

    /// Counts a call that fails whatever its number is.
    pub(crate) fn fail(&mut self)
        ensures after { self.new ≡ after_call self.old true }
        ensures later { self.old.faults ≤ self.new.faults }
    {
        self.count = self.count.saturating_add(1);
        self.faults = self.faults.saturating_add(1);
    }

    pub(crate) fn count(&self) -> u64
        ensures { result ≡ self.now.count }
    {
        self.count
    }

    pub(crate) fn faults(&self) -> u64
        ensures { result ≡ self.now.faults }
    {
        self.faults
    }
}
