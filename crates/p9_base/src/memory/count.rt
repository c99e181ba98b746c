// The count of the calls on an object in memory, and of those that failed.
ghost use Rattle.std.specs.Prelude.{◌≡◌};

use crate::bytes::Calls;
use std::marker::Model;

#[derive(Drop)]
pub(crate) struct CallCount {
    fails: Calls,
    calls: u64,
    failed: u64,
}

impl Model for CallCount {
    ghost use Rattle.p9_base.specs.Memory.{Faults};

    ghost Value = { Faults };

    ghost view = { λ c. record { fails = c.fails; calls = c.calls; failed = c.failed } };
}

impl CallCount {
    ghost use Rattle.p9_base.specs.Memory.{is_to_fail, after_failure, after_success};
    ghost use Rattle.p9_base.specs.Outside.{Rose};

    pub(crate) fn new(fails: Calls) -> CallCount
        ensures { result ≡ record { fails = fails; calls = 0; failed = 0 } }
    {
        CallCount {
            fails,
            calls: 0,
            failed: 0,
        }
    }

    /// Whether the call to come is to fail.
    pub(crate) fn is_to_fail(&self) -> bool
        ensures { result ≡ is_to_fail self.now }
    {
        self.fails.list.contains(&self.calls)
    }

    /// Counts a call that failed.
    pub(crate) fn fail(&mut self)
        ensures counted { self.new ≡ after_failure self.old }
        ensures risen { Rose self.old.failed self.new.failed }
    {
        self.calls = self.calls.saturating_add(1);
        self.failed = self.failed.saturating_add(1);
    }

    /// Counts a call that did not fail.
    pub(crate) fn succeed(&mut self)
        ensures { self.new ≡ after_success self.old }
    {
        self.calls = self.calls.saturating_add(1);
    }
}
