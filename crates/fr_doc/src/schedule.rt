//! Which calls of a device fail, where that is set in advance.
ghost use Rattle.std.specs.Prelude.{◌≡◌, ◌≤◌, ◌↔◌, OnOk, OnErr, IsErr, Contains};
ghost use Rattle.fr_doc.specs.Causes.{one_more};

use super::device::{Failed, count_fault};
use fr_shape::Items;

/// The numbers of the calls that are to fail, from 1 on, and the counts of the calls and of the
/// faults so far, which stand still at their last value.
#[derive(Drop)]
pub(crate) struct Schedule {
    pub(crate) fails: Items<u64>,
    pub(crate) calls: u64,
    pub(crate) faults: u64,
}

impl Schedule {
    pub(crate) fn new(fails: Items<u64>) -> Schedule
        ensures { result ≡ record { fails = fails; calls = 0; faults = 0 } }
    {
        Schedule {
            fails,
            calls: 0,
            faults: 0,
        }
    }

    /// Counts a call, and a fault where the call is to fail.
    pub(crate) fn count_call(&mut self) -> Result<(), Failed>
        ensures fails { IsErr result ↔ Contains self.old.fails (one_more self.old.calls) }
        ensures ok { OnOk result (self.new ≡ record self.old { calls = one_more self.old.calls }) }
        ensures err { OnErr result (self.new ≡ record self.old {
          calls = one_more self.old.calls;
          faults = one_more self.old.faults;
        }) }
        ensures never_falls { self.old.faults ≤ self.new.faults }
    {
        self.calls = self.calls.saturating_add(1);
        if self.fails.as_slice().contains(&self.calls) {
            return Err(self.count_fault());
        }
        Ok(())
    }

    /// Counts a fault.
    pub(crate) fn count_fault(&mut self) -> Failed
        ensures value { self.new ≡ record self.old { faults = one_more self.old.faults } }
        ensures never_falls { self.old.faults ≤ self.new.faults }
    {
        count_fault(&mut self.faults)
    }
}
