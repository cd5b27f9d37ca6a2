//! What a program reads from and writes to: two traits that say which bytes move and why a call
//! fails.
ghost use Rattle.std.specs.Prelude.{◌<◌, ◌≡◌, ◌≤◌, ℕ, List, Option, length};
ghost use Rattle.fr_doc.specs.Causes.{HasCause, MovesAtMost, ReadMoves, EndsOnlyAtEnd};
ghost use Rattle.fr_doc.specs.Causes.{WriteMoves, TakesSome, Rose, one_more};

/// The device failed. Its count of faults is higher than before the call, or stands at its last
/// value.
#[derive(Drop)]
pub struct Failed;

/// Raises a count of faults, which stands still at its last value.
pub(crate) fn count_fault(faults: &mut u64) -> Failed
    ensures value { faults.new ≡ one_more faults.old }
    ensures never_falls { faults.old ≤ faults.new }
    ensures cause { Rose faults.old faults.new }
{
    *faults = faults.saturating_add(1);
    Failed
}

/// A device that gives bytes.
pub trait Source {
    /// The bytes that are left, where the device tells them.
    ghost left: { Self → Option (List ℕ) };

    /// The device's own count of its faults, a u64 that never falls and stands still at its last
    /// value. A call that fails leaves it higher than before, or at that value. Whether a call that
    /// succeeds leaves it as it was, and by how much a failure raises it, is the device's to say.
    ghost faults: { Self → ℕ };

    /// Reads the next bytes to the front of a piece, and returns how many. 0 is the end.
    fn read(&mut self, into: &mut [u8]) -> Result<usize, Failed>
        requires room { 0 < length into.old }
        ensures at_most { MovesAtMost (length into.new) result }
        ensures bytes { ReadMoves (left self.old) (left self.new) result into.new }
        ensures end { EndsOnlyAtEnd (left self.old) result }
        ensures never_falls { faults self.old ≤ faults self.new }
        ensures cause { HasCause (faults self.old) (faults self.new) result };
}

/// A device that takes bytes.
pub trait Sink {
    /// The bytes that were taken, where the device tells them.
    ghost taken: { Self → Option (List ℕ) };

    /// The device's own count of its faults, a u64 that never falls and stands still at its last
    /// value. A call that fails leaves it higher than before, or at that value. Whether a call that
    /// succeeds leaves it as it was, and by how much a failure raises it, is the device's to say.
    ghost faults: { Self → ℕ };

    /// Takes bytes from the front of a piece, and returns how many. To take nothing of a piece that
    /// isn't empty is a fault.
    fn write(&mut self, piece: &[u8]) -> Result<usize, Failed>
        ensures at_most { MovesAtMost (length piece.now) result }
        ensures some { TakesSome result piece.now }
        ensures bytes { WriteMoves (taken self.old) (taken self.new) result piece.now }
        ensures never_falls { faults self.old ≤ faults self.new }
        ensures cause { HasCause (faults self.old) (faults self.new) result };
}
