//! Devices in memory, which move bytes in pieces and fail at calls that are set in advance.
ghost use Rattle.std.specs.Prelude.{◌≡◌, ◌↔◌, ◌<◌, ◌≤◌, ◌++◌, [], List, Some, length, min, drop, take, IfOk, OnErr, IsErr, Contains};
ghost use Rattle.fr_doc.specs.Causes.{HasCause, MovesAtMost, ReadMoves, EndsOnlyAtEnd};
ghost use Rattle.fr_doc.specs.Causes.{WriteMoves, TakesSome, one_more};

use super::device::{Failed, Sink, Source};
use super::pieces::copy_front;
use super::schedule::Schedule;
use fr_shape::Items;
use std::alloc::Global;
use std::marker::Model;

/// A source that gives the bytes of a list, piece by piece.
#[derive(Drop)]
pub struct MemSource {
    bytes: Items<u8>,
    position: usize,
    piece: usize,
    schedule: Schedule,
}

impl Model for MemSource {
    ghost use Rattle.std.specs.Prelude.{◌<◌, ◌≤◌, length, drop};
    ghost use Rattle.fr_doc.specs.Memory.{MemoryInput};

    ghost Value = { MemoryInput };

    ghost view = { λ s. record {
      left = drop s.position s.bytes;
      piece = s.piece;
      fails = s.schedule.fails;
      calls = s.schedule.calls;
      faults = s.schedule.faults;
    } };

    ghost invariant = { λ s. (s.position ≤ length s.bytes) × (0 < s.piece) };
}

impl MemSource {
    /// A source that gives at most `piece` bytes a call, and fails at the calls whose numbers are
    /// in `fails`. The first call is number 1.
    pub fn new(bytes: Items<u8>, piece: usize, fails: Items<u64>) -> MemSource
        requires positive { 0 < piece }
        ensures unread { result ≡ record {
          left = bytes;
          piece = piece;
          fails = fails;
          calls = 0;
          faults = 0;
        } }
    {
        MemSource {
            bytes,
            position: 0,
            piece,
            schedule: Schedule::new(fails),
        }
    }
}

impl Source for MemSource {
    ghost left = { λ source. Some source.left };

    ghost faults = { λ source. source.faults };

    fn read(&mut self, into: &mut [u8]) -> Result<usize, Failed>
        // As at each source.
        requires room { 0 < length into.old }
        ensures at_most { MovesAtMost (length into.new) result }
        ensures bytes { ReadMoves (Some self.old.left) (Some self.new.left) result into.new }
        ensures end { EndsOnlyAtEnd (Some self.old.left) result }
        ensures never_falls { self.old.faults ≤ self.new.faults }
        ensures cause { HasCause self.old.faults self.new.faults result }

        // At this one.
        ensures fails { IsErr result ↔ Contains self.old.fails (one_more self.old.calls) }
        ensures count { IfOk result (λ n.
            n ≡ min self.old.piece (min (length into.old) (length self.old.left))) }
        ensures ok { IfOk result (λ n. self.new ≡ record self.old {
          left = drop n self.old.left;
          calls = one_more self.old.calls;
        }) }
        ensures err { OnErr result (self.new ≡ record self.old {
          calls = one_more self.old.calls;
          faults = one_more self.old.faults;
        }) }
    {
        self.schedule.count_call()?;
        let rest = &self.bytes.as_slice()[self.position..];
        let n = copy_front(self.piece, rest, into);
        self.position += n;
        Ok(n)
    }
}

/// A sink that takes bytes piece by piece and keeps them.
#[derive(Drop)]
pub struct MemSink {
    taken: Vec<u8>,
    piece: usize,
    schedule: Schedule,
}

impl Model for MemSink {
    ghost use Rattle.std.specs.Prelude.{◌<◌};
    ghost use Rattle.fr_doc.specs.Memory.{MemoryOutput};

    ghost Value = { MemoryOutput };

    ghost view = { λ s. record {
      taken = s.taken.items;
      piece = s.piece;
      fails = s.schedule.fails;
      calls = s.schedule.calls;
      faults = s.schedule.faults;
    } };

    ghost invariant = { λ s. 0 < s.piece };
}

impl MemSink {
    /// A sink that takes at most `piece` bytes a call, and fails at the calls whose numbers are in
    /// `fails`. The first call is number 1.
    pub fn new(alloc: Global, piece: usize, fails: Items<u64>) -> MemSink
        requires positive { 0 < piece }
        ensures unwritten { result ≡ record {
          taken = [];
          piece = piece;
          fails = fails;
          calls = 0;
          faults = 0;
        } }
    {
        MemSink {
            taken: Vec::new(alloc),
            piece,
            schedule: Schedule::new(fails),
        }
    }

    /// The bytes that were taken.
    pub fn taken(&self) -> &[u8]
        ensures taken { result.now ≡ self.now.taken }
    {
        self.taken.as_slice()
    }
}

impl Sink for MemSink {
    ghost taken = { λ sink. Some sink.taken };

    ghost faults = { λ sink. sink.faults };

    fn write(&mut self, piece: &[u8]) -> Result<usize, Failed>
        // As at each sink.
        ensures at_most { MovesAtMost (length piece.now) result }
        ensures some { TakesSome result piece.now }
        ensures bytes { WriteMoves (Some self.old.taken) (Some self.new.taken) result piece.now }
        ensures never_falls { self.old.faults ≤ self.new.faults }
        ensures cause { HasCause self.old.faults self.new.faults result }

        // At this one. Where there is no memory for a piece, it fails at other calls too.
        ensures fails { Contains self.old.fails (one_more self.old.calls) → IsErr result }
        ensures count { IfOk result (λ n. n ≡ min self.old.piece (length piece.now)) }
        ensures ok { IfOk result (λ n. self.new ≡ record self.old {
          taken = self.old.taken ++ take n piece.now;
          calls = one_more self.old.calls;
        }) }
        ensures err { OnErr result (self.new ≡ record self.old {
          calls = one_more self.old.calls;
          faults = one_more self.old.faults;
        }) }
    {
        self.schedule.count_call()?;
        let n = self.piece.min(piece.len());
        if self.taken.extend_from_slice(&piece[..n]).is_err() {
            return Err(self.schedule.count_fault());
        }
        Ok(n)
    }
}
