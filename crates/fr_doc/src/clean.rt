//! Devices that never fail.
ghost use Rattle.std.specs.Prelude.{◌≡◌, ◌<◌, ◌≤◌, ℕ, List, Some, None, Ok, min, length, drop};
ghost use Rattle.fr_doc.specs.Causes.{ReadMoves};

use super::device::{Failed, Sink, Source};
use super::pieces::copy_front;
use fr_shape::Items;
use std::marker::Model;

/// A source that gives the bytes of a list, as many as fit.
#[derive(Drop)]
pub struct CleanSource {
    bytes: Items<u8>,
    position: usize,
}

impl Model for CleanSource {
    ghost Value = { List ℕ };

    ghost view = { λ source. drop source.position source.bytes };

    ghost invariant = { λ source. source.position ≤ length source.bytes };
}

impl CleanSource {
    /// A source that gives these bytes.
    pub fn new(bytes: Items<u8>) -> CleanSource
        ensures unread { result ≡ bytes }
    {
        CleanSource { bytes, position: 0 }
    }
}

impl Source for CleanSource {
    ghost left = { λ source. Some source };

    ghost faults = { λ _. 0 };

    fn read(&mut self, into: &mut [u8]) -> Result<usize, Failed>
        requires room { 0 < length into.old }
        ensures count { result ≡ Ok (min (length into.old) (length self.old)) }
        ensures bytes { ReadMoves (Some self.old) (Some self.new) result into.new }
        ensures rest { self.new ≡ drop (length into.old) self.old }
    {
        let rest = &self.bytes.as_slice()[self.position..];
        let n = copy_front(into.len(), rest, into);
        self.position += n;
        Ok(n)
    }
}

/// A sink that takes each piece whole and keeps nothing of it.
#[derive(Drop)]
pub struct CleanSink;

impl CleanSink {
    /// A sink that took nothing yet.
    pub fn new() -> CleanSink
        ensures no_faults { ⟦<CleanSink as Sink>⟧.faults result ≡ 0 }
    {
        CleanSink
    }
}

impl Sink for CleanSink {
    ghost taken = { λ _. None };

    ghost faults = { λ _. 0 };

    fn write(&mut self, piece: &[u8]) -> Result<usize, Failed>
        ensures whole { result ≡ Ok (length piece.now) }
    {
        Ok(piece.len())
    }
}
