//! How often each token was released.
ghost use Rattle.std.specs.Prelude.{◌≡◌, ◌<◌, ◌≤◌, ◌+◌, ◌^◌, length, replicate, slice_index, slice_set, IfOk};

use crate::OutOfMemory;
use std::alloc::Global;
use std::marker::Model;

/// One count a token, for the tokens 0 to `len` less 1. Contracts see the list of the counts.
#[derive(Drop)]
pub struct Ledger {
    counts: Vec<u32>,
}

impl Model for Ledger {
    ghost use Rattle.std.specs.Prelude.{List, ℕ, ◌<◌, ◌^◌, length};

    ghost Value = { List ℕ };

    ghost view = { λ l. l.counts.items };

    ghost invariant = { λ l. length l.counts.items < 2 ^ 32 };
}

impl Ledger {
    /// `n` tokens, none of them released yet.
    pub fn new(alloc: Global, n: u32) -> Result<Ledger, OutOfMemory>
        ensures zeros { IfOk result (λ l. l ≡ replicate n 0) }
    {
        Ok(Ledger {
            counts: vec![in alloc; 0u32; n as usize]?,
        })
    }

    /// How many tokens there are.
    pub fn len(&self) -> u32
        ensures count { result ≡ length self.now }
    {
        self.counts.len() as u32
    }

    /// How often token `t` was released.
    pub fn count(&self, t: u32) -> u32
        requires known { t < length self.now }
        ensures releases { result ≡ slice_index self.now t }
    {
        let index = t as usize;
        self.counts[index]
    }

    /// Records one release of token `t`.
    pub fn release(&mut self, t: u32)
        requires known { t < length self.old }
        requires room { slice_index self.old t < u32.MAX }
        ensures one_more { self.new ≡ slice_set self.old t (slice_index self.old t + 1) }
    {
        self.counts[t as usize] += 1;
    }
}
