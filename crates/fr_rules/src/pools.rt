//! The pool that holds the entries and buckets of all long lookups.
ghost use Rattle.std.specs.Prelude.{◌≡◌, ◌+◌, ◌≤◌, [], ◌++◌, length, IfOk, OnOk, OnErr};
ghost use Rattle.fr_arena.specs.Ranges.{indices_from};
ghost use Rattle.fr_rules.specs.Pools.{HasGrown, part_of};

use crate::{FieldLookupEntry, PrefixBucket};
use fr_arena::{Arena, SliceRange};
use fr_shape::OutOfMemory;
use std::alloc::Global;
use std::marker::Model;

/// The entries and the buckets of all long lookups of a plan. It only grows.
#[derive(Drop)]
pub struct LookupPool {
    entries: Arena<FieldLookupEntry>,
    buckets: Arena<PrefixBucket>,
}

impl Model for LookupPool {
    ghost use Rattle.fr_rules.specs.Pools.{Pool, pool_code};
    ghost use Rattle.fr_rules.specs.contracts.entries.FieldLookupEntry as entry;
    ghost use Rattle.fr_rules.specs.contracts.buckets.PrefixBucket as bucket;

    ghost Value = { Pool };

    ghost coded = { pool_code entry.the_row.coded bucket.the_row.coded };

    ghost view = { λ pool. record { entries = pool.entries; buckets = pool.buckets } };
}

impl LookupPool {
    /// An empty pool. Takes no memory.
    pub fn new(alloc: Global) -> LookupPool
        ensures empty { result ≡ record { entries = []; buckets = [] } }
    {
        LookupPool {
            entries: Arena::new(alloc),
            buckets: Arena::new(alloc),
        }
    }

    /// The entries of a lookup.
    pub(crate) fn entries(&self, range: SliceRange<FieldLookupEntry>) -> &[FieldLookupEntry]
        requires { range.start + range.len ≤ length self.now.entries }
        ensures { result.now ≡ part_of self.now.entries range }
    {
        self.entries.get_slice(range)
    }

    /// The buckets of a lookup.
    pub(crate) fn buckets(&self, range: SliceRange<PrefixBucket>) -> &[PrefixBucket]
        requires { range.start + range.len ≤ length self.now.buckets }
        ensures { result.now ≡ part_of self.now.buckets range }
    {
        self.buckets.get_slice(range)
    }

    /// Puts the entries behind the others.
    pub(crate) fn add_entries(
        &mut self,
        entries: Vec<FieldLookupEntry>,
    ) -> Result<SliceRange<FieldLookupEntry>, OutOfMemory>
        ensures added { OnOk result (self.new.entries ≡ self.old.entries ++ entries.items) }
        ensures range { IfOk result (λ range. range
            ≡ indices_from (length self.old.entries) (length entries.items)) }
        ensures others { self.new.buckets ≡ self.old.buckets }
        ensures refused { OnErr result (self.new.entries ≡ self.old.entries) }
        ensures grown { HasGrown self.old self.new }
    {
        if entries.len() > u32::MAX as usize - self.entries.len() {
            return Err(OutOfMemory);
        }
        self.entries
            .alloc_extend(entries)
            .map_err(|_refused| OutOfMemory)
    }

    /// Puts the buckets behind the others.
    pub(crate) fn add_buckets(
        &mut self,
        buckets: Vec<PrefixBucket>,
    ) -> Result<SliceRange<PrefixBucket>, OutOfMemory>
        ensures added { OnOk result (self.new.buckets ≡ self.old.buckets ++ buckets.items) }
        ensures range { IfOk result (λ range. range
            ≡ indices_from (length self.old.buckets) (length buckets.items)) }
        ensures others { self.new.entries ≡ self.old.entries }
        ensures refused { OnErr result (self.new.buckets ≡ self.old.buckets) }
        ensures grown { HasGrown self.old self.new }
    {
        if buckets.len() > u32::MAX as usize - self.buckets.len() {
            return Err(OutOfMemory);
        }
        self.buckets
            .alloc_extend(buckets)
            .map_err(|_refused| OutOfMemory)
    }
}
