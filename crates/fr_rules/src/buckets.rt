//! Runs of entries whose names have one prefix.
ghost use Rattle.std.specs.Prelude.{◌≡◌, ◌+◌, ◌<◌, ◌≤◌, ◌^◌, ℕ, length, take, drop, filter, All, IsPermutation, IfOk, OnOk};
ghost use Rattle.std.specs.List.Sorted.{IsNonDecreasingBy};
ghost use Rattle.fr_rules.specs.Prefixes.{prefix_in, has_prefix};
ghost use Rattle.fr_rules.specs.Buckets.{IsBucketed};

use crate::FieldLookupEntry;
use crate::prefixes::prefix_of;
use fr_shape::OutOfMemory;
use std::alloc::Global;

/// The run of a lookup's entries whose names have one prefix.
#[derive(Drop)]
pub struct PrefixBucket {
    /// The first bytes of the names as one number, the first byte lowest; a byte that a name lacks
    /// counts as 0.
    pub prefix: u64,
    /// The place of the run's first entry among the lookup's entries, counted from 0.
    pub start: u32,
    /// How many entries the run has: at least one.
    pub len: u32,
}

/// Sorts entries by their prefixes. Those of one prefix stay in their order.
pub(crate) fn sort_by_prefix(
    prefix_len: usize,
    entries: &mut Vec<FieldLookupEntry>,
) -> Result<(), OutOfMemory>
    requires { prefix_len ≤ 8 }
    ensures same { IsPermutation entries.old.items entries.new.items }
    ensures len { length entries.new.items ≡ length entries.old.items }
    ensures sorted { OnOk result (IsNonDecreasingBy (prefix_in prefix_len) entries.new.items) }
    ensures stable { OnOk result ((prefix : ℕ)
        → filter (has_prefix prefix_len prefix) entries.new.items
        ≡ filter (has_prefix prefix_len prefix) entries.old.items) }
{
    entries.sort_by_cached_key(|entry| prefix_of(prefix_len, entry.name.as_str()))?;
    Ok(())
}

/// The bucket of the entry at `start`, which is the first with its prefix.
fn bucket_from(prefix_len: usize, sorted: &[FieldLookupEntry], start: usize) -> PrefixBucket
    requires short { prefix_len ≤ 8 }
    requires few { length sorted.now < 2 ^ 32 }
    requires sorted { IsNonDecreasingBy (prefix_in prefix_len) sorted.now }
    requires there { start < length sorted.now }
    ensures start { result.start ≡ start }
    ensures some { 0 < result.len }
    ensures within { start + result.len ≤ length sorted.now }
    ensures run { All (λ entry. prefix_in prefix_len entry ≡ result.prefix)
        (take result.len (drop start sorted.now)) }
    ensures others { All (λ entry. result.prefix < prefix_in prefix_len entry)
        (drop (start + result.len) sorted.now) }
{
    let prefix = prefix_of(prefix_len, sorted[start].name.as_str());
    let left = &sorted[start..];
    let len = left.partition_point(|entry| prefix_of(prefix_len, entry.name.as_str()) == prefix);
    PrefixBucket {
        prefix,
        start: start as u32,
        len: len as u32,
    }
}

/// The buckets of entries that are sorted by their prefixes.
pub(crate) fn buckets_of(
    alloc: Global,
    prefix_len: usize,
    sorted: &[FieldLookupEntry],
) -> Result<Vec<PrefixBucket>, OutOfMemory>
    requires short { prefix_len ≤ 8 }
    requires few { length sorted.now < 2 ^ 32 }
    requires sorted { IsNonDecreasingBy (prefix_in prefix_len) sorted.now }
    ensures { IfOk result (λ buckets. IsBucketed prefix_len sorted.now sorted.now buckets.items) }
{
    let mut buckets = Vec::new(alloc);
    let mut start = 0;
    while start < sorted.len() {
        let bucket = bucket_from(prefix_len, sorted, start);
        start += bucket.len as usize;
        buckets.push(bucket)?;
    }
    Ok(buckets)
}
