//! Lookups of fields by their names.
ghost use Rattle.std.specs.Prelude.{◌≡◌, ◌<◌, ◌≤◌, ◌==◌, ◌↔◌, ℕ, List, length, filter, All, IsTrue, IfOk, OnErr};
ghost use Rattle.fr_rules.specs.Entries.{entries_of, first_named};
ghost use Rattle.fr_rules.specs.Pools.{Pool, HasGrown};
ghost use Rattle.fr_rules.specs.Prefixes.{has_prefix};
ghost use Rattle.fr_rules.specs.Buckets.{IsInside, IsBucketed};
ghost use Rattle.fr_rules.specs.FieldLookups.{IsLookupOf, IsOfPool, IsSmall, own_entries, entry_count, GainsOnly, IsLeft, LookupsStay};

use crate::buckets::{buckets_of, sort_by_prefix};
use crate::entries::{entries_of, first_named};
use crate::prefixes::{prefix_len_of, prefix_of};
use crate::{FieldLookupEntry, LOOKUP_THRESHOLD, LookupPool, PrefixBucket};
use fr_arena::SliceRange;
use fr_shape::{Field, Items, OutOfMemory};
use smallvec::SmallVec;
use std::alloc::Global;

/// Finds fields by their names.
#[derive(Drop)]
pub enum FieldLookup {
    /// Up to `LOOKUP_THRESHOLD` entries, field by field.
    Small(SmallVec<FieldLookupEntry, 16>),
    /// More entries, which lie in a `LookupPool`, sorted by prefix, with a bucket for each prefix.
    PrefixBuckets {
        /// How many bytes of a name are its prefix: 4 or 8.
        prefix_len: usize,
        /// Where the entries lie in the pool.
        entries: SliceRange<FieldLookupEntry>,
        /// Where the buckets lie in the pool, in the order of their prefixes.
        buckets: SliceRange<PrefixBucket>,
    },
}

/// The lookup of these fields by their effective names and aliases. Only one of more than
/// `LOOKUP_THRESHOLD` entries puts anything into the pool.
///
/// Where a field's number or the pool would outgrow 32 bits it returns `OutOfMemory` too. After
/// that error the pool may have entries that no lookup names.
pub fn build_field_lookup(
    alloc: Global,
    fields: &Items<Field>,
    pool: &mut LookupPool,
) -> Result<FieldLookup, OutOfMemory>
    ensures lookup { IfOk result (λ lookup. IsLookupOf pool.new lookup (entries_of fields.now)) }
    ensures others_stay { HasGrown pool.old pool.new }
    ensures gained { IfOk result (λ lookup. GainsOnly pool.old pool.new lookup) }
    ensures few { length (entries_of fields.now) ≤ LOOKUP_THRESHOLD → pool.new ≡ pool.old }
    ensures refused { OnErr result (IsLeft pool.old pool.new (entries_of fields.now)) }
{
    let entries = entries_of(alloc, fields)?;
    if entries.len() <= LOOKUP_THRESHOLD {
        return Ok(FieldLookup::Small(entries));
    }
    build_long(alloc, entries.into_vec()?, pool)
}

/// The lookup of more entries than a small one has.
fn build_long(
    alloc: Global,
    mut entries: Vec<FieldLookupEntry>,
    pool: &mut LookupPool,
) -> Result<FieldLookup, OutOfMemory>
    requires { LOOKUP_THRESHOLD < length entries.items }
    ensures lookup { IfOk result (λ lookup. IsLookupOf pool.new lookup entries.items) }
    ensures others_stay { HasGrown pool.old pool.new }
    ensures gained { IfOk result (λ lookup. GainsOnly pool.old pool.new lookup) }
    ensures refused { OnErr result (IsLeft pool.old pool.new entries.items) }
{
    if entries.len() > u32::MAX as usize {
        return Err(OutOfMemory);
    }
    let prefix_len = prefix_len_of(entries.as_slice());
    sort_by_prefix(prefix_len, &mut entries)?;
    let buckets = buckets_of(alloc, prefix_len, entries.as_slice())?;
    let entries = pool.add_entries(entries)?;
    let buckets = pool.add_buckets(buckets)?;
    Ok(FieldLookup::PrefixBuckets {
        prefix_len,
        entries,
        buckets,
    })
}

impl FieldLookup {
    /// The number of the field, counted from 0, in the first entry of this whole name.
    ///
    /// The pool is that in which the lookup was built, also after it grew.
    pub fn find(&self, name: &str, pool: &LookupPool) -> Option<usize>
        requires of_pool { IsOfPool pool.now self.now }
        ensures first_named { (entries : List FieldLookupEntry)
            → IsLookupOf pool.now self.now entries → result ≡ first_named name.now entries }
    {
        match self {
            FieldLookup::Small(_) => self.find_small(name),
            FieldLookup::PrefixBuckets {
                prefix_len,
                entries,
                buckets,
            } => {
                let stored = pool.entries(*entries);
                let buckets = pool.buckets(*buckets);
                let prefix = prefix_of(*prefix_len, name);
                first_named(name, run_with(prefix, stored, buckets))
            }
        }
    }

    /// The same for a lookup that holds its entries itself.
    pub fn find_small(&self, name: &str) -> Option<usize>
        requires small { IsSmall self.now }
        ensures first_named { result ≡ first_named name.now (own_entries self.now) }
    {
        match self {
            FieldLookup::Small(entries) => first_named(name, entries.as_slice()),
            FieldLookup::PrefixBuckets { .. } => None,
        }
    }

    /// Whether there is no entry.
    pub fn is_empty(&self) -> bool
        ensures none { IsTrue result ↔ (entry_count self.now ≡ 0) }
        ensures empty { (pool : Pool) (entries : List FieldLookupEntry)
            → IsLookupOf pool self.now entries → result ≡ (length entries == 0) }
    {
        match self {
            FieldLookup::Small(entries) => entries.is_empty(),
            FieldLookup::PrefixBuckets { entries, .. } => entries.is_empty(),
        }
    }
}

/// The stored entries with this prefix.
fn run_with<'a>(
    prefix: u64,
    stored: &'a [FieldLookupEntry],
    buckets: &[PrefixBucket],
) -> &'a [FieldLookupEntry]
    requires { All (IsInside stored.now) buckets.now }
    ensures { (prefix_len : ℕ) (entries : List FieldLookupEntry)
        → IsBucketed prefix_len entries stored.now buckets.now
        → result.now ≡ filter (has_prefix prefix_len prefix) entries }
{
    match buckets.binary_search_by_key(&prefix, |bucket| bucket.prefix) {
        Ok(place) => {
            let bucket = &buckets[place];
            let start = bucket.start as usize;
            &stored[start..start + bucket.len as usize]
        }
        Err(_) => &stored[..0],
    }
}

/// A lookup stands for the same entries after its pool grew.
pub fn law_lookups_stay()
    ensures stay { LookupsStay }
{}
