//! Lookups of variants by their names.
ghost use Rattle.std.specs.Prelude.{◌≡◌, List, IfOk, OnOk, IsPermutation};
ghost use Rattle.fr_shape.specs.declared.shape.VariantDef.{VariantDef as Variant};
ghost use Rattle.fr_rules.specs.VariantLookups.{variant_entries, variant_named, first_numbered, entries_in, HaveDistinctNames, IsSortedByName, IsInOrder, IsVariantLookupOf};

use crate::LOOKUP_THRESHOLD;
use fr_shape::{EnumDef, Items, OutOfMemory, Text, VariantDef};
use smallvec::SmallVec;
use std::alloc::Global;

/// Finds the variants of an enum by their names. Each name stands beside the number of its variant,
/// counted from 0.
#[derive(Drop)]
pub enum VariantLookup {
    /// Up to `LOOKUP_THRESHOLD` names, in the variants' order.
    Small(SmallVec<(Text, u32), 8>),
    /// More names, sorted by their bytes.
    Sorted(Items<(Text, u32)>),
}

/// The lookup of an enum's variants by their effective names, without those marked `other`.
///
/// The names of a checked table's variants are distinct. Where a variant's number would outgrow 32
/// bits it returns `OutOfMemory` too.
pub fn build_variant_lookup(alloc: Global, e: &EnumDef) -> Result<VariantLookup, OutOfMemory>
    requires distinct { HaveDistinctNames e.now.variants }
    ensures lookup { IfOk result (λ lookup. IsVariantLookupOf lookup e.now.variants) }
{
    let entries = variant_entries(alloc, e.variants.as_slice())?;
    if entries.len() <= LOOKUP_THRESHOLD {
        return Ok(VariantLookup::Small(entries));
    }
    let mut sorted = entries.into_vec()?;
    sort_by_name(&mut sorted)?;
    Ok(VariantLookup::Sorted(Items::from_vec(sorted)))
}

/// The entries of the variants, in order.
fn variant_entries(
    alloc: Global,
    variants: &[VariantDef],
) -> Result<SmallVec<(Text, u32), 8>, OutOfMemory>
    ensures { IfOk result (λ entries. entries.items ≡ variant_entries variants.now) }
{
    let mut entries = SmallVec::new(alloc);
    for i in 0..variants.len() {
        let Ok(number) = u32::try_from(i) else {
            return Err(OutOfMemory);
        };
        let variant = &variants[i];
        if !variant.other {
            let name = variant.effective_name();
            entries.push((Text::new(alloc, name.as_str())?, number))?;
        }
    }
    Ok(entries)
}

/// Sorts entries by their names, byte by byte.
fn sort_by_name(entries: &mut Vec<(Text, u32)>) -> Result<(), OutOfMemory>
    ensures same { IsPermutation entries.old.items entries.new.items }
    ensures sorted { OnOk result (IsSortedByName entries.new.items) }
{
    entries.sort_by(|a, b| a.0.as_str().cmp(b.0.as_str()))?;
    Ok(())
}

/// The number in the first entry of this whole name.
fn first_numbered(name: &str, entries: &[(Text, u32)]) -> Option<usize>
    ensures { result ≡ first_numbered name.now entries.now }
{
    entries
        .iter()
        .find(|entry| entry.0.as_str() == name)
        .map(|entry| entry.1 as usize)
}

/// The same of entries that are sorted by name, in fewer steps.
fn first_sorted(name: &str, entries: &[(Text, u32)]) -> Option<usize>
    ensures { IsSortedByName entries.now → result ≡ first_numbered name.now entries.now }
{
    let place = entries.partition_point(|entry| entry.0.as_str() < name);
    if place < entries.len() {
        let entry = &entries[place];
        if entry.0.as_str() == name {
            return Some(entry.1 as usize);
        }
    }
    None
}

impl VariantLookup {
    /// The number of the variant of this whole name, which isn't marked `other`.
    ///
    /// A lookup that no enum has, built by hand, gives the number beside the first such name. Only
    /// where names of the sorted form aren't sorted is nothing said of the result.
    pub fn find(&self, name: &str) -> Option<usize>
        ensures first { IsInOrder self.now
            → result ≡ first_numbered name.now (entries_in self.now) }
        ensures named { (variants : List Variant) → IsVariantLookupOf self.now variants
            → result ≡ variant_named name.now variants }
    {
        match self {
            VariantLookup::Small(entries) => first_numbered(name, entries.as_slice()),
            VariantLookup::Sorted(entries) => first_sorted(name, entries.as_slice()),
        }
    }
}
