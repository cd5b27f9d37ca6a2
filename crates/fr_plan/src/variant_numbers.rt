//! The variants of a plan's enums: how they are found by name, and by discriminant.
ghost use Rattle.std.specs.Prelude.{◌≡◌, Some, IfOk};
ghost use Rattle.std.specs.Option.{option_cmp, option_copied};
ghost use Rattle.std.specs.Ordering.{int_cmp};
ghost use Rattle.fr_rules.specs.VariantLookups.{variant_named};
ghost use Rattle.fr_plan.specs.Names.{variant_told_by};
ghost use Rattle.fr_plan.specs.ShapeFields.{name_cmp, found_name_at, discriminant_at, AreByFoundName, AreByDiscriminant, AreVariantNumbers};

use crate::shape_fields::numbers_below;
use fr_shape::{Items, OutOfMemory, VariantDef};
use std::alloc::Global;
use std::cmp::Ordering;

/// What is kept of an enum's variants: their numbers, sorted by the names by which they are found,
/// and sorted by discriminant. Those without a name or discriminant to be found by stand first, and
/// among others of one the first variant.
#[derive(Drop)]
pub struct VariantNumbers {
    pub by_name: Items<u32>,
    pub by_discriminant: Items<u32>,
}

/// The name by which the variant of this number is found: none, where it is marked `other`.
fn found_name_at(variants: &[VariantDef], number: u32) -> Option<&str>
    ensures { option_copied result ≡ found_name_at variants.now number }
{
    let variant = variants.get(number as usize)?;
    if variant.other {
        None
    } else {
        Some(variant.effective_name().as_str())
    }
}

/// How the name by which the variant of this number is found compares to another.
fn compare_name(variants: &[VariantDef], number: u32, name: Option<&str>) -> Ordering
    ensures { result
        ≡ option_cmp name_cmp (found_name_at variants.now number) (option_copied name.entry) }
{
    found_name_at(variants, number).cmp(&name)
}

/// The discriminant of the variant of this number.
fn discriminant_at(variants: &[VariantDef], number: u32) -> Option<i64>
    ensures { result ≡ discriminant_at variants.now number }
{
    variants.get(number as usize)?.discriminant
}

/// How the discriminant of the variant of this number compares to another.
fn compare_discriminant(variants: &[VariantDef], number: u32, discriminant: Option<i64>) -> Ordering
    ensures { result ≡ option_cmp int_cmp (discriminant_at variants.now number) discriminant }
{
    discriminant_at(variants, number).cmp(&discriminant)
}

/// The numbers of these variants, sorted by the names by which they are found.
fn numbers_by_name(alloc: Global, variants: &[VariantDef]) -> Result<Items<u32>, OutOfMemory>
    ensures { IfOk result (AreByFoundName variants.now) }
{
    let mut numbers = numbers_below(alloc, variants.len())?;
    numbers.sort_by(|a, b| compare_name(variants, *a, found_name_at(variants, *b)))?;
    Ok(Items::from_vec(numbers))
}

/// The numbers of these variants, sorted by discriminant.
fn numbers_by_discriminant(
    alloc: Global,
    variants: &[VariantDef],
) -> Result<Items<u32>, OutOfMemory>
    ensures { IfOk result (AreByDiscriminant variants.now) }
{
    let mut numbers = numbers_below(alloc, variants.len())?;
    numbers.sort_by(|a, b| compare_discriminant(variants, *a, discriminant_at(variants, *b)))?;
    Ok(Items::from_vec(numbers))
}

/// What is kept of these variants. Of no variants it takes no memory.
pub(crate) fn variant_numbers(
    alloc: Global,
    variants: &[VariantDef],
) -> Result<VariantNumbers, OutOfMemory>
    ensures { IfOk result (AreVariantNumbers variants.now) }
{
    Ok(VariantNumbers {
        by_name: numbers_by_name(alloc, variants)?,
        by_discriminant: numbers_by_discriminant(alloc, variants)?,
    })
}

/// The number of the first of these variants that is found by this name, where their numbers are
/// sorted by name.
pub(crate) fn first_named(variants: &[VariantDef], by_name: &[u32], name: &str) -> Option<u32>
    ensures { AreByFoundName variants.now by_name.now
        → result ≡ variant_named name.now variants.now }
{
    let place = by_name.partition_point(|number| compare_name(
        variants,
        *number,
        Some(name),
    ).is_lt());
    if place < by_name.len() {
        let number = by_name[place];
        if compare_name(variants, number, Some(name)).is_eq() {
            return Some(number);
        }
    }
    None
}

/// The number of the first of these variants that has the discriminant, where their numbers are
/// sorted by discriminant.
pub(crate) fn first_told_by(
    variants: &[VariantDef],
    by_discriminant: &[u32],
    discriminant: i64,
) -> Option<u32>
    ensures { AreByDiscriminant variants.now by_discriminant.now
        → result ≡ variant_told_by discriminant variants.now }
{
    let place = by_discriminant.partition_point(|number| {
        compare_discriminant(variants, *number, Some(discriminant)).is_lt()
    });
    if place < by_discriminant.len() {
        let number = by_discriminant[place];
        if compare_discriminant(variants, number, Some(discriminant)).is_eq() {
            return Some(number);
        }
    }
    None
}
