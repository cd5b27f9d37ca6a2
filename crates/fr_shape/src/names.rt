//! Tests that no name of a list comes twice.
ghost use Rattle.std.specs.Prelude.{◌≡◌, ◌^◌, ◌<◌, true, length, map, IfOk, IfSome, MatchOption};
ghost use Rattle.std.specs.List.{list_any};
ghost use Rattle.std.specs.Str.{bytes_eq};
ghost use Rattle.fr_shape.specs.Checked.{names_apart, EachKeeps};
ghost use Rattle.fr_shape.specs.Distinct.{distinct, IsFirstRepeated};
ghost use Rattle.fr_shape.specs.Faults.{keeps, IsBrokenAt, EarlierEntriesKeep};
ghost use Rattle.fr_shape.specs.Named.{name_of};

use crate::repeated::{are_distinct, first_repeated, is_long};
use crate::{Items, OutOfMemory, Shape, ShapeTable, Text, VariantDef};

/// The first shape whose name an earlier one has, by its number.
pub(crate) fn first_taken_name(table: &ShapeTable) -> Result<Option<u32>, OutOfMemory>
    requires few { length table.now < 2 ^ 32 }
    ensures taken { IfOk result (λ taken. MatchOption taken
        (EachKeeps table.now (keeps table.now 2))
        (λ entry. IsBrokenAt table.now 2 entry)) }
    ensures first { IfOk result (λ taken.
        IfSome taken (λ entry. EarlierEntriesKeep table.now 2 entry)) }
{
    match first_repeated_name(table.shapes())? {
        Some(i) => Ok(Some(i as u32)),
        None => Ok(None),
    }
}

fn first_repeated_name(shapes: &Items<Shape>) -> Result<Option<usize>, OutOfMemory>
    ensures { IfOk result (λ found. MatchOption found
        (distinct bytes_eq (map (λ s. s.name) shapes.now) ≡ true)
        (IsFirstRepeated bytes_eq (map (λ s. s.name) shapes.now))) }
{
    let mut names = Vec::with_capacity(shapes.alloc(), shapes.len())?;
    for shape in shapes.as_slice() {
        names.push(shape.name.as_str())?;
    }
    first_repeated(shapes.alloc(), names.as_slice())
}

fn is_name(name: &Text, variants: &[VariantDef]) -> bool
    ensures { result ≡ list_any (bytes_eq name.now) (map name_of variants.now) }
{
    for variant in variants {
        if *name == *variant.effective_name() {
            return true;
        }
    }
    false
}

/// Whether no two variants have one effective name, each pair compared.
fn few_names_apart(variants: &[VariantDef]) -> bool
    ensures { result ≡ names_apart (map name_of variants.now) }
{
    for i in 0..variants.len() {
        if is_name(variants[i].effective_name(), &variants[i + 1..]) {
            return false;
        }
    }
    true
}

/// The same, by the order of names.
fn many_names_apart(variants: &Items<VariantDef>) -> Result<bool, OutOfMemory>
    ensures { IfOk result (λ apart. apart ≡ names_apart (map name_of variants.now)) }
{
    let mut names = Vec::with_capacity(variants.alloc(), variants.len())?;
    for variant in variants.as_slice() {
        names.push(variant.effective_name().as_str())?;
    }
    are_distinct(variants.alloc(), names.as_slice())
}

/// Whether no two variants have one effective name.
pub(crate) fn names_apart(variants: &Items<VariantDef>) -> bool
    ensures { result ≡ names_apart (map name_of variants.now) }
{
    if is_long(variants.len()) {
        if let Ok(apart) = many_names_apart(variants) {
            return apart;
        }
    }
    few_names_apart(variants.as_slice())
}
