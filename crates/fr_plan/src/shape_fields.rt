//! What is kept of a plan's shapes: how fields are found by the names that they are declared under
//! and variants by theirs or by discriminant, and whether any field has a validator.
ghost use Rattle.std.specs.Prelude.{◌≡◌, [], IfNone, IfOk, IfSome, IsSomeAnd, slice_get};
ghost use Rattle.std.specs.List.{list_any, range_with_len};
ghost use Rattle.std.specs.Option.{option_copied};
ghost use Rattle.fr_shape.specs.Look.{def_of, variants_of};
ghost use Rattle.fr_shape.specs.Named.{first_declared};
ghost use Rattle.fr_rules.specs.VariantLookups.{variant_named};
ghost use Rattle.fr_plan.specs.Fields.{own_fields, fields_in, has_validator};
ghost use Rattle.fr_plan.specs.Names.{declared_field, variant_told_by};
ghost use Rattle.fr_plan.specs.ShapeFields.{name_at, AreByName, IsSummaryOf, AreSummariesOf, AreVariantNumbers, AreKeptOf, IfBuilt, AreAllKept, summary_at, validated_at};

use crate::lookups::entry;
use crate::outlines::Mark;
use crate::variant_numbers::{VariantNumbers, first_named, first_told_by, variant_numbers};
use fr_arena::Arena;
use fr_shape::{Def, Field, Items, OutOfMemory, ShapeId, ShapeTable, VariantDef};
use std::alloc::Global;

/// What is kept of the fields of a struct or of a variant: their numbers, sorted by the names that
/// they are declared under and among fields of one name by number, and whether any of them has a
/// validator.
#[derive(Drop)]
pub struct FieldSummary {
    pub by_name: Items<u32>,
    pub has_validators: bool,
}

/// What is kept of a struct's own fields, of the fields of each variant of an enum, and of the
/// variants themselves.
#[derive(Drop)]
pub struct ShapeFields {
    pub own: FieldSummary,
    pub variants: Items<FieldSummary>,
    pub numbers: VariantNumbers,
}

/// The fields of a struct; none of another shape.
fn own_fields(def: &Def) -> &[Field]
    ensures { result.now ≡ own_fields def.now }
{
    match def {
        Def::Struct(described) => described.fields.as_slice(),
        Def::Enum(_)
        | Def::Scalar(_)
        | Def::Str
        | Def::Opaque
        | Def::Option(_)
        | Def::Result(_, _)
        | Def::List(_)
        | Def::Map(_, _)
        | Def::Set(_)
        | Def::Array(_, _)
        | Def::Pointer(_)
        | Def::Slice(_)
        | Def::Dynamic
        | Def::Undefined
        | Def::Other => &[],
    }
}

/// The variants of an enum; none of another shape.
fn variants_of(def: &Def) -> &[VariantDef]
    ensures { result.now ≡ variants_of def.now }
{
    match def {
        Def::Enum(described) => described.variants.as_slice(),
        Def::Struct(_)
        | Def::Scalar(_)
        | Def::Str
        | Def::Opaque
        | Def::Option(_)
        | Def::Result(_, _)
        | Def::List(_)
        | Def::Map(_, _)
        | Def::Set(_)
        | Def::Array(_, _)
        | Def::Pointer(_)
        | Def::Slice(_)
        | Def::Dynamic
        | Def::Undefined
        | Def::Other => &[],
    }
}

/// The fields of a struct, or of an enum's variant of this number.
fn fields_in(def: &Def, variant: Option<u32>) -> &[Field]
    ensures { result.now ≡ fields_in def.now variant }
{
    match variant {
        Some(number) => match variants_of(def).get(number as usize) {
            Some(described) => described.fields.as_slice(),
            None => &[],
        },
        None => own_fields(def),
    }
}

/// The name that the field of this number is declared under.
fn name_at(fields: &[Field], number: u32) -> &str
    ensures { result.now ≡ name_at fields.now number }
{
    match fields.get(number as usize) {
        Some(field) => field.name.as_str(),
        None => "",
    }
}

/// The numbers below `end`.
pub(crate) fn numbers_below(alloc: Global, end: usize) -> Result<Vec<u32>, OutOfMemory>
    ensures { IfOk result (λ numbers. numbers.items ≡ range_with_len 0 end) }
{
    let Ok(count) = u32::try_from(end) else {
        return Err(OutOfMemory);
    };
    let mut numbers = Vec::with_capacity(alloc, end)?;
    for number in 0..count {
        numbers.push(number)?;
    }
    Ok(numbers)
}

/// The numbers of these fields, sorted by name. The sort is stable, so the first field of a name
/// stays before the others.
fn numbers_by_name(alloc: Global, fields: &[Field]) -> Result<Items<u32>, OutOfMemory>
    ensures { IfOk result (AreByName fields.now) }
{
    let mut numbers = numbers_below(alloc, fields.len())?;
    numbers.sort_by(|a, b| name_at(fields, *a).cmp(name_at(fields, *b)))?;
    Ok(Items::from_vec(numbers))
}

/// Whether a validator stands at the field.
fn has_validator(field: &Field) -> bool
    ensures { result ≡ has_validator field.now }
{
    field.validators.len() > 0
}

/// Whether a validator stands at any of these fields.
fn have_validators(fields: &[Field]) -> bool
    ensures { result ≡ list_any has_validator fields.now }
{
    fields.iter().any(|field| has_validator(field))
}

/// What is kept of these fields. Of no fields it takes no memory.
fn summary_of(alloc: Global, fields: &[Field]) -> Result<FieldSummary, OutOfMemory>
    ensures { IfOk result (IsSummaryOf fields.now) }
{
    Ok(FieldSummary {
        by_name: numbers_by_name(alloc, fields)?,
        has_validators: have_validators(fields),
    })
}

/// What is kept of each variant's fields.
fn summaries_of(alloc: Global, variants: &[VariantDef]) -> Result<Items<FieldSummary>, OutOfMemory>
    ensures { IfOk result (AreSummariesOf variants.now) }
{
    let mut summaries = Items::new(alloc);
    for variant in variants {
        let summary = summary_of(alloc, variant.fields.as_slice())?;
        let Ok(()) = summaries.push(summary) else {
            return Err(OutOfMemory);
        };
    }
    Ok(summaries)
}

/// What is kept of a shape of this definition.
fn kept_of(alloc: Global, def: &Def) -> Result<ShapeFields, OutOfMemory>
    ensures { IfOk result (AreKeptOf def.now) }
{
    Ok(ShapeFields {
        own: summary_of(alloc, own_fields(def))?,
        variants: summaries_of(alloc, variants_of(def))?,
        numbers: variant_numbers(alloc, variants_of(def))?,
    })
}

/// What is kept of the shape of this number, if it was built; else as of one without fields.
fn kept_at(
    alloc: Global,
    table: &ShapeTable,
    marks: &Arena<Mark>,
    id: ShapeId,
) -> Result<ShapeFields, OutOfMemory>
    ensures { IfOk result (IfBuilt table.now marks.now id.0) }
{
    match entry(marks, id.0) {
        Some(Mark::Done(_)) => match table.get(id) {
            Some(shape) => kept_of(alloc, &shape.def),
            None => kept_of(alloc, &Def::Other),
        },
        Some(Mark::Unseen | Mark::Building) | None => kept_of(alloc, &Def::Other),
    }
}

/// What is kept of the fields of all shapes that were built, each at the number of its shape.
pub(crate) fn all_kept(
    alloc: Global,
    table: &ShapeTable,
    marks: &Arena<Mark>,
) -> Result<Arena<ShapeFields>, OutOfMemory>
    ensures { IfOk result (AreAllKept table.now marks.now) }
{
    let mut kept = Arena::new(alloc);
    for i in 0..marks.len() {
        let of_shape = kept_at(alloc, table, marks, ShapeId(i as u32))?;
        let Ok(_) = kept.alloc(of_shape) else {
            return Err(OutOfMemory);
        };
    }
    Ok(kept)
}

/// What is kept of the fields of a struct, or of an enum's variant of this number.
fn summary_at(
    kept: &Arena<ShapeFields>,
    shape: ShapeId,
    variant: Option<u32>,
) -> Option<&FieldSummary>
    ensures { option_copied result ≡ summary_at kept.now shape variant }
{
    let of_shape = entry(kept, shape.0)?;
    match variant {
        Some(number) => of_shape.variants.get(number as usize),
        None => Some(&of_shape.own),
    }
}

/// The number of the first of these fields that is declared under this name, where their numbers
/// are sorted by name.
fn first_declared(fields: &[Field], by_name: &[u32], name: &str) -> Option<u32>
    ensures { AreByName fields.now by_name.now → result ≡ first_declared name.now 0 fields.now }
{
    let place = by_name.partition_point(|number| name_at(fields, *number) < name);
    if place < by_name.len() {
        let number = by_name[place];
        if name_at(fields, number) == name {
            return Some(number);
        }
    }
    None
}

/// The number of the field of this name, of a struct or of an enum's variant of this number.
pub(crate) fn find_declared(
    table: &ShapeTable,
    kept: &Arena<ShapeFields>,
    shape: ShapeId,
    variant: Option<u32>,
    name: &str,
) -> Option<u32>
    ensures { IsSomeAnd (slice_get kept.now shape.0) (AreKeptOf (def_of table.now shape.0))
        → result ≡ declared_field (def_of table.now shape.0) variant name.now }
{
    let summary = summary_at(kept, shape, variant)?;
    let described = table.get(shape)?;
    let fields = fields_in(&described.def, variant);
    first_declared(fields, summary.by_name.as_slice(), name)
}

/// The variants of an enum, and what is kept of them.
fn variants_at<'a>(
    table: &'a ShapeTable,
    kept: &'a Arena<ShapeFields>,
    shape: ShapeId,
) -> Option<(&'a [VariantDef], &'a VariantNumbers)>
    ensures variants { IfSome result (λ found.
        found.0.now ≡ variants_of (def_of table.now shape.0)) }
    ensures numbers { IsSomeAnd (slice_get kept.now shape.0) (AreKeptOf (def_of table.now shape.0))
        → IfSome result (λ found. AreVariantNumbers found.0.now found.1.now) }
    ensures none { IsSomeAnd (slice_get kept.now shape.0) (AreKeptOf (def_of table.now shape.0))
        → IfNone result (variants_of (def_of table.now shape.0) ≡ []) }
{
    let of_shape = entry(kept, shape.0)?;
    let described = table.get(shape)?;
    Some((variants_of(&described.def), &of_shape.numbers))
}

/// The number of the first variant of an enum that goes by this name and isn't marked `other`.
pub(crate) fn find_named(
    table: &ShapeTable,
    kept: &Arena<ShapeFields>,
    shape: ShapeId,
    name: &str,
) -> Option<u32>
    ensures { IsSomeAnd (slice_get kept.now shape.0) (AreKeptOf (def_of table.now shape.0))
        → result ≡ variant_named name.now (variants_of (def_of table.now shape.0)) }
{
    let (variants, numbers) = variants_at(table, kept, shape)?;
    first_named(variants, numbers.by_name.as_slice(), name)
}

/// The number of the first variant of an enum that has this discriminant.
pub(crate) fn find_told_by(
    table: &ShapeTable,
    kept: &Arena<ShapeFields>,
    shape: ShapeId,
    discriminant: i64,
) -> Option<u32>
    ensures { IsSomeAnd (slice_get kept.now shape.0) (AreKeptOf (def_of table.now shape.0))
        → result ≡ variant_told_by discriminant (variants_of (def_of table.now shape.0)) }
{
    let (variants, numbers) = variants_at(table, kept, shape)?;
    first_told_by(variants, numbers.by_discriminant.as_slice(), discriminant)
}

/// Whether a field of the struct, or of the enum's variant of this number, has a validator.
pub(crate) fn are_validated(kept: &Arena<ShapeFields>, shape: ShapeId, variant: Option<u32>) -> bool
    ensures { result ≡ validated_at kept.now shape variant }
{
    match summary_at(kept, shape, variant) {
        Some(summary) => summary.has_validators,
        None => false,
    }
}
