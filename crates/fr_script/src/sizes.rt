//! The limits of what a document may have.
ghost use Rattle.std.specs.Prelude.{◌≡◌, ◌+◌, ◌<◌, ◌≤◌, ◌^◌, length, sum_by, nat_le};
ghost use Rattle.fr_model.specs.Commands.{call_of, calls_of};
ghost use Rattle.fr_model.specs.Conversions.{has_proxies};
ghost use Rattle.fr_script.specs.Documents.{has_proxied, part_count, part_total, places_begun, places_ended, sizes_pass, too_deep};
ghost use Rattle.fr_script.specs.Reading.{document_view};
ghost use Rattle.fr_script.specs.Sizes.{CountsOff};

use crate::document::Document;
use fr_doc::{DocFault, DocSize};
use fr_model::Command;
use fr_shape::{Def, Shape, ShapeId, ShapeTable, VariantDef};

/// The most shapes of a document.
pub const SHAPE_LIMIT: usize = 4096;

/// The most fields and variants of its shapes together.
pub const PART_LIMIT: usize = 65_536;

/// The most commands of its script.
pub const COMMAND_LIMIT: usize = 200_000;

/// The most tokens.
pub const TOKEN_LIMIT: u32 = 1_000_000;

/// The most by which begins may outnumber ends after some command.
pub const DEPTH_LIMIT: usize = 1000;

/// Tests the limits one after another.
#[tactic(auto, unfolding(crate::specs::Documents::sizes_pass))]
pub fn test_sizes(document: &Document) -> Result<(), DocFault>
    ensures { result ≡ sizes_pass (document_view document.now) }
{
    if document.table.len() > SHAPE_LIMIT {
        return Err(DocFault::TooLarge(DocSize::Shapes));
    }
    if !has_parts_within(&document.table, PART_LIMIT) {
        return Err(DocFault::TooLarge(DocSize::Fields));
    }
    if document.script.len() > COMMAND_LIMIT {
        return Err(DocFault::TooLarge(DocSize::Commands));
    }
    if document.tokens > TOKEN_LIMIT {
        return Err(DocFault::TooLarge(DocSize::Tokens));
    }
    if is_too_deep(document.script.as_slice(), has_proxied(&document.table)) {
        return Err(DocFault::TooLarge(DocSize::Depth));
    }
    Ok(())
}

/// Whether the shapes have no more fields and variants together than the limit.
fn has_parts_within(table: &ShapeTable, limit: usize) -> bool
    requires few { length table.now < 2 ^ 32 }
    ensures { result ≡ nat_le (part_total table.now) limit }
{
    let mut left = limit;
    for id in 0..table.len() as u32 {
        let Some(shape) = table.get(ShapeId(id)) else {
            return true;
        };
        match count_off(&shape.def, left) {
            Some(others) => left = others,
            None => return false,
        }
    }
    true
}

/// What is left of so many, a definition's fields and variants counted off. None where it has more.
fn count_off(def: &Def, left: usize) -> Option<usize>
    ensures { CountsOff left (part_count def.now) result }
{
    match def {
        Def::Struct(described) => left.checked_sub(described.fields.len()),
        Def::Enum(described) => count_off_variants(described.variants.as_slice(), left),
        Def::Scalar(_)
        | Def::Str
        | Def::Opaque
        | Def::Option(_)
        | Def::Result(_, _)
        | Def::List(_)
        | Def::Map(_, _)
        | Def::Set(_)
        | Def::Array(_, _)
        | Def::Pointer(_)
        | Def::Slice(_)
        | Def::Dynamic
        | Def::Undefined
        | Def::Other => Some(left),
    }
}

/// The same of variants and their fields.
fn count_off_variants(variants: &[VariantDef], limit: usize) -> Option<usize>
    ensures { CountsOff limit (sum_by (λ variant. 1 + length variant.fields) variants.now) result }
{
    let mut left = limit;
    for variant in variants {
        left = left.checked_sub(1)?.checked_sub(variant.fields.len())?;
    }
    Some(left)
}

/// Whether some shape has a proxy, for whatever format.
fn has_proxied(table: &ShapeTable) -> bool
    requires few { length table.now < 2 ^ 32 }
    ensures { result ≡ has_proxied table.now }
{
    for id in 0..table.len() as u32 {
        let Some(shape) = table.get(ShapeId(id)) else {
            return false;
        };
        if is_proxied(shape) {
            return true;
        }
    }
    false
}

/// Whether a shape has a proxy, for whatever format.
fn is_proxied(shape: &Shape) -> bool
    ensures { result ≡ has_proxies shape.now.proxy shape.now.format_proxies }
{
    match (&shape.proxy, shape.format_proxies.as_slice()) {
        (None, []) => false,
        (None, [_, ..]) | (Some(_), _) => true,
    }
}

/// How many places a command enters, where some shape has a proxy or none has, and how many it
/// leaves: one at most.
fn levels(proxied: bool, command: &Command) -> (usize, usize)
    ensures begins { result.0 ≡ places_begun proxied (call_of command.now) }
    ensures ends { result.1 ≡ places_ended (call_of command.now) }
    ensures few { (result.0 ≤ 1) × (result.1 ≤ 1) }
{
    match command {
        Command::BeginField(_)
        | Command::BeginNthField(_)
        | Command::BeginListItem
        | Command::BeginKey
        | Command::BeginValue
        | Command::BeginSetItem
        | Command::BeginObjectEntry(_)
        | Command::BeginSome
        | Command::BeginOk
        | Command::BeginErr
        | Command::BeginSmartPtr
        | Command::BeginInner
        | Command::BeginCustomDeserialization
        | Command::BeginCustomDeserializationWithFormat(_) => (1, 0),
        Command::BeginCustomDeserializationFromShape
        | Command::BeginCustomDeserializationFromShapeWithFormat(_) => (usize::from(proxied), 0),
        Command::End => (0, 1),
        Command::SetNthFieldToDefault(_)
        | Command::Set(_, _)
        | Command::SetDefault
        | Command::ParseFromStr(_)
        | Command::ParseFromBytes(_)
        | Command::SetEmptySharedSlice
        | Command::InitList
        | Command::InitListWithCapacity(_)
        | Command::InitArray
        | Command::InitMap
        | Command::InitSet
        | Command::SelectNthVariant(_)
        | Command::SelectVariantNamed(_)
        | Command::SelectVariant(_)
        | Command::BeginDeferred
        | Command::FinishDeferred => (0, 0),
    }
}

/// Whether begins outnumber ends by more than the limit after some command, where some shape has a
/// proxy or none has.
fn is_too_deep(script: &[Command], proxied: bool) -> bool
    ensures { result ≡ too_deep proxied 0 0 (calls_of script.now) }
{
    let mut begun: usize = 0;
    let mut ended: usize = 0;
    for command in script {
        let (begins, ends) = levels(proxied, command);
        begun += begins;
        ended += ends;
        if begun.saturating_sub(DEPTH_LIMIT) > ended {
            return true;
        }
    }
    false
}
