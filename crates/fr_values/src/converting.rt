//! The values of other shapes that a dynamic place takes, made into dynamic ones.
ghost use Rattle.fr_values.specs.Common.{IfErr, IfOk, IsUnconverted, OnErr, OnOk, Room, RoseBy, [], are_octets, bytes_of, converted, copies_to_convert, def_of, dyn_view, false, fits, from_bytes, is_byte, nat, occurs, operation_failed, option_map, or_not_dynamic, tokens, true, vals_view, view};
ghost use Rattle.std.specs.Prelude.{OnSome, IsNone, ◌≡◌, ◌≢◌};
ghost use Rattle.fr_shape.specs.declared.error.Operation.{Operation as Failed};
ghost use Rattle.fr_shape.specs.declared.error.ReflectErrorKind.{ReflectErrorKind as Kind};
ghost use Rattle.fr_shape.specs.declared.shape.Def.{Def as Described};
ghost use Rattle.fr_shape.specs.Tokens.{vals_tokens};
ghost use Rattle.fr_model.specs.ScalarsAsDynamics.{from_scalar, from_bool, from_char, from_int, from_nat, from_text, takes_bytes};
ghost use Rattle.fr_values.specs.ConversionNeeds.{has_octets, in_range, is_narrow, is_octet};

use fr_shape::{
    Def, Dyn, Items, Ledger, Operation, OutOfMemory, ReflectErrorKind, ScalarKind, ShapeId,
    ShapeTable, Text, Value, release,
};
use std::alloc::Global;

/// What a dynamic place of shape `place` makes of a value of shape `given`. Where it takes none
/// such, that is the refusal, and never out of memory. The value holds no token where it is taken;
/// where it isn't, its tokens are released.
pub fn converted(
    alloc: Global,
    table: &ShapeTable,
    place: ShapeId,
    given: ShapeId,
    mut value: Value,
    ledger: &mut Ledger,
) -> Result<Dyn, ReflectErrorKind>
    requires fits { fits table.now given.0 (view value) ≡ true }
    requires room { Room (occurs (view value)) ledger.old }
    ensures made { IfOk result
        (λ d. converted table.now place.0 (def_of table.now given.0) (view value)
        ≡ Ok (dyn_view d)) }
    ensures refused { IfErr result (IsUnconverted
        (converted table.now place.0 (def_of table.now given.0) (view value)) given.0) }
    ensures memory { copies_to_convert (def_of table.now given.0) ≡ false
        → IfErr result (λ kind. kind ≢ Kind.OutOfMemory) }
    ensures unreleased { OnOk result (ledger.new ≡ ledger.old) }
    ensures released { RoseBy (occurs (view value)) ledger.old ledger.new }
{
    match taken_from(alloc, table, place, given, &mut value) {
        Ok(made) => Ok(made),
        Err(kind) => {
            release(value, ledger);
            Err(kind)
        }
    }
}

/// The same; a text is moved out of the value, and a value that is refused stays as it is.
fn taken_from(
    alloc: Global,
    table: &ShapeTable,
    place: ShapeId,
    given: ShapeId,
    value: &mut Value,
) -> Result<Dyn, ReflectErrorKind>
    requires fits { fits table.now given.0 (view value.old) ≡ true }
    ensures made { IfOk result (λ d. converted table.now place.0 (def_of table.now given.0)
        (view value.old) ≡ Ok (dyn_view d)) }
    ensures refused { IfErr result (IsUnconverted
        (converted table.now place.0 (def_of table.now given.0) (view value.old)) given.0) }
    ensures memory { copies_to_convert (def_of table.now given.0) ≡ false
        → IfErr result (λ kind. kind ≢ Kind.OutOfMemory) }
    ensures no_token { OnOk result (tokens (view value.old) ≡ []) }
    ensures unchanged { OnErr result (value.new ≡ value.old) }
{
    match table.get(given) {
        Some(shape) => taken_by(alloc, table, place, &shape.def, given, value),
        None => Err(not_dynamic(given)),
    }
}

/// The same, by the given shape's definition.
fn taken_by(
    alloc: Global,
    table: &ShapeTable,
    place: ShapeId,
    def: &Def,
    given: ShapeId,
    value: &mut Value,
) -> Result<Dyn, ReflectErrorKind>
    requires defined { def_of table.now given.0 ≡ def.now }
    requires fits { fits table.now given.0 (view value.old) ≡ true }
    ensures made { IfOk result
        (λ d. converted table.now place.0 def.now (view value.old) ≡ Ok (dyn_view d)) }
    ensures refused { IfErr result
        (IsUnconverted (converted table.now place.0 def.now (view value.old)) given.0) }
    ensures memory { copies_to_convert def.now ≡ false
        → IfErr result (λ kind. kind ≢ Kind.OutOfMemory) }
    ensures no_token { OnOk result (tokens (view value.old) ≡ []) }
    ensures unchanged { OnErr result (value.new ≡ value.old) }
{
    match def {
        Def::Scalar(kind) => scalar_taken(alloc, *kind, given, value),
        Def::Str => or_not_dynamic(text_taken(value), given),
        Def::List(item) => list_copied(alloc, table, place, *item, given, value),
        Def::Opaque
        | Def::Struct(_)
        | Def::Enum(_)
        | Def::Option(_)
        | Def::Result(_, _)
        | Def::Map(_, _)
        | Def::Set(_)
        | Def::Array(_, _)
        | Def::Pointer(_)
        | Def::Slice(_)
        | Def::Dynamic
        | Def::Undefined
        | Def::Other => Err(not_dynamic(given)),
    }
}

/// The refusal of a value that has no dynamic form.
fn not_dynamic(given: ShapeId) -> ReflectErrorKind
    ensures { result ≡ operation_failed given.0 Failed.NotDynamic }
{
    refused(given, Operation::NotDynamic)
}

/// A refusal of the given shape.
fn refused(shape: ShapeId, operation: Operation) -> ReflectErrorKind
    ensures { result ≡ operation_failed shape.0 operation }
{
    ReflectErrorKind::OperationFailed { shape, operation }
}

/// The dynamic value, or the refusal where there is none.
fn or_not_dynamic(made: Option<Dyn>, given: ShapeId) -> Result<Dyn, ReflectErrorKind>
    ensures some { IfOk result (λ d. made ≡ Some d) }
    ensures none { OnErr result (made ≡ None) }
    ensures refused { IfErr result (λ kind. kind ≡ operation_failed given.0 Failed.NotDynamic) }
{
    match made {
        Some(d) => Ok(d),
        None => Err(not_dynamic(given)),
    }
}

/// Whether a place takes lists of bytes.
fn takes_bytes(table: &ShapeTable, place: ShapeId) -> bool
    ensures { result ≡ takes_bytes table.now place.0 }
{
    match table.get(place) {
        Some(described) => described.bytes_ok,
        None => false,
    }
}

/// Whether the shape is a `u8`.
fn is_byte(table: &ShapeTable, item: ShapeId) -> bool
    ensures { result ≡ is_byte (def_of table.now item.0) }
{
    match table.get(item) {
        Some(described) => matches!(&described.def, Def::Scalar(ScalarKind::U8)),
        None => false,
    }
}

/// What is made of a list.
fn list_copied(
    alloc: Global,
    table: &ShapeTable,
    place: ShapeId,
    item: ShapeId,
    given: ShapeId,
    value: &Value,
) -> Result<Dyn, ReflectErrorKind>
    requires octets { is_byte (def_of table.now item.0) ≡ true
        → has_octets (view value.now) ≡ true }
    ensures made { IfOk result (λ d. converted table.now place.0 (Described.List item)
        (view value.now) ≡ Ok (dyn_view d)) }
    ensures refused { IfErr result (IsUnconverted
        (converted table.now place.0 (Described.List item) (view value.now)) given.0) }
    ensures no_token { OnOk result (tokens (view value.now) ≡ []) }
{
    if takes_bytes(table, place) && is_byte(table, item) {
        bytes_copied(alloc, given, value)
    } else {
        Err(not_dynamic(given))
    }
}

/// What is made of a scalar of this kind.
fn scalar_taken(
    alloc: Global,
    kind: ScalarKind,
    given: ShapeId,
    value: &mut Value,
) -> Result<Dyn, ReflectErrorKind>
    requires in_range { in_range kind (view value.old) ≡ true }
    ensures made { IfOk result (λ d. from_scalar kind (view value.old) ≡ Ok (dyn_view d)) }
    ensures refused { IfErr result
        (IsUnconverted (from_scalar kind (view value.old)) given.0) }
    ensures memory { copies_to_convert (Described.Scalar kind) ≡ false
        → IfErr result (λ error. error ≢ Kind.OutOfMemory) }
    ensures no_token { OnOk result (tokens (view value.old) ≡ []) }
    ensures unchanged { OnErr result (value.new ≡ value.old) }
{
    match kind {
        ScalarKind::Bool => or_not_dynamic(bool_of(value), given),
        ScalarKind::Char => char_copied(alloc, given, value),
        ScalarKind::I8 | ScalarKind::I16 | ScalarKind::I32 | ScalarKind::I64 | ScalarKind::ISize =>
            or_not_dynamic(int_of(value), given),
        ScalarKind::I128 => Err(refused(given, Operation::DynamicSignedSize)),
        ScalarKind::U8 | ScalarKind::U16 | ScalarKind::U32 | ScalarKind::U64 | ScalarKind::USize =>
            or_not_dynamic(nat_of(value), given),
        ScalarKind::U128 => Err(refused(given, Operation::DynamicUnsignedSize)),
        ScalarKind::String => or_not_dynamic(text_taken(value), given),
        ScalarKind::CowStr => Err(not_dynamic(given)),
    }
}

/// What is made of a truth.
fn bool_of(value: &Value) -> Option<Dyn>
    ensures made { option_map dyn_view result ≡ from_bool (view value.now) }
    ensures no_token { OnSome result (tokens (view value.now) ≡ []) }
{
    let Value::Bool(truth) = value else {
        return None;
    };
    Some(Dyn::Bool(*truth))
}

/// What is made of a number with a sign.
fn int_of(value: &Value) -> Option<Dyn>
    requires narrow { is_narrow (view value.now) ≡ true }
    ensures made { option_map dyn_view result ≡ from_int (view value.now) }
    ensures no_token { OnSome result (tokens (view value.now) ≡ []) }
{
    let Value::Int(number) = value else {
        return None;
    };
    match i64::try_from(*number) {
        Ok(narrow) => Some(Dyn::Int(narrow)),
        Err(_) => None,
    }
}

/// What is made of a number without a sign.
fn nat_of(value: &Value) -> Option<Dyn>
    requires narrow { is_narrow (view value.now) ≡ true }
    ensures made { option_map dyn_view result ≡ from_nat (view value.now) }
    ensures no_token { OnSome result (tokens (view value.now) ≡ []) }
{
    let Value::Nat(number) = value else {
        return None;
    };
    match u64::try_from(*number) {
        Ok(narrow) => Some(Dyn::Nat(narrow)),
        Err(_) => None,
    }
}

/// What is made of a text, which is moved out of the value.
fn text_taken(value: &mut Value) -> Option<Dyn>
    ensures made { option_map dyn_view result ≡ from_text (view value.old) }
    ensures no_token { OnSome result (tokens (view value.old) ≡ []) }
    ensures unchanged { IsNone result → (value.new ≡ value.old) }
{
    let Value::Text(text) = value else {
        return None;
    };
    Some(Dyn::Text(std::mem::replace(text, Text::default())))
}

/// The text that a character is.
fn char_copied(alloc: Global, given: ShapeId, value: &Value) -> Result<Dyn, ReflectErrorKind>
    ensures made { IfOk result
        (λ d. or_not_dynamic (from_char (view value.now)) ≡ Ok (dyn_view d)) }
    ensures refused { IfErr result
        (IsUnconverted (or_not_dynamic (from_char (view value.now))) given.0) }
    ensures no_token { OnOk result (tokens (view value.now) ≡ []) }
{
    let Value::Char(character) = value else {
        return Err(not_dynamic(given));
    };
    let mut bytes = [0u8; 4];
    match Text::new(alloc, character.encode_utf8(&mut bytes)) {
        Ok(text) => Ok(Dyn::Text(text)),
        Err(_) => Err(ReflectErrorKind::OutOfMemory),
    }
}

/// The bytes that a list holds.
fn bytes_copied(alloc: Global, given: ShapeId, value: &Value) -> Result<Dyn, ReflectErrorKind>
    requires octets { has_octets (view value.now) ≡ true }
    ensures made { IfOk result
        (λ d. or_not_dynamic (from_bytes (view value.now)) ≡ Ok (dyn_view d)) }
    ensures refused { IfErr result
        (IsUnconverted (or_not_dynamic (from_bytes (view value.now))) given.0) }
    ensures no_token { OnOk result (tokens (view value.now) ≡ []) }
{
    let Value::List(items) = value else {
        return Err(not_dynamic(given));
    };
    match bytes_in(alloc, items) {
        Ok(bytes) => Ok(Dyn::Bytes(bytes)),
        Err(_) => Err(ReflectErrorKind::OutOfMemory),
    }
}

/// The bytes that the items are.
fn bytes_in(alloc: Global, items: &Items<Value>) -> Result<Items<u8>, OutOfMemory>
    requires octets { are_octets (vals_view items.now) ≡ true }
    ensures bytes { IfOk result (λ bytes. bytes_of (vals_view items.now) ≡ Some bytes) }
    ensures no_token { OnOk result (vals_tokens (vals_view items.now) ≡ []) }
{
    let mut bytes = Items::new(alloc);
    for item in items.as_slice() {
        bytes.push(octet(item))?;
    }
    Ok(bytes)
}

/// The byte that a number of 8 bits is; 0 for any other value.
fn octet(value: &Value) -> u8
    requires octet { is_octet (view value.now) ≡ true }
    ensures byte { view value.now ≡ nat result }
{
    let Value::Nat(number) = value else {
        return 0;
    };
    u8::try_from(*number).unwrap_or(0)
}
