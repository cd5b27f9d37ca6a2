//! Which values fit which shape.
ghost use Rattle.std.specs.Prelude.{◌≡◌, ℕ, length};
ghost use Rattle.fr_shape.specs.View.{view, vals_view, entries_view};
ghost use Rattle.fr_shape.specs.Fits.{fits, all_fit, fields_fit, entries_fit, takes_int, takes_nat, takes_text, takes_token, takes_product, takes_variant, takes_ptr, count_vals};

use crate::distinct::{keys_once, no_key_twice, none_twice};
use crate::scalars::{is_in_signed, is_in_unsigned, is_text_kind};
use crate::settling::settle_def;
use crate::{Def, Field, Items, ScalarKind, ShapeId, ShapeTable, Value};

/// Whether a value fits the shape. None fits a number past the table's end.
#[cycle(fitting)]
#[tactic(auto, using(crate::proofs::Settled::other_fits))]
pub fn fits(table: &ShapeTable, id: ShapeId, v: &Value) -> bool
    ensures fits { result ≡ fits table.now id.0 (view v.now) }
{
    let Some(def) = settle_def(table, id) else {
        return false;
    };
    match v {
        Value::Unit => false,
        Value::Bool(_) => matches!(def, Def::Scalar(ScalarKind::Bool)),
        Value::Char(_) => matches!(def, Def::Scalar(ScalarKind::Char)),
        Value::Int(z) => takes_int(def, *z),
        Value::Nat(n) => takes_nat(def, *n),
        Value::Text(_) => takes_text(def),
        Value::Token(_) => takes_token(def),
        Value::Product(values) => product_fits(table, def, values),
        Value::Variant(i, values) => variant_fits(table, def, *i, values),
        Value::None => matches!(def, Def::Option(_)),
        Value::Some(inner) => matches!(def, Def::Option(t) if fits(table, *t, inner)),
        Value::Ok(inner) => matches!(def, Def::Result(t, _) if fits(table, *t, inner)),
        Value::Err(inner) => matches!(def, Def::Result(_, e) if fits(table, *e, inner)),
        Value::List(values) =>
            matches!(def, Def::List(t) | Def::Slice(t) if all_fit(table, *t, values)),
        Value::Set(values) => {
            matches!(def, Def::Set(t) if all_fit(table, *t, values)) && none_twice(values)
        }
        Value::Map(entries) => {
            matches!(def, Def::Map(k, w) if entries_fit(table, *k, *w, entries))
                && no_key_twice(entries)
        }
        Value::Ptr(inner) => pointee_fits(table, def, inner),
        Value::Dyn(d) => matches!(def, Def::Dynamic) && keys_once(d),
    }
}

/// Whether the values are the fields of a struct or the elements of an array.
#[cycle(fitting)]
#[tactic(auto, using(crate::proofs::Settled::count_length))]
fn product_fits(table: &ShapeTable, def: &Def, values: &Items<Value>) -> bool
    ensures { result ≡ takes_product def.now
        (λ fields. fields_fit table.now fields (vals_view values.now))
        (λ t. all_fit table.now t (vals_view values.now)) (count_vals (vals_view values.now)) }
{
    match def {
        Def::Struct(described) => fields_fit(table, &described.fields, values),
        Def::Array(t, count) => values.len() == *count as usize && all_fit(table, *t, values),
        Def::Scalar(_)
        | Def::Str
        | Def::Opaque
        | Def::Enum(_)
        | Def::Option(_)
        | Def::Result(_, _)
        | Def::List(_)
        | Def::Map(_, _)
        | Def::Set(_)
        | Def::Pointer(_)
        | Def::Slice(_)
        | Def::Dynamic
        | Def::Undefined
        | Def::Other => false,
    }
}

/// Whether the values are the fields of an enum's variant.
#[cycle(fitting)]
fn variant_fits(table: &ShapeTable, def: &Def, i: u32, values: &Items<Value>) -> bool
    ensures { result ≡ takes_variant def.now i
        (λ fields. fields_fit table.now fields (vals_view values.now)) }
{
    let Def::Enum(described) = def else {
        return false;
    };
    match described.variants.get(i as usize) {
        Some(variant) => fields_fit(table, &variant.fields, values),
        None => false,
    }
}

/// Whether a pointer may point at the value.
#[cycle(fitting)]
fn pointee_fits(table: &ShapeTable, def: &Def, v: &Value) -> bool
    ensures { result ≡ takes_ptr def.now (λ t. fits table.now t (view v.now)) }
{
    let Def::Pointer(pointer) = def else {
        return false;
    };
    match pointer.pointee {
        Some(t) => fits(table, t, v),
        None => false,
    }
}

fn takes_int(def: &Def, z: i128) -> bool
    ensures { result ≡ takes_int z def.now }
{
    match def {
        Def::Scalar(kind) => is_in_signed(*kind, z),
        Def::Str
        | Def::Opaque
        | Def::Struct(_)
        | Def::Enum(_)
        | Def::Option(_)
        | Def::Result(_, _)
        | Def::List(_)
        | Def::Map(_, _)
        | Def::Set(_)
        | Def::Array(_, _)
        | Def::Pointer(_)
        | Def::Slice(_)
        | Def::Dynamic
        | Def::Undefined
        | Def::Other => false,
    }
}

fn takes_nat(def: &Def, n: u128) -> bool
    ensures { result ≡ takes_nat n def.now }
{
    match def {
        Def::Scalar(kind) => is_in_unsigned(*kind, n),
        Def::Str
        | Def::Opaque
        | Def::Struct(_)
        | Def::Enum(_)
        | Def::Option(_)
        | Def::Result(_, _)
        | Def::List(_)
        | Def::Map(_, _)
        | Def::Set(_)
        | Def::Array(_, _)
        | Def::Pointer(_)
        | Def::Slice(_)
        | Def::Dynamic
        | Def::Undefined
        | Def::Other => false,
    }
}

pub(crate) fn takes_text(def: &Def) -> bool
    ensures { result ≡ takes_text def.now }
{
    match def {
        Def::Scalar(kind) => is_text_kind(*kind),
        Def::Str => true,
        Def::Opaque
        | Def::Struct(_)
        | Def::Enum(_)
        | Def::Option(_)
        | Def::Result(_, _)
        | Def::List(_)
        | Def::Map(_, _)
        | Def::Set(_)
        | Def::Array(_, _)
        | Def::Pointer(_)
        | Def::Slice(_)
        | Def::Dynamic
        | Def::Undefined
        | Def::Other => false,
    }
}

fn takes_token(def: &Def) -> bool
    ensures { result ≡ takes_token def.now }
{
    match def {
        Def::Opaque | Def::Undefined => true,
        Def::Pointer(pointer) => pointer.pointee.is_none(),
        Def::Scalar(_)
        | Def::Str
        | Def::Struct(_)
        | Def::Enum(_)
        | Def::Option(_)
        | Def::Result(_, _)
        | Def::List(_)
        | Def::Map(_, _)
        | Def::Set(_)
        | Def::Array(_, _)
        | Def::Slice(_)
        | Def::Dynamic
        | Def::Other => false,
    }
}

/// Whether each of the values fits the shape.
#[cycle(fitting)]
fn all_fit(table: &ShapeTable, id: ShapeId, values: &Items<Value>) -> bool
    ensures { result ≡ all_fit table.now id.0 (vals_view values.now) }
{
    for value in values.as_slice() {
        if !fits(table, id, value) {
            return false;
        }
    }
    true
}

/// Whether there are as many values as fields, and each fits its field's shape.
#[cycle(fitting)]
#[tactic(auto, using(crate::proofs::Apart::fields_apart))]
fn fields_fit(table: &ShapeTable, fields: &Items<Field>, values: &Items<Value>) -> bool
    ensures { result ≡ fields_fit table.now fields.now (vals_view values.now) }
{
    let fields = fields.as_slice();
    let values = values.as_slice();
    if fields.len() != values.len() {
        return false;
    }
    for i in 0..fields.len() {
        if !fits(table, fields[i].shape, &values[i]) {
            return false;
        }
    }
    true
}

/// Whether each key fits the one shape, and each value the other.
#[cycle(fitting)]
fn entries_fit(
    table: &ShapeTable,
    key: ShapeId,
    value: ShapeId,
    entries: &Items<(Value, Value)>,
) -> bool
    ensures { result ≡ entries_fit table.now key.0 value.0 (entries_view entries.now) }
{
    for entry in entries.as_slice() {
        if !fits(table, key, &entry.0) || !fits(table, value, &entry.1) {
            return false;
        }
    }
    true
}
