//! Whether the structs in a value keep their shapes' invariants.
ghost use Rattle.std.specs.Prelude.{◌≡◌};
ghost use Rattle.fr_shape.specs.View.{view, vals_view, entries_view};
ghost use Rattle.fr_shape.specs.Look.{settled};
ghost use Rattle.fr_shape.specs.Fits.{takes_product, takes_variant, takes_ptr, count_vals};
ghost use Rattle.fr_shape.specs.Invariants.{keeps_invariants, all_keep, fields_keep, entries_keep, passes_own};

use crate::settling::{settle, settle_def};
use crate::{Def, Field, Hooks, Items, ShapeId, ShapeTable, Value};

/// Whether each struct in a value that fits the shape passes its shape's invariant. Children are
/// asked before parents, from left to right, up to the first that doesn't pass.
#[cycle(invariants)]
pub fn keeps_invariants<H: Hooks>(table: &ShapeTable, hooks: &H, id: ShapeId, value: &Value) -> bool
    ensures keeps { result ≡
        keeps_invariants (H.means hooks.now).check table.now id.0 (view value.now) }
{
    match value {
        Value::Unit
        | Value::Bool(_)
        | Value::Char(_)
        | Value::Int(_)
        | Value::Nat(_)
        | Value::Text(_)
        | Value::Token(_)
        | Value::None
        | Value::Dyn(_) => true,
        Value::Product(values) => product_keeps(table, hooks, id, values)
            && passes_own(table, hooks, id, value),
        Value::Variant(i, values) => variant_keeps(table, hooks, id, *i, values),
        Value::Some(inner) => matches!(settle_def(table, id), Some(Def::Option(t))
            if keeps_invariants(table, hooks, *t, inner)),
        Value::Ok(inner) => matches!(settle_def(table, id), Some(Def::Result(t, _))
            if keeps_invariants(table, hooks, *t, inner)),
        Value::Err(inner) => matches!(settle_def(table, id), Some(Def::Result(_, e))
            if keeps_invariants(table, hooks, *e, inner)),
        Value::List(values) => matches!(settle_def(table, id), Some(Def::List(t) | Def::Slice(t))
            if all_keep(table, hooks, *t, values)),
        Value::Set(values) => matches!(settle_def(table, id), Some(Def::Set(t))
            if all_keep(table, hooks, *t, values)),
        Value::Map(entries) => matches!(settle_def(table, id), Some(Def::Map(k, w))
            if entries_keep(table, hooks, *k, *w, entries)),
        Value::Ptr(inner) => pointee_keeps(table, hooks, id, inner),
    }
}

/// Whether a value of a shape passes the shape's invariant, if that is a struct's.
fn passes_own<H: Hooks>(table: &ShapeTable, hooks: &H, id: ShapeId, value: &Value) -> bool
    ensures { result ≡ passes_own (H.means hooks.now).check table.now id.0 (view value.now) }
{
    let Some(shape) = settle(table, id) else {
        return true;
    };
    let Def::Struct(_) = &shape.def else {
        return true;
    };
    match shape.invariant {
        Some(hook) => hooks.check(hook, value),
        None => true,
    }
}

/// The same of the fields of a struct, or the elements of an array.
#[cycle(invariants)]
#[tactic(auto, using(crate::proofs::Settled::count_length))]
fn product_keeps<H: Hooks>(
    table: &ShapeTable,
    hooks: &H,
    id: ShapeId,
    values: &Items<Value>,
) -> bool
    ensures { result ≡ takes_product (settled table.now id.0)
        (λ fields. fields_keep (H.means hooks.now).check table.now fields (vals_view values.now))
        (λ t. all_keep (H.means hooks.now).check table.now t (vals_view values.now))
        (count_vals (vals_view values.now)) }
{
    let Some(def) = settle_def(table, id) else {
        return false;
    };
    match def {
        Def::Struct(described) => fields_keep(table, hooks, &described.fields, values),
        Def::Array(t, count) => {
            values.len() == *count as usize && all_keep(table, hooks, *t, values)
        }
        Def::Scalar(_)
        | Def::Str
        | Def::Opaque
        | Def::Enum(_)
        | Def::Option(_)
        | Def::Result(_, _)
        | Def::List(_)
        | Def::Map(_, _)
        | Def::Set(_)
        | Def::Pointer(_)
        | Def::Slice(_)
        | Def::Dynamic
        | Def::Undefined
        | Def::Other => false,
    }
}

/// The same of the fields of an enum's variant.
#[cycle(invariants)]
fn variant_keeps<H: Hooks>(
    table: &ShapeTable,
    hooks: &H,
    id: ShapeId,
    i: u32,
    values: &Items<Value>,
) -> bool
    ensures { result ≡ takes_variant (settled table.now id.0) i
        (λ fields. fields_keep (H.means hooks.now).check table.now fields (vals_view values.now)) }
{
    let Some(Def::Enum(described)) = settle_def(table, id) else {
        return false;
    };
    match described.variants.get(i as usize) {
        Some(variant) => fields_keep(table, hooks, &variant.fields, values),
        None => false,
    }
}

/// The same of what a pointer points at.
#[cycle(invariants)]
fn pointee_keeps<H: Hooks>(table: &ShapeTable, hooks: &H, id: ShapeId, value: &Value) -> bool
    ensures { result ≡ takes_ptr (settled table.now id.0)
        (λ t. keeps_invariants (H.means hooks.now).check table.now t (view value.now)) }
{
    let Some(Def::Pointer(pointer)) = settle_def(table, id) else {
        return false;
    };
    match pointer.pointee {
        Some(t) => keeps_invariants(table, hooks, t, value),
        None => false,
    }
}

/// The same of each of the values, which are of one shape.
#[cycle(invariants)]
fn all_keep<H: Hooks>(table: &ShapeTable, hooks: &H, id: ShapeId, values: &Items<Value>) -> bool
    ensures { result ≡
        all_keep (H.means hooks.now).check table.now id.0 (vals_view values.now) }
{
    for value in values.as_slice() {
        if !keeps_invariants(table, hooks, id, value) {
            return false;
        }
    }
    true
}

/// The same of the values of these fields.
#[cycle(invariants)]
#[tactic(auto, using(crate::proofs::FieldsKept::fields_end))]
fn fields_keep<H: Hooks>(
    table: &ShapeTable,
    hooks: &H,
    fields: &Items<Field>,
    values: &Items<Value>,
) -> bool
    ensures { result ≡
        fields_keep (H.means hooks.now).check table.now fields.now (vals_view values.now) }
{
    let fields = fields.as_slice();
    let values = values.as_slice();
    for i in 0..fields.len().min(values.len()) {
        if !keeps_invariants(table, hooks, fields[i].shape, &values[i]) {
            return false;
        }
    }
    true
}

/// The same of each key, which is of one shape, and its value, which is of another.
#[cycle(invariants)]
fn entries_keep<H: Hooks>(
    table: &ShapeTable,
    hooks: &H,
    key: ShapeId,
    value: ShapeId,
    entries: &Items<(Value, Value)>,
) -> bool
    ensures { result ≡ entries_keep (H.means hooks.now).check table.now key.0 value.0
        (entries_view entries.now) }
{
    for entry in entries.as_slice() {
        if !keeps_invariants(table, hooks, key, &entry.0)
            || !keeps_invariants(table, hooks, value, &entry.1)
        {
            return false;
        }
    }
    true
}
