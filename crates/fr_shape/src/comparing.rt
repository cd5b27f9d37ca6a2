//! Structural equality of values.
ghost use Rattle.std.specs.Prelude.{◌≡◌};
ghost use Rattle.fr_shape.specs.View.{view, vals_view, entries_view, dyn_view, dynamics_view, members_view};
ghost use Rattle.fr_shape.specs.Same.{same, all_same, entries_same, same_dynamic, same_dynamics, same_members};

use crate::{Dyn, Items, Text, Value};

/// Whether two values are equal. Any two tokens are; sets and maps are compared in their order.
#[cycle(comparing)]
pub fn same(a: &Value, b: &Value) -> bool
    ensures same { result ≡ same (view a.now) (view b.now) }
{
    match (a, b) {
        (Value::Unit, Value::Unit) => true,
        (Value::Bool(a), Value::Bool(b)) => a == b,
        (Value::Char(a), Value::Char(b)) => a == b,
        (Value::Int(a), Value::Int(b)) => a == b,
        (Value::Nat(a), Value::Nat(b)) => a == b,
        (Value::Text(a), Value::Text(b)) => a == b,
        (Value::Token(_), Value::Token(_)) => true,
        (Value::Product(a), Value::Product(b)) => all_same(a, b),
        (Value::Variant(i, a), Value::Variant(j, b)) => i == j && all_same(a, b),
        (Value::None, Value::None) => true,
        (Value::Some(a), Value::Some(b)) => same(a, b),
        (Value::Ok(a), Value::Ok(b)) => same(a, b),
        (Value::Err(a), Value::Err(b)) => same(a, b),
        (Value::List(a), Value::List(b)) => all_same(a, b),
        (Value::Map(a), Value::Map(b)) => entries_same(a, b),
        (Value::Set(a), Value::Set(b)) => all_same(a, b),
        (Value::Ptr(a), Value::Ptr(b)) => same(a, b),
        (Value::Dyn(a), Value::Dyn(b)) => same_dynamic(a, b),
        _ => false,
    }
}

#[cycle(comparing)]
#[tactic(auto, using(crate::proofs::Apart::vals_apart))]
fn all_same(a: &Items<Value>, b: &Items<Value>) -> bool
    ensures { result ≡ all_same (vals_view a.now) (vals_view b.now) }
{
    let left = a.as_slice();
    let right = b.as_slice();
    if left.len() != right.len() {
        return false;
    }
    for i in 0..left.len() {
        if !same(&left[i], &right[i]) {
            return false;
        }
    }
    true
}

#[cycle(comparing)]
#[tactic(auto, using(crate::proofs::Apart::entries_apart))]
fn entries_same(a: &Items<(Value, Value)>, b: &Items<(Value, Value)>) -> bool
    ensures { result ≡ entries_same (entries_view a.now) (entries_view b.now) }
{
    let left = a.as_slice();
    let right = b.as_slice();
    if left.len() != right.len() {
        return false;
    }
    for i in 0..left.len() {
        let (here, there) = (&left[i], &right[i]);
        if !same(&here.0, &there.0) || !same(&here.1, &there.1) {
            return false;
        }
    }
    true
}

#[cycle(comparing_dynamic)]
fn same_dynamic(a: &Dyn, b: &Dyn) -> bool
    ensures { result ≡ same_dynamic (dyn_view a.now) (dyn_view b.now) }
{
    match (a, b) {
        (Dyn::Null, Dyn::Null) => true,
        (Dyn::Bool(a), Dyn::Bool(b)) => a == b,
        (Dyn::Int(a), Dyn::Int(b)) => a == b,
        (Dyn::Nat(a), Dyn::Nat(b)) => a == b,
        (Dyn::Text(a), Dyn::Text(b)) => a == b,
        (Dyn::Bytes(a), Dyn::Bytes(b)) => a.as_slice() == b.as_slice(),
        (Dyn::Array(a), Dyn::Array(b)) => same_dynamics(a, b),
        (Dyn::Object(a), Dyn::Object(b)) => same_members(a, b),
        _ => false,
    }
}

#[cycle(comparing_dynamic)]
#[tactic(auto, using(crate::proofs::Apart::dynamics_apart))]
fn same_dynamics(a: &Items<Dyn>, b: &Items<Dyn>) -> bool
    ensures { result ≡ same_dynamics (dynamics_view a.now) (dynamics_view b.now) }
{
    let left = a.as_slice();
    let right = b.as_slice();
    if left.len() != right.len() {
        return false;
    }
    for i in 0..left.len() {
        if !same_dynamic(&left[i], &right[i]) {
            return false;
        }
    }
    true
}

#[cycle(comparing_dynamic)]
#[tactic(auto, using(crate::proofs::Apart::members_apart))]
fn same_members(a: &Items<(Text, Dyn)>, b: &Items<(Text, Dyn)>) -> bool
    ensures { result ≡ same_members (members_view a.now) (members_view b.now) }
{
    let left = a.as_slice();
    let right = b.as_slice();
    if left.len() != right.len() {
        return false;
    }
    for i in 0..left.len() {
        let (here, there) = (&left[i], &right[i]);
        if here.0 != there.0 || !same_dynamic(&here.1, &there.1) {
            return false;
        }
    }
    true
}
